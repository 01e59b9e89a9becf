//! All that is committed, read and compared.
ghost use Rattle.pk_store.specs.Checking.{Checks};

use crate::finding::refusal_of;
use crate::store::Store;
use pk_check::Checked;
use pk_disk::Disk;
use pk_model::Refusal;
use std::alloc::Global;

impl<D: Disk> Store<D> {
    /// Reads all that is committed, and compares each segment and each deletion list with the bytes
    /// that its documents and its numbers have. What is uncommitted does not count. The disk is only
    /// read, and the store stays as it was.
    ///
    /// Refused as reopen, before the disk is asked; as damaged exactly where the disk holds no
    /// collection; as disk exactly where a read failed; or as memory.
    pub fn check(&mut self, alloc: Global) -> Result<Checked, Refusal>
        ensures { Checks D.Disk self.old result self.new }
    {
        if self.volume.must_reopen() {
            return Err(Refusal::Reopen);
        }
        match self.volume.check(alloc) {
            Ok(checked) => Ok(checked),
            Err(fault) => Err(refusal_of(fault)),
        }
    }
}
