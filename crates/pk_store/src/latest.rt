//! Whether what a store shows is the latest.

ghost use Rattle.std.specs.Prelude.{IfOk, IsTrue};
ghost use Rattle.pk_store.specs.View.{IsLookedAt, KeepsVolume};

use crate::store::Store;
use crate::volume::Volume;
use pk_disk::DiskFault;
use pk_watch::Watched;

impl<D: Watched> Volume<D> {
    /// Whether the disk shows the latest of what it is taken from.
    pub(crate) fn is_latest(&mut self) -> Result<bool, DiskFault>
        ensures latest { IfOk result (λ is. IsTrue is → D.shows_latest self.old.disk) }
        ensures goes_on { D.goes_on self.old.disk self.new.disk }
        ensures keeps { KeepsVolume D.Disk self.old self.new }
    {
        self.disk.is_latest()
    }
}

impl<D: Watched> Store<D> {
    /// Whether the disk shows the latest of what it is taken from: it is only looked at, and the
    /// store stays what it is. A look that fails is no fault of the store.
    pub fn is_latest(&mut self) -> Result<bool, DiskFault>
        ensures latest { IfOk result (λ is. IsTrue is → D.shows_latest self.old.volume.disk) }
        ensures goes_on { D.goes_on self.old.volume.disk self.new.volume.disk }
        ensures looked_at { IsLookedAt D.Disk self.old self.new }
    {
        self.volume.is_latest()
    }
}
