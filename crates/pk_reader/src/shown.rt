//! A store that is only read.

ghost use Rattle.std.specs.Prelude.{◌≡◌, false, IfErr, IfOk, IsTrue};
ghost use Rattle.pk_model.specs.Collection.{Collection};
ghost use Rattle.pk_model.specs.Views.{reply_of};
ghost use Rattle.pk_state.specs.Holds.{Holds};
ghost use Rattle.pk_disk.specs.Disk.{Rose};
ghost use Rattle.pk_disk.specs.Since.{NoneNew};
ghost use Rattle.pk_store.specs.Opening.{DiskFailed, IsStoreOf, RefusesOpening};
ghost use Rattle.pk_store.specs.Steps.{Steps};
ghost use Rattle.pk_store.specs.View.{IsLookedAt};
ghost use Rattle.pk_reader.specs.Asking.{request_of};
ghost use Rattle.pk_reader.specs.Causes.{OnDisk};
ghost use Rattle.pk_reader.specs.Reading.{IsNamed, IsRightFor};

use crate::question::Question;
use pk_disk::{Disk, DiskFault};
use pk_model::Reply;
use pk_store::{OpenFault, Refused, Store};
use pk_watch::Watched;
use std::alloc::Global;

/// A store that nothing is written to. It means each collection that its disk holds.
#[derive(Drop)]
pub struct Shown<D: Disk> {
    store: Store<D>,
    ghost clear: { store.volume.reopen ≡ false },
    ghost means: { D.honest → (c : Collection) → Holds (D.content store.volume.disk) c
        → ∥ IsStoreOf D.Disk store c ∥₁ },
}

impl<D: Disk> Shown<D> {
    /// The store on a disk. It keeps at most so many decoded blocks.
    pub fn open(alloc: Global, disk: D, blocks: u32) -> Result<Shown<D>, Refused<D, OpenFault>>
        ensures shown { D.honest → IfOk result
            (λ s. D.content s.store.volume.disk ≡ D.content disk) }
        ensures refused { D.honest → IfErr result (λ r. D.content r.disk ≡ D.content disk) }
        ensures why { D.honest → IfErr result (λ r. RefusesOpening (D.content disk) r.why) }
        ensures cause { IfErr result (λ r. r.why ≡ OpenFault.Disk
            → DiskFailed D.Disk disk r.disk) }
        ensures none_new { D.honest → IfErr result
            (λ r. NoneNew D.moment D.images_since disk r.disk) }
    {
        match Store::open_on(alloc, disk, blocks) {
            Ok(store) => Ok(Shown { store }),
            Err(refused) => Err(refused),
        }
    }

    /// Asks the store.
    pub fn ask(&mut self, alloc: Global, question: Question<'_>) -> Reply
        ensures right { D.honest → (c : Collection) → Holds (D.content self.old.store.volume.disk) c
            → IsRightFor (request_of question.entry) (reply_of result) c }
        ensures named { IsNamed (request_of question.entry) (reply_of result) }
        ensures cause { OnDisk (reply_of result)
            (Rose (D.failed_reads self.old.store.volume.disk)
            (D.failed_reads self.new.store.volume.disk)) }
        ensures content { D.honest → D.content self.new.store.volume.disk
            ≡ D.content self.old.store.volume.disk }
    {
        ask_store(alloc, &mut self.store, question)
    }

    /// The disk.
    pub fn close(self) -> D
        ensures { result ≡ self.store.volume.disk }
    {
        let Shown { store } = self;
        store.close()
    }
}

impl<D: Watched> Shown<D> {
    /// Whether the disk shows the latest.
    pub fn is_latest(&mut self) -> Result<bool, DiskFault>
        ensures latest { IfOk result
            (λ is. IsTrue is → D.shows_latest self.old.store.volume.disk) }
        ensures goes_on { D.goes_on self.old.store.volume.disk self.new.store.volume.disk }
        ensures content { D.honest → D.content self.new.store.volume.disk
            ≡ D.content self.old.store.volume.disk }
    {
        self.store.is_latest()
    }
}

// Asks a store.
fn ask_store<D: Disk>(alloc: Global, store: &mut Store<D>, question: Question<'_>) -> Reply
    ensures step { Steps D.Disk store.old (request_of question.entry) (reply_of result) store.new }
    ensures looked_at { IsLookedAt D.Disk store.old store.new }
{
    match question {
        Question::Find(query) => match store.find(alloc, query) {
            Ok(numbers) => Reply::Found(numbers),
            Err(why) => Reply::Refused(why),
        },
        Question::Show(number) => match store.show(alloc, number) {
            Ok(text) => Reply::Text(text),
            Err(why) => Reply::Refused(why),
        },
        Question::Count => match store.counts() {
            Ok(counts) => Reply::Counted(counts),
            Err(why) => Reply::Refused(why),
        },
    }
}
