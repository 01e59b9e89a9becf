//! A disk that shows a file as it was, while another program may write it.

ghost use Rattle.std.specs.Prelude.{◌≡◌, ◌≤◌, ◌<◌, ◌+◌, ◌^◌, ℕ, true, false, None, Some, IfErr, IfOk};
ghost use Rattle.pk_disk.specs.Disk.{IsImage};
ghost use Rattle.pk_manifest.specs.Evolves.{Evolves, in_force};
ghost use Rattle.pk_snapshot.specs.Changed.{SawChange};
ghost use Rattle.pk_snapshot.specs.Counted.{FailsByCalls, is_disk};
ghost use Rattle.pk_snapshot.specs.Found.{RefusedAs};
ghost use Rattle.pk_snapshot.specs.Latest.{IsSnapshot};
ghost use Rattle.pk_snapshot.specs.Shared.{SawOther};
ghost use Rattle.pk_snapshot.specs.Shown.{ShowsBody, shown_bytes};
ghost use Rattle.pk_snapshot.specs.Writes.{failed_by, open_at};

use crate::fault::{Refused, SnapshotFault};
use crate::looking::{Looked, is_latest, look};
use crate::reading::is_still;
use crate::shared::SharedFile;
use crate::shown::Shown;
use pk_disk::{Disk, DiskFault};
use pk_manifest::Half;
use pk_watch::Watched;
use std::alloc::Global;

/// What a body claims on a file, as it was when that was opened, and zeros beside. Over an honest file
/// it is honest. Once the body's gate was shut, or another body stands behind it, each read fails.
/// A write is refused, and the first position of its range is open then: so who leaves no new image
/// has written nothing.
#[derive(Drop)]
pub struct SnapshotDisk<F: SharedFile> {
    file: F,
    len: u64,
    half: Half,
    generation: u64,
    shown: Shown,
    outdated: bool,
    failed_reads: u64,
    // Where the first write begins that was refused.
    refused_at: Option<u64>,
    ghost snapshot: { F.honest → IsSnapshot (F.marked file) half generation len shown.extents.items },
    ghost by_calls: { F.honest → outdated ≡ false
        → failed_reads ≤ F.failed file + F.interrupted file },
    ghost refused: { (p : ℕ) → refused_at ≡ Some p → p < len },
    ghost gone: { F.honest → outdated ≡ true
        → ∥ SawOther (F.marked file) (F.content file) half generation ∥₁ },
}

impl<F: SharedFile + Drop> SnapshotDisk<F> {
    /// Shows what is in force on a file, or what takes its place meanwhile: as many units as its body
    /// says, which the file may have more of. The file is handed back with a refusal.
    ///
    /// `TooSmall` where the file has fewer than 64 units, `NotAStore` where both gates read as shut,
    /// one after the other, `Damaged` where no body stands behind the gate that is sound for the units
    /// that it says, from 64 to the file's, `Changed` where another body took the place of the one that
    /// was read, `Disk` where a call of the file failed, or `Memory`.
    pub fn open(alloc: Global, mut file: F) -> Result<SnapshotDisk<F>, Refused<F>>
        ensures fresh { F.honest → IfOk result
            (λ d. in_force (F.content file) ≤ d.generation) }
        ensures shows { F.honest → IfOk result (λ d. ShowsBody (F.marked d.file)
            (⟦<SnapshotDisk<F> as Disk>⟧.content d) d.half d.generation) }
        ensures refused { F.honest → IfErr result (λ r. RefusedAs (F.content file)
            (F.content r.file) (F.marked r.file) r.why) }
        ensures changed { F.honest → IfErr result (λ r. r.why ≡ SnapshotFault.Changed
            → SawChange (F.content file) (F.content r.file)) }
        ensures later { F.honest → IfErr result
            (λ r. Evolves (F.content file) (F.content r.file)) }
        ensures fails { F.honest → IfErr result (λ r. FailsByCalls F.failed F.interrupted (2 ^ 32)
            (is_disk r.why) file r.file) }
        ensures opens { F.honest → IfOk result
            (λ d. FailsByCalls F.failed F.interrupted (2 ^ 32) false file d.file) }
        ensures reads { IfOk result (λ d. d.failed_reads ≡ 0) }
        ensures writes { IfOk result (λ d. d.refused_at ≡ None) }
        ensures begins { IfOk result (λ d. d.outdated ≡ false) }
    {
        match look(alloc, &mut file) {
            Ok(
                Looked {
                    len,
                    half,
                    generation,
                    shown,
                },
            ) => Ok(SnapshotDisk {
                file,
                len,
                half,
                generation,
                shown,
                outdated: false,
                failed_reads: 0,
                refused_at: None,
            }),
            Err(why) => Err(Refused { file, why }),
        }
    }
}

impl<F: SharedFile> SnapshotDisk<F> {
    /// Whether a read found that another body has taken the place of the one that is shown. Then
    /// each read fails, and the file is to be opened anew.
    pub fn is_outdated(&self) -> bool
        ensures { result ≡ self.now.outdated }
    {
        let SnapshotDisk { outdated, .. } = self;
        *outdated
    }

    /// The file, which may be opened anew.
    pub fn into_file(self) -> F
        ensures { result ≡ self.file }
    {
        let SnapshotDisk { file, .. } = self;
        file
    }
}

#[tactic(auto, using(crate::proofs::ShownLemmas::length_shown, crate::proofs::WriteLemmas::same_images))]
impl<F: SharedFile> Disk for SnapshotDisk<F> {
    ghost content = { λ d. shown_bytes d.len d.shown.extents.items (F.marked d.file) };

    ghost is_open = { λ d. open_at d.refused_at };

    ghost moment = { λ _. 0 };

    ghost images_since = { λ d _. IsImage
        (shown_bytes d.len d.shown.extents.items (F.marked d.file)) (open_at d.refused_at) };

    ghost failed_reads = { λ d. d.failed_reads };

    ghost failed_writes = { λ d. failed_by d.refused_at };

    ghost honest = { F.honest };

    fn len(&self) -> u64 {
        self.len
    }

    fn read(&mut self, at: u64, out: &mut [u8]) -> Result<(), DiskFault> {
        if self.failed_reads == u64::MAX {
            return Err(DiskFault);
        }
        if self.outdated {
            self.failed_reads += 1;
            return Err(DiskFault);
        }
        if self.shown.fill(&mut self.file, at, out).is_err() {
            self.failed_reads += 1;
            return Err(DiskFault);
        }
        let Ok(still) = is_still(&mut self.file, self.half, self.generation) else {
            self.failed_reads += 1;
            return Err(DiskFault);
        };
        if !still {
            self.outdated = true;
            self.failed_reads += 1;
            return Err(DiskFault);
        }
        Ok(())
    }

    fn write(&mut self, at: u64, bytes: &[u8]) -> Result<(), DiskFault> {
        if self.refused_at.is_none() {
            if bytes.is_empty() {
                return Ok(());
            }
            self.refused_at = Some(at);
        }
        Err(DiskFault)
    }

    fn sync(&mut self) -> Result<(), DiskFault> {
        match self.refused_at {
            None => Ok(()),
            Some(_) => Err(DiskFault),
        }
    }

    ghost counts_now = { λ disk t image honest le now. now };

    ghost only_now = { λ disk image honest since. since };
}

impl<F: SharedFile> Watched for SnapshotDisk<F> {
    ghost shows_latest = { λ d. F.honest → in_force (F.content d.file) ≤ d.generation };

    ghost goes_on = { λ old new. F.honest → Evolves (F.content old.file) (F.content new.file) };

    fn is_latest(&mut self) -> Result<bool, DiskFault> {
        is_latest(&mut self.file, self.half, self.generation)
    }
}
