//! A disk that is as long as is asked for, over one that is longer.

ghost use Rattle.std.specs.Prelude.{◌≡◌, ◌≤◌, length, take};
ghost use Rattle.pk_within.specs.First.{IsFirst};

use pk_disk::{Disk, DiskFault};

/// The first bytes of a disk. Over an honest disk it is honest, and its images are the first bytes
/// of the images below.
#[derive(Drop)]
pub struct Shortened<D: Disk> {
    disk: D,
    len: u64,
    ghost fits: { len ≤ length (D.content disk) },
}

impl<D: Disk> Shortened<D> {
    /// The first `len` bytes of a disk that has as many.
    pub fn new(disk: D, len: u64) -> Shortened<D>
        requires { len ≤ length (D.content disk) }
        ensures content { ⟦<Shortened<D> as Disk>⟧.content result ≡ take len (D.content disk) }
        ensures disk { result.disk ≡ disk }
        ensures len { result.len ≡ len }
        ensures reads { ⟦<Shortened<D> as Disk>⟧.failed_reads result ≡ D.failed_reads disk }
        ensures writes { ⟦<Shortened<D> as Disk>⟧.failed_writes result ≡ D.failed_writes disk }
        ensures is_open { ⟦<Shortened<D> as Disk>⟧.is_open result ≡ D.is_open disk }
    {
        Shortened { disk, len }
    }

    /// The disk below.
    pub fn into_inner(self) -> D
        ensures { result ≡ self.disk }
    {
        let Shortened { disk, .. } = self;
        disk
    }
}

#[tactic(auto, using(crate::proofs::FirstLemmas::length_first))]
impl<D: Disk> Disk for Shortened<D> {
    ghost use Rattle.pk_within.specs.First.{first_now, now_first};

    ghost content = { λ d. take d.len (D.content d.disk) };

    ghost is_open = { λ d. D.is_open d.disk };

    ghost moment = { λ d. D.moment d.disk };

    ghost images_since = { λ d t image. IsFirst (D.images_since d.disk t) d.len image };

    ghost failed_reads = { λ d. D.failed_reads d.disk };

    ghost failed_writes = { λ d. D.failed_writes d.disk };

    ghost honest = { D.honest };

    fn len(&self) -> u64 {
        self.len
    }

    fn read(&mut self, at: u64, out: &mut [u8]) -> Result<(), DiskFault> {
        self.disk.read(at, out)
    }

    fn write(&mut self, at: u64, bytes: &[u8]) -> Result<(), DiskFault> {
        self.disk.write(at, bytes)
    }

    fn sync(&mut self) -> Result<(), DiskFault> {
        self.disk.sync()
    }

    ghost counts_now = { λ d t image honest le now.
        first_now d.len (D.content d.disk) (D.is_open d.disk) (D.images_since d.disk t) image
        d.fits (λ whole is. D.counts_now d.disk t whole honest le is) now };

    ghost only_now = { λ d image honest since.
        now_first d.len (D.content d.disk) (D.is_open d.disk)
        (D.images_since d.disk (D.moment d.disk)) image
        (λ whole is. D.only_now d.disk whole honest is) since };
}
