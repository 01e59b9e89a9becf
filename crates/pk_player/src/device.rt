//! The disk that scripts are played on: one in memory, of which calls can fail, and which notes
//! them.
ghost use Rattle.std.specs.Prelude.{◌≡◌};

use pk_disk::{Disk, DiskFault, MemoryDisk};
use std::alloc::{AllocError, Global};

/// How many calls are noted at most.
const MOST_NOTES: usize = 4_096;

/// A call that moves bytes of a disk, or makes them stay.
#[derive(Clone, Copy, PartialEq, Eq)]
pub enum Call {
    Read,
    Write,
    Sync,
}

impl Call {
    /// The letter that notes it.
    fn letter(self) -> &'static str {
        match self {
            Call::Read => "r",
            Call::Write => "w",
            Call::Sync => "s",
        }
    }
}

/// Which of the calls to come fail.
#[derive(Clone, Copy)]
pub struct Failing {
    /// Of which kind the first of them is, or of any.
    pub call: Option<Call>,
    /// Which of those, the next being the first.
    pub number: u64,
    /// Whether it fails alone, or all later calls too, of any kind.
    pub is_once: bool,
}

/// All calls to come fail.
const STOPPED: Failing = Failing {
    call: None,
    number: 1,
    is_once: false,
};

/// The calls of a device, a letter each, in room that is taken before the first of them.
#[derive(Drop)]
pub struct Notes {
    letters: String,
}

impl Notes {
    /// Room for all.
    pub(crate) fn new(alloc: Global) -> Result<Notes, AllocError> {
        let letters = String::with_capacity(alloc, MOST_NOTES)?;
        Ok(Notes { letters })
    }

    /// The letters.
    pub(crate) fn letters(&self) -> &str {
        self.letters.as_str()
    }

    /// Notes a call, as far as there is room.
    fn put(&mut self, call: Call) {
        if self.letters.len() < MOST_NOTES {
            let _ = self.letters.push_str(call.letter());
        }
    }
}

/// A disk in memory of which calls fail as planned. A failing read or sync does nothing, and a
/// failing write writes the first half of its bytes, rounded up. It notes its calls. It promises
/// nothing of its bytes in contracts: whoever is played on it keeps its own on every disk.
#[derive(Drop)]
pub struct Device {
    disk: MemoryDisk,
    failing: Option<Failing>,
    notes: Notes,
    bytes_read: u64,
    failed_reads: u64,
    failed_writes: u64,
}

impl Device {
    /// The disk, with the calls that are to fail.
    pub(crate) fn on(disk: MemoryDisk, failing: Option<Failing>, notes: Notes) -> Device {
        Device {
            disk,
            failing,
            notes,
            bytes_read: 0,
            failed_reads: 0,
            failed_writes: 0,
        }
    }

    /// The disk, the notes of its calls, and how many bytes its reads gave.
    pub(crate) fn into_parts(self) -> (MemoryDisk, Notes, u64) {
        let Device {
            disk,
            notes,
            bytes_read,
            ..
        } = self;
        (disk, notes, bytes_read)
    }

    /// Notes a call, and tells whether it fails.
    fn fails(&mut self, call: Call) -> bool
        ensures disk { self.new.disk ≡ self.old.disk }
        ensures reads { self.new.failed_reads ≡ self.old.failed_reads }
        ensures writes { self.new.failed_writes ≡ self.old.failed_writes }
    {
        self.notes.put(call);
        let Some(failing) = self.failing else {
            return false;
        };
        if failing.call.is_some_and(|it| it != call) {
            return false;
        }
        if failing.number > 1 {
            let number = failing.number - 1;
            self.failing = Some(Failing { number, ..failing });
            return false;
        }
        self.failing = if failing.is_once { None } else { Some(STOPPED) };
        true
    }
}

impl Disk for Device {
    ghost content = { λ d. ⟦<MemoryDisk as Disk>⟧.content d.disk };

    ghost is_open = { λ d. ⟦<MemoryDisk as Disk>⟧.is_open d.disk };

    ghost moment = { λ d. 0 };

    ghost images_since = { λ d t image. ⊥ };

    ghost failed_reads = { λ d. d.failed_reads };

    ghost failed_writes = { λ d. d.failed_writes };

    ghost honest = { ⊥ };

    ghost counts_now = { λ d t image no le now. absurd no };

    ghost only_now = { λ d image no since. absurd no };

    fn len(&self) -> u64 {
        self.disk.len()
    }

    fn read(&mut self, at: u64, out: &mut [u8]) -> Result<(), DiskFault> {
        let fails = self.fails(Call::Read);
        if fails || self.failed_reads == u64::MAX || self.disk.read(at, out).is_err() {
            self.failed_reads = self.failed_reads.saturating_add(1);
            return Err(DiskFault);
        }
        self.bytes_read = self.bytes_read.saturating_add(out.len() as u64);
        Ok(())
    }

    fn write(&mut self, at: u64, bytes: &[u8]) -> Result<(), DiskFault> {
        let fails = self.fails(Call::Write);
        let kept = if fails {
            bytes.len().div_ceil(2)
        } else {
            bytes.len()
        };
        let written = self.disk.write(at, &bytes[..kept]);
        if fails || self.failed_writes == u64::MAX || written.is_err() {
            self.failed_writes = self.failed_writes.saturating_add(1);
            return Err(DiskFault);
        }
        Ok(())
    }

    fn sync(&mut self) -> Result<(), DiskFault> {
        let fails = self.fails(Call::Sync);
        if fails || self.failed_writes == u64::MAX || self.disk.sync().is_err() {
            self.failed_writes = self.failed_writes.saturating_add(1);
            return Err(DiskFault);
        }
        Ok(())
    }
}
