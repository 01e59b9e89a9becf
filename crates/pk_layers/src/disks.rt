//! A disk, its calls, its pages, and what is put on it.

use crate::bodies::{Bodies, tell_body};
use crate::merges::tell_merging;
use crate::segments::tell_segment;
use crate::told::{Fault, Told};
use crate::tried::Tried;
use crate::words::{Words, bytes_of, halves, number};
use pk_disk::{Disk, DiskFault, Extent, FaultDisk, MemoryDisk, units_in};
use pk_pages::PageCache;
use std::alloc::{AllocError, Global};
use std::mem;

/// The most bytes of a disk that lines speak of.
const MOST_BYTES: u64 = 8_388_608;

/// The call of a line that no line makes.
const NEVER: u64 = 1 << 40;

/// A disk, the calls that fail of the next line about it, and the body that is to be put there.
#[derive(Drop)]
pub struct Disks {
    alloc: Global,
    disk: MemoryDisk,
    fails: u64,
    is_once: bool,
    bytes_read: u64,
    bodies: Bodies,
}

/// How a call of a disk ended.
fn ending(ended: Result<(), DiskFault>) -> &'static str {
    if ended.is_ok() { "ok" } else { "disk" }
}

/// Tells what a disk reads at a place.
fn tell_reading<D: Disk>(
    alloc: Global,
    disk: &mut D,
    at: u64,
    n: u32,
    told: &mut Told,
) -> Result<(), AllocError> {
    let mut out = vec![in alloc; 0u8; n.min(65_536) as usize]?;
    let size = disk.len();
    if at > size || out.len() as u64 > size - at {
        told.word("outside");
        return Ok(());
    }
    match disk.read(at, &mut out) {
        Ok(()) => told.bytes(&out),
        Err(fault) => told.word(ending(Err(fault))),
    }
    Ok(())
}

/// Tells how a write at a place ended.
fn tell_writing<D: Disk>(disk: &mut D, at: u64, bytes: &[u8], told: &mut Told) {
    let size = disk.len();
    if at > size || bytes.len() as u64 > size - at {
        told.word("outside");
        return;
    }
    let ended = disk.write(at, bytes);
    told.word(ending(ended));
}

/// Tells a call of a disk: what it reads, or how it ended.
fn tell_call<D: Disk>(
    alloc: Global,
    disk: &mut D,
    step: &str,
    told: &mut Told,
) -> Result<(), AllocError> {
    let (name, rest) = halves(step);
    let (at, what) = halves(rest);
    let at = u64::from(number(at));
    match name {
        "read" => tell_reading(alloc, disk, at, number(what), told)?,
        "write" => tell_writing(disk, at, &bytes_of(alloc, what)?, told),
        _ => told.word(ending(disk.sync())),
    }
    Ok(())
}

/// Tells calls of a disk, one after the other.
fn tell_calls<D: Disk>(
    alloc: Global,
    disk: &mut D,
    words: Words<'_>,
    told: &mut Told,
) -> Result<(), AllocError> {
    for step in words.each() {
        tell_call(alloc, disk, step, told)?;
    }
    Ok(())
}

/// An extent.
fn extent(words: &mut Words<'_>) -> Extent {
    Extent::of_bytes(words.number(), words.number())
}

/// Where an extent begins and ends, how many units it has, whether it lies within some units, and
/// whether it overlaps another.
fn tell_extent(words: &mut Words<'_>, told: &mut Told) {
    let one = extent(words);
    told.number(u64::from(one.units));
    told.number(one.start());
    told.number(one.end());
    told.truth(one.lies_within(words.number()));
    told.truth(one.overlaps(extent(words)));
}

impl Disks {
    /// A disk without bytes.
    pub(crate) fn new(alloc: Global) -> Disks {
        Disks {
            alloc,
            disk: MemoryDisk::of_bytes(alloc, Vec::new(alloc)),
            fails: NEVER,
            is_once: true,
            bytes_read: 0,
            bodies: Bodies::new(alloc),
        }
    }

    /// Takes the disk out.
    fn taken(&mut self) -> MemoryDisk {
        mem::replace(
            &mut self.disk,
            MemoryDisk::of_bytes(self.alloc, Vec::new(self.alloc)),
        )
    }

    /// Takes the disk out, with the calls that are to fail.
    fn tried(&mut self) -> Tried {
        let disk = self.taken();
        let fails = self.fails.max(1);
        self.fails = NEVER;
        Tried::on(if self.is_once {
            FaultDisk::once(disk, fails)
        } else {
            FaultDisk::new(disk, fails)
        })
    }

    /// Puts the disk back, and keeps how many bytes were read.
    fn put_back(&mut self, tried: Tried) {
        let disk = tried.into_inner();
        self.bytes_read = disk.bytes_read();
        self.disk = disk.into_inner();
    }

    /// Plans which call fails, alone or with all later ones.
    fn plan(&mut self, fails: u64, is_once: bool) {
        self.fails = fails;
        self.is_once = is_once;
    }

    /// A disk of these bytes and zeros behind them.
    fn make(&mut self, words: &mut Words<'_>) -> Result<(), Fault> {
        let size = words.long().min(MOST_BYTES) as usize;
        let mut bytes = words.bytes()?;
        bytes.resize(size, 0)?;
        self.disk = MemoryDisk::of_bytes(self.alloc, bytes);
        Ok(())
    }

    /// Puts bytes at a place, as far as the disk goes.
    fn set(&mut self, words: &mut Words<'_>) -> Result<(), Fault> {
        let at = words.number() as usize;
        let new = words.bytes()?;
        let mut bytes = self.taken().into_bytes();
        for (byte, other) in bytes.iter_mut().skip(at).zip(new.iter()) {
            *byte = *other;
        }
        self.disk = MemoryDisk::of_bytes(self.alloc, bytes);
        Ok(())
    }

    /// Tells the bytes at a place.
    fn tell_bytes(&mut self, words: &mut Words<'_>, told: &mut Told) -> Result<(), Fault> {
        let at = words.number() as usize;
        let n = words.number() as usize;
        let bytes = self.taken().into_bytes();
        told.bytes(bytes.get(at..at.saturating_add(n)).unwrap_or(&[]));
        self.disk = MemoryDisk::of_bytes(self.alloc, bytes);
        Ok(())
    }

    /// A crash that leaves these bytes at the open positions, so many times one after the other.
    fn crash(&mut self, words: &mut Words<'_>) -> Result<(), Fault> {
        let picks = words.bytes()?;
        let times = words.number().min(65_536) as usize;
        let picks = picks.repeat(self.alloc, times)?;
        self.disk = self.taken().crash(&picks);
        Ok(())
    }

    /// Tells calls of the disk, and how many bytes were read.
    fn tell_calls(&mut self, words: Words<'_>, told: &mut Told) -> Result<(), Fault> {
        let mut tried = self.tried();
        let ended = tell_calls(self.alloc, &mut tried, words, told);
        self.put_back(tried);
        told.number(self.bytes_read);
        ended?;
        Ok(())
    }

    /// Tells calls of a page cache over it, and how many bytes were read below.
    fn tell_paged(&mut self, words: &mut Words<'_>, told: &mut Told) -> Result<(), Fault> {
        let pages = words.number().min(64) as usize;
        let mut cache = PageCache::new(self.alloc, self.tried(), pages);
        let ended = tell_calls(self.alloc, &mut cache, *words, told);
        self.put_back(cache.into_inner());
        told.number(self.bytes_read);
        ended?;
        Ok(())
    }

    /// Tells what is asked of bodies, segments and merges on the disk.
    fn tell_formats(
        &mut self,
        name: &str,
        words: &mut Words<'_>,
        told: &mut Told,
    ) -> Result<(), Fault> {
        let mut tried = self.tried();
        let ended = match name {
            "segment" => tell_segment(self.alloc, &mut tried, words, told),
            "merge" | "merge-nothing" | "prepare" | "merge-into" => {
                tell_merging(self.alloc, &mut tried, name, words, told)
            }
            _ => tell_body(self.alloc, &mut tried, &mut self.bodies, name, words, told),
        };
        self.put_back(tried);
        ended
    }

    /// Tells what is asked of disks.
    pub(crate) fn tell(
        &mut self,
        name: &str,
        words: &mut Words<'_>,
        told: &mut Told,
    ) -> Result<(), Fault> {
        match name {
            "disk" => self.make(words),
            "set" => self.set(words),
            "bytes" => self.tell_bytes(words, told),
            "crash" => self.crash(words),
            "calls" => self.tell_calls(*words, told),
            "pages" => self.tell_paged(words, told),
            _ if self.tell_plan(name, words, told) => Ok(()),
            _ => self.tell_formats(name, words, told),
        }
    }

    /// Plans which calls fail, or tells what needs none, where that is asked.
    fn tell_plan(&mut self, name: &str, words: &mut Words<'_>, told: &mut Told) -> bool {
        match name {
            "fail" => self.plan(words.long(), true),
            "stop" => self.plan(words.long(), false),
            "extent" => tell_extent(words, told),
            "reads" => told.number(self.bytes_read),
            "units" => told.number(u64::from(units_in(words.long()))),
            _ => return false,
        }
        true
    }
}
