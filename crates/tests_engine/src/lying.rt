//! Disks that keep no promise: each call of a store over them returns.
ghost use Rattle.std.specs.Prelude.{◌≡◌, true};

use crate::calls::{new_store, told};
use pk_disk::{Disk, DiskFault, LossyDisk, MemoryDisk};
use pk_model::{DocNo, Refusal};
use pk_store::{OpenFault, Refused, Store};
use std::alloc::{AllocError, Global};
use std::process::Abort;
use std::test::Fail;

/// A disk that serves so many calls, and then gives other bytes and drops what is written. No call
/// of it fails.
#[derive(Drop)]
struct Liar {
    below: MemoryDisk,
    served: u64,
}

impl Liar {
    /// Whether this call is served.
    fn serves(&mut self) -> bool
        ensures { self.new.below ≡ self.old.below }
    {
        if self.served == 0 {
            return false;
        }
        self.served -= 1;
        true
    }
}

impl Disk for Liar {
    ghost content = { λ d. ⟦<MemoryDisk as Disk>⟧.content d.below };

    ghost is_open = { λ d p. true };

    ghost moment = { λ d. 0 };

    ghost images_since = { λ d t image. ⊥ };

    ghost failed_reads = { λ d. 0 };

    ghost failed_writes = { λ d. 0 };

    ghost honest = { ⊥ };

    ghost counts_now = { λ d t image no le now. absurd no };

    ghost only_now = { λ d image no since. absurd no };

    fn len(&self) -> u64 {
        self.below.len()
    }

    fn read(&mut self, at: u64, out: &mut [u8]) -> Result<(), DiskFault> {
        let serves = self.serves();
        let _ = self.below.read(at, out);
        if !serves {
            for byte in out {
                *byte ^= 0x5A;
            }
        }
        Ok(())
    }

    fn write(&mut self, at: u64, bytes: &[u8]) -> Result<(), DiskFault> {
        if self.serves() {
            let _ = self.below.write(at, bytes);
        }
        Ok(())
    }

    fn sync(&mut self) -> Result<(), DiskFault> {
        if self.serves() {
            let _ = self.below.sync();
        }
        Ok(())
    }
}

/// Lines that meet the disk, and how their replies may begin: bytes alone can bring about damage
/// and a missing document, and nothing else, since no call fails and memory is ample.
static ASKED: [(&str, &str, &str); 12] = [
    ("add x", "added ", "added "),
    ("delete 1", "deleted ", "refused damaged"),
    ("commit", "committed", "committed"),
    ("find x", "found ", "refused damaged"),
    ("show 0", "text ", "refused damaged"),
    ("show 1", "text ", "refused damaged"),
    ("show 2", "text ", "refused damaged"),
    ("show 4", "text ", "refused damaged"),
    ("delete 3", "deleted ", "refused damaged"),
    ("merge", "merged", "refused damaged"),
    ("find NOT x", "found ", "refused damaged"),
    ("count", "count ", "count "),
];

/// Whether a line may be answered so.
fn is_allowed(line: &str, reply: &str, start: &str, other: &str) -> bool {
    let looks_up = line.starts_with("show") || line.starts_with("delete");
    if looks_up && reply == "refused no such document" {
        return true;
    }
    reply.starts_with(start) || reply.starts_with(other)
}

/// Whether an open store answers a line as it may.
fn is_answered<D: Disk>(
    alloc: Global,
    store: &mut Store<D>,
    line: &str,
    start: &str,
    other: &str,
) -> Result<bool, AllocError> {
    Ok(is_allowed(line, told(alloc, store, line)?.as_str(), start, other))
}

/// Whether a check answers, or tells damage, and nothing else.
fn is_checked<D: Disk>(alloc: Global, store: &mut Store<D>) -> bool {
    match store.check(alloc) {
        Ok(_) => true,
        Err(why) => why == Refusal::Damaged,
    }
}

/// Gives an open store each of the lines, and a check.
fn ask<D: Disk>(rt: &impl Abort, alloc: Global, store: &mut Store<D>) -> Result<(), AllocError> {
    for (line, start, other) in &ASKED {
        assert!(rt; is_answered(alloc, store, line, start, other)?, "{line}");
    }
    assert!(rt; is_checked(alloc, store));
    Ok(())
}

/// Gives an open store each of the lines twice.
fn ask_twice<D: Disk>(
    rt: &impl Abort,
    alloc: Global,
    store: &mut Store<D>,
) -> Result<(), AllocError> {
    ask(rt, alloc, store)?;
    ask(rt, alloc, store)
}

/// Opens a disk and asks its store twice, if it has one. Answers whether it has.
fn has_store<D: Disk + Drop>(rt: &impl Abort, alloc: Global, disk: D) -> Result<bool, AllocError> {
    match Store::open_on(alloc, disk, 0) {
        Ok(mut store) => {
            ask_twice(rt, alloc, &mut store)?;
            Ok(true)
        }
        Err(Refused { why, .. }) => {
            assert!(rt; why == OpenFault::NotAStore || why == OpenFault::Damaged);
            Ok(false)
        }
    }
}

/// How many of 2,000 lossy disks with the same bytes have a store.
fn count_stores(rt: &impl Abort, alloc: Global, bytes: &[u8]) -> Result<u32, Fail> {
    let mut stores = 0u32;
    for seed in 0..2_000 {
        let disk = LossyDisk::of_bytes(bytes.to_vec(alloc)?, seed);
        stores = stores.saturating_add(u32::from(has_store(rt, alloc, disk)?));
    }
    Ok(stores)
}

/// Of lossy disks with the bytes of a store, but for gate A, one has a store.
fn give_lossy_disks(rt: &impl Abort, alloc: Global, bytes: &mut [u8]) -> Result<(), Fail> {
    assert!(rt; bytes.len() == 32_768);
    bytes[0] = 0xFD;
    assert!(rt; count_stores(rt, alloc, bytes)? > 0);
    Ok(())
}

// A lossy disk changes a byte of each read, so that gate A is read as open where it is FD. The
// store opens where a byte of a number was changed, which comes once in 400 times.
#[test]
fn a_lossy_disk_is_answered(rt: HostRuntime) -> Result<(), Fail> {
    let mut bytes = new_store(rt.alloc())?.close().into_bytes();
    give_lossy_disks(&rt, rt.alloc(), &mut bytes)
}

/// Commits a document.
fn commit_document(rt: &impl Abort, alloc: Global, store: &mut Store<MemoryDisk>) {
    assert_eq!(rt; store.add(alloc, "x y"), Ok(DocNo(1)));
    assert_eq!(rt; store.commit(alloc), Ok(()));
}

/// The disk of a store with one document.
fn with_document(rt: &impl Abort, alloc: Global) -> Result<MemoryDisk, Fail> {
    let mut store = new_store(alloc)?;
    commit_document(rt, alloc, &mut store);
    Ok(store.close())
}

// Opening makes eight calls, so the commands meet the first lie.
#[test]
fn a_disk_that_begins_to_lie_is_answered(rt: HostRuntime) -> Result<(), Fail> {
    let alloc = rt.alloc();
    for served in 0..120 {
        let below = with_document(&rt, alloc)?;
        let is_store = has_store(&rt, alloc, Liar { below, served })?;
        assert_eq!(rt; is_store, served >= 8, "{served} calls");
    }
    Ok(())
}
