//! Notes that outlive a crash: how a program keeps texts by the crate pk_store alone.
//!
//! A store stands on a disk, a value whose type meets the trait `Disk` of pk_disk. Here that is a
//! `MemoryDisk`, whose crashes can be tried, below a `FaultDisk`, whose calls can fail. A program of
//! its own takes the `FileDisk` of pk_filedisk, and calls the same functions: pk_command does so.
//!
//! | call | what its contract gives |
//! |---|---|
//! | `Store::create(alloc, disk, 0)` | an empty store; or the disk again, and why there is none |
//! | `store.add(alloc, text)` | a document and its number, in memory alone |
//! | `store.commit(alloc)` | all that was added is on the disk, and stays there after each crash |
//! | `store.find(alloc, &query)` | the numbers of exactly those documents that satisfy the query |
//! | `store.close()` | the disk; what no commit has written is gone |
//! | `Store::open_on(alloc, disk, 0)` | the documents of the last commit; or of the one that a crash met |
//!
//! `session` goes through them. `crash_in_commit` has a disk that fails from a call on, in the midst
//! of a commit, and then loses what no sync had made stay: whichever call it is, the store opens, and
//! has the new note if its commit was acknowledged. Here that is tried; the contract of
//! `pk_store::laws::sessions` says it of every list of sessions and every crash.
//!
//! A refusal is a value: `?` hands it on as a `Fault`. What is proved of this program is that it is
//! safe and ends; each loop and index is met by what the called functions promise.
#![tactic(auto)]

ghost use Rattle.std.specs.Prelude.{◌≤◌};

use pk_disk::{FaultDisk, MemoryDisk};
use pk_model::{DocNo, Query, Refusal};
use pk_store::Store;
use std::alloc::{AllocError, Global};
use std::process::ExitCode;

/// The bytes of the disk: a store wants at least 64 units of 512 bytes.
const BYTES: usize = 32_768;

/// More calls of the disk than an opening and a commit make together.
const CALLS: u64 = 64;

/// A call of the disk that never comes: one that fails from it on does not fail.
const NEVER: u64 = u64::MAX;

/// The disk of a store.
type NotesDisk = FaultDisk<MemoryDisk>;

/// Why the session came to no end.
#[derive(Debug, Drop)]
enum Fault {
    /// No store was created.
    Create,
    /// No store was opened.
    Open,
    /// A command was refused.
    Refused,
    /// There was no memory.
    Memory,
}

impl From<AllocError> for Fault {
    fn from(_: AllocError) -> Fault {
        Fault::Memory
    }
}

impl From<Refusal> for Fault {
    fn from(_: Refusal) -> Fault {
        Fault::Refused
    }
}

fn main(rt: HostRuntime) -> ExitCode {
    let alloc = rt.alloc();
    let mut output = rt.stdout();
    let mut told = String::new(alloc);
    if session(alloc, &mut told).is_err() {
        return ExitCode::FAILURE;
    }
    match output.write_all(told.as_bytes()) {
        Ok(()) => ExitCode::SUCCESS,
        Err(_) => ExitCode::FAILURE,
    }
}

/// Makes a store, keeps notes, and crashes; what comes is told.
fn session(alloc: Global, told: &mut String) -> Result<(), Fault> {
    let mut store = created(alloc)?;
    let kept = keep_notes(alloc, &mut store, told);
    // The third note was not committed: a crash takes it, and nothing else.
    let bytes = after_a_crash(alloc, store.close(), told)?;
    kept?;
    for call in 1..=CALLS {
        let disk = MemoryDisk::of_bytes(alloc, bytes.to_vec(alloc)?);
        if crash_in_commit(alloc, disk, call, told)? {
            break;
        }
    }
    Ok(())
}

/// A new store.
fn created(alloc: Global) -> Result<Store<NotesDisk>, Fault> {
    let disk = MemoryDisk::of_bytes(alloc, vec![in alloc; 0u8; BYTES]?);
    match Store::create(alloc, FaultDisk::new(disk, NEVER), 0) {
        Ok(store) => Ok(store),
        Err(_) => Err(Fault::Create),
    }
}

/// Adds three notes, of which two are committed.
fn keep_notes(alloc: Global, store: &mut Store<NotesDisk>, told: &mut String) -> Result<(), Fault> {
    store.add(alloc, "buy milk and bread")?;
    store.add(alloc, "take the book to the library")?;
    store.commit(alloc)?;
    store.add(alloc, "more milk")?;
    tell_found(alloc, store, told)
}

/// Tells what is found once the disk has crashed, and gives the bytes that are left.
fn after_a_crash(alloc: Global, disk: NotesDisk, told: &mut String) -> Result<Vec<u8>, Fault> {
    let mut store = opened(alloc, disk.into_inner().crash(&[]))?;
    let found = tell_left(alloc, &mut store, told);
    let bytes = store.close().into_inner().into_bytes();
    found?;
    Ok(bytes)
}

/// Tells which notes a crash left.
fn tell_left(alloc: Global, store: &mut Store<NotesDisk>, told: &mut String) -> Result<(), Fault> {
    told.push_str("after a crash ")?;
    tell_found(alloc, store, told)
}

/// The store on a disk.
fn opened(alloc: Global, disk: MemoryDisk) -> Result<Store<NotesDisk>, Fault> {
    match Store::open_on(alloc, FaultDisk::new(disk, NEVER), 0) {
        Ok(store) => Ok(store),
        Err(_) => Err(Fault::Open),
    }
}

/// Tells which notes have the word.
fn tell_found(alloc: Global, store: &mut Store<NotesDisk>, told: &mut String) -> Result<(), Fault> {
    told.push_str("milk stands in")?;
    for DocNo(number) in &found(alloc, store)? {
        write!(told, " {number}")?;
    }
    told.push_str("\n")?;
    Ok(())
}

/// The numbers of the notes that have the word.
fn found(alloc: Global, store: &mut Store<NotesDisk>) -> Result<Vec<DocNo>, Fault> {
    let query = Query::Term(String::from_str(alloc, "milk")?);
    store.find(alloc, &query).map_err(Fault::from)
}

/// Adds a note and commits on a disk that fails from a call on; then loses what no sync has made
/// stay, tells how many notes are there, and gives whether the commit was acknowledged.
fn crash_in_commit(
    alloc: Global,
    disk: MemoryDisk,
    call: u64,
    told: &mut String,
) -> Result<bool, Fault>
    requires { 1 ≤ call }
{
    let Ok(mut store) = Store::open_on(alloc, FaultDisk::new(disk, call), 0) else {
        return Ok(false); // The call was one of the opening's.
    };
    let committed = commit_a_note(alloc, &mut store);
    let notes = left_by_a_crash(alloc, store.close())?;
    let is_acknowledged = committed?;
    let word = if is_acknowledged {
        "acknowledged"
    } else {
        "refused"
    };
    write!(
        told,
        "call {call} fails: the commit was {word}, {notes} notes are there\n"
    )?;
    Ok(is_acknowledged)
}

/// Adds a note, and gives whether its commit was acknowledged.
fn commit_a_note(alloc: Global, store: &mut Store<NotesDisk>) -> Result<bool, Fault> {
    store.add(alloc, "call the library")?;
    Ok(store.commit(alloc).is_ok())
}

/// How many notes are there once the disk has crashed: that leaves any bytes where no sync came,
/// here 255.
fn left_by_a_crash(alloc: Global, disk: NotesDisk) -> Result<u64, Fault> {
    let picks = vec![in alloc; 255u8; BYTES]?;
    let store = opened(alloc, disk.into_inner().crash(&picks))?;
    let counts = store.counts();
    store.close();
    Ok(counts?.documents)
}
