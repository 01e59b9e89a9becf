//! Disks in files: over a system that notes its calls and fails one of them, over files whose calls
//! are short, and in a real file.

ghost use Rattle.std.specs.Prelude.{◌≡◌, ◌+◌, [], length, IfErr, IfOk};
ghost use Rattle.pk_filedisk.specs.Raw.{refusals};

use pk_disk::{Disk, DiskFault};
use pk_filedisk::{
    CallFault, FileDisk, FileFault, FileSystem, LockFault, NotADisk, OpensFiles, RawFile,
};
use pk_memoryfile::{Ending, MemoryFile, Step};
use std::alloc::{AllocError, Global};
use std::cell::{Cell, RefCell};
use std::fs;
use std::process::Abort;
use std::rt::Files;
use std::test::Fail;

// The bytes of a disk of 64 units.
const LEN: u64 = 32_768;

// The calls that make it at `s`.
const MADE: &str = "make s, lock file, set_len file, sync_all file, sync folder of s";

// A system of one file and of folders. It notes each call, and fails one of them.
#[derive(Drop)]
struct FakeSystem {
    alloc: Global,
    // The calls so far, in words.
    calls: RefCell<String>,
    // How many calls there were.
    count: Cell<u64>,
    // The call that fails, the first being 1, and what it answers where it makes or opens a file.
    failing: u64,
    fault: FileFault,
    // The steps of each transfer of the file, the last one first.
    steps: Vec<Step>,
}

impl FakeSystem {
    // A system without a file, whose call of that number fails.
    fn new(alloc: Global, failing: u64, fault: FileFault) -> FakeSystem {
        FakeSystem {
            alloc,
            calls: RefCell::new(String::new(alloc)),
            count: Cell::new(0),
            failing,
            fault,
            steps: Vec::new(alloc),
        }
    }

    // The system, to open files in.
    fn files(&self) -> FakeFiles<'_> {
        FakeFiles {
            system: self,
            given: 0,
        }
    }

    // Notes a call, and fails it if it is the one.
    fn note(&self, call: &str, on: &str) -> Result<(), CallFault> {
        let count = self.count.get().wrapping_add(1);
        self.count.set(count);
        if self.add_note(call, on).is_err() || count == self.failing {
            return Err(CallFault::Failed);
        }
        Ok(())
    }

    fn add_note(&self, call: &str, on: &str) -> Result<(), AllocError> {
        let Ok(mut calls) = self.calls.try_borrow_mut() else {
            return Err(AllocError);
        };
        let gap = if calls.is_empty() { "" } else { ", " };
        for part in [gap, call, " ", on] {
            calls.push_str(part)?;
        }
        Ok(())
    }
}

// An open file of that system, which notes its calls. Over an honest file it is honest.
#[derive(Drop)]
struct NotedFile<'a, F: RawFile> {
    system: &'a FakeSystem,
    file: F,
    // How many calls the system refused, beside those that the file did.
    refused: u64,
}

// Counts a call that the system refused; past the greatest count it is let through.
fn count_refused(noted: Result<(), CallFault>, refused: &mut u64) -> Result<(), CallFault>
    ensures counted { refused.new ≡ refused.old + refusals result }
    ensures told { IfErr result (λ fault. fault ≡ CallFault.Failed) }
{
    if noted.is_ok() || *refused == u64::MAX {
        return Ok(());
    }
    *refused += 1;
    Err(CallFault::Failed)
}

impl<'a, F: RawFile> RawFile for NotedFile<'a, F> {
    ghost content = { λ f. F.content f.file };

    ghost is_open = { λ f. F.is_open f.file };

    ghost moment = { λ f. F.moment f.file };

    ghost images_since = { λ f. F.images_since f.file };

    ghost is_new = { λ f. F.is_new f.file };

    ghost path = { λ f. F.path f.file };

    ghost refused = { λ f. F.refused f.file + f.refused };

    ghost interrupted = { λ f. F.interrupted f.file };

    ghost is_locked = { λ f. F.is_locked f.file };

    ghost is_settled = { λ f. F.is_settled f.file };

    ghost is_named = { λ f. F.is_named f.file };

    ghost is_sure = { λ f. F.is_sure f.file };

    ghost honest = { F.honest };

    fn try_lock(&mut self) -> Result<(), LockFault> {
        match count_refused(self.system.note("lock", "file"), &mut self.refused) {
            Ok(()) => self.file.try_lock(),
            Err(_) => Err(LockFault::Failed),
        }
    }

    fn len(&self) -> Result<u64, CallFault> {
        self.system.note("len", "file")?;
        self.file.len()
    }

    fn set_len(&mut self, len: u64) -> Result<(), CallFault> {
        count_refused(self.system.note("set_len", "file"), &mut self.refused)?;
        self.file.set_len(len)
    }

    fn read_at(&mut self, at: u64, out: &mut [u8]) -> Result<usize, CallFault> {
        count_refused(self.system.note("read_at", "file"), &mut self.refused)?;
        self.file.read_at(at, out)
    }

    fn write_at(&mut self, at: u64, bytes: &[u8]) -> Result<usize, CallFault> {
        count_refused(self.system.note("write_at", "file"), &mut self.refused)?;
        self.file.write_at(at, bytes)
    }

    fn sync_data(&mut self) -> Result<(), CallFault> {
        count_refused(self.system.note("sync_data", "file"), &mut self.refused)?;
        self.file.sync_data()
    }

    fn sync_all(&mut self) -> Result<(), CallFault> {
        count_refused(self.system.note("sync_all", "file"), &mut self.refused)?;
        self.file.sync_all()
    }

    ghost counts_now = { λ f. F.counts_now f.file };

    ghost counts_before = { λ f. F.counts_before f.file };

    ghost only_now = { λ f. F.only_now f.file };
}

// That system, as one opens files in it, and how many it gave.
#[derive(Drop)]
struct FakeFiles<'a> {
    system: &'a FakeSystem,
    given: u64,
}

impl<'a> FakeFiles<'a> {
    // The file at a path.
    fn file(&self, path: &str, is_new: bool) -> Result<NotedFile<'a, MemoryFile>, AllocError>
        ensures content { IfOk result
            (λ f. ⟦<NotedFile<'static, MemoryFile> as RawFile>⟧.content f ≡ []) }
        ensures path { IfOk result
            (λ f. ⟦<NotedFile<'static, MemoryFile> as RawFile>⟧.path f ≡ path.now) }
        ensures new { IfOk result
            (λ f. ⟦<NotedFile<'static, MemoryFile> as RawFile>⟧.is_new f ≡ is_new) }
    {
        let system = self.system;
        let path = String::from_str(system.alloc, path)?;
        let steps = system.steps.clone()?;
        let file = if is_new {
            MemoryFile::made(system.alloc, path, steps)
        } else {
            MemoryFile::opened(system.alloc, path, Vec::new(system.alloc), steps)
        };
        Ok(NotedFile {
            system,
            file,
            refused: 0,
        })
    }
}

impl<'a> OpensFiles for FakeFiles<'a> {
    type File = NotedFile<'a, MemoryFile>;

    // Each file is empty.
    ghost may_hold = { λ _ _ bytes. bytes ≡ [] };

    ghost opened = { λ s. s.given };

    fn open(&mut self, path: &str) -> Result<NotedFile<'a, MemoryFile>, FileFault> {
        if self.system.note("open", path).is_err() || self.given == u64::MAX {
            return match self.system.fault {
                FileFault::Missing => Err(FileFault::Missing),
                _ => Err(FileFault::Disk),
            };
        }
        let Ok(file) = self.file(path, false) else {
            return Err(FileFault::Disk);
        };
        self.given += 1;
        Ok(file)
    }
}

impl<'a> FileSystem for FakeFiles<'a> {
    fn create(&mut self, path: &str) -> Result<NotedFile<'a, MemoryFile>, FileFault> {
        if self.system.note("make", path).is_err() || self.given == u64::MAX {
            return match self.system.fault {
                FileFault::Exists => Err(FileFault::Exists),
                _ => Err(FileFault::Disk),
            };
        }
        let Ok(file) = self.file(path, true) else {
            return Err(FileFault::Disk);
        };
        self.given += 1;
        Ok(file)
    }

    fn sync_folder(
        &self,
        path: &str,
        file: &mut NotedFile<'a, MemoryFile>,
    ) -> Result<(), CallFault> {
        count_refused(self.system.note("sync folder of", path), &mut file.refused)?;
        file.file.name();
        Ok(())
    }
}

// Whether these are the calls so far.
fn has_noted(system: &FakeSystem, want: &str) -> bool {
    match system.calls.try_borrow() {
        Ok(calls) => calls.as_str() == want,
        Err(_) => false,
    }
}

// A disk of 64 units that is made at a path.
fn made<'a>(
    system: &'a FakeSystem,
    path: &str,
) -> Result<FileDisk<NotedFile<'a, MemoryFile>>, FileFault>
    ensures { IfOk result (λ d. length (⟦<FileDisk<NotedFile<'static, MemoryFile>> as Disk>⟧.content d) ≡ 32768) }
{
    match FileDisk::make(&mut system.files(), path, 64) {
        Ok(disk) => Ok(disk),
        Err(none) => Err(none.why),
    }
}

// Makes a disk at a path, by these calls.
fn make_at(rt: &impl Abort, alloc: Global, path: &str, noted: &str) -> Result<(), Fail> {
    let system = FakeSystem::new(alloc, 0, FileFault::Disk);
    let disk = made(&system, path)?;
    assert!(rt; has_noted(&system, noted));
    assert!(rt; disk.len() == LEN);
    Ok(())
}

// A disk is made of zeros; the file and the folder of its path are synced, in this order.
#[test]
fn a_disk_is_made_and_synced(rt: HostRuntime) -> Result<(), Fail> {
    let alloc = rt.alloc();
    make_at(&rt, alloc, "s", MADE)?;
    let made = "make a/b/s, lock file, set_len file, sync_all file, sync folder of a/b/s";
    make_at(&rt, alloc, "a/b/s", made)
}

// Why there is no disk, and whether there is a file in its place.
fn told<D: Drop, F: Drop>(answer: Result<D, NotADisk<F>>) -> Option<(FileFault, bool)> {
    let none = answer.err()?;
    Some((none.why, none.file.is_some()))
}

// What a making answers whose kth call fails, and how many calls it makes.
fn failed_making(alloc: Global, k: u64, fault: FileFault) -> (Option<(FileFault, bool)>, u64) {
    let system = FakeSystem::new(alloc, k, fault);
    let made = FileDisk::make(&mut system.files(), "s", 64);
    (told(made), system.count.get())
}

// Whichever call of a making fails, the fault comes back, with the file once it is made, and no other
// call follows.
#[test]
fn each_failing_call_of_a_making_is_told(rt: HostRuntime) {
    for (k, fault, want) in [
        (1, FileFault::Exists, (FileFault::Exists, false)),
        (1, FileFault::Disk, (FileFault::Disk, false)),
        (2, FileFault::Disk, (FileFault::Disk, true)),
        (3, FileFault::Disk, (FileFault::Disk, true)),
        (4, FileFault::Disk, (FileFault::Disk, true)),
        (5, FileFault::Disk, (FileFault::Disk, true)),
    ] {
        assert_eq!(rt; failed_making(rt.alloc(), k, fault), (Some(want), k));
    }
}

// What an opening answers whose kth call fails, and whether it makes these calls.
fn failed_opening(
    alloc: Global,
    k: u64,
    fault: FileFault,
    noted: &str,
) -> (Option<(FileFault, bool)>, bool) {
    let system = FakeSystem::new(alloc, k, fault);
    let opened = FileDisk::on(&mut system.files(), "s");
    (told(opened), has_noted(&system, noted))
}

// Opening syncs the file and looks for its length, which here is 0. Once it is opened it is handed
// back.
#[test]
fn each_failing_call_of_an_opening_is_told(rt: HostRuntime) {
    let locked = "open s, lock file";
    let synced = "open s, lock file, sync_all file";
    let measured = "open s, lock file, sync_all file, len file";
    for (k, fault, want, noted) in [
        (1, FileFault::Missing, (FileFault::Missing, false), "open s"),
        (1, FileFault::Disk, (FileFault::Disk, false), "open s"),
        (2, FileFault::Disk, (FileFault::Disk, true), locked),
        (3, FileFault::Disk, (FileFault::Disk, true), synced),
        (4, FileFault::Disk, (FileFault::Disk, true), measured),
        (5, FileFault::Disk, (FileFault::BadLength, true), measured),
    ] {
        let answer = failed_opening(rt.alloc(), k, fault, noted);
        assert!(rt; answer == (Some(want), true), "call {k}");
    }
}

// One of the calls of a disk.
#[derive(Clone, Copy)]
enum Call {
    Read,
    Write,
    Sync,
}

fn make_call<D: Disk>(disk: &mut D, call: Call) -> Result<(), DiskFault> {
    match call {
        Call::Read if disk.len() > 4 => disk.read(0, &mut [7; 4]),
        Call::Write if disk.len() > 4 => disk.write(0, &[7; 4]),
        _ => disk.sync(),
    }
}

// Whether a call that fails, the first after the making, is that one of the file.
fn has_noted_next(system: &FakeSystem, noted: &str) -> bool {
    match system.calls.try_borrow() {
        Ok(calls) => calls.strip_prefix(MADE) == Some(noted),
        Err(_) => false,
    }
}

// The call fails, and is noted; it is made again, and then the file was called so often.
fn reach_the_file(
    rt: &impl Abort,
    alloc: Global,
    asked: Call,
    noted: &str,
    again: Result<(), DiskFault>,
    count: u64,
) -> Result<(), Fail> {
    let system = FakeSystem::new(alloc, 6, FileFault::Disk);
    let mut disk = made(&system, "s")?;
    assert!(rt; make_call(&mut disk, asked).is_err());
    assert!(rt; has_noted_next(&system, noted), "{noted}");
    assert!(rt; make_call(&mut disk, asked) == again);
    assert!(rt; system.count.get() == count);
    Ok(())
}

// Each call of a disk is one of the file: a sync one of its data. Where that fails the fault comes
// back; a read and a write may be made again, and of a sync the file is not asked again.
#[test]
fn each_call_reaches_the_file(rt: HostRuntime) -> Result<(), Fail> {
    let alloc = rt.alloc();
    reach_the_file(&rt, alloc, Call::Read, ", read_at file", Ok(()), 7)?;
    reach_the_file(&rt, alloc, Call::Write, ", write_at file", Ok(()), 7)?;
    reach_the_file(
        &rt,
        alloc,
        Call::Sync,
        ", sync_data file",
        Err(DiskFault),
        6,
    )
}

// Over the end of a disk of zeros: ten bytes are written, and are read with the one before them.
fn finish<D: Disk>(rt: &impl Abort, disk: &mut D) {
    assert!(rt; disk.len() == LEN);
    let mut out = [77u8; 11];
    let answers = [
        disk.write(32_758, &[1, 2, 3, 4, 5, 6, 7, 8, 9, 10]),
        disk.read(32_757, &mut out),
    ];
    assert_eq!(rt; answers, [Ok(()), Ok(())]);
    assert!(rt; out == [0, 1, 2, 3, 4, 5, 6, 7, 8, 9, 10]);
}

// The same calls of a disk whose file moves no byte any more.
fn finish_none<D: Disk>(rt: &impl Abort, disk: &mut D) {
    assert!(rt; disk.len() == LEN);
    let answers = [disk.read(32_757, &mut [77; 11]), disk.write(32_758, &[1])];
    assert_eq!(rt; answers, [Err(DiskFault), Err(DiskFault)]);
}

// A call that moves at most so many bytes.
fn step(most: usize, ending: Ending) -> Step {
    Step { most, ending }
}

// Ten bytes are written and eleven read by transfers that move 3 bytes at once and are interrupted;
// one that moves none is a fault.
fn add_slow_steps(steps: &mut Vec<Step>) -> Result<(), AllocError> {
    steps.push(step(0, Ending::Told))?;
    steps.push(step(0, Ending::Told))?;
    for _ in 0..8u8 {
        steps.push(step(3, Ending::Told))?;
        steps.push(step(2, Ending::Interrupted))?;
    }
    // The lock, the length and its sync.
    for _ in 0..3u8 {
        steps.push(step(0, Ending::Told))?;
    }
    Ok(())
}

// Transfers that move 3 bytes at once and are interrupted are finished; one that moves none is a
// fault.
#[test]
fn short_transfers_are_finished(rt: HostRuntime) -> Result<(), Fail> {
    let mut system = FakeSystem::new(rt.alloc(), 0, FileFault::Disk);
    add_slow_steps(&mut system.steps)?;
    let mut disk = made(&system, "s")?;
    finish(&rt, &mut disk);
    finish_none(&rt, &mut disk);
    Ok(())
}

// A disk that was made is zeros, and gives what is written.
fn write_some<D: Disk>(rt: &impl Abort, disk: &mut D) {
    assert!(rt; disk.len() == LEN);
    let mut before = [7u8; 4];
    let mut after = [7u8; 4];
    let answers = [
        disk.read(32_764, &mut before),
        disk.write(32_765, &[1, 2, 3]),
        disk.write(0, &[9]),
        disk.sync(),
        disk.read(32_764, &mut after),
    ];
    assert_eq!(rt; answers, [Ok(()), Ok(()), Ok(()), Ok(()), Ok(())]);
    assert!(rt; before == [0, 0, 0, 0]);
    assert!(rt; after == [0, 1, 2, 3]);
}

// It has its length and its first bytes still.
fn read_first<D: Disk>(rt: &impl Abort, disk: &mut D) {
    assert!(rt; disk.len() == LEN);
    let mut first = [7u8; 2];
    assert!(rt; disk.read(0, &mut first) == Ok(()));
    assert!(rt; first == [9, 0]);
}

// A file is made, is there, and is written and read. It is not opened while the first disk has it.
fn make_and_write<F: RawFile + Drop>(
    rt: &mut (impl Abort + FileSystem<File = F>),
    path: &str,
) -> Result<(), Fail> {
    let mut disk = match FileDisk::make(rt, path, 64) {
        Ok(disk) => disk,
        Err(none) => return Err(Fail::from(none.why)),
    };
    let again = told(FileDisk::make(rt, path, 64));
    assert!(&*rt; again == Some((FileFault::Exists, false)));
    write_some(rt, &mut disk);
    let other = told(FileDisk::on(rt, path));
    assert!(&*rt; other == Some((FileFault::InUse, true)));
    Ok(())
}

// A file that was made is what it was when it is opened again.
#[test]
fn a_file_keeps_what_was_written(mut rt: HostRuntime) -> Result<(), Fail> {
    let path = "tests_file_kept";
    let _ = fs::remove_file(&rt, path);
    make_and_write(&mut rt, path)?;
    let mut again = match FileDisk::on(&mut rt, path) {
        Ok(disk) => disk,
        Err(none) => return Err(Fail::from(none.why)),
    };
    read_first(&rt, &mut again);
    assert!(rt; fs::read(&rt, path)?.len() == 64 * 512);
    fs::remove_file(&rt, path)?;
    Ok(())
}

// Nothing at the path, and nothing is made there; no folder for it.
#[test]
fn a_missing_file_is_told(mut rt: HostRuntime) {
    let path = "tests_file_missing";
    let _ = fs::remove_file(&rt, path);
    for _ in 0..2u8 {
        let opened = FileDisk::on(&mut rt, path);
        assert!(rt; told(opened) == Some((FileFault::Missing, false)));
    }
    let made = FileDisk::make(&mut rt, "tests_file_no_folder/a", 64);
    assert!(rt; told(made) == Some((FileFault::Disk, false)));
}

// How long a disk is in a file of so many zeros, or why it is none.
fn length_in_file<F: RawFile + Drop>(
    files: &mut (impl Files + OpensFiles<File = F>),
    alloc: Global,
    path: &str,
    n: usize,
) -> Result<Result<u64, FileFault>, Fail> {
    fs::write(files, path, vec![in alloc; 0u8; n]?.as_slice())?;
    match FileDisk::on(files, path) {
        Ok(disk) => Ok(Ok(disk.len())),
        Err(none) => Ok(Err(none.why)),
    }
}

// A file of 100 bytes and one of 63 units and 511 bytes are no disks; one of 64 units is, also with a
// byte behind them.
#[test]
fn a_bad_length_is_told(mut rt: HostRuntime) -> Result<(), Fail> {
    let path = "tests_file_length";
    let alloc = rt.alloc();
    for n in [0usize, 100, 63 * 512, 63 * 512 + 511] {
        let told = length_in_file(&mut rt, alloc, path, n)?;
        assert!(rt; told == Err(FileFault::BadLength), "{n} bytes");
    }
    assert!(rt; length_in_file(&mut rt, alloc, path, 64 * 512)? == Ok(LEN));
    assert!(rt; length_in_file(&mut rt, alloc, path, 64 * 512 + 1)? == Ok(LEN + 1));
    fs::remove_file(&rt, path)?;
    Ok(())
}

// A disk is made longer by zeros, and keeps what it had, but for the bytes that are put; without any
// nothing is written.
#[test]
fn a_disk_is_lengthened(rt: HostRuntime) -> Result<(), Fail> {
    let system = FakeSystem::new(rt.alloc(), 0, FileFault::Disk);
    let mut disk = made(&system, "s")?;
    assert!(rt; make_call(&mut disk, Call::Write) == Ok(()));
    assert!(rt; disk.len() == LEN);
    let Ok(disk) = disk.lengthen(LEN + 500, 1, &[9, 8]) else {
        return Err(Fail::from(FileFault::Disk));
    };
    assert!(rt;
        has_noted_next(
            &system,
            ", write_at file, set_len file, write_at file, sync_all file"
        )
    );
    assert!(rt; disk.len() == LEN + 500);
    let Ok(mut disk) = disk.lengthen(LEN + 1_000, 0, &[]) else {
        return Err(Fail::from(FileFault::Disk));
    };
    assert!(rt;
        has_noted_next(
            &system,
            ", write_at file, set_len file, write_at file, sync_all file, set_len file, sync_all file",
        )
    );
    assert!(rt; disk.len() == LEN + 1_000);
    let mut first = [0u8; 5];
    let mut last = [7u8; 2];
    assert!(rt; disk.len() > 5 && disk.read(0, &mut first) == Ok(()));
    assert!(rt; disk.read(disk.len() - 2, &mut last) == Ok(()));
    assert!(rt; (first, last) == ([7, 9, 8, 7, 0], [0, 0]));
    Ok(())
}

// Whichever call of a growth fails, the file comes back, and no other call follows; the bytes are
// there.
#[test]
fn each_failing_call_of_a_growth_is_told(rt: HostRuntime) -> Result<(), Fail> {
    for (k, noted) in [
        (6, ", set_len file"),
        (7, ", set_len file, write_at file"),
        (8, ", set_len file, write_at file, sync_all file"),
    ] {
        let system = FakeSystem::new(rt.alloc(), k, FileFault::Disk);
        let disk = made(&system, "s")?;
        let Err(mut file) = disk.lengthen(2 * LEN, 0, &[9]) else {
            return Err(Fail::from(FileFault::Exists));
        };
        assert!(rt; has_noted_next(&system, noted), "call {k}");
        assert!(rt; file.try_lock() == Ok(()));
        assert!(rt;
            file.len() == Ok(if k == 6 { LEN } else { 2 * LEN }),
            "call {k}"
        );
    }
    Ok(())
}

// A disk whose sync failed is not made longer, and its file is not asked.
#[test]
fn no_growth_after_a_failed_sync(rt: HostRuntime) -> Result<(), Fail> {
    let system = FakeSystem::new(rt.alloc(), 6, FileFault::Disk);
    let mut disk = made(&system, "s")?;
    assert!(rt; disk.sync() == Err(DiskFault));
    assert!(rt; disk.lengthen(2 * LEN, 0, &[9]).is_err());
    assert!(rt; has_noted_next(&system, ", sync_data file"));
    Ok(())
}
