//! A reader beside each step of a writer: what it answers is of one commit, and no older than what
//! was acknowledged when it began.

use crate::recorder::Recorder;
use pk_changingfile::{Course, RecordedFile};
use pk_disk::Disk;
use pk_model::{Command, DocNo, Query, Refusal};
use pk_snapshot::{Refused, SnapshotDisk, SnapshotFault};
use pk_store::{OpenFault, Store};
use std::alloc::{AllocError, Global};
use std::ops::Range;
use std::process::Abort;
use std::test::Fail;

/// What a session leaves: the replies to `count`, `find alpha` and `show 1`.
struct Row {
    documents: u64,
    next: u32,
    found: &'static [DocNo],
    text: Option<&'static str>,
}

/// The first session adds two documents, the second adds a third and deletes the first, the third
/// merges, and the last adds a fourth. Each but the third commits.
static ROWS: [Row; 4] = [
    Row {
        documents: 2,
        next: 3,
        found: &[DocNo(1), DocNo(2)],
        text: Some("alpha one"),
    },
    Row {
        documents: 2,
        next: 4,
        found: &[DocNo(2), DocNo(3)],
        text: None,
    },
    Row {
        documents: 2,
        next: 4,
        found: &[DocNo(2), DocNo(3)],
        text: None,
    },
    Row {
        documents: 3,
        next: 5,
        found: &[DocNo(2), DocNo(3), DocNo(4)],
        text: None,
    },
];

/// A command, with a text that lives as long as the program.
#[derive(Clone, Copy)]
enum Asked {
    Add(&'static str),
    Delete(DocNo),
    Commit,
    Merge,
}

/// What the sessions do, from the first to the last.
static FIRST: [Asked; 3] = [
    Asked::Add("alpha one"),
    Asked::Add("alpha two"),
    Asked::Commit,
];

static SECOND: [Asked; 3] = [
    Asked::Add("alpha three"),
    Asked::Delete(DocNo(1)),
    Asked::Commit,
];

static THIRD: [Asked; 1] = [Asked::Merge];

static LAST: [Asked; 2] = [Asked::Add("alpha four"), Asked::Commit];

/// The command, with a text of its own.
fn command(alloc: Global, asked: Asked) -> Result<Command, AllocError> {
    match asked {
        Asked::Add(text) => Ok(Command::Add(String::from_str(alloc, text)?)),
        Asked::Delete(number) => Ok(Command::Delete(number)),
        Asked::Commit => Ok(Command::Commit),
        Asked::Merge => Ok(Command::Merge),
    }
}

/// The commands of a session.
fn commands(alloc: Global, session: &[Asked]) -> Result<Vec<Command>, AllocError> {
    let mut commands = Vec::new(alloc);
    for asked in session {
        commands.push(command(alloc, *asked)?)?;
    }
    Ok(commands)
}

/// The disk behind a session of a store that is on it.
fn behind_session(
    alloc: Global,
    disk: Recorder,
    session: &[Asked],
) -> Result<Recorder, AllocError> {
    Store::open_and_run(alloc, disk, &commands(alloc, session)?).end()
}

/// A disk on which the sessions ran.
pub fn recorded(alloc: Global) -> Result<Recorder, AllocError> {
    let first = commands(alloc, &FIRST)?;
    let disk = Store::create_and_run(alloc, Recorder::new(alloc, 32_768)?, &first).end()?;
    let disk = behind_session(alloc, disk, &SECOND)?;
    let disk = behind_session(alloc, disk, &THIRD)?;
    behind_session(alloc, disk, &LAST)
}

/// How often a reader was told so.
#[derive(Clone, Copy, Drop)]
struct Tally {
    /// All that it asked.
    answered: u64,
    /// A part, and then that what it reads is outdated.
    outdated: u64,
    /// That it is to open again, since another body takes the place of the one that it met.
    not_opened: u64,
    calls: u64,
}

/// Whether a store finds what a row has, and whether it finds: on an outdated disk it does not.
fn finds<D: Disk>(
    alloc: Global,
    store: &mut Store<D>,
    row: &Row,
) -> Result<(bool, bool), AllocError> {
    let query = Query::Term(String::from_str(alloc, "alpha")?);
    Ok(match store.find(alloc, &query) {
        Ok(numbers) => (numbers.as_slice() == row.found, true),
        Err(why) => (why == Refusal::Disk, false),
    })
}

/// The same of what it shows.
fn shows<D: Disk>(alloc: Global, store: &mut Store<D>, row: &Row) -> (bool, bool) {
    match store.show(alloc, DocNo(1)) {
        Ok(text) => (row.text == Some(text.as_str()), true),
        Err(Refusal::NoSuchDocument) => (row.text.is_none(), true),
        Err(why) => (why == Refusal::Disk, false),
    }
}

/// Whether what a store says is what a row has. Where the disk is outdated nothing is said.
fn says<D: Disk>(
    alloc: Global,
    store: &mut Store<D>,
    row: &Row,
) -> Result<(bool, bool), AllocError> {
    let (finds, is_found) = finds(alloc, store, row)?;
    let (shows, is_shown) = shows(alloc, store, row);
    Ok((finds && shows, is_found && is_shown))
}

/// The first row from a place on that counts as a store does.
fn row_of<D: Disk>(store: &Store<D>, least: usize) -> Option<&'static Row> {
    let counts = store.counts().ok()?;
    ROWS.iter().skip(least).find(|row| row.documents == counts.documents && row.next == counts.next)
}

/// A store over a snapshot.
type Shown<'a> = Store<SnapshotDisk<RecordedFile<'a>>>;

/// Asks a store over a snapshot, and answers whether it was told all.
fn is_told(
    rt: &impl Abort,
    alloc: Global,
    store: &mut Shown<'_>,
    least: usize,
) -> Result<bool, AllocError> {
    let Some(row) = row_of(store, least) else {
        assert!(rt; false, "older than row {least}, or of no row");
        return Ok(false);
    };
    let (is_right, is_whole) = says(alloc, store, row)?;
    assert!(rt; is_right, "not of row {least} or a later one");
    Ok(is_whole)
}

impl Tally {
    /// A store on a disk was asked, and told all or not: it didn't where the disk is outdated.
    fn count(&mut self, rt: &impl Abort, disk: &SnapshotDisk<RecordedFile<'_>>, is_whole: bool) {
        assert_eq!(rt; disk.is_outdated(), !is_whole);
        if is_whole {
            self.answered = self.answered.saturating_add(1);
        } else {
            self.outdated = self.outdated.saturating_add(1);
        }
    }

    /// No snapshot was opened.
    fn count_unopened(&mut self, rt: &impl Abort, why: SnapshotFault) {
        assert!(rt; why == SnapshotFault::Changed || why == SnapshotFault::NotAStore);
        self.not_opened = self.not_opened.saturating_add(1);
    }
}

/// Asks a store over a snapshot.
fn ask(
    rt: &impl Abort,
    alloc: Global,
    mut store: Shown<'_>,
    least: usize,
    tally: &mut Tally,
) -> Result<(), AllocError> {
    let is_whole = is_told(rt, alloc, &mut store, least)?;
    let disk = store.close();
    tally.count(rt, &disk, is_whole);
    tally.calls = disk.into_file().into_calls();
    Ok(())
}

/// Opens a store over a snapshot, and asks it.
fn read_snapshot(
    rt: &impl Abort,
    alloc: Global,
    disk: SnapshotDisk<RecordedFile<'_>>,
    least: usize,
    tally: &mut Tally,
) -> Result<(), AllocError> {
    match Store::open_on(alloc, disk, 0) {
        Ok(store) => ask(rt, alloc, store, least, tally),
        Err(refused) => {
            assert!(rt; refused.why == OpenFault::Disk);
            tally.count(rt, &refused.disk, false);
            Ok(())
        }
    }
}

/// Opens a snapshot of a file, and a store over it, and asks that.
fn read(
    rt: &impl Abort,
    alloc: Global,
    file: RecordedFile<'_>,
    least: usize,
    tally: &mut Tally,
) -> Result<(), AllocError> {
    match SnapshotDisk::open(alloc, file) {
        Ok(disk) => read_snapshot(rt, alloc, disk, least, tally),
        Err(Refused { why, .. }) => {
            tally.count_unopened(rt, why);
            Ok(())
        }
    }
}

/// The row that a session which ended before a place left.
pub fn row_before(ends: &[usize], place: usize) -> usize {
    let mut sessions = 0usize;
    for end in ends {
        if *end <= place {
            sessions = sessions.saturating_add(1);
        }
    }
    sessions.saturating_sub(1)
}

/// The calls in whose course a file is changed: every third, since a reading takes milliseconds.
const EVERY: usize = 3;

/// Reads with a file that goes so from a content on, in the course of one call after another.
fn read_after_calls(
    rt: &impl Abort,
    alloc: Global,
    disk: &Recorder,
    start: usize,
    course: Course,
    tally: &mut Tally,
) -> Result<(), AllocError> {
    let least = row_before(&disk.ends, start);
    let calls = tally.calls;
    for left in (0..calls).step_by(EVERY) {
        let file = RecordedFile::new(&disk.contents, start, course, left);
        read(rt, alloc, file, least, tally)?;
    }
    Ok(())
}

/// A tally of nothing.
const NONE: Tally = Tally {
    answered: 0,
    outdated: 0,
    not_opened: 0,
    calls: 0,
};

/// The contents from the end of the first session on.
fn places(disk: &Recorder) -> Range<usize> {
    disk.ends.first().copied().unwrap_or(0)..disk.contents.len()
}

/// Reads each of the contents.
fn read_each(rt: &impl Abort, alloc: Global, disk: &Recorder) -> Result<(), AllocError> {
    let mut tally = NONE;
    let places = places(disk);
    let count = places.len() as u64;
    for place in places {
        let file = RecordedFile::new(&disk.contents, place, Course::To(place), 0);
        read(rt, alloc, file, row_before(&disk.ends, place), &mut tally)?;
    }
    assert_eq!(rt; tally.answered, count);
    Ok(())
}

#[test]
fn a_file_that_stands_still(rt: HostRuntime) -> Result<(), Fail> {
    let disk = recorded(rt.alloc())?;
    read_each(&rt, rt.alloc(), &disk)?;
    Ok(())
}

/// How many calls a reader makes of a file that has one content.
fn calls_of(
    rt: &impl Abort,
    alloc: Global,
    disk: &Recorder,
    place: usize,
) -> Result<u64, AllocError> {
    let mut tally = NONE;
    let file = RecordedFile::new(&disk.contents, place, Course::To(place), 0);
    read(rt, alloc, file, row_before(&disk.ends, place), &mut tally)?;
    Ok(tally.calls)
}

/// Reads beside a writer that leaps once, from each of some contents to each of others.
fn leap(
    rt: &impl Abort,
    alloc: Global,
    disk: &Recorder,
    starts: Range<usize>,
    ends: Range<usize>,
) -> Result<Tally, AllocError> {
    let mut tally = NONE;
    for start in starts {
        let calls = calls_of(rt, alloc, disk, start)?;
        for end in ends.start..ends.end {
            tally.calls = calls;
            read_after_calls(rt, alloc, disk, start, Course::To(end), &mut tally)?;
        }
    }
    Ok(tally)
}

/// The places from one to another, and that.
fn up_to(first: usize, last: usize) -> Range<usize> {
    first..last.saturating_add(1)
}

/// The places behind one, up to another, and that.
fn behind(first: usize, last: usize) -> Range<usize> {
    up_to(first.saturating_add(1), last)
}

/// The place of the content that a session left.
pub fn end_of(disk: &Recorder, session: usize) -> usize {
    disk.ends.get(session).copied().unwrap_or(0)
}

/// A content that is made longer by bytes that are no whole units.
fn longer(alloc: Global, content: &[u8]) -> Result<Vec<u8>, AllocError> {
    let mut longer = content.to_vec(alloc)?;
    longer.extend_from_slice(&[0xA7; 700])?;
    Ok(longer)
}

/// A content, and the same made longer.
fn made_longer(alloc: Global, content: &[u8]) -> Result<Vec<Vec<u8>>, AllocError> {
    let mut contents = Vec::new(alloc);
    contents.push(content.to_vec(alloc)?)?;
    contents.push(longer(alloc, content)?)?;
    Ok(contents)
}

/// Reads the first of two contents, which goes on to the second in the course of one call after
/// another.
fn read_beside_second(
    rt: &impl Abort,
    alloc: Global,
    contents: &[Vec<u8>],
    least: usize,
    tally: &mut Tally,
) -> Result<(), AllocError> {
    let calls = tally.calls;
    for left in 0..calls {
        let file = RecordedFile::new(contents, 0, Course::To(1), left);
        read(rt, alloc, file, least, tally)?;
    }
    Ok(())
}

/// Reads what a session left, which is made longer in the course of one call after another, and
/// answers how often.
fn read_made_longer(
    rt: &impl Abort,
    alloc: Global,
    disk: &Recorder,
    end: usize,
    tally: &mut Tally,
) -> Result<u64, AllocError> {
    let Some(content) = disk.contents.get(end) else {
        return Ok(0);
    };
    let calls = calls_of(rt, alloc, disk, end)?;
    tally.calls = calls;
    let contents = made_longer(alloc, content)?;
    read_beside_second(rt, alloc, &contents, row_before(&disk.ends, end), tally)?;
    Ok(calls)
}

/// Reads what each session left so: all is answered each time.
fn read_each_made_longer(
    rt: &impl Abort,
    alloc: Global,
    disk: &Recorder,
) -> Result<(), AllocError> {
    let mut tally = NONE;
    let mut readings = 0u64;
    for end in &disk.ends {
        let count = read_made_longer(rt, alloc, disk, *end, &mut tally)?;
        readings = readings.saturating_add(count);
    }
    assert!(rt; readings > 0);
    assert_eq!(rt; tally.answered, readings);
    Ok(())
}

#[test]
fn a_file_that_is_made_longer(rt: HostRuntime) -> Result<(), Fail> {
    let disk = recorded(rt.alloc())?;
    read_each_made_longer(&rt, rt.alloc(), &disk)?;
    Ok(())
}

/// Reads beside leaps from the end of the first session into the second: none is outdated.
fn leap_into_one_commit(rt: &impl Abort, alloc: Global, disk: &Recorder) -> Result<(), AllocError> {
    let (start, end) = (end_of(disk, 0), end_of(disk, 1));
    let tally = leap(rt, alloc, disk, up_to(start, start), behind(start, end))?;
    assert!(rt; tally.answered > 0);
    assert_eq!(rt; tally.outdated, 0);
    Ok(())
}

// The gate that is shown stays open beside one replacement, so no snapshot is outdated. An opening whose
// first look meets the spare half as that is written may be told to begin again.
#[test]
fn beside_one_commit(rt: HostRuntime) -> Result<(), Fail> {
    let disk = recorded(rt.alloc())?;
    leap_into_one_commit(&rt, rt.alloc(), &disk)?;
    Ok(())
}

/// Reads beside leaps over more than one replacement: some of it is outdated.
fn leap_far(
    rt: &impl Abort,
    alloc: Global,
    disk: &Recorder,
    starts: Range<usize>,
    ends: Range<usize>,
) -> Result<(), AllocError> {
    let tally = leap(rt, alloc, disk, starts, ends)?;
    assert!(rt; tally.answered > 0 && tally.outdated > 0);
    Ok(())
}

#[test]
fn beside_two_replacements(rt: HostRuntime) -> Result<(), Fail> {
    let disk = recorded(rt.alloc())?;
    let start = end_of(&disk, 0);
    let ends = behind(end_of(&disk, 1), end_of(&disk, 2));
    leap_far(&rt, rt.alloc(), &disk, up_to(start, start), ends)?;
    Ok(())
}

#[test]
fn opened_amid_a_commit(rt: HostRuntime) -> Result<(), Fail> {
    let disk = recorded(rt.alloc())?;
    let starts = end_of(&disk, 0).saturating_add(1)..end_of(&disk, 1);
    let third = end_of(&disk, 2);
    leap_far(&rt, rt.alloc(), &disk, starts, up_to(third, third))?;
    Ok(())
}

/// Reads beside a writer that goes on by so many contents a call, from the end of each session.
fn read_beside_writer(
    rt: &impl Abort,
    alloc: Global,
    disk: &Recorder,
    count: usize,
    tally: &mut Tally,
) -> Result<(), AllocError> {
    for start in &disk.ends {
        tally.calls = calls_of(rt, alloc, disk, *start)?;
        read_after_calls(rt, alloc, disk, *start, Course::By(count), tally)?;
    }
    Ok(())
}

/// Reads beside writers of each speed.
fn read_beside_writers(rt: &impl Abort, alloc: Global, disk: &Recorder) -> Result<(), AllocError> {
    let mut tally = NONE;
    for count in [1, 3, 12] {
        read_beside_writer(rt, alloc, disk, count, &mut tally)?;
    }
    assert!(rt; tally.answered > 0);
    assert!(rt; tally.outdated > 0);
    assert!(rt; tally.not_opened > 0);
    Ok(())
}

#[test]
fn beside_a_quick_writer(rt: HostRuntime) -> Result<(), Fail> {
    let disk = recorded(rt.alloc())?;
    read_beside_writers(&rt, rt.alloc(), &disk)?;
    Ok(())
}
