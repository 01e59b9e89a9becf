//! A reader's session beside each step of a writer: what each line is answered is of one commit, of
//! none that was acknowledged before an earlier answer's, and of no older one than was acknowledged
//! when the session began.

use crate::beside::{end_of, recorded, row_before};
use crate::recorder::Recorder;
use pk_changingfile::{Course, RecordedFile};
use pk_reader::{Caches, Open, Reader, Waits};
use pk_shell::{Ended, Engine, serve_engine};
use pk_store::OpenFault;
use std::alloc::Global;
use std::process::Abort;
use std::test::Fail;

/// What is asked.
static LINES: &str =
    "count\nfind alpha\nshow 1\nadd x\ndelete 1\ncommit\nmerge\ntidy\nfind (\nwhat\nquit\ncount\n";

/// The replies that depend on what is committed, by the session that committed it last.
static REPLIES: [[&str; 3]; 4] = [
    ["count 2 next 3", "found 2: 1 2", "text alpha one"],
    ["count 2 next 4", "found 2: 2 3", "refused no such document"],
    ["count 2 next 4", "found 2: 2 3", "refused no such document"],
    [
        "count 3 next 5",
        "found 3: 2 3 4",
        "refused no such document",
    ],
];

/// The others, which end a session.
static REST: &str =
    "refused read only\nrefused read only\nrefused read only\nrefused read only\nrefused read only\nrefused query unexpected at 1\nrefused unknown\nbye\n";

/// Time that is counted, and not waited.
#[derive(Drop)]
struct Counted {
    millis: u64,
}

impl Waits for Counted {
    ghost waited = { λ counted. counted.millis };

    ghost honest = { Unit {0} };

    fn wait(&mut self, millis: u64) {
        self.millis = self.millis.saturating_add(millis);
    }
}

/// A reader over a file in memory.
type CountingReader<'a> = Reader<Open<RecordedFile<'a>>, Counted>;

/// A reader over a file, or why there is none.
fn reader_over(alloc: Global, file: RecordedFile<'_>) -> Result<CountingReader<'_>, OpenFault> {
    let caches = Caches {
        pages: 64,
        blocks: 4,
    };
    CountingReader::open(alloc, file, caches, Counted { millis: 0 })
}

/// The first session from `least` on after which a question is answered so.
fn session_of(reply: &[u8], question: usize, least: usize) -> Option<usize> {
    for session in least..REPLIES.len() {
        let replies = REPLIES.get(session)?;
        let told = replies.get(question)?;
        if told.as_bytes() == reply {
            return Some(session);
        }
    }
    None
}

/// Whether a session wrote replies of sessions from `least` on, each of no earlier one than that before
/// it.
fn is_right(written: &[u8], least: usize) -> bool {
    let mut rest = written;
    let mut session = least;
    for question in 0..3 {
        let Some(end) = rest.iter().position(|byte| *byte == b'\n') else {
            return false;
        };
        let Some((reply, others)) = rest.split_at_checked(end) else {
            return false;
        };
        let Some(later) = session_of(reply, question, session) else {
            return false;
        };
        session = later;
        rest = others.get(1..).unwrap_or(&[]);
    }
    rest == REST.as_bytes()
}

/// Whether a session with a reader ends by its `quit`, and what it wrote is right.
fn is_answered<E: Engine>(alloc: Global, reader: &mut E, least: usize) -> bool {
    let mut input = LINES.as_bytes();
    let mut output = Vec::new(alloc);
    let ended = serve_engine(alloc, &mut input, &mut output, reader);
    ended == Ok(Ended::Quit) && is_right(&output, least)
}

/// Whether a session over a file is answered so, or why it didn't begin.
fn session_over(alloc: Global, file: RecordedFile<'_>, least: usize) -> Result<bool, OpenFault> {
    match reader_over(alloc, file) {
        Ok(mut reader) => Ok(is_answered(alloc, &mut reader, least)),
        Err(why) => Err(why),
    }
}

/// A session over the content that each session of the writer left.
fn read_each_end(rt: &impl Abort, alloc: Global, disk: &Recorder) {
    for session in 0..4 {
        let place = end_of(disk, session);
        let file = RecordedFile::new(&disk.contents, place, Course::To(place), 0);
        assert!(rt; session_over(alloc, file, session) == Ok(true));
    }
}

#[test]
fn over_a_file_that_stands_still(rt: HostRuntime) -> Result<(), Fail> {
    let disk = recorded(rt.alloc())?;
    read_each_end(&rt, rt.alloc(), &disk);
    Ok(())
}

/// The most calls that a session over these files makes, before which a leap may come.
const MOST_CALLS: u64 = 150;

/// Sessions beside a leap to a content, before one of their calls after another.
fn read_beside_leap(rt: &impl Abort, alloc: Global, disk: &Recorder, end: usize) {
    let start = end_of(disk, 0);
    for left in 0..MOST_CALLS {
        let file = RecordedFile::new(&disk.contents, start, Course::To(end), left);
        assert!(rt; session_over(alloc, file, 0) == Ok(true));
    }
}

/// Sessions beside a leap to the next content, and to those that the later sessions left.
fn read_beside_leaps(rt: &impl Abort, alloc: Global, disk: &Recorder) {
    read_beside_leap(rt, alloc, disk, end_of(disk, 0).saturating_add(1));
    for session in 1..4 {
        read_beside_leap(rt, alloc, disk, end_of(disk, session));
    }
}

// After one leap the file stands still, so no opening is in vain twice.
#[test]
fn beside_one_leap(rt: HostRuntime) -> Result<(), Fail> {
    let disk = recorded(rt.alloc())?;
    read_beside_leaps(&rt, rt.alloc(), &disk);
    Ok(())
}

/// Whether a session was answered, or no store was opened since both gates were seen shut.
fn is_answered_or_shut(session: Result<bool, OpenFault>) -> bool {
    session == Ok(true) || session == Err(OpenFault::NotAStore)
}

/// Sessions beside a writer that goes on from a content by so many a call.
fn read_beside_writer(rt: &impl Abort, alloc: Global, disk: &Recorder, start: usize, count: usize) {
    let least = row_before(&disk.ends, start);
    for left in (0..MOST_CALLS).step_by(7) {
        let file = RecordedFile::new(&disk.contents, start, Course::By(count), left);
        assert!(rt; is_answered_or_shut(session_over(alloc, file, least)));
    }
}

/// Sessions beside writers of each speed, from the end of each session.
fn read_beside_writers(rt: &impl Abort, alloc: Global, disk: &Recorder) {
    for count in [1, 3, 12] {
        for start in &disk.ends {
            read_beside_writer(rt, alloc, disk, *start, count);
        }
    }
}

// A session that would begin anew for ever keeps the writer away. So each line is answered. At first it
// may see both gates shut, one after the other, each of eight times.
#[test]
fn beside_a_writer_that_goes_on(rt: HostRuntime) -> Result<(), Fail> {
    let disk = recorded(rt.alloc())?;
    read_beside_writers(&rt, rt.alloc(), &disk);
    Ok(())
}
