//! Whole inputs of the shell, and readers, writers and memory that give out.
ghost use Rattle.std.specs.Prelude.{◌≤◌};

use crate::calls::{
    BLOCKS, PAGES, is_added, new_store, store_if_memory, store_on_pages, store_with_blocks,
};
use pk_disk::{Disk, MemoryDisk};
use pk_model::DocNo;
use pk_shell::{Ended, ShellFault, serve};
use pk_store::Store;
use std::alloc::Global;
use std::io;
use std::io::{ErrorKind, Read, Write};
use std::process::Abort;
use std::test::Fail;

/// Reads one byte a call, and fails at the end where it is told to.
#[derive(Drop)]
struct ByteByByte<'a> {
    bytes: &'a [u8],
    fails: bool,
}

impl<'a> Read for ByteByByte<'a> {
    fn read(&mut self, buf: &mut [u8]) -> io::Result<usize> {
        if buf.is_empty() {
            return Ok(0);
        }
        match self.bytes.split_first() {
            Some((first, rest)) => {
                buf[0] = *first;
                self.bytes = rest;
                Ok(1)
            }
            None if self.fails => Err(io::Error::from(ErrorKind::Other)),
            None => Ok(0),
        }
    }
}

/// Takes so many bytes, and then none, or fails; counts the calls.
#[derive(Drop)]
struct Narrow {
    taken: Vec<u8>,
    room: usize,
    fails: bool,
    calls: u64,
}

impl Write for Narrow {
    fn write(&mut self, buf: &[u8]) -> io::Result<usize> {
        self.calls = self.calls.saturating_add(1);
        if self.room == 0 && self.fails {
            return Err(io::Error::from(ErrorKind::Other));
        }
        let n = buf.len().min(self.room);
        self.taken.extend_from_slice(&buf[..n])?;
        self.room -= n;
        Ok(n)
    }

    fn flush(&mut self) -> io::Result<()> {
        Ok(())
    }
}

/// A writer of so much room.
fn with_room(alloc: Global, room: usize, fails: bool) -> Narrow {
    Narrow {
        taken: Vec::new(alloc),
        room,
        fails,
        calls: 0,
    }
}

/// A whole input, what is written for it, and the end.
type Input = (&'static [u8], &'static str, Ended);

/// Nothing behind a `quit` is answered, and a last line needs no line feed.
static INPUTS: [Input; 6] = [
    (b"add x\nquit\ncount\n", "added 1\nbye\n", Ended::Quit),
    (b"count\nquit", "count 0 next 1\nbye\n", Ended::Quit),
    (b"count", "count 0 next 1\n", Ended::InputEnd),
    (b"", "", Ended::InputEnd),
    (
        b"find \xFF\nadd \xC3\ncount\n",
        "refused not text\nrefused not text\ncount 0 next 1\n",
        Ended::InputEnd,
    ),
    (
        b"add new drug\nfind drug\n\nadd \xC3\x9F\xFF\nshow 1\nfind (\ncount",
        "added 1\nfound 1: 1\nrefused unknown\nrefused not text\ntext new drug\n\
            refused query unexpected at 1\ncount 1 next 2\n",
        Ended::InputEnd,
    ),
];

/// Whether a reader's input is answered so by a store.
fn is_answered_by<R: Read, D: Disk>(
    alloc: Global,
    mut input: R,
    replies: &str,
    end: Result<Ended, ShellFault>,
    store: &mut Store<D>,
) -> bool
where
    R: Drop,
{
    let mut output = Vec::new(alloc);
    let ended = serve(alloc, &mut input, &mut output, store);
    ended == end && output.as_slice() == replies.as_bytes()
}

/// Whether it is by a new store.
fn is_answered<R: Read>(
    alloc: Global,
    input: R,
    replies: &str,
    end: Result<Ended, ShellFault>,
) -> Result<bool, Fail>
where
    R: Drop,
{
    let mut store = new_store(alloc)?;
    Ok(is_answered_by(alloc, input, replies, end, &mut store))
}

/// Whether a whole input is answered so by a store that keeps so many blocks.
fn is_answered_by_blocks(
    alloc: Global,
    bytes: &[u8],
    replies: &str,
    end: Ended,
    blocks: u32,
) -> Result<bool, Fail> {
    let mut store = store_with_blocks(alloc, blocks)?;
    Ok(is_answered_by(alloc, bytes, replies, Ok(end), &mut store))
}

/// Whether it is by a store on a page cache of so many pages.
fn is_answered_by_pages(
    alloc: Global,
    bytes: &[u8],
    replies: &str,
    end: Ended,
    pages: usize,
) -> Result<bool, Fail> {
    let mut store = store_on_pages(alloc, pages)?;
    Ok(is_answered_by(alloc, bytes, replies, Ok(end), &mut store))
}

/// An input is answered so by stores of each kind.
fn answer_by_each(rt: &impl Abort, alloc: Global, input: &Input) -> Result<(), Fail> {
    let (bytes, replies, end) = *input;
    for blocks in BLOCKS {
        assert!(rt;
            is_answered_by_blocks(alloc, bytes, replies, end, blocks)?,
            "{replies}"
        );
    }
    for pages in PAGES {
        assert!(rt;
            is_answered_by_pages(alloc, bytes, replies, end, pages)?,
            "{replies}"
        );
    }
    Ok(())
}

/// An input is answered so where it comes byte by byte.
fn answer_pieces(rt: &impl Abort, alloc: Global, input: &Input) -> Result<(), Fail> {
    let (bytes, replies, end) = *input;
    let pieces = ByteByByte {
        bytes,
        fails: false,
    };
    assert!(rt; is_answered(alloc, pieces, replies, Ok(end))?, "{replies}");
    Ok(())
}

// The cuts of the reader don't matter.
#[test]
fn whole_inputs_are_answered(rt: HostRuntime) -> Result<(), Fail> {
    for input in &INPUTS {
        answer_by_each(&rt, rt.alloc(), input)?;
        answer_pieces(&rt, rt.alloc(), input)?;
    }
    Ok(())
}

// A line that is too long is answered at the end of the input, without a line feed too.
#[test]
fn a_long_line_is_refused_at_the_end(rt: HostRuntime) -> Result<(), Fail> {
    let alloc = rt.alloc();
    let line = vec![in alloc; b'a'; 3_000_000]?;
    let refused = "refused line too long\n";
    assert!(rt; is_answered(alloc, line.as_slice(), refused, Ok(Ended::InputEnd))?);
    Ok(())
}

// A piece of a line is answered at the end of the input, and not after a read that failed.
#[test]
fn a_read_that_fails_ends_the_session(rt: HostRuntime) -> Result<(), Fail> {
    let rows = [
        (true, "count 0 next 1\n", Err(ShellFault::Input)),
        (
            false,
            "count 0 next 1\nrefused unknown\n",
            Ok(Ended::InputEnd),
        ),
    ];
    for (fails, replies, end) in rows {
        let input = ByteByByte {
            bytes: b"count\ncou",
            fails,
        };
        assert!(rt; is_answered(rt.alloc(), input, replies, end)?, "{replies}");
    }
    Ok(())
}

/// Whether a session with output that takes five bytes ends when it is to write the sixth.
fn ends_at_sixth(alloc: Global, store: &mut Store<MemoryDisk>, fails: bool) -> bool {
    let mut input = b"count\ncount\n".as_slice();
    let mut output = with_room(alloc, 5, fails);
    let end = serve(alloc, &mut input, &mut output, store);
    let taken = output.taken.as_slice();
    end == Err(ShellFault::Output) && taken == b"count".as_slice() && output.calls == 2
}

/// Whether it does with a new store.
fn is_cut(alloc: Global, fails: bool) -> Result<bool, Fail> {
    Ok(ends_at_sixth(alloc, &mut new_store(alloc)?, fails))
}

#[test]
fn output_that_takes_five_bytes(rt: HostRuntime) -> Result<(), Fail> {
    for fails in [true, false] {
        assert!(rt; is_cut(rt.alloc(), fails)?, "{fails}");
    }
    Ok(())
}

/// Gives the lines to the store, and answers how many writes were made, and of how many bytes.
fn writes<D: Disk>(alloc: Global, store: &mut Store<D>, mut lines: &[u8]) -> (u64, usize) {
    let mut output = with_room(alloc, 1_000_000, true);
    let _ = serve(alloc, &mut lines, &mut output, store);
    (output.calls, output.taken.len())
}

/// Six lines, with a reply each.
const SIX: &[u8] = b"add new drug\nfind drug\nshow 1\ncount\nfind (\nquit\n";

/// Counts the writes for these lines to a new store, and for a long text behind them.
fn count_writes(rt: &impl Abort, alloc: Global, store: &mut Store<MemoryDisk>) -> Result<(), Fail> {
    let (calls, _) = writes(alloc, store, SIX);
    assert_eq!(rt; calls, 6);
    assert!(rt; is_added(alloc, store, 100_000, Ok(DocNo(2)))?);
    assert!(rt; writes(alloc, store, b"show 2") == (2, 100_006));
    Ok(())
}

// A reply of more than 65,536 bytes goes out in pieces of that length.
#[test]
fn one_call_of_write_for_each_reply(rt: HostRuntime) -> Result<(), Fail> {
    count_writes(&rt, rt.alloc(), &mut new_store(rt.alloc())?)
}

/// Takes up to 256 bytes, without memory of its own.
#[derive(Drop)]
struct Page {
    bytes: [u8; 256],
    len: usize,
    ghost fits: { len ≤ 256 },
}

impl Write for Page {
    fn write(&mut self, buf: &[u8]) -> io::Result<usize> {
        let start = self.len;
        let taken = buf.len().min(256 - start);
        self.bytes[start..start + taken].copy_from_slice(&buf[..taken]);
        self.len = start + taken;
        Ok(taken)
    }

    fn flush(&mut self) -> io::Result<()> {
        Ok(())
    }
}

/// Lines for a store that is short of memory.
const LINES: &[u8] = b"add new drug\nfind new (drug OR hopes)\nshow 1\nquit\n";

/// What they are answered with memory for all.
const WHOLE: &[u8] = b"added 1\nfound 1: 1\ntext new drug\nbye\n";

/// What they are answered without memory for the addition, for the find and for the text.
static SHORT: [&[u8]; 3] = [
    b"refused memory\nfound 0:\nrefused no such document\nbye\n",
    b"added 1\nrefused memory\ntext new drug\nbye\n",
    b"added 1\nfound 1: 1\nrefused memory\nbye\n",
];

/// Whether what was written answers all lines with memory for each of them.
fn is_whole(rt: &impl Abort, written: &[u8]) -> bool {
    for short in &SHORT {
        if written == *short {
            return false;
        }
    }
    assert!(rt; written == WHOLE);
    true
}

/// Answers the lines on a store, and whether memory was there for all of them. Where it was not, the
/// shell ends with that before it reads, or one of the replies is `refused memory`.
fn answers_in_full(rt: &impl Abort, alloc: Global, store: &mut Store<MemoryDisk>) -> bool {
    let mut input = LINES;
    let mut page = Page {
        bytes: [0; 256],
        len: 0,
    };
    let end = serve(alloc, &mut input, &mut page, store);
    if end == Err(ShellFault::Memory) {
        assert_eq!(rt; page.len, 0);
        assert_eq!(rt; input.len(), LINES.len());
        return false;
    }
    assert_eq!(rt; end, Ok(Ended::Quit));
    is_whole(rt, &page.bytes[..page.len])
}

/// Answers them on a new store. Without memory for all there may be no store either.
fn is_answered_in_full(rt: &impl Abort, alloc: Global) -> bool {
    match store_if_memory(alloc, 0) {
        Some(mut store) => answers_in_full(rt, alloc, &mut store),
        None => false,
    }
}

/// Run with one request for memory refused after another (tools/refuse_memory.py): of two sessions
/// with the same lines the one that was refused none is answered in full.
#[test]
fn session_short_of_memory(rt: HostRuntime) {
    let first = is_answered_in_full(&rt, rt.alloc());
    let second = is_answered_in_full(&rt, rt.alloc());
    assert!(rt; first || second);
}
