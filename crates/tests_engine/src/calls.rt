//! What is told by values alone: a list of commands, and texts that no line can hold.

use pk_disk::{Disk, MemoryDisk};
use pk_model::{Command, Counts, DocNo, Query, Refusal, Reply};
use pk_pages::PageCache;
use pk_shell::serve;
use pk_store::{Refused, Store};
use std::alloc::{AllocError, Global};
use std::process::Abort;
use std::str;
use std::test::Fail;

/// How many decoded blocks stores keep.
pub const BLOCKS: [u32; 4] = [0, 1, 2, 256];

/// How many pages a page cache below them keeps.
pub const PAGES: [usize; 2] = [1, 64];

/// A disk of 64 units, all zero.
fn new_disk(alloc: Global) -> Result<MemoryDisk, Fail> {
    Ok(MemoryDisk::of_bytes(alloc, vec![in alloc; 0u8; 32_768]?))
}

/// A new store on a disk, which keeps so many decoded blocks.
fn store_on<D: Disk>(alloc: Global, disk: D, blocks: u32) -> Result<Store<D>, Fail>
where
    D: Drop,
{
    match Store::create(alloc, disk, blocks) {
        Ok(store) => Ok(store),
        Err(Refused { why, .. }) => Err(Fail::from(why)),
    }
}

/// A new store on a disk of 64 units.
pub fn new_store(alloc: Global) -> Result<Store<MemoryDisk>, Fail> {
    store_on(alloc, new_disk(alloc)?, 0)
}

/// A new store that keeps so many decoded blocks, where there is memory for it.
pub fn store_if_memory(alloc: Global, blocks: u32) -> Option<Store<MemoryDisk>> {
    let zeros = vec![in alloc; 0u8; 32_768].ok()?;
    Store::create(alloc, MemoryDisk::of_bytes(alloc, zeros), blocks).ok()
}

/// One that keeps so many decoded blocks.
pub fn store_with_blocks(alloc: Global, blocks: u32) -> Result<Store<MemoryDisk>, Fail> {
    store_on(alloc, new_disk(alloc)?, blocks)
}

/// One on a page cache of so many pages.
pub fn store_on_pages(alloc: Global, pages: usize) -> Result<Store<PageCache<MemoryDisk>>, Fail> {
    store_on(alloc, PageCache::new(alloc, new_disk(alloc)?, pages), 2)
}

/// A reply without its line feed.
fn line_of(reply: &[u8]) -> &str {
    match str::from_utf8(reply) {
        Ok(reply) => reply.strip_suffix("\n").unwrap_or("no line"),
        Err(_) => "no text",
    }
}

/// What the shell answers a line with its line feed, which it gets alone.
fn told_whole<D: Disk>(
    alloc: Global,
    store: &mut Store<D>,
    mut line: &[u8],
) -> Result<String, AllocError> {
    let mut output = Vec::new(alloc);
    match serve(alloc, &mut line, &mut output, store) {
        Ok(_) => String::from_str(alloc, line_of(&output)),
        Err(_) => String::from_str(alloc, "the shell failed"),
    }
}

/// What the shell answers a line, which it gets alone.
pub fn told<D: Disk>(
    alloc: Global,
    store: &mut Store<D>,
    line: &str,
) -> Result<String, AllocError> {
    let mut input = String::from_str(alloc, line)?;
    input.push_str("\n")?;
    told_whole(alloc, store, input.as_bytes())
}

/// What is counted in a new store.
const NEW: Counts = Counts {
    documents: 0,
    next: 1,
};

/// The command at a place of a list.
fn command(alloc: Global, place: usize) -> Result<Command, AllocError> {
    Ok(match place {
        0 => Command::Add(String::from_str(alloc, "a")?),
        1 => Command::Commit,
        2 => Command::Find(Query::Term(String::from_str(alloc, "a")?)),
        3 => Command::Show(DocNo(1)),
        4 => Command::Count,
        5 => Command::Delete(DocNo(2)),
        6 => Command::Delete(DocNo(1)),
        7 => Command::Merge,
        _ => Command::Tidy,
    })
}

/// How many there are.
const COMMANDS: usize = 9;

/// The list of commands.
fn commands(alloc: Global) -> Result<Vec<Command>, AllocError> {
    let mut commands = Vec::with_capacity(alloc, COMMANDS)?;
    for place in 0..COMMANDS {
        commands.push(command(alloc, place)?)?;
    }
    Ok(commands)
}

/// Whether this is the reply to the command at a place of that list.
fn is_reply_to(place: usize, reply: &Reply) -> bool {
    match reply {
        Reply::Added(number) => place == 0 && *number == DocNo(1),
        Reply::Committed => place == 1,
        Reply::Found(numbers) => place == 2 && numbers.as_slice() == [DocNo(1)].as_slice(),
        Reply::Text(text) => place == 3 && text.as_str() == "a",
        Reply::Counted(counts) => place == 4 && counts.documents == 1 && counts.next == 2,
        Reply::Refused(why) => place == 5 && *why == Refusal::NoSuchDocument,
        Reply::Deleted(number) => place == 6 && *number == DocNo(1),
        Reply::Merged => place == 7,
        Reply::Tidied => place == 8,
    }
}

/// The list had all its replies.
fn check_replies(rt: &impl Abort, replies: &[Reply]) {
    assert_eq!(rt; replies.len(), COMMANDS);
    for (place, reply) in replies.iter().enumerate() {
        assert!(rt; is_reply_to(place, reply), "reply {place}");
    }
}

/// Runs the list of commands.
fn run_list<D: Disk>(rt: &impl Abort, alloc: Global, store: &mut Store<D>) -> Result<(), Fail> {
    let commands = commands(alloc)?;
    check_replies(rt, &store.run(alloc, &commands)?);
    Ok(())
}

/// Whether a list that was run had all replies. Where one is another, it is want of memory, or a
/// call of the disk failed, whose record found none; then the store is to be opened again.
fn are_replies(rt: &impl Abort, replies: &[Reply]) -> bool {
    for (place, reply) in replies.iter().enumerate() {
        if !is_reply_to(place, reply) {
            assert!(rt; is_short(reply, &replies[place + 1..]), "reply {place}");
            return false;
        }
    }
    true
}

/// Whether a reply tells of want of memory, or of a failed call behind which all are refused.
fn is_short(reply: &Reply, behind: &[Reply]) -> bool {
    let reopen = |reply: &Reply| matches!(reply, Reply::Refused(Refusal::Reopen));
    match reply {
        Reply::Refused(Refusal::Memory) => true,
        Reply::Refused(Refusal::Disk) => behind.iter().all(reopen),
        _ => false,
    }
}

/// Runs the list on a new store, and answers whether memory was there for all. Where there was none
/// for the replies, no command was carried out.
fn is_run_by(
    rt: &impl Abort,
    alloc: Global,
    store: &mut Store<MemoryDisk>,
    commands: &[Command],
) -> bool {
    match store.run(alloc, commands) {
        Ok(replies) => are_replies(rt, &replies),
        Err(_) => {
            assert!(rt; store.counts() == Ok(NEW));
            false
        }
    }
}

/// Does so where there is memory for the store.
fn is_run(rt: &impl Abort, alloc: Global, commands: &[Command]) -> bool {
    match store_if_memory(alloc, 1) {
        Some(mut store) => is_run_by(rt, alloc, &mut store, commands),
        None => false,
    }
}

/// Does so where there is memory for the list, too.
fn is_run_in_full(rt: &impl Abort, alloc: Global) -> bool {
    match commands(alloc) {
        Ok(commands) => is_run(rt, alloc, &commands),
        Err(_) => false,
    }
}

/// Run with one request for memory refused after another (tools/refuse_memory.py): of two lists the
/// one that was refused none is answered in full.
#[test]
fn runs_short_of_memory(rt: HostRuntime) {
    let first = is_run_in_full(&rt, rt.alloc());
    let second = is_run_in_full(&rt, rt.alloc());
    assert!(rt; first || second);
}

/// Whether document 1 is shown with its line feed and its backslash spelled out.
fn is_spelled_out<D: Disk>(alloc: Global, store: &mut Store<D>) -> Result<bool, AllocError> {
    Ok(told(alloc, store, "show 1")?.as_str() == "text a\\n\\\\b")
}

/// Shows a text with a line feed and a backslash, before a commit and after it.
fn show_text<D: Disk>(rt: &impl Abort, alloc: Global, store: &mut Store<D>) -> Result<(), Fail> {
    assert_eq!(rt; store.add(alloc, "a\n\\b"), Ok(DocNo(1)));
    assert!(rt; is_spelled_out(alloc, store)?);
    assert_eq!(rt; store.commit(alloc), Ok(()));
    assert!(rt; is_spelled_out(alloc, store)?);
    Ok(())
}

/// What is asked of a store.
#[derive(Clone, Copy)]
enum Asked {
    /// The list of commands.
    List,
    /// The text with a line feed and a backslash.
    Text,
}

/// Asks a store.
fn ask<D: Disk>(
    rt: &impl Abort,
    alloc: Global,
    store: &mut Store<D>,
    asked: Asked,
) -> Result<(), Fail> {
    match asked {
        Asked::List => run_list(rt, alloc, store),
        Asked::Text => show_text(rt, alloc, store),
    }
}

/// Asks a new store that keeps so many decoded blocks.
fn ask_with_blocks(rt: &impl Abort, alloc: Global, blocks: u32, asked: Asked) -> Result<(), Fail> {
    ask(rt, alloc, &mut store_with_blocks(alloc, blocks)?, asked)
}

/// Asks a new store on a page cache of so many pages.
fn ask_on_pages(rt: &impl Abort, alloc: Global, pages: usize, asked: Asked) -> Result<(), Fail> {
    ask(rt, alloc, &mut store_on_pages(alloc, pages)?, asked)
}

/// Asks a store of each kind.
fn ask_each(rt: &impl Abort, alloc: Global, asked: Asked) -> Result<(), Fail> {
    for blocks in BLOCKS {
        ask_with_blocks(rt, alloc, blocks, asked)?;
    }
    for pages in PAGES {
        ask_on_pages(rt, alloc, pages, asked)?;
    }
    Ok(())
}

#[test]
fn a_list_of_commands_is_answered_in_turn(rt: HostRuntime) -> Result<(), Fail> {
    ask_each(&rt, rt.alloc(), Asked::List)
}

#[test]
fn a_line_feed_and_a_backslash_are_spelled_out(rt: HostRuntime) -> Result<(), Fail> {
    ask_each(&rt, rt.alloc(), Asked::Text)
}

/// Whether the addition of so many hyphens is answered so.
pub fn is_added(
    alloc: Global,
    store: &mut Store<MemoryDisk>,
    length: usize,
    answer: Result<DocNo, Refusal>,
) -> Result<bool, AllocError> {
    let text = "-".repeat(alloc, length)?;
    Ok(store.add(alloc, text.as_str()) == answer)
}
