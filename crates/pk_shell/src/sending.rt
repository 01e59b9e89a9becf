//! Replies to a writer. No call here takes memory.

ghost use Rattle.std.specs.Prelude.{◌≡◌, ◌++◌, true, codes, decimal, length};
ghost use Rattle.std.specs.List.{flat_map};
ghost use Rattle.memchr.specs.Find.{is_byte2};
ghost use Rattle.pk_model.specs.Views.{reply_of, numbers_in};
ghost use Rattle.pk_shell.specs.ReplyText.{
  reply_text,
  refusal_text,
  fault_text,
  spaced,
  escaped,
};
ghost use Rattle.pk_shell.specs.Sending.{Sent, Puts, Flushes};
ghost use Rattle.pk_shell.specs.Response.{response_text};
ghost use Rattle.pk_shell.specs.Lines.{with_feed};

use crate::outbox::Outbox;
use crate::reply::Response;
use itoa::Buffer;
use memchr::memchr2;
use pk_model::{Counts, DocNo, Refusal, Reply};
use pk_query::QueryFault;
use std::io::Write;

/// The writer failed or took no byte.
#[derive(Clone, Copy, Debug)]
pub struct Unwritten;

/// Writes all the bytes, or a part of them where the writer fails or takes no byte.
pub fn write_all<W: Write>(writer: &mut W, bytes: &[u8]) -> Result<(), Unwritten>
    ensures { Sent (W.contents writer.old) (W.contents writer.new) result bytes.now }
{
    let mut done = 0;
    while done < bytes.len() {
        match writer.write(&bytes[done..]) {
            Ok(0) => return Err(Unwritten),
            Err(_) => return Err(Unwritten),
            Ok(n) => done += n,
        }
    }
    Ok(())
}

/// Writes all that waits.
fn flush<W: Write>(outbox: &mut Outbox, writer: &mut W) -> Result<(), Unwritten>
    ensures { Flushes outbox.old (W.contents writer.old) result outbox.new (W.contents writer.new) }
{
    write_all(writer, outbox.as_slice())?;
    outbox.clear();
    Ok(())
}

/// Puts the bytes. What waits is written first where there is no room for them.
fn put<W: Write>(outbox: &mut Outbox, writer: &mut W, bytes: &[u8]) -> Result<(), Unwritten>
    ensures { Puts outbox.old (W.contents writer.old) result outbox.new (W.contents writer.new)
        bytes.now }
{
    let mut done = outbox.fill(bytes);
    while done < bytes.len() {
        flush(outbox, writer)?;
        done += outbox.fill(&bytes[done..]);
    }
    Ok(())
}

/// Puts a text and a number in decimal.
fn put_number<W: Write>(
    outbox: &mut Outbox,
    writer: &mut W,
    text: &[u8],
    number: u64,
) -> Result<(), Unwritten>
    ensures { Puts outbox.old (W.contents writer.old) result outbox.new (W.contents writer.new)
        (text.now ++ decimal number) }
{
    let mut buffer = Buffer::new();
    put(outbox, writer, text)?;
    put(outbox, writer, buffer.format(number).as_bytes())
}

/// Puts how many documents there are, and the number of the next one.
fn put_counted<W: Write>(
    outbox: &mut Outbox,
    writer: &mut W,
    counts: &Counts,
) -> Result<(), Unwritten>
    ensures { Puts outbox.old (W.contents writer.old) result outbox.new (W.contents writer.new)
        (codes "count " ++ decimal counts.now.documents
        ++ (codes " next " ++ decimal counts.now.next)) }
{
    put_number(outbox, writer, b"count ", counts.documents)?;
    put_number(outbox, writer, b" next ", u64::from(counts.next))
}

/// Puts that units are missing in a row: how many are needed, and the largest number of them.
fn put_full<W: Write>(
    outbox: &mut Outbox,
    writer: &mut W,
    need: u32,
    largest: u32,
) -> Result<(), Unwritten>
    ensures { Puts outbox.old (W.contents writer.old) result outbox.new (W.contents writer.new)
        (codes "refused full need " ++ decimal need ++ (codes " largest " ++ decimal largest)) }
{
    put_number(outbox, writer, b"refused full need ", u64::from(need))?;
    put_number(outbox, writer, b" largest ", u64::from(largest))
}

/// Puts the numbers, each behind a space: as many as there is room for at once, and the one that
/// fills the outbox in parts.
fn put_numbers<W: Write>(
    outbox: &mut Outbox,
    writer: &mut W,
    numbers: &[DocNo],
) -> Result<(), Unwritten>
    ensures { Puts outbox.old (W.contents writer.old) result outbox.new (W.contents writer.new)
        (flat_map spaced (numbers_in numbers.now)) }
{
    let mut done = outbox.fill_numbers(numbers);
    while done < numbers.len() {
        put_number(outbox, writer, b" ", u64::from(numbers[done].0))?;
        done += 1;
        done += outbox.fill_numbers(&numbers[done..]);
    }
    Ok(())
}

/// Puts how many numbers a query found, and the numbers.
fn put_found<W: Write>(
    outbox: &mut Outbox,
    writer: &mut W,
    numbers: &[DocNo],
) -> Result<(), Unwritten>
    ensures { Puts outbox.old (W.contents writer.old) result outbox.new (W.contents writer.new)
        (codes "found " ++ decimal (length numbers.now)
        ++ (codes ":" ++ flat_map spaced (numbers_in numbers.now))) }
{
    put_number(outbox, writer, b"found ", numbers.len() as u64)?;
    put(outbox, writer, b":")?;
    put_numbers(outbox, writer, numbers)
}

/// How a line feed or a backslash is written in a text.
fn escape(byte: u8) -> &'static [u8]
    requires { is_byte2 10 92 byte ≡ true }
    ensures { result.now ≡ escaped byte }
{
    if byte == b'\n' { b"\\n" } else { b"\\\\" }
}

/// Puts a text, its line feeds and backslashes escaped.
fn put_escaped<W: Write>(outbox: &mut Outbox, writer: &mut W, text: &[u8]) -> Result<(), Unwritten>
    ensures { Puts outbox.old (W.contents writer.old) result outbox.new (W.contents writer.new)
        (flat_map escaped text.now) }
{
    let mut rest = text;
    'escapes: while let Some(at) = memchr2(b'\n', b'\\', rest) {
        put(outbox, writer, &rest[..at])?;
        put(outbox, writer, escape(rest[at]))?;
        rest = &rest[at + 1..];
    }
    put(outbox, writer, rest)
}

/// Puts a document's text.
fn put_text<W: Write>(outbox: &mut Outbox, writer: &mut W, text: &[u8]) -> Result<(), Unwritten>
    ensures { Puts outbox.old (W.contents writer.old) result outbox.new (W.contents writer.new)
        (codes "text " ++ flat_map escaped text.now) }
{
    put(outbox, writer, b"text ")?;
    put_escaped(outbox, writer, text)
}

/// Puts why a command was refused.
fn put_refused<W: Write>(outbox: &mut Outbox, writer: &mut W, why: Refusal) -> Result<(), Unwritten>
    ensures { Puts outbox.old (W.contents writer.old) result outbox.new (W.contents writer.new)
        (codes "refused " ++ refusal_text why) }
{
    match why {
        Refusal::Reopen => put(outbox, writer, b"refused reopen"),
        Refusal::TextTooLong => put(outbox, writer, b"refused text too long"),
        Refusal::BufferFull => put(outbox, writer, b"refused buffer full"),
        Refusal::NumbersUsedUp => put(outbox, writer, b"refused numbers used up"),
        Refusal::NoSuchDocument => put(outbox, writer, b"refused no such document"),
        Refusal::TooManySegments => put(outbox, writer, b"refused too many segments"),
        Refusal::SegmentTooLarge => put(outbox, writer, b"refused segment too large"),
        Refusal::Memory => put(outbox, writer, b"refused memory"),
        Refusal::Full { need, largest } => put_full(outbox, writer, need, largest),
        Refusal::Damaged => put(outbox, writer, b"refused damaged"),
        Refusal::Disk => put(outbox, writer, b"refused disk"),
    }
}

/// Puts why a query text was refused.
fn put_fault<W: Write>(
    outbox: &mut Outbox,
    writer: &mut W,
    fault: QueryFault,
) -> Result<(), Unwritten>
    ensures { Puts outbox.old (W.contents writer.old) result outbox.new (W.contents writer.new)
        (codes "refused " ++ fault_text fault) }
{
    match fault {
        QueryFault::TooLong => put(outbox, writer, b"refused query too long"),
        QueryFault::TooDeep => put(outbox, writer, b"refused query too deep"),
        QueryFault::NoWord(place) => {
            put_number(outbox, writer, b"refused query no word at ", place as u64)
        }
        QueryFault::Unexpected(place) => {
            put_number(
                outbox,
                writer,
                b"refused query unexpected at ",
                place as u64,
            )
        }
        QueryFault::Unclosed(place) => {
            put_number(outbox, writer, b"refused query unclosed at ", place as u64)
        }
        QueryFault::Memory => put(outbox, writer, b"refused memory"),
    }
}

/// Puts a reply of the store.
fn put_reply<W: Write>(outbox: &mut Outbox, writer: &mut W, reply: &Reply) -> Result<(), Unwritten>
    ensures { Puts outbox.old (W.contents writer.old) result outbox.new (W.contents writer.new)
        (reply_text (reply_of reply.now)) }
{
    match reply {
        Reply::Added(number) => put_number(outbox, writer, b"added ", u64::from(number.0)),
        Reply::Deleted(number) => put_number(outbox, writer, b"deleted ", u64::from(number.0)),
        Reply::Found(numbers) => put_found(outbox, writer, numbers.as_slice()),
        Reply::Text(text) => put_text(outbox, writer, text.as_bytes()),
        Reply::Committed => put(outbox, writer, b"committed"),
        Reply::Merged => put(outbox, writer, b"merged"),
        Reply::Tidied => put(outbox, writer, b"tidied"),
        Reply::Counted(counts) => put_counted(outbox, writer, counts),
        Reply::Refused(why) => put_refused(outbox, writer, *why),
    }
}

/// Puts what a line is answered.
fn put_response<W: Write>(
    outbox: &mut Outbox,
    writer: &mut W,
    response: &Response,
) -> Result<(), Unwritten>
    ensures { Puts outbox.old (W.contents writer.old) result outbox.new (W.contents writer.new)
        (response_text response.now) }
{
    match response {
        Response::Bye => put(outbox, writer, b"bye"),
        Response::LineTooLong => put(outbox, writer, b"refused line too long"),
        Response::NotText => put(outbox, writer, b"refused not text"),
        Response::Unknown => put(outbox, writer, b"refused unknown"),
        Response::ReadOnly => put(outbox, writer, b"refused read only"),
        Response::QueryRefused(fault) => put_fault(outbox, writer, *fault),
        Response::Replied(reply) => put_reply(outbox, writer, reply),
    }
}

/// Puts what a line is answered, and a line feed.
fn put_line<W: Write>(
    outbox: &mut Outbox,
    writer: &mut W,
    response: &Response,
) -> Result<(), Unwritten>
    ensures { Puts outbox.old (W.contents writer.old) result outbox.new (W.contents writer.new)
        (with_feed (response_text response.now)) }
{
    put_response(outbox, writer, response)?;
    put(outbox, writer, b"\n")
}

/// Writes a reply line: in one call, where it is not longer than the outbox.
pub fn send<W: Write>(
    outbox: &mut Outbox,
    writer: &mut W,
    response: &Response,
) -> Result<(), Unwritten>
    ensures { Sent (W.contents writer.old) (W.contents writer.new) result
        (with_feed (response_text response.now)) }
{
    outbox.clear();
    put_line(outbox, writer, response)?;
    flush(outbox, writer)
}
