//! The texts of a merge, read from where they stand: those that lie near each other at once.

ghost use Rattle.std.specs.Prelude.{◌≤◌, ◌<◌, ◌+◌, ◌^◌, List, length, take, All};
ghost use Rattle.pk_merge.specs.Keeping.{AreKept, EndBy, KeptApart};
ghost use Rattle.pk_merge.specs.Output.{AreGiven, IsGiven};
ghost use Rattle.pk_merge.specs.Spans.{IsSpanOf, StandsIn};
ghost use Rattle.pk_model.specs.Collection.{Doc};
ghost use Rattle.pk_segment.specs.Spelling.{texts};

use crate::kept::Kept;
use crate::output::Output;
use pk_disk::Disk;
use pk_replace::StreamFault;

/// The most bytes of texts that are read at once.
pub(crate) const SPAN_BYTES: usize = 65_536;

// The first of some documents, whose texts are read at once. A text that is longer than what is
// read at once is a span alone.
#[derive(Clone, Copy)]
struct Span {
    // Where the first text begins.
    from: u64,
    // How many bytes from there on are read: what was deleted stands between the texts.
    bytes: usize,
    // How many documents they are.
    count: usize,
}

// The longest span at the front of the documents.
fn span_of(documents: &[Kept], disk_bytes: u64) -> Span
    requires some { 0 < length documents.now }
    requires inside { All (EndBy disk_bytes) documents.now }
    ensures { IsSpanOf disk_bytes documents.now result }
{
    let from = documents[0].at;
    let mut bytes = 0;
    for (i, kept) in documents.iter().enumerate() {
        let end = kept.at + u64::from(kept.len);
        if kept.at < from || end - from > SPAN_BYTES as u64 {
            let count = i.max(1);
            return Span { from, bytes, count };
        }
        bytes = bytes.max((end - from) as usize);
    }
    let count = documents.len();
    Span { from, bytes, count }
}

// Gives the texts of documents, which are read at once, from a place on, into all of some room.
fn write_near<D: Disk>(
    disk: &mut D,
    documents: &[Kept],
    from: u64,
    room: &mut [u8],
    output: &mut Output,
) -> Result<(), StreamFault>
    requires read { from + length room.old ≤ length (D.content disk.old) }
    requires near { All (StandsIn from (from + length room.old)) documents.now }
    requires stretch { output.old.end ≤ length (D.content disk.old) }
    ensures given { IsGiven D.Disk disk.old disk.new output.old output.new result }
    ensures bytes { D.honest → (docs : List Doc) → AreKept (D.content disk.old) documents.now docs
        → output.old.at + output.old.filled + length (texts docs) ≤ output.old.end
        → AreGiven D.Disk disk.old disk.new output.old output.new (texts docs) result }
{
    let Ok(()) = disk.read(from, room) else {
        return Err(StreamFault::Read);
    };
    for kept in documents {
        let start = (kept.at - from) as usize;
        output.offer(disk, &room[start..start + kept.len as usize])?;
    }
    Ok(())
}

// Gives the texts of a span. That of one document is copied, so it may have any length.
fn write_span<D: Disk>(
    disk: &mut D,
    documents: &[Kept],
    span: Span,
    room: &mut [u8],
    output: &mut Output,
) -> Result<(), StreamFault>
    requires span { IsSpanOf (length (D.content disk.old)) documents.now span }
    requires low { length (D.content disk.old) < 2 ^ 64 }
    requires inside { All (EndBy (length (D.content disk.old))) documents.now }
    requires room { SPAN_BYTES ≤ length room.old }
    requires stretch { output.old.end ≤ length (D.content disk.old) }
    requires apart { All (KeptApart output.old.start output.old.end) documents.now }
    ensures given { IsGiven D.Disk disk.old disk.new output.old output.new result }
    ensures bytes { D.honest → (docs : List Doc) → AreKept (D.content disk.old) documents.now docs
        → output.old.at + output.old.filled + length (texts (take span.count docs))
        ≤ output.old.end
        → AreGiven D.Disk disk.old disk.new output.old output.new (texts (take span.count docs))
        result }
{
    if span.count == 1 {
        let kept = documents[0];
        return output.offer_from(disk, kept.at, u64::from(kept.len));
    }
    let near = &documents[..span.count];
    write_near(disk, near, span.from, &mut room[..span.bytes], output)
}

/// Gives the texts of documents that are kept, in their order; where the output has no room for
/// them they are `Damaged`. They are read into some room, span by span. It takes no memory.
pub(crate) fn write_texts<D: Disk>(
    disk: &mut D,
    documents: &[Kept],
    room: &mut [u8],
    output: &mut Output,
) -> Result<(), StreamFault>
    requires inside { All (EndBy (length (D.content disk.old))) documents.now }
    requires room { SPAN_BYTES ≤ length room.old }
    requires stretch { output.old.end ≤ length (D.content disk.old) }
    requires apart { All (KeptApart output.old.start output.old.end) documents.now }
    ensures given { IsGiven D.Disk disk.old disk.new output.old output.new result }
    ensures bytes { D.honest → (docs : List Doc) → AreKept (D.content disk.old) documents.now docs
        → output.old.at + output.old.filled + length (texts docs) ≤ output.old.end
        → AreGiven D.Disk disk.old disk.new output.old output.new (texts docs) result }
{
    let disk_bytes = disk.len();
    let mut done = 0;
    while done < documents.len() {
        let rest = &documents[done..];
        let span = span_of(rest, disk_bytes);
        write_span(disk, rest, span, room, output)?;
        done += span.count;
    }
    Ok(())
}
