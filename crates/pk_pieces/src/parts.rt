//! Parts of a text, whose words are found one after the other.

ghost use Rattle.std.specs.Prelude.{◌≡◌, ◌<◌, ◌≤◌, ◌++◌, drop, length, slice_range};
ghost use Rattle.std.specs.Str.{IsCharBoundary};
ghost use Rattle.unicode_segmentation.specs.Word.{words};

/// How many bytes a part has, before a place is looked for where it may end. A longer part more
/// often holds a character beyond ASCII, a shorter one takes more calls.
const PART_BYTES: usize = 64;

/// How many bytes of a part in ASCII are looked at, before it ends at the last space among them.
const ASCII_PART_BYTES: usize = 1024;

/// How many bytes are looked at together.
const LOOK_BYTES: usize = 16;

/// Where the part that begins at the place ends: before the first space behind some bytes that
/// follows another character of ASCII, or with the text. Its words, and those of the text from its
/// end on, are the words of the text from the place on.
pub fn part_end(text: &str, from: usize) -> usize
    requires some { from < length text.now }
    requires boundary { IsCharBoundary text.now from }
    ensures grows { from < result }
    ensures within { result ≤ length text.now }
    ensures boundary { IsCharBoundary text.now result }
    ensures words { words (drop from text.now)
        ≡ words (slice_range text.now from result) ++ words (drop result text.now) }
{
    end_behind(text, from, PART_BYTES)
}

/// The same of a part that is in ASCII, as far as spaces allow, and has some 1,024 bytes at most; if
/// its first word is not, it ends behind that.
pub fn ascii_part_end(text: &str, from: usize) -> usize
    requires some { from < length text.now }
    requires boundary { IsCharBoundary text.now from }
    ensures grows { from < result }
    ensures within { result ≤ length text.now }
    ensures boundary { IsCharBoundary text.now result }
    ensures words { words (drop from text.now)
        ≡ words (slice_range text.now from result) ++ words (drop result text.now) }
{
    let least = ascii_part_bytes(text.as_bytes(), from);
    end_behind(text, from, least)
}

/// How many bytes a part in ASCII has, if it ends behind so many; one more than are in ASCII, where
/// its first word is not.
fn ascii_part_bytes(bytes: &[u8], from: usize) -> usize
    requires { from < length bytes.now }
    ensures { 0 < result }
{
    let end = ascii_end(bytes, from);
    if end >= bytes.len() {
        return bytes.len() - from;
    }
    let space = last_space(bytes, from, end);
    if space > from {
        return space - from;
    }
    end - from + 1
}

/// How far bytes of ASCII go from the place on, as far as is looked.
fn ascii_end(bytes: &[u8], from: usize) -> usize
    requires { from ≤ length bytes.now }
    ensures low { from ≤ result }
    ensures high { result ≤ length bytes.now }
{
    let most = bytes.len().min(from.saturating_add(ASCII_PART_BYTES));
    let mut at = from;
    'looks: while most - at >= LOOK_BYTES && bytes[at..at + LOOK_BYTES].is_ascii() {
        at += LOOK_BYTES;
    }
    ascii_end_by_bytes(bytes, at, most)
}

/// The same up to another place, a byte at a time.
fn ascii_end_by_bytes(bytes: &[u8], from: usize, to: usize) -> usize
    requires within { from ≤ to }
    requires inside { to ≤ length bytes.now }
    ensures low { from ≤ result }
    ensures high { result ≤ to }
{
    let mut at = from;
    'bytes: while at < to && bytes[at] < 128 {
        at += 1;
    }
    at
}

/// The last place up to `to` at which a part may end; `from`, if there is none behind it.
fn last_space(bytes: &[u8], from: usize, to: usize) -> usize
    requires within { from ≤ to }
    requires inside { to < length bytes.now }
    ensures low { from ≤ result }
    ensures high { result ≤ to }
{
    let mut at = to;
    'bytes: while from < at {
        if bytes[at] == b' ' && bytes[at - 1] != b' ' {
            return at;
        }
        at -= 1;
    }
    at
}

/// The same of a part that has so many bytes or more, if the text has.
fn end_behind(text: &str, from: usize, least: usize) -> usize
    requires some { from < length text.now }
    requires bytes { 0 < least }
    requires boundary { IsCharBoundary text.now from }
    ensures grows { from < result }
    ensures within { result ≤ length text.now }
    ensures boundary { IsCharBoundary text.now result }
    ensures words { words (drop from text.now)
        ≡ words (slice_range text.now from result) ++ words (drop result text.now) }
{
    let bytes = text.as_bytes();
    let len = bytes.len();
    let mut at = if len - from > least {
        from + least
    } else {
        len
    };
    'spaces: while at < len {
        let last = bytes[at - 1];
        if bytes[at] == b' ' && last != b' ' && last < 128 {
            return at;
        }
        at += 1;
    }
    len
}
