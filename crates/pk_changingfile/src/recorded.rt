//! A file in memory that goes through contents that were recorded.

ghost use Rattle.std.specs.Prelude.{◌≡◌, ◌≤◌, ◌<◌, ◌+◌, ◌-◌, ℕ, [], false, length, min, true, IfNone, IfOk};

use pk_filedisk::CallFault;
use pk_snapshot::{HeldFile, SharedFile};

/// How a file goes on from the content that it begins with.
#[derive(Clone, Copy, Debug, PartialEq, Eq, Drop)]
pub enum Course {
    /// To the content of this place, in the course of one call.
    To(usize),
    /// By so many contents in the course of each call, up to the last one.
    By(usize),
}

/// A file in memory that has one of the contents, and others once some calls are made: it changes at
/// the end of the call that follows, after the bytes are read. A content is known by its place.
#[derive(Drop)]
pub struct RecordedFile<'a> {
    contents: &'a [Vec<u8>],
    // The place of the content that it has.
    place: usize,
    course: Course,
    // How many calls come before it goes on.
    left: u64,
    calls: u64,
    // Whether it stays as it is.
    is_held: bool,
}

impl<'a> RecordedFile<'a> {
    /// A file that has the content of this place, and goes on in its course once so many calls are
    /// made.
    pub fn new(contents: &'a [Vec<u8>], place: usize, course: Course, left: u64) -> RecordedFile<'a>
        ensures place { result.place ≡ place }
        ensures course { result.course ≡ course }
        ensures left { result.left ≡ left }
    {
        RecordedFile {
            contents,
            place,
            course,
            left,
            calls: 0,
            is_held: false,
        }
    }

    /// How many calls were made that read it.
    pub fn into_calls(self) -> u64
        ensures { result ≡ self.entry.calls }
    {
        self.calls
    }

    // A call was made.
    fn pass(&mut self)
        ensures last { (count : ℕ) → self.old.course ≡ Course.By count → self.old.is_held ≡ false
            → self.old.left ≡ 0 → self.new.place
            ≡ min (self.old.place + count) (length self.old.contents.now - 1) }
        ensures other { (place : ℕ) → self.old.course ≡ Course.To place
            → self.old.is_held ≡ false → self.old.left ≡ 0 → self.new.place ≡ place }
        ensures early { 0 < self.old.left → self.new.place ≡ self.old.place }
        ensures held { self.old.is_held ≡ true → self.new.place ≡ self.old.place }
    {
        self.calls = self.calls.saturating_add(1);
        if self.is_held {
            return;
        }
        if self.left > 0 {
            self.left -= 1;
            return;
        }
        self.place = match self.course {
            Course::To(other) => other,
            Course::By(count) => {
                let last = self.contents.len().saturating_sub(1);
                self.place.saturating_add(count).min(last)
            }
        };
    }

    // The bytes now, and none past the last content.
    fn bytes(&self) -> &[u8] {
        match self.contents.get(self.place) {
            Some(content) => content,
            None => &[],
        }
    }

    // The bytes from a position on.
    fn rest(&self, at: u64) -> &[u8] {
        let bytes = self.bytes();
        match usize::try_from(at) {
            Ok(at) => bytes.get(at..).unwrap_or(&[]),
            Err(_) => &[],
        }
    }
}

/// Promises nothing: what it has is up to who recorded.
impl<'a> SharedFile for RecordedFile<'a> {
    ghost content = { λ _. [] };

    ghost marked = { λ _. [] };

    ghost failed = { λ _. 0 };

    ghost interrupted = { λ _. 0 };

    ghost honest = { ⊥ };

    fn mark(&mut self) {}

    fn len(&mut self) -> Result<u64, CallFault> {
        Ok(self.bytes().len() as u64)
    }

    fn read_at(&mut self, at: u64, out: &mut [u8]) -> Result<usize, CallFault>
        ensures count { IfOk result (λ n. n ≤ length out.old) }
        ensures last { (count : ℕ) → self.old.course ≡ Course.By count → self.old.is_held ≡ false
            → self.old.left ≡ 0 → self.new.place
            ≡ min (self.old.place + count) (length self.old.contents.now - 1) }
        ensures other { (place : ℕ) → self.old.course ≡ Course.To place
            → self.old.is_held ≡ false → self.old.left ≡ 0 → self.new.place ≡ place }
        ensures early { 0 < self.old.left → self.new.place ≡ self.old.place }
        ensures held { self.old.is_held ≡ true → self.new.place ≡ self.old.place }
    {
        let rest = self.rest(at);
        let n = out.len().min(rest.len());
        out[..n].copy_from_slice(&rest[..n]);
        self.pass();
        Ok(n)
    }

    fn read_at_once(&mut self, at: u64, out: &mut [u8]) -> Result<usize, CallFault> {
        self.read_at(at, out)
    }

    ghost marked_before = { λ file honest. absurd honest };
}

/// While it is held it has the content that it had.
impl<'a> HeldFile for RecordedFile<'a> {
    type Hold = ();

    ghost is_held = { λ f. f.is_held };

    ghost asked_at = { λ _. Unit {0} };

    fn hold(&mut self) -> Option<()>
        ensures holds { self.new.is_held ≡ true }
        ensures not_held { IfNone result (self.new.is_held ≡ false) }
    {
        self.is_held = true;
        Some(())
    }

    fn release(&mut self, _hold: ()) {
        self.is_held = false;
    }
}
