//! The line that is being read.

ghost use Rattle.std.specs.Prelude.{◌≡◌, IfOk, Some, []};
ghost use Rattle.std.specs.Option.{option_copied};
ghost use Rattle.pk_shell.specs.Asked.{is_blank};
ghost use Rattle.pk_shell.specs.Transcript.{held_after};

use std::alloc::{AllocError, Global};
use std::marker::Model;

/// The longest line, in bytes, without its line feed: an `add` with the longest text fits.
const MAX_LINE_BYTES: usize = 1_048_640;

/// What has come of a line so far: its bytes, or nothing of one that is too long.
#[derive(Drop)]
pub struct Line {
    bytes: Vec<u8>,
    is_too_long: bool,
}

impl Model for Line {
    ghost use Rattle.std.specs.Prelude.{
      ℕ,
      List,
      Option,
      None,
      Some,
      length,
      ◌≤◌,
      if◌then◌else◌,
      vec_capacity,
    };
    ghost use Rattle.pk_shell.specs.Asked.{longest_line};

    ghost Value = { Option (List ℕ) };

    ghost view = { λ l. if l.is_too_long then None else Some l.bytes.items };

    // It takes no memory after it is made.
    ghost invariant = { λ l. (length l.bytes.items ≤ longest_line)
        × (longest_line ≤ vec_capacity l.bytes) };
}

impl Line {
    /// An empty line, with the room for the longest one.
    pub fn new(alloc: Global) -> Result<Line, AllocError>
        ensures { IfOk result (λ line. line ≡ Some []) }
    {
        Ok(Line {
            bytes: Vec::with_capacity(alloc, MAX_LINE_BYTES)?,
            is_too_long: false,
        })
    }

    /// Takes more bytes. Of a line that they make too long nothing is kept, and the rest of it is
    /// skipped.
    pub fn extend(&mut self, bytes: &[u8])
        ensures { self.new ≡ held_after self.old bytes.now }
    {
        if self.is_too_long {
            return;
        }
        if bytes.len() <= MAX_LINE_BYTES - self.bytes.len() {
            let Ok(()) = self.bytes.extend_from_slice(bytes) else {
                unreachable!()
            };
        } else {
            self.is_too_long = true;
        }
    }

    /// Begins the next line.
    pub fn clear(&mut self)
        ensures { self.new ≡ Some [] }
    {
        self.bytes.clear();
        self.is_too_long = false;
    }

    /// Whether nothing of a line has come.
    pub fn is_blank(&self) -> bool
        ensures { result ≡ is_blank self.now }
    {
        !self.is_too_long && self.bytes.is_empty()
    }

    /// The bytes of the line, or nothing of one that is too long.
    pub fn held(&self) -> Option<&[u8]>
        ensures { option_copied result ≡ self.now }
    {
        if self.is_too_long {
            None
        } else {
            Some(self.bytes.as_slice())
        }
    }
}
