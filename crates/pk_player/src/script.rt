//! Scripts, one after the other, and what came of them.

use crate::player::Player;
use std::alloc::{AllocError, Global};

/// What is told of the lines.
#[derive(Clone, Copy, PartialEq, Eq)]
pub enum Mode {
    /// Those that are answered otherwise than they say.
    Differences,
    /// The answer of each.
    Answers,
    /// That too; and what is refused memory is asked once more.
    Again,
}

/// What a line of a script was answered.
#[derive(Drop)]
pub struct Answer {
    /// The line's file and its number there.
    pub file: String,
    pub line: u64,
    pub asked: String,
    pub wanted: String,
    pub got: String,
    /// Whether it was asked twice, as it was refused memory at first.
    pub is_second: bool,
}

impl Answer {
    /// Whether it is what the line says.
    pub(crate) fn is_wanted(&self) -> bool {
        self.got == self.wanted
    }

    /// Whether it tells of memory that was refused.
    fn is_short(&self) -> bool {
        self.got.as_str() == "memory" || self.got.as_str() == "refused memory"
    }

    /// Whether it tells of a call of the disk that failed.
    fn is_cut(&self) -> bool {
        self.got.as_str() == "disk" || self.got.as_str() == "refused disk"
    }
}

/// The scripts that were played so far, and the one that is played.
#[derive(Drop)]
pub struct Stage {
    alloc: Global,
    player: Player,
    mode: Mode,
    /// The file and the number of the line that was taken last.
    file: String,
    line: u64,
    /// Whether a script has begun, whether a line of it was answered otherwise, and whether its
    /// lines are passed over.
    has_begun: bool,
    has_failed: bool,
    passes_over: bool,
    passed: u64,
    failed: u64,
}

/// Puts a piece of a text behind others, with a `{c*n` at its end spelled out.
fn put_piece(alloc: Global, whole: &mut String, piece: &str) -> Result<(), AllocError> {
    let (plain, repeated) = piece.split_once("{").unwrap_or((piece, ""));
    let (what, times) = repeated.split_once("*").unwrap_or(("", ""));
    let times = times.parse::<usize>().unwrap_or(0);
    whole.push_str(plain)?;
    whole.push_str(what.repeat(alloc, times)?.as_str())
}

/// The text with each `{c*n}` spelled out.
fn spelled_out(alloc: Global, text: &str) -> Result<String, AllocError> {
    let mut whole = String::new(alloc);
    for piece in text.split('}') {
        put_piece(alloc, &mut whole, piece)?;
    }
    Ok(whole)
}

impl Stage {
    /// One on which nothing was played.
    pub(crate) fn new(alloc: Global, mode: Mode) -> Stage {
        Stage {
            alloc,
            player: Player::new(alloc),
            mode,
            file: String::new(alloc),
            line: 0,
            has_begun: false,
            has_failed: false,
            passes_over: false,
            passed: 0,
            failed: 0,
        }
    }

    /// Takes a line of the input, and tells what it was answered, if it asks anything and its
    /// script has not failed.
    pub(crate) fn take(&mut self, line: &str) -> Result<Option<Answer>, AllocError> {
        let line = line.trim();
        let (step, rest) = line.split_once(" ").unwrap_or((line, ""));
        match step {
            "!script" => {
                self.end();
                self.player = Player::new(self.alloc);
                self.has_begun = true;
                self.set_place(rest, 0)?;
            }
            "!at" => {
                let (file, line) = rest.rsplit_once(" ").unwrap_or((rest, ""));
                let line = line.parse::<u64>().unwrap_or(0);
                self.set_place(file, line.saturating_sub(1))?;
            }
            "!left" => self.passes_over = false,
            _ => {
                self.line = self.line.saturating_add(1);
                return self.play(line);
            }
        }
        Ok(None)
    }

    /// The lines to come are those of this file, behind that one.
    fn set_place(&mut self, file: &str, line: u64) -> Result<(), AllocError> {
        self.file = String::from_str(self.alloc, file)?;
        self.line = line;
        Ok(())
    }

    /// Plays a line, unless it is passed over.
    fn play(&mut self, line: &str) -> Result<Option<Answer>, AllocError> {
        if line.is_empty() || line.starts_with("#") || self.passes_over {
            return Ok(None);
        }
        self.has_begun = true;
        let mut answer = self.ask(line)?;
        if self.mode == Mode::Again && answer.is_short() {
            answer = self.ask(line)?;
            answer.is_second = true;
        }
        if !answer.is_wanted() {
            self.has_failed = true;
            self.passes_over = self.passes_over_behind(&answer);
        }
        Ok(Some(answer))
    }

    /// Whether lines are passed over behind an answer that isn't the one that is wanted.
    fn passes_over_behind(&self, answer: &Answer) -> bool {
        match self.mode {
            Mode::Differences => true,
            Mode::Answers => false,
            Mode::Again => answer.is_cut(),
        }
    }

    /// Asks what a line asks.
    fn ask(&mut self, line: &str) -> Result<Answer, AllocError> {
        let (asked, wanted) = line.split_once(" => ").unwrap_or((line, ""));
        let got = self
            .player
            .answer(spelled_out(self.alloc, asked)?.as_str())?;
        Ok(Answer {
            file: self.file.clone()?,
            line: self.line,
            asked: String::from_str(self.alloc, asked)?,
            wanted: spelled_out(self.alloc, wanted)?,
            got,
            is_second: false,
        })
    }

    /// Counts the script that has begun.
    fn end(&mut self) {
        if self.has_failed {
            self.failed = self.failed.saturating_add(1);
        } else if self.has_begun {
            self.passed = self.passed.saturating_add(1);
        }
        self.has_begun = false;
        self.has_failed = false;
        self.passes_over = false;
    }

    /// How many scripts were answered as they say, and how many were not, when all were played.
    pub(crate) fn counts(mut self) -> (u64, u64) {
        self.end();
        (self.passed, self.failed)
    }
}
