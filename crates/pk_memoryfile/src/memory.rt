//! A file in memory, whose calls are short, interrupted or refused by a script.

ghost use Rattle.std.specs.Prelude.{◌≡◌, ◌+◌, [], length, string_bytes};
ghost use Rattle.std.specs.Prelude.{IfOk, IsTrue, false, true};
ghost use Rattle.pk_disk.specs.Since.{IsOnlyRead};
ghost use Rattle.pk_filedisk.specs.Raw.{IsSameFile, refusals, refusals_by, transfer_refusals};
ghost use Rattle.pk_filedisk.specs.Tries.{CountsUp, interruptions};
ghost use Rattle.pk_memoryfile.specs.Record.{ImageSince, moment_of, open_in};
ghost use Rattle.pk_memoryfile.specs.Record.{fewer_left, image_before, image_now, only_image_now};

use crate::record::Recorded;
use pk_filedisk::{CallFault, LockFault, RawFile};
use std::alloc::Global;

/// What a call answers, once it has moved its bytes.
#[derive(Clone, Copy, Debug, PartialEq, Eq, Drop)]
pub enum Ending {
    /// What it did.
    Told,
    /// That it was interrupted.
    Interrupted,
    /// That it was refused.
    Failed,
}

/// What one call does: a transfer moves `most` bytes at most, whatever it then answers.
#[derive(Clone, Copy, Debug, PartialEq, Eq, Drop)]
pub struct Step {
    pub most: usize,
    pub ending: Ending,
}

/// A file in memory. It is honest, whatever its script says.
#[derive(Drop)]
pub struct MemoryFile {
    path: String,
    is_new: bool,
    memory: Recorded,
    // The steps to come, the next one last.
    script: Vec<Step>,
    counts: Counts,
    is_locked: bool,
    is_settled: bool,
    is_named: bool,
}

impl MemoryFile {
    /// A file that was made at a path, without bytes.
    pub fn made(alloc: Global, path: String, script: Vec<Step>) -> MemoryFile
        ensures content { ⟦<MemoryFile as RawFile>⟧.content result ≡ [] }
        ensures path { ⟦<MemoryFile as RawFile>⟧.path result ≡ string_bytes path }
        ensures new { IsTrue (⟦<MemoryFile as RawFile>⟧.is_new result) }
    {
        let mut file = MemoryFile::opened(alloc, path, Vec::new(alloc), script);
        file.is_new = true;
        file
    }

    /// A file that was opened at a path, with these bytes, neither locked nor synced. The script has
    /// the first call's step last.
    pub fn opened(alloc: Global, path: String, bytes: Vec<u8>, script: Vec<Step>) -> MemoryFile
        ensures content { ⟦<MemoryFile as RawFile>⟧.content result ≡ bytes.items }
        ensures path { ⟦<MemoryFile as RawFile>⟧.path result ≡ string_bytes path }
        ensures new { ⟦<MemoryFile as RawFile>⟧.is_new result ≡ false }
    {
        MemoryFile {
            path,
            is_new: false,
            memory: Recorded::of_bytes(alloc, bytes),
            script,
            counts: Counts {
                refused: 0,
                interrupted: 0,
            },
            is_locked: false,
            is_settled: false,
            is_named: false,
        }
    }

    /// Its name is synced.
    pub fn name(&mut self)
        ensures named { IsTrue (⟦<MemoryFile as RawFile>⟧.is_named self.new) }
        ensures locked { ⟦<MemoryFile as RawFile>⟧.is_locked self.new
            ≡ ⟦<MemoryFile as RawFile>⟧.is_locked self.old }
        ensures settled { ⟦<MemoryFile as RawFile>⟧.is_settled self.new
            ≡ ⟦<MemoryFile as RawFile>⟧.is_settled self.old }
        ensures same { IsSameFile ⟦<MemoryFile as RawFile>⟧.is_new ⟦<MemoryFile as RawFile>⟧.path
            self.old self.new }
        ensures refused { ⟦<MemoryFile as RawFile>⟧.refused self.new
            ≡ ⟦<MemoryFile as RawFile>⟧.refused self.old }
        ensures interrupted { ⟦<MemoryFile as RawFile>⟧.interrupted self.new
            ≡ ⟦<MemoryFile as RawFile>⟧.interrupted self.old }
        ensures read { IsOnlyRead ⟦<MemoryFile as RawFile>⟧.content
            ⟦<MemoryFile as RawFile>⟧.is_open ⟦<MemoryFile as RawFile>⟧.moment
            ⟦<MemoryFile as RawFile>⟧.images_since self.old self.new }
    {
        self.is_named = true;
    }
}

// The step of the next call.
fn next_step(script: &mut Vec<Step>) -> Step {
    match script.pop() {
        Some(step) => step,
        None => Step {
            most: usize::MAX,
            ending: Ending::Told,
        },
    }
}

// How many calls were refused so far, and how many transfers were interrupted.
#[derive(Drop)]
struct Counts {
    refused: u64,
    interrupted: u64,
}

impl Counts {
    // A refusal, which is counted; past the greatest count it is told as an interruption.
    fn refuse(&mut self) -> CallFault
        ensures refused { self.new.refused ≡ self.old.refused + refusals_by result }
        ensures interrupted { self.new.interrupted ≡ self.old.interrupted }
    {
        if self.refused == u64::MAX {
            return CallFault::Interrupted;
        }
        self.refused += 1;
        CallFault::Failed
    }

    // How a call ends that is no transfer.
    fn end(&mut self, ending: Ending) -> Result<(), CallFault>
        ensures refused { self.new.refused ≡ self.old.refused + refusals result }
        ensures interrupted { self.new.interrupted ≡ self.old.interrupted }
    {
        match ending {
            Ending::Told => Ok(()),
            Ending::Interrupted => Err(CallFault::Interrupted),
            Ending::Failed => Err(self.refuse()),
        }
    }

    // How a transfer ends that moved so many bytes of those it was asked for.
    fn end_transfer(
        &mut self,
        ending: Ending,
        asked: usize,
        moved: usize,
    ) -> Result<usize, CallFault>
        ensures count { IfOk result (λ n. n ≡ moved) }
        ensures refused { self.new.refused ≡ self.old.refused + transfer_refusals asked result }
        ensures interrupted { CountsUp (interruptions result)
            self.old.interrupted self.new.interrupted }
    {
        match ending {
            Ending::Told if moved > 0 || asked == 0 => Ok(moved),
            Ending::Told if self.refused < u64::MAX => {
                self.refused += 1;
                Ok(moved)
            }
            Ending::Failed if self.refused < u64::MAX => {
                self.refused += 1;
                Err(CallFault::Failed)
            }
            _ => {
                self.interrupted = self.interrupted.saturating_add(1);
                Err(CallFault::Interrupted)
            }
        }
    }
}

impl RawFile for MemoryFile {
    ghost content = { λ m. m.memory.bytes.items };

    ghost is_open = { λ m. open_in m.memory };

    ghost moment = { λ m. moment_of m.memory };

    ghost images_since = { λ m. ImageSince m.memory };

    ghost is_new = { λ m. m.is_new };

    ghost path = { λ m. string_bytes m.path };

    ghost refused = { λ m. m.counts.refused };

    ghost interrupted = { λ m. m.counts.interrupted };

    ghost is_locked = { λ m. m.is_locked };

    ghost is_settled = { λ m. m.is_settled };

    ghost is_named = { λ m. m.is_named };

    ghost is_sure = { λ _. true };

    ghost honest = { Unit {0} };

    // A call that is interrupted finds the lock held.
    fn try_lock(&mut self) -> Result<(), LockFault> {
        match self.counts.end(next_step(&mut self.script).ending) {
            Ok(()) => {
                self.is_locked = true;
                Ok(())
            }
            Err(CallFault::Interrupted) => Err(LockFault::Held),
            Err(CallFault::Failed) => Err(LockFault::Failed),
        }
    }

    fn len(&self) -> Result<u64, CallFault> {
        Ok(self.memory.bytes.len() as u64)
    }

    fn set_len(&mut self, len: u64) -> Result<(), CallFault> {
        self.is_settled = false;
        self.counts.end(next_step(&mut self.script).ending)?;
        match self.memory.set_len(len as usize) {
            Ok(()) => Ok(()),
            Err(_) => Err(self.counts.refuse()),
        }
    }

    fn read_at(&mut self, at: u64, out: &mut [u8]) -> Result<usize, CallFault> {
        let step = next_step(&mut self.script);
        let size = self.memory.bytes.len() as u64;
        if at > size {
            return self.counts.end_transfer(step.ending, out.len(), 0);
        }
        let left = (size - at) as usize;
        let n = out.len().min(step.most).min(left);
        let start = at as usize;
        out[..n].copy_from_slice(&self.memory.bytes[start..start + n]);
        self.counts.end_transfer(step.ending, out.len(), n)
    }

    fn write_at(&mut self, at: u64, bytes: &[u8]) -> Result<usize, CallFault> {
        let step = next_step(&mut self.script);
        let size = self.memory.bytes.len() as u64;
        if at > size {
            return self.counts.end_transfer(step.ending, bytes.len(), 0);
        }
        let left = (size - at) as usize;
        let n = bytes.len().min(step.most).min(left);
        let Ok(()) = self.memory.write(at, &bytes[..n]) else {
            return self.counts.end_transfer(Ending::Failed, bytes.len(), 0);
        };
        self.counts.end_transfer(step.ending, bytes.len(), n)
    }

    fn sync_data(&mut self) -> Result<(), CallFault> {
        self.counts.end(next_step(&mut self.script).ending)?;
        match self.memory.sync() {
            Ok(()) => Ok(()),
            Err(_) => Err(self.counts.refuse()),
        }
    }

    fn sync_all(&mut self) -> Result<(), CallFault> {
        self.counts.end(next_step(&mut self.script).ending)?;
        match self.memory.sync() {
            Ok(()) => {
                self.is_settled = true;
                Ok(())
            }
            Err(_) => Err(self.counts.refuse()),
        }
    }

    ghost counts_now = { λ m t image honest settled le now. image_now _ _ _ _ now };

    ghost counts_before = { λ m t u image honest le since.
        image_before _ _ _ _ _ (fewer_left (length m.memory.calls.items) t u le) since };

    ghost only_now = { λ m image honest settled since. only_image_now _ _ _ _ since };
}
