//! A file in memory that changes once.

ghost use Rattle.std.specs.Prelude.{◌≡◌, ◌≤◌, ◌<◌, ◌+◌, true, false, length, take, drop, if◌then◌else◌};
ghost use Rattle.pk_changingfile.specs.Going.{MayGo};
ghost use Rattle.pk_filedisk.specs.Raw.{refusals_to_move};
ghost use Rattle.pk_snapshot.specs.Counted.{count_after};

use pk_filedisk::CallFault;
use pk_snapshot::{HeldFile, SharedFile};

/// A file in memory that has other bytes once some calls are made: in the course of the next one.
#[derive(Drop)]
pub struct ChangingFile {
    before: Vec<u8>,
    after: Vec<u8>,
    // How many calls come before that.
    left: u64,
    has_changed: bool,
    // Whether the bytes were marked since.
    marked_after: bool,
    // How many reads failed: those past the end.
    failed: u64,
    ghost goes: { MayGo before.items after.items },
    ghost order: { marked_after ≡ true → has_changed ≡ true },
}

// How many failures a read adds: one where it gave none of the bytes that were asked for.
fn failures_of(asked: usize, given: usize) -> u64
    ensures { result ≡ refusals_to_move asked given }
{
    match (asked, given) {
        (0, _) => 0,
        (_, 0) => 1,
        _ => 0,
    }
}

impl ChangingFile {
    /// A file of the first bytes, which has the other ones once so many calls are made.
    pub fn new(before: Vec<u8>, after: Vec<u8>, left: u64) -> ChangingFile
        requires { MayGo before.items after.items }
        ensures before { result.before ≡ before }
        ensures after { result.after ≡ after }
        ensures left { result.left ≡ left }
        ensures begins { result.has_changed ≡ false }
    {
        ChangingFile {
            before,
            after,
            left,
            has_changed: false,
            marked_after: false,
            failed: 0,
        }
    }

    // A read was made, which adds so many failures.
    fn pass(&mut self, failures: u64)
        ensures before { self.new.before ≡ self.old.before }
        ensures after { self.new.after ≡ self.old.after }
        ensures marked { self.new.marked_after ≡ self.old.marked_after }
        ensures failed { self.new.failed ≡ count_after self.old.failed failures }
        ensures stays { self.old.has_changed ≡ true → self.new.has_changed ≡ true }
        ensures due { self.old.left ≡ 0 → self.new.has_changed ≡ true }
        ensures early { 0 < self.old.left → (self.new.left + 1 ≡ self.old.left)
            × (self.new.has_changed ≡ self.old.has_changed) }
    {
        self.failed = self.failed.saturating_add(failures);
        if self.left == 0 {
            self.has_changed = true;
        } else {
            self.left -= 1;
        }
    }

    // The bytes now.
    fn bytes(&self) -> &[u8]
        ensures { result.now ≡ (if self.now.has_changed then self.now.after.items
            else self.now.before.items) }
    {
        if self.has_changed {
            &self.after
        } else {
            &self.before
        }
    }

    // Fills the start of `out`, and tells how much of it.
    fn copy(&self, at: u64, out: &mut [u8]) -> usize
        ensures count { result ≤ length out.old }
        ensures given { take result out.new ≡ take result (drop at (if self.now.has_changed
            then self.now.after.items else self.now.before.items)) }
    {
        let bytes = self.bytes();
        let len = bytes.len() as u64;
        if len <= at {
            return 0;
        }
        let from = at as usize;
        let n = out.len().min(bytes.len() - from);
        out[..n].copy_from_slice(&bytes[from..from + n]);
        n
    }
}

impl SharedFile for ChangingFile {
    ghost use Rattle.pk_changingfile.specs.Going.{content_of, marked_evolves};

    ghost content = { λ f. content_of f.has_changed f.before.items f.after.items };

    ghost marked = { λ f. content_of f.marked_after f.before.items f.after.items };

    ghost failed = { λ f. f.failed };

    ghost interrupted = { λ _. 0 };

    ghost honest = { Unit {0} };

    fn mark(&mut self) {
        self.marked_after = self.has_changed;
    }

    fn len(&mut self) -> Result<u64, CallFault> {
        Ok(self.bytes().len() as u64)
    }

    fn read_at(&mut self, at: u64, out: &mut [u8]) -> Result<usize, CallFault> {
        let n = self.copy(at, out);
        self.pass(failures_of(out.len(), n));
        Ok(n)
    }

    fn read_at_once(&mut self, at: u64, out: &mut [u8]) -> Result<usize, CallFault> {
        let n = self.copy(at, out);
        let is_short = n < out.len();
        self.pass(u64::from(is_short));
        Ok(n)
    }

    ghost marked_before = { λ f honest. marked_evolves f.marked_after f.has_changed f.before.items f.after.items f.goes f.order };
}

/// Nothing is kept away: it changes when it is to.
impl HeldFile for ChangingFile {
    type Hold = ();

    ghost is_held = { λ _. false };

    ghost asked_at = { λ _. Unit {0} };

    fn hold(&mut self) -> Option<()> {
        None
    }

    fn release(&mut self, _hold: ()) {}
}
