//! What a file promises that another program may be writing.

ghost use Rattle.std.specs.Prelude.{◌≡◌, ◌≤◌, ◌+◌, ◌%◌, List, ℕ, length, take, IfOk};
ghost use Rattle.pk_filedisk.specs.Raw.{refusals, transfer_refusals};
ghost use Rattle.pk_manifest.specs.Evolves.{Evolves};
ghost use Rattle.pk_snapshot.specs.Counted.{count_after, interruptions, refusals_at_once};
ghost use Rattle.pk_snapshot.specs.Shared.{AreSeen, SeenAtOnce};

use pk_filedisk::CallFault;

/// An open file that is only read, and that another program may write at any time by the rule of
/// gates and bodies, also during a call.
pub trait SharedFile {
    /// The bytes now.
    ghost content: { Self → List ℕ };

    /// The bytes as they were when they were marked last.
    ghost marked: { Self → List ℕ };

    /// How many of its calls failed, up to 2^64 - 1: also a read that gave none of the bytes that were
    /// asked for, and one at once that gave fewer.
    ghost failed: { Self → ℕ };

    /// How many of its calls were interrupted by a signal.
    ghost interrupted: { Self → ℕ };

    /// That the calls keep what is said of bytes and counts.
    ghost honest: { Type 0 };

    /// Marks the bytes as they are. It does nothing that a program sees.
    fn mark(&mut self)
        ensures marked { honest → marked self.new ≡ content self.new }
        ensures evolves { honest → Evolves (content self.old) (content self.new) }
        ensures failed { honest → failed self.new ≡ failed self.old }
        ensures interrupted { honest → interrupted self.new ≡ interrupted self.old };

    /// The number of its bytes.
    fn len(&mut self) -> Result<u64, CallFault>
        ensures given { honest → IfOk result (λ n. n ≡ length (content self.new)) }
        ensures bytes { honest → content self.new ≡ content self.old }
        ensures marked { honest → marked self.new ≡ marked self.old }
        ensures failed { honest
            → failed self.new ≡ count_after (failed self.old) (refusals result) }
        ensures interrupted { honest
            → interrupted self.new ≡ interrupted self.old + interruptions result };

    /// Fills the start of `out` with bytes from a position on, and tells how many. Each stood at its
    /// position at some moment of the call, and no two of them need have done so at the same one.
    /// Where it gives none of some that are asked for, it has failed.
    fn read_at(&mut self, at: u64, out: &mut [u8]) -> Result<usize, CallFault>
        ensures count { IfOk result (λ n. n ≤ length out.old) }
        ensures given { honest → IfOk result
            (λ n. AreSeen (content self.old) (content self.new) at n out.new) }
        ensures evolves { honest → Evolves (content self.old) (content self.new) }
        ensures marked { honest → marked self.new ≡ marked self.old }
        ensures failed { honest → failed self.new
            ≡ count_after (failed self.old) (transfer_refusals (length out.old) result) }
        ensures interrupted { honest
            → interrupted self.new ≡ interrupted self.old + interruptions result };

    /// Fills the start of `out` with bytes that stood there at one moment of the call, and tells how
    /// many: at most eight are asked for, within eight that begin at a multiple of eight. Where it
    /// gives fewer, as at the end of the file, it has failed.
    fn read_at_once(&mut self, at: u64, out: &mut [u8]) -> Result<usize, CallFault>
        requires { at % 8 + length out.old ≤ 8 }
        ensures given { honest → IfOk result
            (λ n. SeenAtOnce (content self.old) (content self.new) at (take n out.new)) }
        ensures evolves { honest → Evolves (content self.old) (content self.new) }
        ensures marked { honest → marked self.new ≡ marked self.old }
        ensures failed { honest → failed self.new
            ≡ count_after (failed self.old) (refusals_at_once (length out.old) result) }
        ensures interrupted { honest
            → interrupted self.new ≡ interrupted self.old + interruptions result };

    /// What was marked came before what is there now.
    ghost marked_before: { (file : Self) → honest → Evolves (marked file) (content file) };
}
