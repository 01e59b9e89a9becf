//! Bytes that are lent, a stretch at a time.

ghost use Rattle.std.specs.Prelude.{◌≡◌, ◌≤◌, ◌<◌, ◌+◌, ◌^◌, ◌↔◌};
ghost use Rattle.std.specs.Prelude.{ℕ, List, length, take, drop, IfOk, IsOk, IsErrOf};
ghost use Rattle.std.proofs.Common.{refl, ◌∙◌};
ghost use Rattle.std.specs.Borrow.{sem};
ghost use Rattle.std.specs.Io.BufRead.{Rests};
ghost use Rattle.pk_posting.specs.Source.{IsAskedOnce};
ghost use Rattle.pk_posting.specs.Limits.{most_lent};

/// How many bytes a source lends at once, at most.
pub const MOST_LENT: usize = 4096;

/// Why a source lends no bytes.
#[derive(Clone, Copy, Debug, PartialEq, Eq, Drop)]
pub enum SourceFault {
    /// The stretch asked for goes past the source's end. Nothing below was read.
    Damaged,
    /// What lies below failed, and the source's count of failures rose.
    Disk,
}

/// Bytes that are lent, a stretch at a time. After a refusal the source is as before, but for its
/// counts, and may be asked again.
pub trait ByteSource {
    /// All its bytes. Their number never changes.
    ghost content: { Self → List ℕ };

    /// That calls give these bytes: a fact about the type, as the honesty of a disk below.
    ghost honest: { Type 0 };

    /// How often what lies below failed.
    ghost failures: { Self → ℕ };

    /// How often `bytes` was called, refused calls too.
    ghost asked: { Self → ℕ };

    /// What calls keep of what lies below.
    ghost keeps: { Self → Self → Type 0 };

    /// How many bytes it has.
    fn len(&self) -> u32
        ensures { result ≡ length (content self.now) };

    /// Lends the `n` bytes from the place `at` on.
    fn bytes(&mut self, at: u32, n: u32) -> Result<&[u8], SourceFault>
        requires { n ≤ most_lent }
        ensures value { honest → IfOk result (λ s. s.now ≡ take n (drop at (content self.old))) }
        ensures lent { IfOk result (λ s. length s.now ≡ n) }
        ensures inside { IsOk result → at + n ≤ length (content self.old) }

        // Past the end it is Damaged, also where the disk would fail.
        ensures damaged { IsErrOf result SourceFault.Damaged
            ↔ (length (content self.old) < at + n) }

        ensures* after { sem 𝓛 (Rests Self.row self.entry (λ new.
            IsAskedOnce Self.honest Self.content Self.asked Self.failures Self.keeps
            result self.old new)) };

    /// How many calls of `bytes` there were so far, refused ones too. At 2^64 - 1 it stays.
    fn asked(&self) -> u64
        ensures { result ≡ asked self.now };

    /// A source keeps what lies below as it is.
    ghost keeps_self: { (a : Self) → keeps a a };

    /// Two calls keep what each of them keeps.
    ghost keeps_then: { (a b c : Self) → keeps a b → keeps b c → keeps a c };
}

/// A slice as a source. It lends parts of the slice without copying, and never answers Disk.
#[derive(Drop)]
pub struct SliceSource<'a> {
    bytes: &'a [u8],
    asked: u64,
    ghost short: { length bytes.now < 2 ^ 32 },
}

impl<'a> SliceSource<'a> {
    ghost use Rattle.pk_posting.specs.Slice.{slice_asked, slice_bytes};

    /// The bytes as a source that was not asked yet.
    pub fn new(bytes: &'a [u8]) -> SliceSource<'a>
        requires { length bytes.now < 2 ^ 32 }
        ensures bytes { slice_bytes result ≡ bytes.now }
        ensures asked { slice_asked result ≡ 0 }
    {
        SliceSource { bytes, asked: 0 }
    }
}

impl<'a> ByteSource for SliceSource<'a> {
    ghost use Rattle.pk_posting.specs.Slice.{slice_asked, slice_bytes};

    ghost content = { slice_bytes };

    ghost honest = { Unit {0} };

    ghost failures = { λ _. 0 };

    ghost asked = { slice_asked };

    ghost keeps = { λ a b. slice_bytes b ≡ slice_bytes a };

    ghost keeps_self = { λ _. refl };

    ghost keeps_then = { λ _ _ _ first second. second ∙ first };

    fn len(&self) -> u32 {
        self.bytes.len() as u32
    }

    fn bytes(&mut self, at: u32, n: u32) -> Result<&[u8], SourceFault> {
        self.asked = self.asked.saturating_add(1);
        let start = at as usize;
        let end = start + n as usize;
        if end > self.bytes.len() {
            return Err(SourceFault::Damaged);
        }
        Ok(&self.bytes[start..end])
    }

    fn asked(&self) -> u64 {
        self.asked
    }
}
