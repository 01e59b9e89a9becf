//! A shared file whose writers can be kept away.

ghost use Rattle.std.specs.Option.{is_some};
ghost use Rattle.std.specs.Prelude.{◌≡◌, ℕ, Bool, List, false, IfNone};
ghost use Rattle.pk_manifest.specs.Evolves.{Evolves};

use crate::shared::SharedFile;

/// A shared file whose writers can be kept away, by who would begin anew for ever beside them. Of
/// its bytes nothing is promised: whether no one writes meanwhile is up to the writers.
pub trait HeldFile: SharedFile {
    /// What who keeps writers away has to give back. It is linear: a caller that lets it go does not
    /// compile.
    type Hold;

    /// Whether writers are kept away through this opening of the file.
    ghost is_held: { Self → Bool };

    /// That writers were asked to stay away when these were the bytes.
    ghost asked_at: { List ℕ → Type 0 };

    /// Keeps writers away until the `Hold` is given back. There is none where there is a writer.
    fn hold(&mut self) -> Option<Self::Hold>
        ensures evolves { Self.SharedFile.honest
            → Evolves (Self.SharedFile.content self.old) (Self.SharedFile.content self.new) }
        ensures failed { Self.SharedFile.honest
            → Self.SharedFile.failed self.new ≡ Self.SharedFile.failed self.old }
        ensures interrupted { Self.SharedFile.honest
            → Self.SharedFile.interrupted self.new ≡ Self.SharedFile.interrupted self.old }
        ensures asked { asked_at (Self.SharedFile.content self.new) }
        ensures held { Self.SharedFile.honest → is_held self.new ≡ is_some result }
        ensures not_held { IfNone result (is_held self.new ≡ false) };

    /// Takes back a `Hold`, and lets writers come.
    fn release(&mut self, hold: Self::Hold)
        ensures evolves { Self.SharedFile.honest
            → Evolves (Self.SharedFile.content self.old) (Self.SharedFile.content self.new) }
        ensures failed { Self.SharedFile.honest
            → Self.SharedFile.failed self.new ≡ Self.SharedFile.failed self.old }
        ensures interrupted { Self.SharedFile.honest
            → Self.SharedFile.interrupted self.new ≡ Self.SharedFile.interrupted self.old }
        ensures released { is_held self.new ≡ false };
}
