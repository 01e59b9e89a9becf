//! What a growth came to, and why there was none.

use pk_manifest::ManifestFault;

/// What a growth came to.
#[derive(Clone, Copy, Debug, PartialEq, Eq)]
pub enum Growth {
    /// The store had fewer units, and has as many as were asked for.
    Grown,
    /// The store had as many units. Nothing was written.
    AsItWas,
}

/// Why a store was not grown, or may not have been.
#[derive(Clone, Copy, Debug, PartialEq, Eq)]
pub enum GrowFault {
    /// The store has more units than were asked for. Nothing was written.
    Shorter,
    /// Its body was not read, or none was put in its place. At `Disk` each image has the store with
    /// the units that it had or with those that were asked for; at the others no body was written.
    Store(ManifestFault),
}

impl From<ManifestFault> for GrowFault {
    ghost use Rattle.std.specs.Prelude.{◌≡◌};
    ghost use Rattle.pk_grow.specs.declared.fault.GrowFault.TheVariants.{Store};

    ghost from_gives = { λ fault grow. grow ≡ Store fault };

    fn from(fault: ManifestFault) -> GrowFault {
        GrowFault::Store(fault)
    }
}
