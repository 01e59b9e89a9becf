//! Whether damage was met. No answer rests on it: by it the clauses say that damage which is met is
//! answered, whatever the bytes are.

use pk_segment::ReadFault;

/// Whether a call answered `Damaged`. Once that is noted it stays so.
#[derive(Drop)]
pub struct Damage {
    met: bool,
}

impl Damage {
    ghost use Rattle.std.specs.Prelude.{◌≡◌, false};
    ghost use Rattle.pk_lookup.specs.Damages.{NotesDamage};

    /// None did so far.
    pub fn new() -> Damage
        ensures { result.met ≡ false }
    {
        Damage { met: false }
    }

    /// Notes the damage that a call answered, if it did.
    pub fn note<T>(&mut self, answer: &Result<T, ReadFault>)
        ensures { NotesDamage self.old self.new answer.now }
    {
        if let Err(ReadFault::Damaged) = answer {
            self.met = true;
        }
    }
}
