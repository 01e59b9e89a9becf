//! A dictionary in memory: for what keeps one there, and for tests. The engine reads dictionaries
//! where they lie.

ghost use Rattle.std.specs.Prelude.{◌≡◌, List, length, Ok, IfErr, MatchResult};
ghost use Rattle.pk_dict.specs.Dict.{
  Answers,
  Lists,
  dict_bytes,
  dict_terms,
  prefix_says,
  term_says,
};
ghost use Rattle.pk_dict.specs.Dictionary.{DictSpells, Item, entry_of, items_with_prefix};
ghost use Rattle.pk_dict.specs.Entries.{items_from};

use crate::entries::entries_in;
use crate::entry::{DictFault, DictPlace, Entry};
use crate::look_up::look_up_in;
use pk_posting::{ReadFault, SliceSource};
use std::alloc::Global;
use std::vec::Vec;

/// A dictionary in memory, of so many terms.
#[derive(Clone, Copy)]
pub struct Dict<'a> {
    bytes: &'a [u8],
    terms: u32,
}

impl<'a> Dict<'a> {
    /// The bytes as a dictionary of so many terms. Nothing is read yet.
    pub fn open(bytes: &'a [u8], terms: u32) -> Dict<'a>
        ensures bytes { dict_bytes result ≡ bytes.now }
        ensures terms { dict_terms result ≡ terms }
    {
        Dict { bytes, terms }
    }

    /// The entry of a term, or None where the term is not in the dictionary. It takes no memory.
    pub fn look_up(&self, term: &[u8]) -> Result<Option<Entry>, DictFault>
        ensures value { Answers result
            (term_says (dict_bytes self.now) (dict_terms self.now) term.now) }
        ensures found { (es : List Item) → DictSpells (dict_bytes self.now) es
            → length es ≡ dict_terms self.now → result ≡ Ok (entry_of es term.now) }
        ensures fault { IfErr result (λ e. e ≡ DictFault.Damaged) }
    {
        let Ok(bytes) = u32::try_from(self.bytes.len()) else {
            return Err(DictFault::Damaged);
        };
        let place = DictPlace {
            at: 0,
            bytes,
            terms: self.terms,
        };
        match look_up_in(&mut SliceSource::new(self.bytes), place, term) {
            Ok(entry) => Ok(entry),
            Err(_) => Err(DictFault::Damaged),
        }
    }

    /// The terms that begin with a prefix, each with its entry, rising by bytes. The empty prefix
    /// gives all terms.
    pub fn entries_with_prefix(
        &self,
        alloc: Global,
        prefix: &[u8],
    ) -> Result<Vec<(Vec<u8>, Entry)>, DictFault>
        ensures value { Lists result
            (prefix_says (dict_bytes self.now) (dict_terms self.now) prefix.now) }
        ensures found { (es : List Item) → DictSpells (dict_bytes self.now) es
            → length es ≡ dict_terms self.now
            → MatchResult result (λ v. items_from v.items ≡ items_with_prefix prefix.now es)
            (λ e. e ≡ DictFault.Memory) }
    {
        let Ok(bytes) = u32::try_from(self.bytes.len()) else {
            return Err(DictFault::Damaged);
        };
        let place = DictPlace {
            at: 0,
            bytes,
            terms: self.terms,
        };
        match entries_in(alloc, &mut SliceSource::new(self.bytes), place, prefix) {
            Ok(entries) => Ok(entries),
            Err(ReadFault::Memory) => Err(DictFault::Memory),
            Err(ReadFault::Damaged) => Err(DictFault::Damaged),
            // A slice never answers it.
            Err(ReadFault::Disk) => Err(DictFault::Damaged),
        }
    }
}
