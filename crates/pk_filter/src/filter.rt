//! A filter of words.

ghost use Rattle.std.specs.Prelude.{◌≡◌, ◌*◌, ◌+◌, ◌/◌, ◌<◌, ◌↔◌, List};
ghost use Rattle.std.specs.Prelude.{IfOk, IsTrue, MatchResult, length, vec_len};
ghost use Rattle.pk_dict.specs.Dictionary.{DictSpells, Item};
ghost use Rattle.pk_posting.specs.ReadFaults.{CountsReads};
ghost use Rattle.pk_dict.specs.Place.{LiesIn, bytes_at};
ghost use Rattle.pk_posting.specs.Frames.{ReadsSource};

use crate::bits::{has_bits, set_bits};
use crate::hash::WordHash;
use pk_dict::{DictPlace, TermCursor};
use pk_posting::{ByteSource, MOST_LENT, ReadFault};
use std::alloc::{AllocError, Global};

// For how many words there is a block, which has 256 bits.
const WORDS_PER_BLOCK: u32 = 16;

/// A filter of words: which words may be among them.
#[derive(Drop)]
pub struct WordFilter {
    // The lanes of all blocks, one block behind the other.
    pub(crate) lanes: Vec<u32>,
    // How many blocks there are.
    pub(crate) blocks: u32,
    ghost full: { vec_len lanes ≡ 8 * blocks },
    ghost some: { 0 < blocks },
}

impl WordFilter {
    ghost use Rattle.pk_filter.specs.Filter.{HasAll, Passes, bytes_for};
    ghost use Rattle.pk_filter.specs.Words.{HasWordsOf};
    ghost use Rattle.pk_filter.specs.declared.hash.WordHash.{WordHash};

    /// How many bytes one of so many words takes.
    pub fn bytes_for(words: u32) -> usize
        ensures { result ≡ bytes_for words }
    {
        32 * ((words / WORDS_PER_BLOCK) as usize + 1)
    }

    /// That of the words of a dictionary that lies in a source. It is read once, 4,096 bytes at
    /// most at a time.
    pub fn of_dictionary<S: ByteSource>(
        alloc: Global,
        source: &mut S,
        place: DictPlace,
    ) -> Result<WordFilter, ReadFault>
        requires { LiesIn place (length (S.content source.old)) }
        ensures words { S.honest → (es : List Item)
            → DictSpells (bytes_at (S.content source.old) place) es → length es ≡ place.terms
            → MatchResult result (HasAll es) (λ e. e ≡ ReadFault.Damaged → ⊥) }

        // Of any bytes.
        ensures read { S.honest → IfOk result (HasWordsOf (S.content source.old) place) }

        ensures size { IfOk result (λ f. 4 * vec_len f.lanes ≡ bytes_for place.terms) }
        ensures left { ReadsSource S.ByteSource CountsReads result source.old source.new }
    {
        let mut filter = WordFilter::for_words(alloc, place.terms)?;
        let mut words = TermCursor::open(alloc, place, MOST_LENT as u32);
        'words: while words.next(source)? {
            filter.add(WordHash::of(words.word()));
        }
        Ok(filter)
    }

    /// How many bytes it takes.
    pub fn bytes(&self) -> usize
        ensures { result ≡ 4 * vec_len self.now.lanes }
    {
        4 * self.lanes.len()
    }

    /// Whether a word of that hash may be among them: where it says no, none is.
    #[inline(always)]
    pub fn may_have(&self, hash: WordHash) -> bool
        ensures { IsTrue result ↔ Passes self.now hash }
    {
        let block = hash.block(self.blocks);
        has_bits(&self.lanes, 8 * block as usize, hash)
    }

    // One that no word was added to, with blocks for so many.
    fn for_words(alloc: Global, words: u32) -> Result<WordFilter, AllocError>
        ensures { IfOk result (λ f. f.blocks ≡ words / 16 + 1) }
    {
        let blocks = words / WORDS_PER_BLOCK + 1;
        let lanes = vec![in alloc; 0; 8 * blocks as usize]?;
        Ok(WordFilter { lanes, blocks })
    }

    // Lets the words of a hash pass.
    fn add(&mut self, hash: WordHash)
        ensures has { Passes self.new hash }
        ensures keeps { (other : WordHash) → Passes self.old other → Passes self.new other }
        ensures blocks { self.new.blocks ≡ self.old.blocks }
    {
        let block = hash.block(self.blocks);
        set_bits(&mut self.lanes, 8 * block as usize, hash);
    }
}
