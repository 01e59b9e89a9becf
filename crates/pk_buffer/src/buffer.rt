//! The buffer.

ghost use Rattle.std.specs.Prelude.{
  ◌≡◌,
  ◌↔◌,
  ◌<◌,
  ◌≤◌,
  ◌-◌,
  ◌^◌,
  ◌∷◌,
  ◌++◌,
  [],
  ℕ,
  List,
  All,
  map,
  filter,
  length,
  min,
  not,
  false,
  true,
  slice_get,
  Some,
  IsTrue,
  IfOk,
  IsOk,
  OnOk,
  OnErr,
  MatchOption,
  string_bytes,
};
ghost use Rattle.pk_plan.specs.declared.plans.Plan.{Plan};
ghost use Rattle.std.specs.List.Sorted.{IsStrictlyIncreasing};
ghost use Rattle.pk_buffer.specs.Buffer.{AreBeside, IsOrdered, text_bytes};
ghost use Rattle.pk_index.specs.Index.{Keeps};
ghost use Rattle.pk_model.specs.Collection.{Doc, answer, has_number, is_live, numbers_of};
ghost use Rattle.pk_model.specs.Steps.{text_of};
ghost use Rattle.pk_model.specs.Tree.{Term, tree_of};
ghost use Rattle.pk_model.specs.Views.{doc_of, numbers_in};
ghost use Rattle.pk_plan.specs.Plans.{means};

use pk_index::Index;
use pk_live::{find, find_planned};
use pk_model::{DocNo, Document, Query};
use pk_plan::Planned;
use std::alloc::{AllocError, Global};
use std::marker::Model;

/// Documents in the order of their numbers, with an index of their words.
#[derive(Drop)]
pub struct Buffer {
    /// Where later calls take their memory from.
    alloc: Global,
    /// The documents, their numbers rising.
    documents: Vec<Document>,
    /// The number of each of them: the live numbers, of which the index is asked.
    numbers: Vec<u32>,
    /// For each word the numbers of the documents that hold it, and of some that are gone.
    index: Index,
    /// The sum of the lengths of the texts: no memory holds so many that it would pass the type.
    bytes: u128,
}

impl Model for Buffer {
    ghost Value = { List Doc };

    ghost view = { λ b. map doc_of b.documents.items };

    ghost invariant = { λ b.
        AreBeside (map doc_of b.documents.items) b.numbers.items b.index b.bytes };
}

/// The numbers as those of documents.
fn doc_numbers(alloc: Global, numbers: &[u32]) -> Result<Vec<DocNo>, AllocError>
    ensures numbers { IfOk result (λ v. numbers_in v.items ≡ numbers.now) }
    ensures none { numbers.now ≡ [] → IsOk result }
{
    let mut found = Vec::with_capacity(alloc, numbers.len())?;
    'numbers: for number in numbers {
        found.push(DocNo(*number))?;
    }
    Ok(found)
}

/// Takes each word out of an index of no document: words of documents that are gone stand in it.
fn forget_words_of_none(documents: &[Document], index: &mut Index)
    ensures keeps { Keeps index.old (map doc_of documents.now)
        → Keeps index.new (map doc_of documents.now) }
    ensures empty { map doc_of documents.now ≡ [] → index.new ≡ [] }
{
    if documents.is_empty() {
        index.clear();
    }
}

impl Buffer {
    /// A buffer without a document. Its later calls take their memory from `alloc`.
    pub fn new(alloc: Global) -> Self
        ensures { result ≡ [] }
    {
        // A new index is one of no document, and a cleared one has no word besides.
        let mut index = Index::new(alloc);
        index.clear();
        Buffer {
            alloc,
            documents: Vec::new(alloc),
            numbers: Vec::new(alloc),
            index,
            bytes: 0,
        }
    }

    /// Puts a document behind the others.
    pub fn add(&mut self, number: DocNo, text: &str) -> Result<(), AllocError>
        requires at_least_one { 1 ≤ number.0 }
        requires above { All (λ d. d.number < number.0) self.old }
        ensures ok { OnOk result
            (self.new ≡ self.old ++ (record { number = number.0; text = text.now }) ∷ []) }
        ensures err { OnErr result (self.new ≡ self.old) }
    {
        let copy = String::from_str(self.alloc, text)?;
        let len = copy.len();
        self.numbers.push(number.0)?;
        if let Err(failed) = self.documents.push(Document { number, text: copy }) {
            let _ = self.numbers.pop();
            return Err(failed.into());
        }
        if let Err(refused) = self.index.add(self.alloc, number.0, text) {
            let _ = self.numbers.pop();
            let _ = self.documents.pop();
            forget_words_of_none(&self.documents, &mut self.index);
            return Err(refused);
        }
        self.bytes += len as u128;
        Ok(())
    }

    /// The index of the document of this number, by halving.
    fn index_of(&self, number: DocNo) -> Option<usize>
        ensures { MatchOption result
            (is_live number.0 self.now ≡ false)
            (λ index. slice_get (numbers_of self.now) index ≡ Some number.0) }
    {
        self.numbers.binary_search(&number.0).ok()
    }

    /// Takes the document of this number out, and says whether there was one.
    pub fn remove(&mut self, number: DocNo) -> bool
        ensures found { IsTrue result ↔ IsTrue (is_live number.0 self.old) }
        ensures others { self.new ≡ filter (λ d. not (has_number number.0 d)) self.old }
    {
        match self.index_of(number) {
            None => false,
            Some(index) => {
                let document = self.documents.remove(index);
                let _ = self.numbers.remove(index);
                forget_words_of_none(&self.documents, &mut self.index);
                self.bytes -= document.text.len() as u128;
                true
            }
        }
    }

    /// The numbers of the documents whose words satisfy the query, rising.
    pub fn find(&self, alloc: Global, query: &Query) -> Result<Vec<DocNo>, AllocError>
        ensures found { IfOk result
            (λ v. numbers_in v.items ≡ answer (tree_of query.now) self.now) }
        // One word that no document holds takes no memory.
        ensures none { (word : List ℕ) → tree_of query.now ≡ Term word
            → answer (Term word) self.now ≡ [] → IsOk result }
    {
        let hits = find(alloc, &self.index, query, &self.numbers, &self.documents)?;
        doc_numbers(alloc, &hits)
    }

    /// The numbers of the documents that the planned query finds, rising.
    pub fn find_planned(&self, alloc: Global, planned: &Planned) -> Result<Vec<DocNo>, AllocError>
        ensures found { IfOk result (λ v. numbers_in v.items ≡ means planned.now self.now) }
        ensures rising { IsStrictlyIncreasing (numbers_of self.now) }
        // One word that no document holds takes no memory.
        ensures none { (place : ℕ) → planned.now.plan ≡ Plan.Term place
            → means planned.now self.now ≡ [] → IsOk result }
    {
        let found = find_planned(alloc, &self.index, planned, &self.numbers, &self.documents)?;
        doc_numbers(alloc, &found)
    }

    /// The text of the document of this number, if there is one.
    pub fn text_of(&self, alloc: Global, number: DocNo) -> Result<Option<String>, AllocError>
        ensures text { IfOk result (λ found. MatchOption found
            (is_live number.0 self.now ≡ false)
            (λ text. (is_live number.0 self.now ≡ true)
            × (string_bytes text ≡ text_of number.0 self.now))) }
        // That there is none takes no memory.
        ensures missing { is_live number.0 self.now ≡ false → IsOk result }
    {
        match self.index_of(number) {
            None => Ok(None),
            Some(index) => Ok(Some(self.documents[index].text.clone()?)),
        }
    }

    /// The documents, in the order of their numbers.
    pub fn documents(&self) -> &[Document]
        ensures documents { map doc_of result.now ≡ self.now }
        ensures ordered { IsOrdered self.now }
    {
        &self.documents
    }

    /// The index of the documents' words. Numbers of others may stand in it, but not of a buffer
    /// without a document.
    pub fn index(&self) -> &Index
        ensures keeps { Keeps result.now self.now }
        ensures empty { self.now ≡ [] → result.now ≡ [] }
        ensures rising { IsStrictlyIncreasing (numbers_of self.now) }
    {
        &self.index
    }

    /// Takes all documents out.
    pub fn clear(&mut self)
        ensures { self.new ≡ [] }
    {
        self.documents.clear();
        self.numbers.clear();
        self.index.clear();
        self.bytes = 0;
    }

    /// How many documents there are.
    pub fn len(&self) -> usize
        ensures { result ≡ length self.now }
    {
        self.documents.len()
    }

    /// Whether there is no document.
    pub fn is_empty(&self) -> bool
        ensures { IsTrue result ↔ (length self.now ≡ 0) }
    {
        self.documents.is_empty()
    }

    /// The sum of the lengths of the texts, and the greatest `u64` where it would pass that.
    pub fn bytes(&self) -> u64
        ensures { result ≡ min (text_bytes self.now) (2 ^ 64 - 1) }
    {
        u64::try_from(self.bytes).unwrap_or(u64::MAX)
    }
}
