//! The union of very many lists: a mark is set for each number, where most of them lie in a range.

ghost use Rattle.std.specs.Prelude.{◌≡◌, ◌+◌, ◌^◌, ◌≤◌, [], All, IsTrue, OnOk, length, take};
ghost use Rattle.std.specs.List.Sorted.{IsStrictlyIncreasing};
ghost use Rattle.pk_union.specs.Union.{IsUnion, IsWithin, marked, numbers_put};
ghost use Rattle.pk_sets.specs.Sets.{union};

use crate::uniting::{stack_list, unite_onto};
use std::alloc::{AllocError, Global};
use std::marker::Model;

// There are marks from so many lists on: a few are merged in less time than a range is gone through.
const FEWEST_LISTS: usize = 16;

// And where the lists together have one number for so many of the range.
const SPARSE: usize = 16;

/// The union of lists that are put one after another. The first lists are merged on a stack. Once
/// there are enough numbers, each number of a range has a mark, a byte, and a list costs a mark for
/// each of its numbers, however many lists there are. A list with a number outside of the range goes
/// onto the stack still.
#[derive(Drop)]
pub struct UnionBuilder {
    alloc: Global,
    // Where the range begins, and how many numbers it has.
    first: u32,
    count: u32,
    // How many lists were put, and how many numbers they have, a number of two lists twice.
    puts: usize,
    numbers: usize,
    // The marks of the range, or none before it is time for them.
    marks: Vec<bool>,
    // The stack: the lists whose numbers are not marked.
    lists: Vec<Vec<u32>>,
    spare: Vec<u32>,
}

impl Model for UnionBuilder {
    ghost use Rattle.std.specs.Prelude.{ℕ, List};
    ghost use Rattle.pk_union.specs.Marks.{AreFew};
    ghost use Rattle.pk_union.specs.Union.{IsUnion, numbers_put};

    ghost Value = { List ℕ };

    ghost view = { λ u. numbers_put u.first u.marks.items u.lists.items };

    ghost invariant = { λ u. IsUnion u.first u.count u.marks.items u.lists.items
        × AreFew u.numbers u.marks.items };
}

impl UnionBuilder {
    /// A union without a number, which took no memory. Most numbers are expected from the first to
    /// the last one; where they lie elsewhere the union is the same.
    pub fn new(alloc: Global, first: u32, last: u32) -> UnionBuilder
        ensures { result ≡ [] }
    {
        UnionBuilder {
            alloc,
            first,
            count: last.saturating_sub(first).saturating_add(1),
            puts: 0,
            numbers: 0,
            marks: Vec::new(alloc),
            lists: Vec::new(alloc),
            spare: Vec::new(alloc),
        }
    }

    /// Puts the numbers of a list to those that are there. Where memory is refused, it is open which
    /// are there then.
    pub fn put(&mut self, list: &[u32]) -> Result<(), AllocError>
        requires { IsStrictlyIncreasing list.now }
        ensures { OnOk result (self.new ≡ union self.old list.now) }
    {
        self.puts = self.puts.saturating_add(1);
        self.numbers = self.numbers.saturating_add(list.len());
        self.make_marks()?;
        self.place(list)
    }

    // Makes the marks, if it is time for them, and puts what was on the stack again.
    fn make_marks(&mut self) -> Result<(), AllocError>
        ensures { OnOk result (self.new ≡ self.old) }
    {
        if !self.marks.is_empty()
            || self.puts < FEWEST_LISTS
            || self.numbers < self.count as usize / SPARSE
        {
            return Ok(());
        }
        self.marks.resize(self.count as usize, false)?;
        let mut all = Vec::new(self.alloc);
        unite_onto(&mut self.lists, &mut all, &mut self.spare)?;
        self.place(&all)
    }

    // Marks the numbers of a list, or puts it on the stack.
    fn place(&mut self, list: &[u32]) -> Result<(), AllocError>
        requires { IsStrictlyIncreasing list.now }
        ensures { OnOk result (self.new ≡ union self.old list.now) }
    {
        if lies_within(list, self.first, self.marks.len()) {
            mark_all(list, self.first, &mut self.marks);
            return Ok(());
        }
        let mut copy = Vec::new(self.alloc);
        copy.extend_from_slice(list)?;
        stack_list(&mut self.lists, copy, &mut self.spare)
    }

    /// Puts the numbers that are there into `out`. It takes the memory for as many as the range has,
    /// where there are marks.
    pub fn finish(self, out: &mut Vec<u32>) -> Result<(), AllocError>
        ensures numbers { OnOk result (out.new.items ≡ self) }
        ensures rising { OnOk result (IsStrictlyIncreasing out.new.items) }
    {
        let mut builder = self;
        put_marked(builder.first, &builder.marks, out)?;
        unite_onto(&mut builder.lists, out, &mut builder.spare)
    }
}

// Whether each number of a list is one of so many from the first on.
fn lies_within(list: &[u32], first: u32, count: usize) -> bool
    requires { IsStrictlyIncreasing list.now }
    ensures { IsTrue result → All (IsWithin first count) list.now }
{
    if list.is_empty() {
        return true;
    }
    if list[0] < first {
        return false;
    }
    ((list[list.len() - 1] - first) as usize) < count
}

// Marks each number of a list.
fn mark_all(list: &[u32], first: u32, marks: &mut [bool])
    requires { All (IsWithin first (length marks.old)) list.now }
    ensures long { length marks.new ≡ length marks.old }
    ensures numbers { marked first marks.new ≡ union list.now (marked first marks.old) }
{
    for i in 0..list.len() {
        marks[(list[i] - first) as usize] = true;
    }
}

// Puts the marked numbers in the place of what `out` held.
fn put_marked(first: u32, marks: &[bool], out: &mut Vec<u32>) -> Result<(), AllocError>
    requires { first + length marks.now ≤ 2 ^ 32 }
    ensures { OnOk result (out.new.items ≡ marked first marks.now) }
{
    out.resize(marks.len(), 0)?;
    let count = write_marked(first, marks, out);
    out.truncate(count);
    Ok(())
}

// Writes the marked numbers, and answers how many they are.
fn write_marked(first: u32, marks: &[bool], out: &mut [u32]) -> usize
    requires fits { first + length marks.now ≤ 2 ^ 32 }
    requires room { length marks.now ≤ length out.old }
    ensures within { result ≤ length out.new }
    ensures found { take result out.new ≡ marked first marks.now }
{
    let mut count = 0;
    for i in 0..marks.len() {
        // It is written in either case: a branch here is often foreseen wrongly.
        out[count] = first + i as u32;
        count += usize::from(marks[i]);
    }
    count
}
