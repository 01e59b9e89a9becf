//! Many lists of numbers united.
ghost use Rattle.std.specs.Prelude.{◌≡◌, ◌++◌, ◌∷◌, [], IfNone, MatchOption, OnOk, All};
ghost use Rattle.std.specs.List.Sorted.{IsStrictlyIncreasing};
ghost use Rattle.pk_union.specs.Stack.{IsStack, lengths_of};
ghost use Rattle.pk_union.specs.Uniting.{items_of, union_of};
ghost use Rattle.pk_sets.specs.Sets.{union};

use crate::joining::put_either;
use std::alloc::AllocError;

/// Puts a list on a stack of lists that are to be united. It is united with those that are at most
/// twice as long, so each list is more than twice as long as the one above it. A number is written
/// about as often as the stack is high, and that is the logarithm of how many numbers there are;
/// were each list united with all before it, many short lists would take the square of their
/// number. What `spare` holds is open.
pub(crate) fn stack_list(
    lists: &mut Vec<Vec<u32>>,
    list: Vec<u32>,
    spare: &mut Vec<u32>,
) -> Result<(), AllocError>
    requires lists { All IsStrictlyIncreasing (items_of lists.old.items) }
    requires list { IsStrictlyIncreasing list.items }
    ensures numbers { OnOk result (union_of (items_of lists.new.items)
        ≡ union (union_of (items_of lists.old.items)) list.items) }
    // Also where memory is refused. So the stack is no higher than the logarithm.
    ensures rising { All IsStrictlyIncreasing (items_of lists.new.items) }
    ensures stack { IsStack (lengths_of lists.old.items) → IsStack (lengths_of lists.new.items) }
{
    let mut top = list;
    'shorter: while let Some(below) = pop_short(lists, top.len()) {
        put_either(&mut top, &below, spare)?;
    }
    lists.push(top)?;
    Ok(())
}

// Takes the list at the top off, if it is at most twice as long.
fn pop_short(lists: &mut Vec<Vec<u32>>, len: usize) -> Option<Vec<u32>>
    ensures popped { MatchOption result (lists.new.items ≡ lists.old.items)
        (λ list. lists.old.items ≡ lists.new.items ++ list ∷ []) }
    ensures stack { IfNone result (IsStack (lengths_of lists.old.items)
        → IsStack (lengths_of lists.old.items ++ len ∷ [])) }
{
    let is_short = match lists.last() {
        Some(list) => list.len() / 2 <= len,
        None => false,
    };
    if is_short {
        return lists.pop();
    }
    None
}

/// Puts the numbers of all lists of a stack to those that are in `out`; the stack is empty then.
/// What `spare` holds is open.
pub(crate) fn unite_onto(
    lists: &mut Vec<Vec<u32>>,
    out: &mut Vec<u32>,
    spare: &mut Vec<u32>,
) -> Result<(), AllocError>
    requires lists { All IsStrictlyIncreasing (items_of lists.old.items) }
    requires out { IsStrictlyIncreasing out.old.items }
    ensures numbers { OnOk result (out.new.items
        ≡ union (union_of (items_of lists.old.items)) out.old.items) }
    ensures rising { OnOk result (IsStrictlyIncreasing out.new.items) }
    ensures none { OnOk result (lists.new.items ≡ []) }
    // Also where memory is refused.
    ensures left { All IsStrictlyIncreasing (items_of lists.new.items) }
    ensures stack { IsStack (lengths_of lists.old.items) → IsStack (lengths_of lists.new.items) }
{
    'lists: while let Some(below) = lists.pop() {
        put_either(out, &below, spare)?;
    }
    Ok(())
}
