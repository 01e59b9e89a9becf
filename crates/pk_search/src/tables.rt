//! What finds keep: of the dictionaries of segments, and where they work.

use crate::planned::Room;
use pk_lookup::WordTables;
use std::alloc::Global;

/// What is kept from find to find: the tables by which words are looked up, the memory that a find
/// took for the numbers of lists, where it is not much, and whether a find met damage so far.
///
/// The filters among the tables are believed: let them agree with the open segments, then they do so
/// after a find too; new ones do.
#[derive(Drop)]
pub struct FindTables {
    pub(crate) words: WordTables,
    pub(crate) room: Room,
}

impl FindTables {
    ghost use Rattle.std.specs.Prelude.{◌≡◌, [], false};
    ghost use Rattle.pk_lookup.specs.FilterBytes.{KeepsLimit};
    ghost use Rattle.pk_lookup.specs.Filtered.{filters_of};
    ghost use Rattle.pk_search.specs.Rooms.{IsSmall};

    /// No table and no filter yet. Their memory is taken as segments are searched.
    pub fn new(alloc: Global) -> FindTables
        ensures filters { filters_of result.words ≡ [] }
        ensures limit { KeepsLimit result.words.filters }
        ensures room { IsSmall result.room }
        ensures damage { result.room.damage.met ≡ false }
    {
        FindTables {
            words: WordTables::new(alloc),
            room: Room::new(alloc),
        }
    }
}
