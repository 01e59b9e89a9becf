//! Words that stand in the texts of documents in a row.

ghost use Rattle.std.specs.Prelude.{◌≡◌, map, IfOk, OnOk};
ghost use Rattle.std.specs.List.{filter};
ghost use Rattle.std.specs.List.Sorted.{IsStrictlyIncreasing};
ghost use Rattle.pk_live.specs.InRow.{stands};
ghost use Rattle.pk_model.specs.Views.{doc_of};
ghost use Rattle.pk_words.specs.Rows.{IsTable, texts};

use pk_model::Document;
use pk_words::{has_row, row_table};
use std::alloc::{AllocError, Global};

/// Keeps of the numbers those of documents in whose texts the words stand in a row. `live` has the
/// number of each document.
pub(crate) fn keep_in_row(
    alloc: Global,
    live: &[u32],
    documents: &[Document],
    row: &[&str],
    numbers: &mut Vec<u32>,
) -> Result<(), AllocError>
    requires { IsStrictlyIncreasing live.now }
    ensures { OnOk result (numbers.new.items
        ≡ filter (stands (texts row.now) live.now (map doc_of documents.now)) numbers.old.items) }
{
    let table = row_table(alloc, row)?;
    let mut piece = String::new(alloc);
    let mut kept = Vec::new(alloc);
    for i in 0..numbers.len() {
        let number = numbers[i];
        let stands = stands_at(live, documents, row, &table, &mut piece, number)?;
        if stands {
            kept.push(number)?;
        }
    }
    *numbers = kept;
    Ok(())
}

// Whether the words stand in the text of the document of this number in a row; not without one.
fn stands_at(
    live: &[u32],
    documents: &[Document],
    row: &[&str],
    table: &[usize],
    piece: &mut String,
    number: u32,
) -> Result<bool, AllocError>
    requires live { IsStrictlyIncreasing live.now }
    requires table { IsTable (texts row.now) table.now }
    ensures { IfOk result (λ found.
        found ≡ stands (texts row.now) live.now (map doc_of documents.now) number) }
{
    let Ok(place) = live.binary_search(&number) else {
        return Ok(false);
    };
    if place >= documents.len() {
        return Ok(false);
    }
    has_row(row, table, piece, documents[place].text.as_str())
}
