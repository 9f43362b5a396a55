//! Tables: rows of cells.
ghost use Rattle.std.specs.Prelude.{◌≡◌, ◌++◌, ◌∷◌, [], IfOk, OnOk, codes};
ghost use Rattle.std.specs.Fmt.{decimal};
ghost use Rattle.report_page.specs.Cells.{number_cell, places_cell, text_cell};

use item_list::Items;
use std::alloc::{AllocError, Global};

/// A text, as bytes.
pub type Text = Items<u8>;

/// A cell of a table: a text, and then links to the rows of survivors.
#[derive(Drop)]
pub struct Cell {
    pub said: Text,
    /// The numbers of the survivors.
    pub places: Items<u32>,
}

/// The cells of a row, from left to right.
pub type TableRow = Items<Cell>;

/// The rows of a table, from top to bottom.
pub type TableRows = Items<TableRow>;

/// A copy of the bytes.
pub(crate) fn text_of(alloc: Global, said: &[u8]) -> Result<Text, AllocError>
    ensures { IfOk result (λ text. text ≡ said.now) }
{
    Ok(Items::from_vec(Vec::from_slice(alloc, said)?))
}

/// Adds a cell with this text.
pub(crate) fn add_text(row: &mut TableRow, alloc: Global, said: &[u8]) -> Result<(), AllocError>
    ensures { OnOk result (row.new ≡ row.old ++ text_cell said.now ∷ []) }
{
    add_linked(row, alloc, said, &[])
}

/// Adds a cell with this number.
pub(crate) fn add_number(row: &mut TableRow, alloc: Global, number: u64) -> Result<(), AllocError>
    ensures { OnOk result (row.new ≡ row.old ++ number_cell number ∷ []) }
{
    let said = format!(in alloc; "{number}")?;
    add_text(row, alloc, said.as_bytes())
}

/// Adds a cell with this text, and links to these survivors.
pub(crate) fn add_linked(
    row: &mut TableRow,
    alloc: Global,
    said: &[u8],
    places: &[u32],
) -> Result<(), AllocError>
    ensures { OnOk result (row.new ≡ row.old ++ places_cell said.now places.now ∷ []) }
{
    let said = text_of(alloc, said)?;
    let places = Items::from_vec(Vec::from_slice(alloc, places)?);
    row.push(Cell { said, places })
}
