//! The row of one node more.

ghost use Rattle.std.specs.Prelude.{◌≡◌, ℕ, ◌*◌, ◌<◌, ◌≤◌, ◌||◌, ◌==◌, length, IfOk, false};
ghost use Rattle.std.specs.List.{All, list_any};
ghost use Rattle.precedence.specs.Bits.{has_bit, row_has};
ghost use Rattle.precedence.specs.inside.Words.{words_below, HasItsWords};

use crate::bits::{set_bit, take_in};
use std::alloc::{AllocError, Global};
use std::marker::Model;

/// A node's row: one bit for each node below it, whether that is an ancestor. No parent's row is
/// longer.
#[derive(Drop)]
pub struct Row {
    words: Vec<u64>,
}

impl Model for Row {
    ghost use Rattle.std.specs.Prelude.{ℕ, List};

    ghost Value = { List ℕ };

    ghost view = { λ row. row.words.items };
}

impl Row {
    /// The row's words.
    pub fn words(&self) -> &[u64]
        ensures { result.now ≡ self.now }
    {
        &self.words
    }

    // Sets the bit of this node.
    fn set_bit(&mut self, node: usize)
        requires { node < 64 * length self.old }
        ensures bits { (y : ℕ) → has_bit self.new y ≡ ((node == y) || has_bit self.old y) }
        ensures words { length self.new ≡ length self.old }
    {
        set_bit(&mut self.words, node);
    }

    // Takes in each of these parents.
    fn take_in_all(&mut self, rows: &[Row], parents: &[u32])
        requires below { All (λ parent. parent < length rows.now) parents.now }
        requires words { HasItsWords rows.now }
        requires room { length self.old ≡ words_below (length rows.now) }
        ensures bits { (y : ℕ) → has_bit self.new y ≡ (has_bit self.old y
            || list_any (λ parent. (parent == y) || row_has rows.now parent y) parents.now) }
        ensures words { length self.new ≡ length self.old }
    {
        take_in_each(&mut self.words, rows, parents);
    }
}

/// The row of the node that comes next, by the rows of those before it. The first parent's row is
/// copied, since uniting over fresh memory is slower.
pub fn row_of(alloc: Global, rows: &[Row], parents: &[u32]) -> Result<Row, AllocError>
    requires below { All (λ parent. parent < length rows.now) parents.now }
    requires words { HasItsWords rows.now }
    ensures bits { IfOk result (λ row. (y : ℕ) → has_bit row y
        ≡ list_any (λ parent. (parent == y) || row_has rows.now parent y) parents.now) }
    ensures words { IfOk result (λ row. length row ≡ words_below (length rows.now)) }
{
    let count = words_for(rows.len());
    match parents {
        [] => empty_row(alloc, count),
        [first, rest @ ..] => {
            let first = *first as usize;
            let mut row = begun(alloc, rows[first].words(), first, count)?;
            row.take_in_all(rows, rest);
            Ok(row)
        }
    }
}

// How many words hold a bit for each of this number of nodes.
fn words_for(nodes: usize) -> usize
    ensures words { result ≡ words_below nodes }
    ensures room { nodes ≤ 64 * result }
{
    nodes.div_ceil(64)
}

// A row of this number of words without a bit.
fn empty_row(alloc: Global, count: usize) -> Result<Row, AllocError>
    ensures bits { IfOk result (λ row. (y : ℕ) → has_bit row y ≡ false) }
    ensures words { IfOk result (λ row. length row ≡ count) }
{
    Ok(Row {
        words: vec![in alloc; 0; count]?,
    })
}

// A parent's row, with the parent's own bit and as many more words as are wanted.
fn begun(alloc: Global, row: &[u64], parent: usize, count: usize) -> Result<Row, AllocError>
    requires room { length row.now ≤ count }
    requires within { parent < 64 * count }
    ensures bits { IfOk result (λ begun. (y : ℕ) →
        has_bit begun y ≡ ((parent == y) || has_bit row.now y)) }
    ensures words { IfOk result (λ begun. length begun ≡ count) }
{
    let mut begun = Row {
        words: longer(alloc, row, count)?,
    };
    begun.set_bit(parent);
    Ok(begun)
}

// The words, and zeros after them.
fn longer(alloc: Global, row: &[u64], count: usize) -> Result<Vec<u64>, AllocError>
    requires room { length row.now ≤ count }
    ensures bits { IfOk result (λ words. (y : ℕ) → has_bit words.items y ≡ has_bit row.now y) }
    ensures words { IfOk result (λ words. length words.items ≡ count) }
{
    let mut words = Vec::with_capacity(alloc, count)?;
    words.extend_from_slice(row)?;
    words.resize(count, 0)?;
    Ok(words)
}

// Takes in each of these parents.
fn take_in_each(words: &mut [u64], rows: &[Row], parents: &[u32])
    requires below { All (λ parent. parent < length rows.now) parents.now }
    requires words { HasItsWords rows.now }
    requires room { length words.old ≡ words_below (length rows.now) }
    ensures { (y : ℕ) → has_bit words.new y ≡ (has_bit words.old y
        || list_any (λ parent. (parent == y) || row_has rows.now parent y) parents.now) }
{
    for parent in parents {
        let parent = *parent as usize;
        take_in(words, rows[parent].words(), parent);
    }
}
