//! What the lines of a proof say of the order, found at once.
ghost use Rattle.std.specs.Prelude.{◌≡◌, ◌<◌, ◌&&◌, not, length, All, IfOk};
ghost use Rattle.std.specs.List.{list_all};
ghost use Rattle.audit_proof.specs.Lines.{IsProofOf, listed_in};
ghost use Rattle.audit_proof.specs.inside.Listing.{
  IsListingOf,
  IsSearchable,
  listing_before,
  listing_whole,
};

use crate::packed::{PackedLine, entry_of, lists, lists_no_ragged};
use entry_order::Three;
use precedence::Arrows;
use std::alloc::{AllocError, Global};

/// The lines of a proof, and for each survivor which line is its own, and whether it is whole by
/// it.
#[derive(Drop)]
pub(crate) struct Listing<'a> {
    lines: &'a [PackedLine],
    numbers: Vec<usize>,
    wholes: Vec<bool>,
}

impl<'a> Listing<'a> {
    /// What these lines say of this graph.
    pub(crate) fn make<A: Arrows>(
        alloc: Global,
        graph: &A,
        lines: &'a [PackedLine],
    ) -> Result<Listing<'a>, AllocError>
        requires { IsProofOf (A.graph graph.now) lines.now }
        ensures { IfOk result (IsListingOf (A.graph graph.now) lines.now) }
    {
        let count = graph.count();
        let mut numbers = vec![in alloc; lines.len(); count]?;
        let mut wholes = vec![in alloc; false; count]?;
        for number in 0..lines.len() {
            let line = &lines[number];
            let entry = entry_of(line);
            numbers[entry] = number;
            wholes[entry] = is_whole_line(graph, line);
        }
        Ok(Listing {
            lines,
            numbers,
            wholes,
        })
    }

    /// Whether the survivor is whole by the proof.
    pub(crate) fn whole(&self, x: usize) -> bool
        requires { x < length self.now.wholes.items }
        ensures { result ≡ listing_whole self.now x }
    {
        self.wholes[x]
    }

    /// Whether the survivor `y` comes before the survivor `x`, as far as the proof shows.
    pub(crate) fn before(&self, y: usize, x: usize) -> Three
        requires place { x < length self.now.numbers.items }
        requires searchable { IsSearchable self.now }
        ensures { result ≡ listing_before self.now y x }
    {
        let number = self.numbers[x];
        if number < self.lines.len() && lists(&self.lines[number], y) {
            Three::True
        } else if self.wholes[x] {
            Three::False
        } else {
            Three::Unknown
        }
    }
}

/// Whether neither the line's entry nor what it lists is ragged.
fn is_whole_line<A: Arrows>(graph: &A, line: &PackedLine) -> bool
    requires entry { line.now.entry < (A.graph graph.now).count }
    requires listed { All (λ step. step.ancestor < (A.graph graph.now).count) line.now.steps }
    ensures { result ≡ (not ((A.graph graph.now).ragged line.now.entry)
        && list_all (λ y. not ((A.graph graph.now).ragged y)) (listed_in line.now.steps)) }
{
    !graph.ragged(entry_of(line)) && lists_no_ragged(graph, line)
}
