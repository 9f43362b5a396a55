//! A line of a proof as it is kept.
ghost use Rattle.std.specs.Prelude.{
  ◌≡◌,
  ◌+◌,
  ◌<◌,
  ◌==◌,
  not,
  length,
  slice_set,
  slice_index_or,
  All,
  IfOk,
};
ghost use Rattle.std.specs.List.{list_all, list_any};
ghost use Rattle.audit_proof.specs.Lines.{listed_in};
ghost use Rattle.audit_proof.specs.inside.Falls.{Falls};
ghost use Rattle.audit_proof.specs.inside.Packing.{unpacked};
ghost use Rattle.audit_proof.specs.inside.Begun.{line_with};

use crate::step::ProofStep;
use crate::steps::{are_even, is_listed};
use precedence::Arrows;
use std::alloc::{AllocError, Global};
use std::marker::Model;

/// A line of a proof in little memory. It has a table instead of the steps where that is no larger.
#[derive(Drop)]
pub(crate) struct PackedLine {
    entry: u32,
    /// For each survivor from 0 up to the greatest ancestor, one more than the entry via which it
    /// is reached, and 0 where it isn't listed.
    table: Vec<u16>,
    /// The steps, where there is no table.
    steps: Vec<ProofStep>,
}

impl Model for PackedLine {
    ghost use Rattle.std.specs.Prelude.{◌++◌};
    ghost use Rattle.audit_proof.specs.Lines.{Line};
    ghost use Rattle.audit_proof.specs.inside.Packing.{unpacked};

    ghost Value = { Line };

    ghost view = { λ line.
        record { entry = line.entry; steps = unpacked line.table.items ++ line.steps.items } };
}

impl PackedLine {
    /// The line of the entry with these steps.
    pub(crate) fn of(
        alloc: Global,
        entry: u32,
        mut steps: Vec<ProofStep>,
    ) -> Result<PackedLine, AllocError>
        requires falls { Falls steps.items }
        requires small { All (λ step. step.via < 65535) steps.items }
        ensures { IfOk result (λ line. line ≡ line_with entry steps.items) }
    {
        // A table takes two bytes for each survivor that it reaches, a step takes eight.
        if reach_of(&steps) / 4 <= steps.len() {
            Ok(PackedLine {
                entry,
                table: table_of(alloc, &steps)?,
                steps: Vec::new(alloc),
            })
        } else {
            steps.shrink_to_fit();
            Ok(PackedLine {
                entry,
                table: Vec::new(alloc),
                steps,
            })
        }
    }
}

/// One more than the greatest of these ancestors, or 0 where there is none.
#[tactic(auto, using(crate::proofs::Listings::first_greatest))]
fn reach_of(steps: &[ProofStep]) -> usize
    requires { Falls steps.now }
    ensures { All (λ step. step.ancestor < result) steps.now }
{
    match steps {
        [] => 0,
        [first, ..] => first.ancestor as usize + 1,
    }
}

/// The table of these steps.
fn table_of(alloc: Global, steps: &[ProofStep]) -> Result<Vec<u16>, AllocError>
    requires falls { Falls steps.now }
    requires small { All (λ step. step.via < 65535) steps.now }
    ensures { IfOk result (λ table. unpacked table.items ≡ steps.now) }
{
    let mut table = vec![in alloc; 0; reach_of(steps)]?;
    for step in steps {
        enter(&mut table, *step);
    }
    Ok(table)
}

/// Enters a step.
fn enter(table: &mut Vec<u16>, step: ProofStep)
    requires place { step.ancestor < length table.old.items }
    requires small { step.via < 65535 }
    ensures { table.new.items ≡ slice_set table.old.items step.ancestor (step.via + 1) }
{
    table[step.ancestor as usize] = step.via as u16 + 1;
}

/// What is at a place of the table, and 0 past its end.
fn code_at(table: &[u16], place: usize) -> u16
    ensures { result ≡ slice_index_or table.now place 0 }
{
    match table.get(place) {
        Some(code) => *code,
        None => 0,
    }
}

/// The line's entry.
pub(crate) fn entry_of(line: &PackedLine) -> usize
    ensures { result ≡ line.now.entry }
{
    line.entry as usize
}

/// Whether the line lists `y`.
pub(crate) fn lists(line: &PackedLine, y: usize) -> bool
    requires { Falls line.now.steps }
    ensures { result ≡ list_any (λ z. z == y) (listed_in line.now.steps) }
{
    has_code(&line.table, y) || is_listed(&line.steps, y)
}

/// Whether the table lists `y`.
#[tactic(auto, using(crate::proofs::Listings::table_lists))]
fn has_code(table: &[u16], y: usize) -> bool
    ensures { result ≡ list_any (λ z. z == y) (listed_in (unpacked table.now)) }
{
    code_at(table, y) != 0
}

/// Whether nothing that the line lists is ragged.
pub(crate) fn lists_no_ragged<A: Arrows>(graph: &A, line: &PackedLine) -> bool
    requires { All (λ step. step.ancestor < (A.graph graph.now).count) line.now.steps }
    ensures { result
        ≡ list_all (λ y. not ((A.graph graph.now).ragged y)) (listed_in line.now.steps) }
{
    is_even(graph, &line.table) && are_even(graph, &line.steps)
}

/// Whether nothing that the table lists is ragged.
fn is_even<A: Arrows>(graph: &A, table: &[u16]) -> bool
    requires { All (λ step. step.ancestor < (A.graph graph.now).count) (unpacked table.now) }
    ensures { result
        ≡ list_all (λ y. not ((A.graph graph.now).ragged y)) (listed_in (unpacked table.now)) }
{
    for place in 0..table.len() {
        if has_code(table, place) && graph.ragged(place) {
            return false;
        }
    }
    true
}
