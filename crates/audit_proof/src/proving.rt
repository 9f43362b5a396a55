//! Making a proof of all survivors.
ghost use Rattle.std.specs.Prelude.{◌≡◌, ◌++◌, ◌<◌, ◌≤◌, length, IfOk, OnOk, All};
ghost use Rattle.std.specs.List.{flat_map};
ghost use Rattle.std.specs.Fmt.{decimal};
ghost use Rattle.entry_order.specs.Ancestors.{Descends};
ghost use Rattle.audit_proof.specs.inside.Walks.{made_line, noted_all, noted_one, via_at};
ghost use Rattle.audit_proof.specs.Proves.{IsProveAnswer};
ghost use Rattle.audit_proof.specs.ProofText.{head_text, line_text, step_text};

use crate::line::ProofLine;
use crate::step::ProofStep;
use itoa::Buffer;
use precedence::Arrows;
use std::alloc::{AllocError, AllocFailed, Global};
use thiserror::Error;

/// The greatest number of bytes of a proof.
const LIMIT: usize = 67_108_864;

/// Why no proof is made.
#[derive(Clone, Copy, Debug, PartialEq, Eq, Error)]
pub enum ProveFault {
    #[error("the proof has more than 67,108,864 bytes")]
    TooLong,
    #[error("out of memory")]
    Memory,
}

impl From<AllocError> for ProveFault {
    ghost use Rattle.std.specs.Prelude.{◌≡◌};
    ghost use Rattle.audit_proof.specs.declared.proving.ProveFault.TheVariants.{Memory};

    ghost from_gives = { λ _ e. e ≡ Memory };

    fn from(_refused: AllocError) -> ProveFault {
        ProveFault::Memory
    }
}

impl<X: Drop> From<AllocFailed<X>> for ProveFault {
    ghost use Rattle.std.specs.Prelude.{◌≡◌};
    ghost use Rattle.audit_proof.specs.declared.proving.ProveFault.TheVariants.{Memory};

    ghost from_gives = { λ _ e. e ≡ Memory };

    fn from(_refused: AllocFailed<X>) -> ProveFault {
        ProveFault::Memory
    }
}

/// The text of the canonical proof: a line for each survivor, each ancestor on it via the greatest
/// entry that names it.
///
/// # Errors
///
/// `TooLong` where the text has more than 67,108,864 bytes, or `Memory`.
pub fn prove<A: Arrows>(alloc: Global, graph: &A) -> Result<Vec<u8>, ProveFault>
    requires few { (A.graph graph.now).count ≤ 16384 }
    requires descends { Descends (A.graph graph.now).parents }
    ensures { IsProveAnswer (A.graph graph.now) result }
{
    let mut text = Vec::new(alloc);
    push_head(&mut text, graph.count() as u32)?;
    for entry in 0..graph.count() {
        let line = line_at(alloc, graph, entry)?;
        push_line(&mut text, &line)?;
        if text.len() > LIMIT {
            return Err(ProveFault::TooLong);
        }
    }
    Ok(text)
}

/// Appends the first two lines.
fn push_head(text: &mut Vec<u8>, count: u32) -> Result<(), AllocError>
    ensures { OnOk result (text.new.items ≡ text.old.items ++ head_text count) }
{
    text.extend_from_slice(b"proof 1\nentries ")?;
    push_number(text, count)?;
    text.push(b'\n')?;
    Ok(())
}

/// The line of a survivor: its ancestors, the greatest first, each via the greatest entry that
/// names it.
fn line_at<A: Arrows>(alloc: Global, graph: &A, entry: usize) -> Result<ProofLine, AllocError>
    requires few { (A.graph graph.now).count ≤ 16384 }
    requires entry { entry < (A.graph graph.now).count }
    ensures { IfOk result (λ line. line ≡ made_line (A.graph graph.now) entry) }
{
    let mut vias: Vec<Option<u32>> = vec![in alloc; None; entry]?;
    note(&mut vias, graph.parents(entry), entry as u32);
    let mut steps = Vec::new(alloc);
    for done in 0..entry {
        let ancestor = entry - 1 - done;
        match via_of(&vias, ancestor) {
            None => {}
            Some(via) => {
                steps.push(ProofStep {
                    ancestor: ancestor as u32,
                    via,
                })?;
                note(&mut vias, graph.parents(ancestor), ancestor as u32);
            }
        }
    }
    Ok(ProofLine {
        entry: entry as u32,
        steps,
    })
}

/// Via which entry a place is reached, if it was noted.
fn via_of(vias: &[Option<u32>], place: usize) -> Option<u32>
    requires { place < length vias.now }
    ensures { result ≡ via_at vias.now place }
{
    vias[place]
}

/// Notes of each of these that it is reached via this entry, where it wasn't reached before.
fn note(vias: &mut Vec<Option<u32>>, parents: &[u32], via: u32)
    requires { All (λ parent. parent < length vias.old.items) parents.now }
    ensures { vias.new.items ≡ noted_all vias.old.items parents.now via }
{
    for parent in parents {
        note_one(vias, *parent as usize, via);
    }
}

/// Notes the same of one.
fn note_one(vias: &mut Vec<Option<u32>>, place: usize, via: u32)
    requires { place < length vias.old.items }
    ensures { vias.new.items ≡ noted_one vias.old.items place via }
{
    if vias[place].is_none() {
        vias[place] = Some(via);
    }
}

/// Appends a line.
fn push_line(text: &mut Vec<u8>, line: &ProofLine) -> Result<(), AllocError>
    ensures { OnOk result (text.new.items ≡ text.old.items ++ line_text line.now) }
{
    text.extend_from_slice(b"past ")?;
    push_number(text, line.entry)?;
    push_steps(text, &line.steps)?;
    text.push(b'\n')?;
    Ok(())
}

/// Appends steps.
fn push_steps(text: &mut Vec<u8>, steps: &[ProofStep]) -> Result<(), AllocError>
    ensures { OnOk result (text.new.items ≡ text.old.items ++ flat_map step_text steps.now) }
{
    for step in steps {
        push_step(text, *step)?;
    }
    Ok(())
}

/// Appends a step.
fn push_step(text: &mut Vec<u8>, step: ProofStep) -> Result<(), AllocError>
    ensures { OnOk result (text.new.items ≡ text.old.items ++ step_text step) }
{
    text.push(b' ')?;
    push_number(text, step.ancestor)?;
    text.push(b':')?;
    push_number(text, step.via)
}

/// Appends a number.
fn push_number(text: &mut Vec<u8>, number: u32) -> Result<(), AllocError>
    ensures { OnOk result (text.new.items ≡ text.old.items ++ decimal number) }
{
    let mut digits = Buffer::new();
    text.extend_from_slice(digits.format(number).as_bytes())
}
