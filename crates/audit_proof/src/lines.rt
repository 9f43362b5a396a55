//! Reading the lines of a proof's text.
ghost use Rattle.std.specs.Prelude.{◌≡◌, ◌<◌, ◌≤◌, nat_le, length, drop, All};
ghost use Rattle.std.specs.List.{list_all};
ghost use Rattle.audit_proof.specs.Lines.{IsBegun, listed_in};
ghost use Rattle.audit_proof.specs.Reading.{end_read, lacks_no_parent, line_of_entry, past_read};
ghost use Rattle.audit_proof.specs.inside.Begun.{
  IsListedTable,
  Told,
  line_with,
  spaced,
  text_line,
};
ghost use Rattle.audit_proof.specs.inside.Closed.{closed_at};

use crate::packed::PackedLine;
use crate::reading::{LineSteps, Numbered, Unread, read_number_after, read_words, rest_from};
use crate::step::ProofStep;
use input_causes::ProofWhy;
use precedence::Arrows;
use std::alloc::Global;

/// Whether each of these is listed.
fn are_listed(numbers: &[u32], listed: &[bool]) -> bool
    requires { All (λ number. number < length listed.now) numbers.now }
    ensures { result ≡ closed_at listed.now numbers.now }
{
    for number in numbers {
        if !listed[*number as usize] {
            return false;
        }
    }
    true
}

/// Whether the parents of these ancestors are all listed.
fn are_closed<A: Arrows>(graph: &A, steps: &[ProofStep], listed: &[bool]) -> bool
    requires each { length listed.now ≡ (A.graph graph.now).count }
    requires inside { All (λ step. step.ancestor < (A.graph graph.now).count) steps.now }
    ensures { result ≡ list_all (λ y. closed_at listed.now ((A.graph graph.now).parents y))
        (listed_in steps.now) }
{
    for step in steps {
        if !are_listed(graph.parents(step.ancestor as usize), listed) {
            return false;
        }
    }
    true
}

/// Whether no parent is missing on the line of an entry with these steps.
#[tactic(auto, using(crate::proofs::LinesRead::closed_by))]
fn lacks_no_parent<A: Arrows>(graph: &A, entry: usize, steps: &[ProofStep], listed: &[bool]) -> bool
    requires entry { entry < (A.graph graph.now).count }
    requires each { length listed.now ≡ (A.graph graph.now).count }
    requires inside { All (λ step. step.ancestor < (A.graph graph.now).count) steps.now }
    requires table { IsListedTable steps.now listed.now }
    ensures { result ≡ lacks_no_parent (A.graph graph.now) (line_with entry steps.now) }
{
    if !are_listed(graph.parents(entry), listed) {
        return false;
    }
    are_closed(graph, steps, listed)
}

/// The line of the entry with these steps, if it is ended and no parent is missing.
#[tactic(auto, unfolding(crate::specs::Reading::end_read))]
fn finish<A: Arrows>(
    alloc: Global,
    graph: &A,
    entry: u32,
    read: LineSteps,
    is_ended: bool,
) -> Result<PackedLine, Unread>
    requires few { (A.graph graph.now).count ≤ 16384 }
    requires entry { entry < (A.graph graph.now).count }
    requires begun { IsBegun (A.graph graph.now) (line_with entry read.steps.items) }
    requires each { length read.listed.items ≡ (A.graph graph.now).count }
    requires table { IsListedTable read.steps.items read.listed.items }
    ensures { Told (end_read (A.graph graph.now) is_ended (line_with entry read.steps.items))
        result }
{
    if !is_ended {
        return Err(Unread::Why(ProofWhy::Form));
    }
    if !lacks_no_parent(graph, entry as usize, &read.steps, &read.listed) {
        return Err(Unread::Why(ProofWhy::NotClosed));
    }
    Ok(PackedLine::of(alloc, entry, read.steps)?)
}

/// The line that begins with this entry.
#[tactic(auto, using(crate::proofs::LinesRead::words_refused), unfolding(crate::specs::Reading::line_of_entry))]
fn read_entry_line<A: Arrows>(
    alloc: Global,
    graph: &A,
    line: &[u8],
    entry: Numbered,
    is_ended: bool,
    least: usize,
) -> Result<PackedLine, Unread>
    requires few { (A.graph graph.now).count ≤ 16384 }
    requires entry { entry.end ≤ length line.now }
    ensures { Told (line_of_entry (A.graph graph.now) (nat_le least) is_ended
        (entry.number, spaced (drop entry.end line.now))) result }
{
    let number = entry.number as usize;
    if number >= graph.count() {
        return Err(Unread::Why(ProofWhy::OutOfRange));
    }
    if number < least {
        return Err(Unread::Why(ProofWhy::NotRising));
    }
    match read_words(alloc, graph, number, rest_from(line, entry.end)) {
        Err(unread) => Err(unread),
        Ok(read) => finish(alloc, graph, entry.number, read, is_ended),
    }
}

/// The line that the bytes are, whose entry is at least this.
#[tactic(auto, unfolding(crate::specs::Reading::past_read))]
pub(crate) fn read_line<A: Arrows>(
    alloc: Global,
    graph: &A,
    line: &[u8],
    is_ended: bool,
    least: usize,
) -> Result<PackedLine, Unread>
    requires { (A.graph graph.now).count ≤ 16384 }
    ensures { Told (past_read (A.graph graph.now) (nat_le least) (text_line line.now is_ended))
        result }
{
    match read_number_after(line, b"past".as_slice()) {
        None => Err(Unread::Why(ProofWhy::Form)),
        Some(entry) => read_entry_line(alloc, graph, line, entry, is_ended, least),
    }
}
