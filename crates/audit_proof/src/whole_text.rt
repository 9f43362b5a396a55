//! Reading the text of a proof.
ghost use Rattle.std.specs.Prelude.{◌≡◌, ◌≢◌, ◌≤◌, [], length, drop, Err};
ghost use Rattle.audit_proof.specs.Reading.{count_read, form_read, lines_in, lines_read, proof_of};
ghost use Rattle.audit_proof.specs.Reads.{IsReadAnswer};
ghost use Rattle.audit_proof.specs.inside.Begun.{text_line};
ghost use Rattle.audit_proof.specs.inside.Bytes.{first_from};
ghost use Rattle.audit_proof.specs.inside.Lists.{fault_of, line_from};

use crate::fault::ProofFault;
use crate::lines::read_line;
use crate::packed::entry_of;
use crate::proof::Proof;
use crate::reading::{Unread, find_byte, is_word, piece, read_number_after, rest_from};
use input_causes::ProofWhy;
use precedence::Arrows;
use std::alloc::Global;

/// Where the line that begins at a place ends: at the next newline, or with the bytes.
fn line_end(bytes: &[u8], start: usize) -> usize
    requires { start ≤ length bytes.now }
    ensures within { (start ≤ result) × (result ≤ length bytes.now) }
    ensures is { result ≡ first_from 10 start bytes.now }
{
    start + find_byte(rest_from(bytes, start), b'\n')
}

/// Where a line ends, whether a newline ends it, and where the next one begins.
#[derive(Clone, Copy)]
struct LineAt {
    end: usize,
    is_ended: bool,
    next: usize,
}

/// The line that begins at a place.
fn line_at(bytes: &[u8], start: usize) -> LineAt
    requires { start ≤ length bytes.now }
    ensures within { (start ≤ result.end) × (result.end ≤ result.next)
        × (result.next ≤ length bytes.now) }
    ensures is { result ≡ line_from bytes.now start }
{
    let end = line_end(bytes, start);
    let is_ended = end < bytes.len();
    LineAt {
        end,
        is_ended,
        next: if is_ended { end + 1 } else { end },
    }
}

/// Tries the first line.
#[tactic(auto, unfolding(crate::specs::Reading::form_read))]
fn try_form(line: &[u8], is_ended: bool) -> Result<(), ProofWhy>
    ensures { result ≡ form_read (text_line line.now is_ended) }
{
    if is_word(line, b"proof 1".as_slice()) && is_ended {
        Ok(())
    } else {
        Err(ProofWhy::Form)
    }
}

/// Tries the second line.
#[tactic(auto, using(crate::proofs::LinesRead::words_follow), unfolding(crate::specs::Reading::count_read))]
fn try_count(line: &[u8], is_ended: bool, count: usize) -> Result<(), ProofWhy>
    ensures { result ≡ count_read count (text_line line.now is_ended) }
{
    let entries = match read_number_after(line, b"entries".as_slice()) {
        None => return Err(ProofWhy::Form),
        Some(entries) => entries,
    };
    if entries.number as usize != count {
        return Err(ProofWhy::WrongCount);
    }
    if entries.end < line.len() {
        return Err(ProofWhy::Form);
    }
    if !is_ended {
        return Err(ProofWhy::Form);
    }
    Ok(())
}

/// The proof that the bytes are the text of, for the graph.
///
/// # Errors
///
/// `At` with the first line that has a fault and its first fault, or `Memory`.
#[tactic(auto, using(crate::proofs::LinesRead::answers))]
pub fn read_proof<A: Arrows>(alloc: Global, graph: &A, bytes: &[u8]) -> Result<Proof, ProofFault>
    requires { (A.graph graph.now).count ≤ 16384 }
    ensures is { result ≢ Err ProofFault.Memory → result ≡ proof_of (A.graph graph.now) bytes.now }
    ensures exact { IsReadAnswer (A.graph graph.now) bytes.now result }
{
    let first = line_at(bytes, 0);
    match try_form(piece(bytes, 0, first.end), first.is_ended) {
        Err(why) => return Err(ProofFault::At { line: 1, why }),
        Ok(()) => {}
    }
    let second = line_at(bytes, first.next);
    match try_count(
        piece(bytes, first.next, second.end),
        second.is_ended,
        graph.count(),
    ) {
        Err(why) => return Err(ProofFault::At { line: 2, why }),
        Ok(()) => {}
    }
    read_lines(alloc, graph, bytes, second.next)
}

/// Why a text is no proof, by why a line of it isn't read.
fn fault_of(line: usize, unread: Unread) -> ProofFault
    ensures { result ≡ fault_of line unread }
{
    match unread {
        Unread::Why(why) => ProofFault::At { line, why },
        Unread::Memory => ProofFault::Memory,
    }
}

/// The proof whose lines begin at a place.
#[tactic(auto, using(crate::proofs::LinesRead::line_refused))]
fn read_lines<A: Arrows>(
    alloc: Global,
    graph: &A,
    bytes: &[u8],
    start: usize,
) -> Result<Proof, ProofFault>
    requires few { (A.graph graph.now).count ≤ 16384 }
    requires within { start ≤ length bytes.now }
    ensures { result ≢ Err ProofFault.Memory →
        result ≡ lines_read (A.graph graph.now) [] (lines_in (drop start bytes.now)) }
{
    let mut lines = Vec::new(alloc);
    let mut least = 0;
    let mut at = start;
    'lines: while at < bytes.len() {
        let next = line_at(bytes, at);
        match read_line(
            alloc,
            graph,
            piece(bytes, at, next.end),
            next.is_ended,
            least,
        ) {
            Err(unread) => return Err(fault_of(lines.len() + 3, unread)),
            Ok(line) => {
                least = entry_of(&line) + 1;
                lines.push(line)?;
            }
        }
        at = next.next;
    }
    Ok(Proof::of(lines))
}
