//! Small graphs, and texts in which a bar stands for a newline.
ghost use Rattle.std.specs.Prelude.{◌≤◌};

use audit_proof::{ProofFault, ProveFault, prove, read_proof};
use listed_graphs::{Listed, ListedGraph};
use std::alloc::{AllocError, Global};
use std::test::Fail;

/// The numbers of a list, which may be empty.
fn listed(alloc: Global, numbers: &str) -> Result<Listed, AllocError> {
    let mut parents = Vec::new(alloc);
    for number in numbers.split(' ') {
        if let Ok(parent) = number.parse::<u32>() {
            parents.push(parent)?;
        }
    }
    Ok(Listed { parents })
}

/// The graph whose nodes list these parents, node by node, and of which one is ragged, if there is
/// one at that place.
pub(crate) fn graph_of(
    alloc: Global,
    lists: &str,
    ragged: usize,
) -> Result<ListedGraph, AllocError> {
    let mut graph = ListedGraph {
        nodes: Vec::new(alloc),
        ragged: Vec::new(alloc),
    };
    for numbers in lists.split(',') {
        let is_ragged = graph.nodes.len() == ragged;
        graph.nodes.push(listed(alloc, numbers)?)?;
        graph.ragged.push(is_ragged)?;
    }
    Ok(graph)
}

/// The text.
pub(crate) fn text_of(alloc: Global, row: &str) -> Result<Vec<u8>, AllocError> {
    let mut text = Vec::new(alloc);
    for byte in row.bytes() {
        text.push(if byte == b'|' { b'\n' } else { byte })?;
    }
    Ok(text)
}

/// What is read of a text: how many lines, or the fault.
pub(crate) fn reading_of(alloc: Global, graph: &ListedGraph, text: &[u8]) -> Result<String, Fail> {
    if graph.nodes.len() > 16384 {
        return Ok(String::new(alloc));
    }
    Ok(match read_proof(alloc, graph, text) {
        Ok(proof) => format!(in alloc; "{} lines", proof.count())?,
        Err(ProofFault::At { line, why }) => format!(in alloc; "{line} {why:?}")?,
        Err(ProofFault::Memory) => String::from_str(alloc, "memory")?,
    })
}

/// The text that is written of a graph.
pub(crate) fn written(alloc: Global, graph: &ListedGraph) -> Result<Vec<u8>, ProveFault> {
    if graph.nodes.len() > 16384 {
        return Ok(Vec::new(alloc));
    }
    prove(alloc, graph)
}
