ghost use Rattle.std.specs.Prelude.{◌≡◌, ◌<◌, ◌≤◌, IfOk};
ghost use Rattle.entry_order.specs.Ancestors.{before};

use listed_graphs::{Listed, ListedGraph};
use precedence::{Arrows, Memory, Rows, Three, unite};
use std::alloc::Global;
use std::test::Fail;

fn node_of(alloc: Global, word: &str) -> Result<Listed, Memory> {
    let mut parents = Vec::new(alloc);
    for part in word.split(',') {
        if let Ok(parent) = part.parse::<u32>() {
            parents.push(parent)?;
        }
    }
    Ok(Listed { parents })
}

/// A word a node: its parents, or `.` for none. One node is ragged, if there is one at that place.
fn graph_of(alloc: Global, text: &str, ragged_one: usize) -> Result<ListedGraph, Memory> {
    let mut nodes = Vec::new(alloc);
    let mut ragged = Vec::new(alloc);
    for (node, word) in text.split_whitespace().enumerate() {
        nodes.push(node_of(alloc, word)?)?;
        ragged.push(node == ragged_one)?;
    }
    Ok(ListedGraph { nodes, ragged })
}

fn letter_of(three: Three) -> u8 {
    match three {
        Three::False => b'f',
        Three::Unknown => b'u',
        Three::True => b't',
    }
}

/// The rows of a graph, where it doesn't have too many nodes.
fn rows_of(alloc: Global, graph: &ListedGraph) -> Result<Option<Rows>, Memory> {
    if graph.count() > 16384 {
        return Ok(None);
    }
    Ok(Some(Rows::make(alloc, graph)?))
}

/// For each node `x` a word: a letter for each `y`, and `w` where `x` is whole.
fn answers_of(alloc: Global, graph: &ListedGraph) -> Result<Vec<u8>, Memory> {
    let mut answers = Vec::new(alloc);
    let Some(rows) = rows_of(alloc, graph)? else {
        return Ok(answers);
    };
    for x in 0..rows.count() {
        for y in 0..rows.count() {
            answers.push(letter_of(rows.before(y, x)))?;
        }
        answers.push(if rows.whole(x) { b'w' } else { b'-' })?;
        answers.push(b' ')?;
    }
    Ok(answers)
}

#[test]
fn small_graphs_have_their_orders(rt: HostRuntime) -> Result<(), Fail> {
    let alloc = rt.alloc();
    const ROWS: &[(&str, usize, &str)] = &[
        ("", 0, ""),
        (".", 1, "fw "),
        (".", 0, "u- "),
        (". 0 0 1,2", 4, "ffffw tfffw tfffw tttfw "),
        (". 0 1 1", 1, "ffffw tuuu- ttuu- ttuu- "),
        (". . 0 1 2,3", 2, "fffffw fffffw tuuuu- ftfffw ttttu- "),
    ];
    for &(graph, ragged, wanted) in ROWS {
        let graph = graph_of(alloc, graph, ragged)?;
        let answers = answers_of(alloc, &graph)?;
        assert!(rt; answers.as_slice() == wanted.as_bytes());
    }
    Ok(())
}

fn chain_of(alloc: Global, count: u32) -> Result<ListedGraph, Memory> {
    let mut nodes = Vec::new(alloc);
    for node in 0..count {
        let mut parents = Vec::new(alloc);
        if node > 0 {
            parents.push(node - 1)?;
        }
        nodes.push(Listed { parents })?;
    }
    Ok(ListedGraph {
        nodes,
        ragged: Vec::new(alloc),
    })
}

/// Whether there is a row for each node, and each node is before those above it and no other.
fn is_in_order(alloc: Global, chain: &ListedGraph) -> Result<bool, Memory> {
    let Some(rows) = rows_of(alloc, chain)? else {
        return Ok(false);
    };
    for x in 0..rows.count() {
        for y in 0..rows.count() {
            if (rows.before(y, x) == Three::True) != (y < x) {
                return Ok(false);
            }
        }
    }
    Ok(rows.count() == chain.count())
}

#[test]
fn chains_over_several_words_are_in_order(rt: HostRuntime) -> Result<(), Fail> {
    let alloc = rt.alloc();
    const COUNTS: &[u32] = &[65, 66, 200];
    for &count in COUNTS {
        let chain = chain_of(alloc, count)?;
        assert!(rt; chain.count() == count as usize && is_in_order(alloc, &chain)?);
    }
    Ok(())
}

// Whether each of this number of words has the bits of 5 and of 9 afterwards.
fn are_united(alloc: Global, count: usize) -> Result<bool, Memory> {
    let mut into = vec![in alloc; 5; count]?;
    let from = vec![in alloc; 9; count]?;
    unite(&mut into, &from);
    Ok(into.len() == count && into.iter().all(|word| *word == 13))
}

#[test]
fn words_of_every_length_are_united(rt: HostRuntime) -> Result<(), Fail> {
    let alloc = rt.alloc();
    const COUNTS: &[usize] = &[0, 7, 8, 9, 17];
    for &count in COUNTS {
        assert!(rt; are_united(alloc, count)?);
    }
    Ok(())
}

/// The rows of some arrows say what `entry_order` says of them, as those above need it.
fn order_of<A: Arrows>(alloc: Global, arrows: &A, y: usize, x: usize) -> Result<Three, Memory>
    requires few { (A.graph arrows.now).count ≤ 16384 }
    requires within { x < (A.graph arrows.now).count }
    ensures { IfOk result (λ three. three
        ≡ before (A.graph arrows.now).parents (A.graph arrows.now).ragged y x) }
{
    Ok(Rows::make(alloc, arrows)?.before(y, x))
}
