//! Times the rows of a random graph whose nodes have four parents each, one of them the node
//! before.
//!
//! `bench_order NODES ROUNDS` makes the rows so many times, and prints for each the processor time
//! in nanoseconds and a checksum of the answers. Without words it prints the checksum for 2,000
//! nodes.
#![tactic(auto)]

ghost use Rattle.std.specs.Prelude.{◌≡◌, ◌<◌, IfOk, length};
ghost use Rattle.precedence.specs.Known.{known_count};

use anyhow::{Result, ensure};
use listed_graphs::those_below;
use precedence::{Arrows, Rows, Three};
use std::alloc::{AllocError, Global};
use std::env;
use std::time::CpuClock;

/// The most nodes that rows are made for.
const MOST_NODES: u32 = 16384;

/// Four parents for each node.
#[derive(Drop)]
struct Random {
    nodes: Vec<[u32; 4]>,
}

impl Arrows for Random {
    ghost use Rattle.std.specs.Prelude.{[], false, vec_len, slice_index_or};
    ghost use Rattle.std.specs.Prelude.{nat_lt, if◌then◌else◌};
    ghost use Rattle.std.specs.List.{list_all};

    ghost graph = { λ g. record {
      count = vec_len g.nodes;
      parents = λ i.
          if list_all (λ p. nat_lt p i) (slice_index_or g.nodes.items i [])
          then slice_index_or g.nodes.items i [] else [];
      ragged = λ i. false;
    } };

    fn count(&self) -> usize {
        self.nodes.len()
    }

    fn parents(&self, node: usize) -> &[u32] {
        those_below(&self.nodes[node], node)
    }

    fn ragged(&self, _node: usize) -> bool {
        false
    }
}

// The next state of a linear congruential generator, with Knuth's constants for MMIX.
fn next_state(state: u64) -> u64 {
    state
        .wrapping_mul(6364136223846793005)
        .wrapping_add(1442695040888963407)
}

fn random_graph(alloc: Global, count: u32) -> Result<Random, AllocError>
    ensures { IfOk result (λ graph. length graph.nodes.items ≡ count) }
{
    let mut nodes = Vec::with_capacity(alloc, count as usize)?;
    let mut state = 20070806;
    for node in 0..count {
        let mut parents = [0; 4];
        if node > 0 {
            parents[0] = node - 1;
            for i in 1..4 {
                state = next_state(state);
                parents[i] = ((state >> 33) % u64::from(node)) as u32;
            }
        }
        nodes.push(parents)?;
    }
    Ok(Random { nodes })
}

// A checksum of the answers for every two nodes, in words of 64: FNV-1a by words.
fn checksum(rows: &Rows) -> u64 {
    let mut sum: u64 = 14695981039346656037;
    for x in 0..rows.count() {
        for word in 0..x.div_ceil(64) {
            sum = (sum ^ word_of(rows, x, word)).wrapping_mul(1099511628211);
        }
    }
    sum
}

// The answers for a node and 64 others as bits.
fn word_of(rows: &Rows, x: usize, word: usize) -> u64
    requires { x < known_count rows.now }
{
    let mut bits = 0;
    for bit in 0..64 {
        let y = word.wrapping_mul(64).wrapping_add(bit);
        if rows.before(y, x) == Three::True {
            bits |= 1 << bit;
        }
    }
    bits
}

fn time_rounds(rt: &(impl Print + CpuClock), alloc: Global, count: u32, rounds: u32) -> Result<()> {
    ensure!(count <= MOST_NODES, "at most {MOST_NODES} nodes");
    let graph = random_graph(alloc, count)?;
    for _ in 0..rounds {
        let start = rt.thread_cpu_time()?;
        let rows = Rows::make(alloc, &graph)?;
        let spent = rt.thread_cpu_time()?.saturating_sub(start);
        println!(rt; "{} {}", spent.as_nanos(), checksum(&rows))?;
    }
    Ok(())
}

fn print_checksum(rt: &impl Print, alloc: Global) -> Result<()> {
    let graph = random_graph(alloc, 2000)?;
    let rows = Rows::make(alloc, &graph)?;
    println!(rt; "2000 nodes {}", checksum(&rows))?;
    Ok(())
}

fn main(rt: HostRuntime) -> Result<()> {
    let alloc = rt.alloc();
    let mut words = Vec::new(alloc);
    for word in env::args(&rt)?.skip(1) {
        words.push(word)?;
    }
    let words = words.as_slice();
    if words.is_empty() {
        return print_checksum(&rt, alloc);
    }
    ensure!(words.len() == 2, "bench_order NODES ROUNDS");
    let count = words[0].as_str().parse::<u32>()?;
    let rounds = words[1].as_str().parse::<u32>()?;
    time_rounds(&rt, alloc, count, rounds)
}
