//! Times how long judging takes over rows that the maker of a log may have chosen to be dear.
//!
//! `bench_rules RULES KIND COUNT SESSION NUMBER ..` judges the rules of a text over rows one after
//! another in a chain from a gap: by four words each, COUNT rows of KIND in SESSION, whose maker
//! gave all of them one number. It prints for each rule the processor time in nanoseconds and the
//! verdict. Without words it prints the verdicts on the standard rules over a few rows.
#![tactic(auto)]

ghost use Rattle.std.specs.Prelude.{◌≡◌};

use anyhow::{Result, bail, ensure};
use listed_graphs::{Listed, ListedGraph};
use precedence::{Arrows, Rows};
use roster::Role;
use rule_engine::{Judge, JudgeFault, Verdict};
use rule_language::{Kind, Row, Rule, STANDARD, read};
use std::alloc::{AllocError, Global};
use std::env;
use std::time::CpuClock;

/// The most rows that are judged.
const MOST_ROWS: usize = 16384;

/// A number of rows of a kind in a session, with one number and a ballot by it.
#[derive(Clone, Copy)]
struct Group {
    kind: Kind,
    count: usize,
    session: u32,
    number: u32,
}

fn role_of(kind: Kind) -> Role {
    match kind {
        Kind::Activate | Kind::Commit | Kind::Cast | Kind::Cancel | Kind::Challenge => Role::Booth,
        _ => Role::Supervisor,
    }
}

fn push_rows(rows: &mut Vec<Row>, group: Group) -> Result<(), AllocError> {
    for _ in 0..group.count {
        rows.push(Row {
            kind: group.kind,
            maker: 0,
            role: role_of(group.kind),
            number: group.number,
            session: group.session,
            ballot: [(group.number % 256) as u8; 32],
            booth: 1,
        })?;
    }
    Ok(())
}

// A chain, of whose first row it isn't known what comes before it.
fn chain(alloc: Global, count: u32) -> Result<ListedGraph, AllocError> {
    let mut nodes = Vec::with_capacity(alloc, count as usize)?;
    for i in 0..count {
        let mut parents = Vec::new(alloc);
        if let Some(last) = i.checked_sub(1) {
            parents.push(last)?;
        }
        nodes.push(Listed { parents })?;
    }
    let mut ragged = Vec::new(alloc);
    ragged.push(true)?;
    Ok(ListedGraph { nodes, ragged })
}

fn word_of(answer: &Result<Verdict, JudgeFault>) -> &'static str {
    match answer {
        Ok(Verdict::Kept) => "kept",
        Ok(Verdict::Broken(_)) => "broken",
        Ok(Verdict::Unsettled) => "unsettled",
        Err(JudgeFault::TooWide) => "too_wide",
        Err(JudgeFault::Memory) => "memory",
    }
}

fn judge_all(
    rt: &(impl Print + CpuClock),
    alloc: Global,
    rules: &[Rule],
    rows: &[Row],
    is_timed: bool,
) -> Result<()> {
    ensure!(rows.len() <= MOST_ROWS, "at most {MOST_ROWS} rows");
    let graph = chain(alloc, rows.len() as u32)?;
    ensure!(graph.count() <= MOST_ROWS, "the graph is of other rows");
    let order = Rows::make(alloc, &graph)?;
    ensure!(order.count() == rows.len(), "the order is of other rows");
    let judge = Judge::over(alloc, rows, &order)?;
    for rule in rules {
        let start = rt.thread_cpu_time()?;
        let answer = judge.judge(alloc, rule);
        let spent = rt.thread_cpu_time()?.saturating_sub(start);
        let name = rule.name.as_str();
        if is_timed {
            println!(rt; "{} {name} {}", spent.as_nanos(), word_of(&answer))?;
        } else {
            println!(rt; "{name} {}", word_of(&answer))?;
        }
    }
    Ok(())
}

// The group that four words name.
fn group_of(words: &[&str]) -> Result<Group> {
    ensure!(words.len() == 4, "a kind, a count, a session and a number");
    let Some(kind) = Kind::of_word(words[0].as_bytes()) else {
        bail!("{} is no kind", words[0]);
    };
    let count = words[1].parse::<usize>()?;
    ensure!(count <= MOST_ROWS, "at most {MOST_ROWS} rows");
    let session = words[2].parse::<u32>()?;
    let number = words[3].parse::<u32>()?;
    Ok(Group {
        kind,
        count,
        session,
        number,
    })
}

fn rows_of(alloc: Global, words: &[&str]) -> Result<Vec<Row>> {
    let mut rows = Vec::new(alloc);
    for group in words.chunks(4) {
        push_rows(&mut rows, group_of(group)?)?;
    }
    Ok(rows)
}

fn rules_of(alloc: Global, text: &str) -> Result<Vec<Rule>> {
    match read(alloc, text.as_bytes()) {
        Ok(rules) => Ok(rules),
        Err(_) => bail!("the rules can't be read"),
    }
}

fn main(rt: HostRuntime) -> Result<()> {
    let alloc = rt.alloc();
    let mut given = Vec::new(alloc);
    for word in env::args(&rt)?.skip(1) {
        given.push(word)?;
    }
    let mut words = Vec::new(alloc);
    for word in &given {
        words.push(word.as_str())?;
    }
    let words = words.as_slice();
    if words.is_empty() {
        let small = ["authorise", "20", "0", "1", "closed", "20", "0", "2"];
        let rows = rows_of(alloc, &small)?;
        return judge_all(&rt, alloc, &rules_of(alloc, STANDARD)?, &rows, false);
    }
    let rules = rules_of(alloc, words[0])?;
    let rows = rows_of(alloc, &words[1..])?;
    judge_all(&rt, alloc, &rules, &rows, true)
}
