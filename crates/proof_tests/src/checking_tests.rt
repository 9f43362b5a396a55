use crate::graphs::{graph_of, text_of};
use audit_proof::{CheckFault, Proof, Verdict, check, read_proof};
use listed_graphs::{Listed, ListedGraph};
use roster::Role;
use rule_language::{Kind, Row, Rule, read, standard};
use std::alloc::{AllocError, Global};
use std::test::Fail;

/// Five entries in a chain, of which the fourth names what is missing.
const CHAIN: &str = ",0,1,2,3";

const RAGGED: usize = 3;

/// Their kinds, makers, numbers and sessions, and a byte of the ballot.
const ENTRIES: &[(&str, u32, u32, u32, u8)] = &[
    ("opened", 0, 0, 0, 0),
    ("activate", 1, 0, 1, 0),
    ("commit", 1, 1, 1, 7),
    ("closed", 0, 1, 0, 0),
    ("cast", 1, 2, 1, 7),
];

/// Lines of proofs, of which one and then all are taken away, with the standard rules that aren't
/// kept and their verdicts, which are those of an independent program.
const VERDICTS: &[(&str, &str)] = &[
    (
        "past 0|past 1 0:1|past 2 1:2 0:1|past 3 2:3 1:2 0:1|past 4 3:4 2:3 1:2 0:1|",
        " A1 B V2 U P4 B",
    ),
    (
        "past 1 0:1|past 2 1:2 0:1|past 3 2:3 1:2 0:1|past 4 3:4 2:3 1:2 0:1|",
        " A1 B V2 U P4 B",
    ),
    (
        "past 0|past 2 1:2 0:1|past 3 2:3 1:2 0:1|past 4 3:4 2:3 1:2 0:1|",
        " A1 U V2 U P4 B",
    ),
    (
        "past 0|past 1 0:1|past 3 2:3 1:2 0:1|past 4 3:4 2:3 1:2 0:1|",
        " A1 B C1 U V2 U P4 B K2 U",
    ),
    (
        "past 0|past 1 0:1|past 2 1:2 0:1|past 4 3:4 2:3 1:2 0:1|",
        " A1 B V2 U P4 B K2 U",
    ),
    (
        "past 0|past 1 0:1|past 2 1:2 0:1|past 3 2:3 1:2 0:1|",
        " A1 B C2 U V2 U P4 U K2 U",
    ),
    ("", " A1 U C1 U C2 U V2 U P4 U K2 U"),
];

/// The row of an entry.
fn row_of(entry: (&str, u32, u32, u32, u8)) -> Row {
    let (word, maker, number, session, byte) = entry;
    Row {
        kind: Kind::of_word(word.as_bytes()).unwrap_or(Kind::Any),
        maker,
        role: if maker == 0 {
            Role::Supervisor
        } else {
            Role::Booth
        },
        number,
        session,
        ballot: [byte; 32],
        booth: 0,
    }
}

/// The rows of the entries.
fn rows_of(alloc: Global) -> Result<Vec<Row>, AllocError> {
    let mut rows = Vec::new(alloc);
    for &entry in ENTRIES {
        rows.push(row_of(entry))?;
    }
    Ok(rows)
}

/// The letter of a verdict, and W where the rule is too wide.
fn letter_of(answer: Result<Verdict, CheckFault>) -> char {
    match answer {
        Ok(Verdict::Kept) => 'K',
        Ok(Verdict::Broken) => 'B',
        Ok(Verdict::Unsettled) => 'U',
        Err(CheckFault::TooWide) => 'W',
        Err(CheckFault::Memory) => 'M',
    }
}

/// Appends the rules that aren't kept with their verdicts by this text.
fn push_verdicts(
    alloc: Global,
    found: &mut String,
    rules: &[Rule],
    rows: &[Row],
    graph: &ListedGraph,
    text: &[u8],
) -> Result<(), Fail> {
    if rows.len() != graph.nodes.len() || rows.len() > 16384 {
        return Ok(());
    }
    let proof: Proof = read_proof(alloc, graph, text)?;
    for rule in rules {
        let letter = letter_of(check(alloc, rule, rows, graph, &proof));
        if letter != 'K' {
            write!(found, " {} {letter}", rule.name)?;
        }
    }
    Ok(())
}

/// Whether the rules that aren't kept by these lines are those.
fn are_verdicts(alloc: Global, rules: &[Rule], lines: &str, want: &str) -> Result<bool, Fail> {
    let graph = graph_of(alloc, CHAIN, RAGGED)?;
    let text = format!(in alloc; "proof 1|entries 5|{lines}")?;
    let text = text_of(alloc, text.as_str())?;
    let mut found = String::new(alloc);
    push_verdicts(alloc, &mut found, rules, &rows_of(alloc)?, &graph, &text)?;
    Ok(found.as_str() == want)
}

#[test]
fn fewer_lines_leave_rules_unsettled(rt: HostRuntime) -> Result<(), Fail> {
    let rules = standard(rt.alloc())?;
    for &(lines, want) in VERDICTS {
        assert!(rt;
            are_verdicts(rt.alloc(), rules.as_slice(), lines, want)?,
            "{lines}"
        );
    }
    Ok(())
}

/// 128 to the fourth is exactly the limit.
const WIDTHS: &[(u32, &str)] = &[(128, " R B"), (129, " R W")];

/// A rule of four entries.
const WIDE: &str =
    "(rule R (every a entry (every b entry (every c entry (every d entry (not true))))))";

/// Whether those are the rules that aren't kept, of `count` entries that name nothing.
fn are_wide(alloc: Global, rules: &[Rule], count: u32, want: &str) -> Result<bool, Fail> {
    let mut graph = graph_of(alloc, "", RAGGED)?;
    let mut rows = Vec::new(alloc);
    rows.push(row_of(("opened", 0, 0, 0, 0)))?;
    for number in 1..count {
        graph.nodes.push(Listed {
            parents: Vec::new(alloc),
        })?;
        rows.push(row_of(("opened", 0, number, 0, 0)))?;
    }
    let text = format!(in alloc; "proof 1|entries {count}|")?;
    let text = text_of(alloc, text.as_str())?;
    let mut found = String::new(alloc);
    push_verdicts(alloc, &mut found, rules, &rows, &graph, &text)?;
    Ok(found.as_str() == want)
}

#[test]
fn a_rule_may_be_as_wide_as_the_limit(rt: HostRuntime) -> Result<(), Fail> {
    let rules = read(rt.alloc(), WIDE.as_bytes())?;
    for &(count, want) in WIDTHS {
        assert!(rt;
            are_wide(rt.alloc(), rules.as_slice(), count, want)?,
            "{count}"
        );
    }
    Ok(())
}
