use listed_graphs::{Listed, ListedGraph};
use precedence::{Arrows, Rows};
use roster::Role;
use rule_engine::{JudgeFault, Unjudged, Verdict, judge, judge_all};
use rule_language::{Kind, Row, Rule, read, standard};
use std::alloc::{AllocError, Global};
use std::test::Fail;

/// A graph and the rows of its nodes.
#[derive(Drop)]
struct Place {
    graph: ListedGraph,
    rows: Vec<Row>,
}

fn number_in(words: &str, place: usize) -> u32 {
    match words.split(' ').nth(place) {
        Some(word) => word.parse::<u32>().unwrap_or(0),
        None => 0,
    }
}

/// A row by its kind, maker, number and session, and by what is left: a booth or a byte of a
/// ballot. Machine 0 is the supervisor.
fn row_of(words: &str) -> Row {
    let word = words.split(' ').next().unwrap_or("");
    let maker = number_in(words, 1);
    Row {
        kind: Kind::of_word(word.as_bytes()).unwrap_or(Kind::Any),
        maker,
        role: if maker == 0 {
            Role::Supervisor
        } else {
            Role::Booth
        },
        number: number_in(words, 2),
        session: number_in(words, 3),
        ballot: [(number_in(words, 4) % 256) as u8; 32],
        booth: number_in(words, 4),
    }
}

/// A place of no entries.
fn empty(alloc: Global) -> Place {
    Place {
        graph: ListedGraph {
            nodes: Vec::new(alloc),
            ragged: Vec::new(alloc),
        },
        rows: Vec::new(alloc),
    }
}

/// A node that names the one before it, where there is one.
fn following(alloc: Global, count: u32) -> Result<Listed, AllocError> {
    let mut parents = Vec::new(alloc);
    if count > 0 {
        parents.push(count - 1)?;
    }
    Ok(Listed { parents })
}

/// Adds an entry to a place.
fn add(place: &mut Place, node: Listed, is_ragged: bool, words: &str) -> Result<(), AllocError> {
    place.graph.nodes.push(node)?;
    place.graph.ragged.push(is_ragged)?;
    place.rows.push(row_of(words))?;
    Ok(())
}

/// Entries in a chain, each of which names the one before it. One is ragged, if there is one at
/// that place.
fn chain_of(alloc: Global, entries: &str, ragged: usize) -> Result<Place, AllocError> {
    let mut place = empty(alloc);
    let mut count = 0u32;
    for words in entries.split(", ") {
        let is_ragged = count as usize == ragged;
        add(&mut place, following(alloc, count)?, is_ragged, words)?;
        count = count.saturating_add(1);
    }
    Ok(place)
}

/// `count` entries that name nothing.
fn crowd_of(alloc: Global, count: u32) -> Result<Place, AllocError> {
    let mut place = empty(alloc);
    for _ in 0..count {
        add(&mut place, following(alloc, 0)?, false, "opened 0 0 0")?;
    }
    Ok(place)
}

/// The verdict in words: K, U, W where the rule is too wide, or B and the places for which it is
/// broken.
fn word_of(alloc: Global, verdict: Result<Verdict, JudgeFault>) -> Result<String, Fail> {
    Ok(match verdict {
        Ok(Verdict::Kept) => String::from_str(alloc, "K")?,
        Ok(Verdict::Unsettled) => String::from_str(alloc, "U")?,
        Ok(Verdict::Broken(places)) => format!(in alloc; "B{:?}", places.as_slice())?,
        Err(JudgeFault::TooWide) => String::from_str(alloc, "W")?,
        Err(JudgeFault::Memory) => String::from_str(alloc, "memory")?,
    })
}

/// The answer on a rule, or nothing where there are too many entries.
fn answer_of(alloc: Global, rule: &Rule, place: &Place) -> Result<String, Fail> {
    if place.graph.count() > 16384 {
        return Ok(String::new(alloc));
    }
    let order = Rows::make(alloc, &place.graph)?;
    if place.rows.len() != order.count() {
        return Ok(String::new(alloc));
    }
    word_of(alloc, judge(alloc, rule, &place.rows, &order))
}

/// What a letter of a rule stands for. T is true, F is false, and U is unknown of the chain below,
/// whose one activating machine names what is missing.
fn meaning(letter: char) -> Option<&'static str> {
    match letter {
        'T' => Some("true"),
        'F' => Some("(not true)"),
        'U' => Some("(every u activate (some w cast before u true))"),
        _ => None,
    }
}

/// Appends a letter of a rule, or what it stands for.
fn push_meaning(text: &mut String, letter: char) -> Result<(), AllocError> {
    match meaning(letter) {
        Some(part) => text.push_str(part),
        None => text.push(letter),
    }
}

/// The text of a rule that says this.
fn text_of(alloc: Global, formula: &str) -> Result<String, AllocError> {
    let mut text = String::from_str(alloc, "(rule R ")?;
    for letter in formula.chars() {
        push_meaning(&mut text, letter)?;
    }
    text.push(')')?;
    Ok(text)
}

/// The one rule that says this.
fn rules_of(alloc: Global, formula: &str) -> Result<Vec<Rule>, Fail> {
    let text = text_of(alloc, formula)?;
    Ok(read(alloc, text.as_bytes())?)
}

/// Whether the answer on the one rule that says this is this.
fn is_answer(alloc: Global, formula: &str, place: &Place, want: &str) -> Result<bool, Fail> {
    let rules = rules_of(alloc, formula)?;
    let [rule] = rules.as_slice() else {
        return Ok(false);
    };
    Ok(answer_of(alloc, rule, place)?.as_str() == want)
}

/// Four entries in a chain, of which the third names what is missing.
const CHAIN: &str = "opened 0 0 0, authorise 0 1 1, activate 1 0 1, cast 1 2 1";

/// The answers of an independent program, with the rules.
const ANSWERS: &str = "K: T
B[]: F
U: U
B[]: (not T)
K: (not F)
U: (not U)
K: (and T T)
U: (and T U)
B[]: (and T F)
U: (and U T)
U: (and U U)
B[]: (and U F)
B[]: (and F T)
B[]: (and F U)
B[]: (and F F)
K: (or T T)
K: (or T U)
K: (or T F)
K: (or U T)
U: (or U U)
U: (or U F)
K: (or F T)
U: (or F U)
B[]: (or F F)
K: (implies T T)
U: (implies T U)
B[]: (implies T F)
K: (implies U T)
U: (implies U U)
U: (implies U F)
K: (implies F T)
K: (implies F U)
K: (implies F F)
K: (every x entry T)
U: (every x entry U)
B[0]: (every x entry F)
K: (every x closed F)
K: (some x entry T)
U: (some x entry U)
B[]: (some x entry F)
B[]: (some x closed T)
U: (every x activate (every y entry before x T))
B[2]: (every x activate (every y entry before x F))
K: (every x activate (some y entry before x T))
U: (every x activate (some y entry before x F))
U: (every x activate (every y cast before x F))
K: (every x authorise (every y entry before x T))
B[1]: (every x authorise (some y cast before x T))
U: (every x cast (some y cast before x T))
B[0, 1]: (every x entry (every y entry (same x y)))
K: (every x entry (some y entry (same x y)))
B[0]: (every x entry (kind x cast))
K: (some x entry (kind x cast))
B[2]: (every x entry (is x supervisor))
B[2]: (every x entry (implies (is x booth) (kind x cast)))
B[0]: (every x entry (some y entry before x (next y x)))
U: (every x entry (or (= x.number 0) (some y entry before x (next y x))))
B[3]: (every x entry (or (= x.number 0) (some y entry (next y x))))
K: (some x entry (some y entry (next y x)))
B[0, 2]: (every x entry (every y entry (= x.maker y.maker)))
K: (every x entry (every y entry (implies (and (= x.maker y.maker) (= x.number y.number)) (same x y))))
B[2, 1]: (every x activate (every y authorise (not (= x.session y.session))))
K: (every x cast (some y authorise before x (= y.session x.session)))
U: (every x cast (some y authorise before x (= y.booth x.maker)))
B[3]: (every x entry (< x.number 2))
B[2, 1]: (every x entry (every y entry (implies (< x.number y.number) (before x y))))
B[0, 0]: (every x entry (every y entry (before x y)))
U: (every x entry (every y entry (or (before y x) (not (before y x)))))
B[]: (some x entry (every y entry (before x y)))
K: (every x cast (every y cast (= x.ballot y.ballot)))
B[]: (and (every x entry F) T)";

/// Whether the answer on a row's rule is the row's first part.
fn is_row_answered(alloc: Global, row: &str, place: &Place) -> Result<bool, Fail> {
    match row.split_once(": ") {
        Some((want, formula)) => is_answer(alloc, formula, place, want),
        None => Ok(false),
    }
}

#[test]
fn small_rules_have_their_answers(rt: HostRuntime) -> Result<(), Fail> {
    let place = chain_of(rt.alloc(), CHAIN, 2)?;
    for row in ANSWERS.lines() {
        assert!(rt; is_row_answered(rt.alloc(), row, &place)?, "{row}");
    }
    Ok(())
}

/// Entries in a chain, which of them names what is missing, and the standard rules that aren't
/// kept with their answers, which are those of an independent program too.
const PLACES: &[(&str, usize, &str)] = &[
    (
        "opened 0 0 0, authorise 0 1 1 1, activate 1 0 1, commit 1 1 1 7, cast 1 2 1 7, closed 0 2 0",
        usize::MAX,
        "",
    ),
    (
        "opened 0 0 0, authorise 0 1 1 1, activate 1 0 1, cast 1 2 1 7, closed 0 2 0",
        3,
        " C2 U V2 U P4 U K2 U",
    ),
    (
        "authorise 0 1 1 2, activate 1 0 1, challenge 1 1 1 7, cast 1 1 1 8, closed 0 2 0, \
         forced 1 5 2, authorise 0 3 1 1",
        usize::MAX,
        " O2 B[0] A1 B[1] A2 B[0, 6] C2 B[3] C4 B[3] P2 B[6] M1 B[5] K1 B[2, 3] K2 B[0] C6 B[2] V4 B[5]",
    ),
];

/// Appends the rule's name and the answer on it, unless it is kept.
fn push_answer(alloc: Global, found: &mut String, rule: &Rule, place: &Place) -> Result<(), Fail> {
    let answer = answer_of(alloc, rule, place)?;
    if answer.as_str() != "K" {
        write!(found, " {} {}", rule.name, answer)?;
    }
    Ok(())
}

/// The names of the rules that aren't kept, with the answers on them.
fn answers_of(alloc: Global, rules: &[Rule], place: &Place) -> Result<String, Fail> {
    let mut found = String::new(alloc);
    for rule in rules {
        push_answer(alloc, &mut found, rule, place)?;
    }
    Ok(found)
}

/// Whether these are those of the rules that aren't kept in that chain.
fn are_answers(
    alloc: Global,
    rules: &[Rule],
    entries: &str,
    ragged: usize,
    want: &str,
) -> Result<bool, Fail> {
    let place = chain_of(alloc, entries, ragged)?;
    Ok(answers_of(alloc, rules, &place)?.as_str() == want)
}

#[test]
fn the_standard_rules_have_their_answers(rt: HostRuntime) -> Result<(), Fail> {
    let rules = standard(rt.alloc())?;
    for &(entries, ragged, want) in PLACES {
        assert!(rt;
            are_answers(rt.alloc(), rules.as_slice(), entries, ragged, want)?,
            "{entries}"
        );
    }
    Ok(())
}

/// 128 to the fourth is exactly the limit.
const WIDTHS: &[(u32, &str)] = &[(128, "B[0, 0, 0, 0]"), (129, "W")];

/// A rule of four entries.
const WIDE: &str = "(every a entry (every b entry (every c entry (every d entry F))))";

/// Whether the answer on it is this, over that number of entries.
fn is_wide(alloc: Global, count: u32, want: &str) -> Result<bool, Fail> {
    let place = crowd_of(alloc, count)?;
    is_answer(alloc, WIDE, &place, want)
}

#[test]
fn a_rule_may_be_as_wide_as_the_limit(rt: HostRuntime) -> Result<(), Fail> {
    for &(count, want) in WIDTHS {
        assert!(rt; is_wide(rt.alloc(), count, want)?, "{count}");
    }
    Ok(())
}

/// Rules of which the second is too wide over 129 entries, and no other.
const SEVERAL: &str = "(rule A (every x entry (kind x opened)))
(rule B (every a entry (every b entry (every c entry (every d entry (kind a cast))))))
(rule C (every x entry (kind x cast)))";

/// The verdicts in words, one after another.
fn words_of(alloc: Global, verdicts: Vec<Verdict>) -> Result<String, Fail> {
    let mut words = String::new(alloc);
    for verdict in verdicts {
        write!(words, " {}", word_of(alloc, Ok(verdict))?)?;
    }
    Ok(words)
}

/// The verdicts on all rules, or the place of the first that is too wide.
fn answers_together(alloc: Global, rules: &[Rule], place: &Place) -> Result<String, Fail> {
    if place.graph.count() > 16384 {
        return Ok(String::new(alloc));
    }
    let order = Rows::make(alloc, &place.graph)?;
    if place.rows.len() != order.count() {
        return Ok(String::new(alloc));
    }
    match judge_all(alloc, rules, &place.rows, &order) {
        Ok(verdicts) => words_of(alloc, verdicts),
        Err(Unjudged::TooWide { place }) => Ok(format!(in alloc; " W {place}")?),
        Err(Unjudged::Memory) => Ok(String::from_str(alloc, " memory")?),
    }
}

#[test]
fn several_rules_are_judged_or_the_first_that_is_too_wide_is_named(
    rt: HostRuntime,
) -> Result<(), Fail> {
    let alloc = rt.alloc();
    let rules = read(alloc, SEVERAL.as_bytes())?;
    let few = answers_together(alloc, &rules, &crowd_of(alloc, 2)?)?;
    let many = answers_together(alloc, &rules, &crowd_of(alloc, 129)?)?;
    assert_eq!(rt; few.as_str(), " K B[0, 0, 0, 0] B[0]");
    assert_eq!(rt; many.as_str(), " W 1");
    Ok(())
}
