//! Files that were made to harm their reader. Each is refused at the first byte, or on the first
//! line, that is invalid.
use crate::auditing_tests::{empty, place_parts, play, told};
use crate::play_tests::Parts;
use hall_outside::MemoryStore;
use std::alloc::Global;
use std::test::Fail;

const HEADER: &str = "(3:log1:11:0)";

/// The first lines of a script.
const MACHINES: &str = "seed 0102\nkey w4 h5\nlog 64\nlink 64\n\
    machine sv supervisor\nmachine b1 booth\n";

/// A booth of a roster, with a key of an unknown type.
const MACHINE: &str = "(1:a5:booth\
    56:kkkkkkkkkkkkkkkkkkkkkkkkkkkkkkkkkkkkkkkkkkkkkkkkkkkkkkkk)";

/// A store with a roster's file, and a rule that is always kept.
fn hall(alloc: Global) -> Result<MemoryStore, Fail> {
    let mut store = empty(alloc);
    play(alloc, MACHINES, "p", &mut store)?;
    store.place(alloc, "own", b"(rule A true)")?;
    Ok(store)
}

/// Whether the words have this exit status and output, where the file `x` is of these parts.
fn is_told(
    alloc: Global,
    words: &str,
    parts: Parts,
    store: &mut MemoryStore,
    want: &str,
) -> Result<bool, Fail> {
    place_parts(alloc, "x", parts, store)?;
    Ok(told(alloc, words, store)?.as_str() == want)
}

/// Whether the file `x` of these parts is refused so.
fn is_refused(
    alloc: Global,
    words: &str,
    parts: Parts,
    store: &mut MemoryStore,
    refusal: &str,
) -> Result<bool, Fail> {
    let want = format!(in alloc; "5 refused x {refusal}\n")?;
    is_told(alloc, words, parts, store, want.as_str())
}

/// Logs, with how many records are refused, and the lines that say so.
const LOGS: &[(Parts, usize, &str)] = &[
    // Parentheses: nine begun, thirty-three, a million, and a million ended.
    (&[(1, HEADER), (9, "(")], 0, "malformed x 21 TooDeep\n"),
    (&[(1, HEADER), (33, "(")], 0, "malformed x 21 TooDeep\n"),
    (
        &[(1, HEADER), (1_000_000, "(")],
        0,
        "malformed x 21 TooDeep\n",
    ),
    (
        &[(1, HEADER), (1_000_000, ")")],
        0,
        "malformed x 13 NotAToken\n",
    ),
    // Eight may be begun; they may be ended, but not once more.
    (&[(1, HEADER), (8, "(")], 0, "torn x 13\n"),
    (
        &[(1, HEADER), (8, "("), (8, ")")],
        1,
        "refused x 0 WrongShape\n",
    ),
    (
        &[(1, HEADER), (8, "("), (9, ")")],
        1,
        "refused x 0 WrongShape\nmalformed x 29 NotAToken\n",
    ),
    (
        &[(1, HEADER), (3, "()")],
        3,
        "refused x 0 WrongShape\nrefused x 1 WrongShape\nrefused x 2 WrongShape\n",
    ),
    // The longest atom and the longest list, and one more.
    (
        &[(1, HEADER), (1, "262144:"), (262_144, "a")],
        1,
        "refused x 0 WrongShape\n",
    ),
    (
        &[(1, HEADER), (1, "262145:"), (262_145, "a")],
        0,
        "malformed x 18 AtomTooLong\n",
    ),
    (
        &[(1, HEADER), (1, "("), (16_384, "0:"), (1, ")")],
        1,
        "refused x 0 WrongShape\n",
    ),
    (
        &[(1, HEADER), (1, "("), (16_385, "0:"), (1, ")")],
        0,
        "malformed x 32782 TooMany\n",
    ),
    (
        &[(1, HEADER), (1, "("), (16_385, "()"), (1, ")")],
        0,
        "malformed x 32782 TooMany\n",
    ),
    // A length of a thousand digits.
    (
        &[(1, HEADER), (1000, "1"), (1, ":")],
        0,
        "malformed x 19 AtomTooLong\n",
    ),
    // Octets that are announced and not there.
    (&[(1, HEADER), (1, "262144:")], 0, "torn x 13\n"),
    (&[(1, HEADER), (1, "262144:abc")], 0, "torn x 13\n"),
    (
        &[(1, HEADER), (1, "9999999:abc")],
        0,
        "malformed x 18 AtomTooLong\n",
    ),
    (
        &[(1, HEADER), (1, "(4:sent(6:sealed99999:abc))")],
        0,
        "torn x 13\n",
    ),
    (
        &[(1, HEADER), (1, "(4:sent(6:sealed9999999:abc))")],
        0,
        "malformed x 34 AtomTooLong\n",
    ),
    (
        &[(1, HEADER), (1, "()(4:sent")],
        1,
        "refused x 0 WrongShape\ntorn x 15\n",
    ),
    // Bytes that are invalid everywhere.
    (&[(1, HEADER), (1, "\0")], 0, "malformed x 13 NotAToken\n"),
    (
        &[(1, HEADER), (1_000_000, "\n")],
        0,
        "malformed x 13 NotAToken\n",
    ),
];

/// Whether `gaps` prints these lines for the log of these parts.
fn has_gaps(
    alloc: Global,
    parts: Parts,
    store: &mut MemoryStore,
    lines: &str,
) -> Result<bool, Fail> {
    let want = format!(in alloc; "1 {lines}")?;
    is_told(alloc, "gaps x", parts, store, want.as_str())
}

/// Whether `audit` reports this number of refused records and these lines for the log of these
/// parts.
fn has_report(
    alloc: Global,
    parts: Parts,
    store: &mut MemoryStore,
    (refused, lines): (usize, &str),
) -> Result<bool, Fail> {
    let want = format!(in alloc;
        "1 log x owner 0 kept 0 refused {refused}\n{lines}entries 0\nkept A\nverdict findings\n"
    )?;
    is_told(alloc, "audit p.roster own x", parts, store, want.as_str())
}

#[test]
fn hostile_logs_are_read_to_their_first_bad_byte(rt: HostRuntime) -> Result<(), Fail> {
    let alloc = rt.alloc();
    let mut store = hall(alloc)?;
    for &(parts, refused, lines) in LOGS {
        let told = has_gaps(alloc, parts, &mut store, lines)?
            && has_report(alloc, parts, &mut store, (refused, lines))?;
        assert!(rt; told, "{refused} {lines}");
    }
    Ok(())
}

/// Files that don't begin with a log's header.
const NO_LOGS: &[Parts] = &[
    &[],
    &[(1_000_000, "(")],
    &[(1_000_000, ")")],
    &[(1_000_000, "\n")],
    &[(1, "9999999:abc")],
    &[(1, "(3:log1:19999999:abc")],
    &[(1, "(3:log1:1262144:abc")],
    &[(1, "(3:log1:1"), (16_385, "0:"), (1, ")")],
    &[(1, "(3:log1:110:4294967296)")],
];

/// Words that read the file `x` as a log.
const LOG_WORDS: &[&str] = &[
    "gaps x",
    "audit p.roster own x",
    "order p.roster sv.0 sv.0 x",
];

#[test]
fn files_without_a_header_are_no_logs(rt: HostRuntime) -> Result<(), Fail> {
    let alloc = rt.alloc();
    let mut store = hall(alloc)?;
    for (at, parts) in NO_LOGS.iter().enumerate() {
        for words in LOG_WORDS {
            let refused = is_refused(alloc, words, parts, &mut store, "0 Header")?;
            assert!(rt; refused, "{words}: {at}");
        }
    }
    Ok(())
}

/// Files of the roster, with the place and the cause of their refusal.
const ROSTERS: &[(Parts, &str)] = &[
    (&[], "0 NotCanonical"),
    (&[(9, "(")], "8 NotCanonical"),
    (&[(33, "(")], "8 NotCanonical"),
    (&[(1_000_000, "(")], "8 NotCanonical"),
    (&[(1_000_000, ")")], "0 NotCanonical"),
    (&[(1, "\0")], "0 NotCanonical"),
    // Octets that are announced and not there.
    (&[(1, "9999999:abc")], "5 NotCanonical"),
    (&[(1, "262144:abc")], "10 NotCanonical"),
    (&[(1, "(6:roster1:1(99:sv")], "18 NotCanonical"),
    (&[(1, "(6:roster1:1(2:sv9999999:")], "22 NotCanonical"),
    // The longest list, and one more.
    (
        &[(1, "(6:roster1:1"), (16_382, "0:"), (1, ")")],
        "0 WrongShape",
    ),
    (
        &[(1, "(6:roster1:1"), (16_383, "0:"), (1, ")")],
        "32776 NotCanonical",
    ),
    // As many machines as there may be, all with one name, and one more.
    (
        &[(1, "(6:roster1:1"), (16, MACHINE), (1, ")")],
        "0 SameName",
    ),
    (
        &[(1, "(6:roster1:1"), (17, MACHINE), (1, ")")],
        "0 TooManyMachines",
    ),
    (&[(1, "(6:roster1:1)")], "0 NotOneSupervisor"),
    (&[(1, "(6:roster1:1)(")], "13 NotCanonical"),
    // The longest file, and one more byte.
    (&[(4_194_304, "(")], "8 NotCanonical"),
    (&[(4_194_305, "(")], "0 TooLong"),
];

/// Words that read the file `x` as a roster.
const ROSTER_WORDS: &[&str] = &["audit x own x", "order x sv.0 sv.0 x"];

#[test]
fn hostile_rosters_are_refused(rt: HostRuntime) -> Result<(), Fail> {
    let alloc = rt.alloc();
    let mut store = hall(alloc)?;
    for &(parts, refusal) in ROSTERS {
        for words in ROSTER_WORDS {
            let refused = is_refused(alloc, words, parts, &mut store, refusal)?;
            assert!(rt; refused, "{words}: {refusal}");
        }
    }
    Ok(())
}

/// Files of rules, with the place and the cause of their refusal.
const RULES: &[(Parts, &str)] = &[
    (&[(1_000_000, "(")], "1 Shape"),
    (&[(1_000_000, ")")], "0 Shape"),
    (&[(1, "9999999:abc")], "0 Shape"),
    (&[(1, "(rule A true)\0")], "13 Token"),
    (&[(1, "(rule "), (1_000_000, "A"), (1, " true)")], "6 Shape"),
    // The parenthesis of depth 33, and the variable of a fifth quantifier.
    (
        &[(1, "(rule A "), (32, "(not "), (1, "true"), (33, ")")],
        "163 TooDeep",
    ),
    (&[(1, "(rule A "), (200_000, "(not ")], "163 TooDeep"),
    // The formula after the sixty-fourth.
    (
        &[(1, "(rule A (and"), (65, " true"), (1, "))")],
        "333 Shape",
    ),
    (
        &[(1, "(rule A (or"), (16_385, " true"), (1, "))")],
        "332 Shape",
    ),
    // The longest file, of which the rule is lacking, and one more byte.
    (&[(4_194_304, " ")], "4194304 Shape"),
    (&[(4_194_305, " ")], "0 TooLong"),
];

#[test]
fn hostile_rules_are_refused(rt: HostRuntime) -> Result<(), Fail> {
    let alloc = rt.alloc();
    let mut store = hall(alloc)?;
    for &(parts, refusal) in RULES {
        let refused = is_refused(alloc, "audit p.roster x gone", parts, &mut store, refusal)?;
        assert!(rt; refused, "{refusal}");
    }
    Ok(())
}

/// Scripts, with the line and the cause of their refusal.
const SCRIPTS: &[(Parts, &str)] = &[
    (&[(1_000_000, "(")], "1 UnknownWord"),
    (&[(1_000_000, ")")], "1 UnknownWord"),
    (&[(1, "9999999:abc")], "1 UnknownWord"),
    (&[(1, "\0")], "1 NotPlain"),
    (&[(1, MACHINES), (1, "do sv\0open\n")], "7 NotPlain"),
    (&[(1, "seed 0102\r\n")], "1 NotPlain"),
    // Lines of a million bytes and more.
    (&[(1_000_000, " ")], "1 UnknownWord"),
    (&[(1, "seed"), (1_000_000, " ")], "1 WrongCount"),
    (&[(1, "seed "), (1_000_000, "0"), (1, "\n")], "1 OutOfRange"),
    (&[(1, "seed "), (1_000_001, "0"), (1, "\n")], "1 BadHex"),
    (
        &[(1, MACHINES), (1, "do sv "), (1_000_000, "x")],
        "7 UnknownWord",
    ),
    (
        &[(1, MACHINES), (1, "do sv authorise b1 "), (1_000_000, "9")],
        "7 BadNumber",
    ),
    (&[(1, "#"), (1_000_000, "x")], "2 OutOfOrder"),
    // One line more than there may be.
    (&[(1, MACHINES), (4097, "do sv open\n")], "4103 OutOfRange"),
    (
        &[
            (1, MACHINES),
            (4096, "do sv open\n"),
            (1, "do b1 activate 1"),
        ],
        "4103 OutOfRange",
    ),
    (
        &[(1, MACHINES), (65_537, "lose sv 0 b1\n")],
        "65543 OutOfRange",
    ),
    (
        &[(1, MACHINES), (131_073, "step act sv\n")],
        "131079 OutOfRange",
    ),
    (
        &[
            (1, MACHINES),
            (
                1,
                "machine c booth\nmachine d booth\nmachine e booth\nmachine f booth\n",
            ),
            (
                1,
                "machine g booth\nmachine h booth\nmachine i booth\nmachine j booth\n",
            ),
            (
                1,
                "machine k booth\nmachine l booth\nmachine m booth\nmachine n booth\n",
            ),
            (1, "machine o booth\nmachine p booth\nmachine q booth\n"),
        ],
        "21 OutOfRange",
    ),
    // Lines of nothing, up to the longest file, and one more.
    (&[(1_000_000, "\n")], "1000001 OutOfOrder"),
    (&[(4_194_304, "\n")], "4194305 OutOfOrder"),
    (&[(4_194_305, "\n")], "0 TooLong"),
];

/// Whether the script of these parts is refused so, and no file is written.
fn is_unplayed(
    alloc: Global,
    parts: Parts,
    store: &mut MemoryStore,
    refusal: &str,
) -> Result<bool, Fail> {
    let refused = is_refused(alloc, "play x q", parts, store, refusal)?;
    Ok(refused && store.file("q.roster").is_none())
}

#[test]
fn hostile_scripts_are_refused(rt: HostRuntime) -> Result<(), Fail> {
    let alloc = rt.alloc();
    let mut store = hall(alloc)?;
    for &(parts, refusal) in SCRIPTS {
        assert!(rt;
            is_unplayed(alloc, parts, &mut store, refusal)?,
            "{refusal}"
        );
    }
    Ok(())
}

/// Words over odd files that aren't refused, with the exit status and the output.
const ACCEPTED: &[(&str, Parts, &str)] = &[
    // No newline at the end.
    (
        "play x q",
        &[(1, MACHINES), (1, "do sv open")],
        "7 machine sv sent 0 held 0\nmachine b1 sent 0 held 0\nundone sv 0 Ready\n",
    ),
    // A comment of a million bytes, and as many empty lines.
    (
        "play x q",
        &[
            (1, "#"),
            (1_000_000, "\0"),
            (1, "\n"),
            (1, MACHINES),
            (1_000_000, "\n"),
        ],
        "0 machine sv sent 0 held 0\nmachine b1 sent 0 held 0\n",
    ),
    // Parentheses of depth 32, and sixty-four formulas.
    (
        "audit p.roster x gone",
        &[(1, "(rule A "), (31, "(not "), (1, "true"), (32, ")")],
        "6 absent gone\n",
    ),
    (
        "audit p.roster x gone",
        &[(1, "(rule A (and"), (64, " true"), (1, "))")],
        "6 absent gone\n",
    ),
];

#[test]
fn odd_files_within_the_limits_are_accepted(rt: HostRuntime) -> Result<(), Fail> {
    let alloc = rt.alloc();
    let mut store = hall(alloc)?;
    for &(words, parts, want) in ACCEPTED {
        assert!(rt;
            is_told(alloc, words, parts, &mut store, want)?,
            "{words}: {want}"
        );
    }
    Ok(())
}
