//! What is read of texts of rules. The expected answers are those of an independent program for the
//! same texts.
use rule_language::{RuleFault, STANDARD, read, standard, write};
use std::alloc::{AllocError, Global};
use std::test::Fail;

/// The place of the first fault, its cause, and the text, in which `~` stands for a newline. Where
/// there is none the place is the text's length, and the cause `ok`.
const ROWS: &str = "\
0 Shape 
2 Shape ~~
0 Shape )
0 Shape rule
1 Shape (
1 Shape (rul O1 true)
1 Shape ((rule O1 true)
6 Shape (rule o.1 true)
6 Shape (rule abcdefghijklmnopq true)
28 ok (rule abcdefghijklmnop true)
6 Shape (rule ( true)
10 Shape (rule O1 ((
9 Shape (rule O1 maybe)
13 Shape (rule O1 true
14 Shape (rule O1 true))
14 ok (rule O1 true)
21 SameName (rule O1 true)~(rule O1 true)
29 ok (rule O1 true)~(rule O2 true)
15 Shape (rule O1 true) x
16 Shape (rule O1 true)~(rul
5 Shape (rule
6 Shape (rule 
7 Shape (rule O
9 Shape (rule O1 tru
10 Shape (rule O1 (eve
29 ok (rule a (every x entry true))
15 Shape (rule a (every X entry true))
15 Shape (rule a (every xy entry true))
15 Shape (rule a (every ( entry true))
17 UnknownKind (rule a (every x every true))
17 Shape (rule a (every x ( true))
29 SameName (rule a (every x entry (some x opened true)))
56 ok (rule a (and (every x entry true) (some x opened true)))
30 Unbound (rule a (every x entry before x true))
54 ok (rule a (every x entry (some y opened before x true)))
45 Unbound (rule a (every x entry (some y opened before y true)))
45 Unbound (rule a (every x entry (some y opened before z true)))
45 Shape (rule a (every x entry (some y opened before Z true)))
29 Shape (rule a (every x entry before
36 ok (rule a (every x entry (and true)) )
37 ok (rule a (every x entry (before x x)))
33 Unbound (rule a (every x entry (before x y)))
40 Unbound (rule a (and (every x entry true) (same x x)))
31 Shape (rule a (every x entry (same x X)))
34 Shape (rule a (every x entry (next x x) true))
37 ok (rule a (every x entry (is x booth)))
29 Shape (rule a (every x entry (is x clerk)))
43 ok (rule a (every x entry (is x supervisor) ))
38 ok (rule a (every x entry (kind x cast)))
31 UnknownKind (rule a (every x entry (kind x vote)))
31 Shape (rule a (every x entry (kind x ))))
29 Unbound (rule a (every x entry (kind y vote)))
47 ok (rule a (every x cast (= x.session x.session)))
26 WrongField (rule a (every x entry (= x.session x.session)))
35 WrongField (rule a (every x cast (= x.session x.number)))
33 WrongField (rule a (every x cast (= x.maker x.booth)))
48 ok (rule a (every x authorise (= x.maker x.booth)))
25 WrongField (rule a (every x cast (< x.maker x.maker)))
25 WrongField (rule a (every x cast (< x.ballot x.ballot)))
47 ok (rule a (every x cast (< x.session x.session)))
47 ok (rule a (every x cast (< x.number 4294967295)))
34 Shape (rule a (every x cast (< x.number 4294967296)))
27 Shape (rule a (every x cast (= 0 00)))
25 WrongField (rule a (every x cast (= x. 0)))
25 WrongField (rule a (every x cast (= x.a.b 0)))
25 Unbound (rule a (every x cast (= y.a.b 0)))
25 Shape (rule a (every x cast (= x,number 0)))
25 Shape (rule a (every x cast (= X.number 0)))
25 Shape (rule a (every x cast (= ( 0)))
33 Shape (rule a (every x cast (= x.number)))
36 Shape (rule a (every x cast (= x.number 0 0)))
50 ok (rule a (every x challenge (= x.ballot x.ballot)))
49 ok (rule a (every x forced (= x.session x.session)))
27 WrongField (rule a (every x opened (= x.session 1)))
27 WrongField (rule a (every x cancel (= x.ballot x.ballot)))
77 ok (rule a (every a entry (every b entry (every c entry (every d entry true)))))
69 TooDeep (rule a (every a entry (every b entry (every c entry (every d entry (every e entry true))))))
69 TooDeep (rule a (every a entry (every b entry (every c entry (every d entry (some 9
12 Shape (rule a (and))
11 Shape (rule a (or))
12 Shape (rule a (not))
18 Shape (rule a (not true true))
21 Shape (rule a (implies true))
27 Shape (rule a (implies true true true))
9 Shape (rule a (xor true))
9 Shape (rule a ())
44 ok (rule a (implies true (not (or true true))))
0 Token \x01
5 Token (rule\x01
8 Token (rule O1\x7f true)
13 Token (rule O1 true\u{80}
10 Token (rule O1 (\x02
21 SameName (rule O1 true) (rule O1 (
17 UnknownKind (rule a (every x nokind (
30 SameName (rule a (every x entry (every x nokind true)))
26 Unbound (rule a (every x entry (= y.nofield 0)))
26 WrongField (rule a (every x entry (< x.maker x.nofield)))
15 Token (rule a (every \x01
17 Token (rule a (every x \x01
31 Token (rule a (every x entry (same x \x01
25 Token (rule a (every x cast (= \x01
31 Shape (rule a (every x entry (same x Y
35 Shape (rule a (every x cast (= x.session X.number
35 Shape (rule a (every x cast (= x.session 4294967296
35 WrongField (rule a (every x cast (= x.session 4294967295
35 Unbound (rule a (every x cast (= x.session y.number
25 Unbound (rule a (every x cast (< y.maker
";

/// Whether the answer to a text is this place and this word.
fn is_answered(alloc: Global, text: &[u8], place: usize, cause: &str) -> Result<bool, Fail> {
    match read(alloc, text) {
        Ok(_) => Ok(place == text.len() && cause == "ok"),
        Err(RuleFault::At { at, why }) => Ok(place == at && cause == why.word()),
        Err(fault) => Err(fault.into()),
    }
}

/// The byte that one of a row stands for: `~` is a newline.
fn written(byte: u8) -> u8 {
    if byte == b'~' { b'\n' } else { byte }
}

/// The row with its newlines.
fn text_of(alloc: Global, row: &str) -> Result<Vec<u8>, AllocError> {
    let mut text = Vec::new(alloc);
    for byte in row.bytes() {
        text.push(written(byte))?;
    }
    Ok(text)
}

/// Whether the answer to a row's text is the row's place and cause.
fn is_row_answered(alloc: Global, row: &str) -> Result<bool, Fail> {
    let Some((place, rest)) = row.split_once(' ') else {
        return Ok(false);
    };
    let Some((cause, text)) = rest.split_once(' ') else {
        return Ok(false);
    };
    let text = text_of(alloc, text)?;
    is_answered(alloc, text.as_slice(), place.parse()?, cause)
}

#[test]
fn the_first_fault_is_told_with_its_place_and_cause(rt: HostRuntime) -> Result<(), Fail> {
    for row in ROWS.lines() {
        assert!(rt; is_row_answered(rt.alloc(), row)?, "{row:?}");
    }
    Ok(())
}

/// The parts of a text, each with how often it comes there; and the answer.
const LONG: &[(&[(&str, u32)], usize, &str)] = &[
    (
        &[("(rule D ", 1), ("(not ", 31), ("true", 1), (")", 32)],
        199,
        "ok",
    ),
    (
        &[("(rule D ", 1), ("(not ", 32), ("true", 1), (")", 33)],
        163,
        "TooDeep",
    ),
    (&[("(rule D ", 1), ("(not ", 40)], 163, "TooDeep"),
    (
        &[("(rule D ", 1), ("(not ", 31), ("true (", 1)],
        168,
        "Shape",
    ),
    (&[("(rule M (and", 1), (" true", 64), ("))", 1)], 334, "ok"),
    (
        &[("(rule M (and", 1), (" true", 65), ("))", 1)],
        333,
        "Shape",
    ),
    (&[("(", 1_048_576)], 1, "Shape"),
    (&[("(", 33)], 1, "Shape"),
    (&[("(rule ", 1), ("a", 1_048_576)], 6, "Shape"),
    (&[("(rule a ", 1), ("a", 1_048_576)], 8, "Shape"),
    (&[("\t", 1), (" ", 1_048_576)], 1_048_577, "Shape"),
    (
        &[("(rule a (every x cast (= x.number ", 1), ("9", 1_048_576)],
        34,
        "Shape",
    ),
];

/// Appends the part `count` times.
fn repeat(text: &mut Vec<u8>, part: &str, count: u32) -> Result<(), AllocError> {
    for _ in 0..count {
        text.extend_from_slice(part.as_bytes())?;
    }
    Ok(())
}

/// The text of these parts, each repeated by its count.
fn joined(alloc: Global, parts: &[(&str, u32)]) -> Result<Vec<u8>, AllocError> {
    let mut text = Vec::new(alloc);
    for &(part, count) in parts {
        repeat(&mut text, part, count)?;
    }
    Ok(text)
}

/// Whether this is the answer to that text.
fn is_long_answered(
    alloc: Global,
    parts: &[(&str, u32)],
    place: usize,
    cause: &str,
) -> Result<bool, Fail> {
    let text = joined(alloc, parts)?;
    is_answered(alloc, text.as_slice(), place, cause)
}

#[test]
fn long_texts_are_read_up_to_the_limits(rt: HostRuntime) -> Result<(), Fail> {
    for &(parts, place, cause) in LONG {
        assert!(rt;
            is_long_answered(rt.alloc(), parts, place, cause)?,
            "{parts:?}"
        );
    }
    Ok(())
}

/// How many rules there are, and the answer.
const MANY: &[(u32, usize, &str)] = &[(256, 3986, "ok"), (257, 3986, "Shape")];

/// The text of `count` rules.
fn rules_text(alloc: Global, count: u32) -> Result<String, Fail> {
    let mut text = String::new(alloc);
    for place in 0..count {
        writeln!(text, "(rule {place} true)")?;
    }
    Ok(text)
}

/// Whether this is the answer to the text of `count` rules.
fn is_number_answered(alloc: Global, count: u32, place: usize, cause: &str) -> Result<bool, Fail> {
    let text = rules_text(alloc, count)?;
    is_answered(alloc, text.as_bytes(), place, cause)
}

#[test]
fn at_most_256_rules_are_read(rt: HostRuntime) -> Result<(), Fail> {
    for &(count, place, cause) in MANY {
        assert!(rt;
            is_number_answered(rt.alloc(), count, place, cause)?,
            "{count} rules"
        );
    }
    Ok(())
}

/// Whether there are 22 standard rules, which are written as their text.
fn are_standard(alloc: Global) -> Result<bool, Fail> {
    let rules = standard(alloc)?;
    let text = write(alloc, rules.as_slice())?;
    Ok(rules.len() == 22 && text.as_slice() == STANDARD.as_bytes())
}

#[test]
fn the_standard_rules_are_written_as_their_text(rt: HostRuntime) -> Result<(), Fail> {
    assert!(rt; are_standard(rt.alloc())?);
    Ok(())
}
