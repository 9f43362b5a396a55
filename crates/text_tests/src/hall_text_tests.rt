//! The readers on examples: each accepted form, and the nearest that is refused.
use hall_text::{Span, decimal, digest_hex, lines, tokens};
use std::alloc::Global;
use std::test::Fail;

/// Words with the number that they are in decimal.
const NUMBERS: &str = "0 = 0
7 = 7
10 = 10
4294967295 = 4294967295
 = none
01 = none
00 = none
4294967296 = none
99999999999 = none
-1 = none
+1 = none
1  = none
 1 = none
a = none
1a = none";

/// A number in decimal, or `none`.
fn shown(alloc: Global, number: Option<u32>) -> Result<String, Fail> {
    match number {
        Some(number) => Ok(number.to_string(alloc)?),
        None => Ok(String::from_str(alloc, "none")?),
    }
}

#[test]
fn numbers_have_32_bits_and_no_leading_zero(rt: HostRuntime) -> Result<(), Fail> {
    for row in NUMBERS.lines() {
        if let Some((word, want)) = row.split_once(" = ") {
            let got = shown(rt.alloc(), decimal(word.as_bytes()))?;
            assert_eq!(rt; got.as_str(), want, "{word}");
        }
    }
    Ok(())
}

/// Words, and whether they are a digest.
const DIGESTS: &str = "0000000000000000000000000000000000000000000000000000000000000000 = true
a000000000000000000000000000000000000000000000000000000000000000 = true
A000000000000000000000000000000000000000000000000000000000000000 = false
0g00000000000000000000000000000000000000000000000000000000000000 = false
000000000000000000000000000000000000000000000000000000000000000 = false
00000000000000000000000000000000000000000000000000000000000000000 = false
000000000000000000000000000000000000000000000000000000000000000000 = false
 000000000000000000000000000000000000000000000000000000000000000 = false
 = false";

#[test]
fn digests_are_lower_case_and_whole(rt: HostRuntime) {
    for row in DIGESTS.lines() {
        if let Some((word, want)) = row.split_once(" = ") {
            assert_eq!(rt;
                digest_hex(word.as_bytes()).is_some(),
                want == "true",
                "{word}"
            );
        }
    }
}

#[test]
fn digests_have_their_bytes(rt: HostRuntime) {
    let word = "0f1e2d3c4b5a69788796a5b4c3d2e1f0ff00000000000000000000000000000a";
    let mut want = [0; 32];
    let front = [
        15, 30, 45, 60, 75, 90, 105, 120, 135, 150, 165, 180, 195, 210, 225, 240, 255,
    ];
    want[..17].copy_from_slice(&front);
    want[31] = 10;
    assert_eq!(rt; digest_hex(word.as_bytes()), Some(want));
}

/// The text with a line's end for each `;`.
fn text_of(alloc: Global, given: &str) -> Result<String, Fail> {
    let mut text = String::new(alloc);
    for byte in given.bytes() {
        text.push(if byte == b';' { '\n' } else { char::from(byte) })?;
    }
    Ok(text)
}

/// The text's parts, each between two bars.
fn parts(alloc: Global, text: &str, spans: &[Span]) -> Result<String, Fail> {
    let mut out = String::new(alloc);
    for span in spans {
        out.push('|')?;
        for (at, byte) in text.bytes().enumerate() {
            if span.start <= at && at < span.end {
                out.push(char::from(byte))?;
            }
        }
    }
    out.push('|')?;
    Ok(out)
}

/// Texts with their tokens.
const TOKENS: &str = " = |
 \t\r; = |
(rule O1 true) = |(|rule|O1|true|)|
((a)b) = |(|(|a|)|b|)|
a\x7fb = |a|b|
x.maker< = |x.maker<|";

#[test]
fn tokens_are_words_and_parentheses(rt: HostRuntime) -> Result<(), Fail> {
    let alloc = rt.alloc();
    for row in TOKENS.lines() {
        if let Some((given, want)) = row.split_once(" = ") {
            let text = text_of(alloc, given)?;
            let spans = tokens(alloc, text.as_bytes())?;
            let got = parts(alloc, text.as_str(), spans.as_slice())?;
            assert_eq!(rt; got.as_str(), want, "{given}");
        }
    }
    Ok(())
}

/// Texts with their lines.
const LINES: &str = " = |
; = ||
a = |a|
a; = |a|
a;b = |a|b|
a;;b; = |a||b|
;; = |||";

#[test]
fn lines_end_with_a_newline_or_the_text(rt: HostRuntime) -> Result<(), Fail> {
    let alloc = rt.alloc();
    for row in LINES.lines() {
        if let Some((given, want)) = row.split_once(" = ") {
            let text = text_of(alloc, given)?;
            let spans = lines(alloc, text.as_bytes())?;
            let got = parts(alloc, text.as_str(), spans.as_slice())?;
            assert_eq!(rt; got.as_str(), want, "{given}");
        }
    }
    Ok(())
}
