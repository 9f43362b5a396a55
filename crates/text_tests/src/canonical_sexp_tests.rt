//! Worked values of the format, a text for each cause, and both readers' answers to them.
use canonical_sexp::{
    Front, MAX_MEMBERS, Members, Memory, Read, Rest, atom, front_of, length_of, number_atom,
    number_of, read_one, whole_text, write,
};
use std::alloc::Global;
use std::test::Fail;

/// The answer of the reader in place as words. A text is shown as the bytes that were used.
fn answer_in_place(alloc: Global, bytes: &[u8]) -> Result<String, Fail> {
    match front_of(bytes) {
        Front::Whole { text, used } => {
            let same = text.bytes() == &bytes[..used];
            Ok(format!(in alloc; "Whole {used} {same}")?)
        }
        Front::Cut => Ok(String::from_str(alloc, "Cut")?),
        Front::Bad { at, why } => Ok(format!(in alloc; "Bad {at} {}", why.word())?),
    }
}

/// That of the reader of trees. A tree is written again, as the bytes that were used.
fn answer_by_tree(alloc: Global, bytes: &[u8]) -> Result<String, Fail> {
    let mut text = Vec::new(alloc);
    match read_one(alloc, bytes)? {
        Read::Whole { value, used } => {
            write(alloc, &value, &mut text)?;
            let same = text.as_slice() == &bytes[..used];
            Ok(format!(in alloc; "Whole {used} {same}")?)
        }
        Read::Cut => Ok(String::from_str(alloc, "Cut")?),
        Read::Bad { at, why } => Ok(format!(in alloc; "Bad {at} {}", why.word())?),
    }
}

/// What both readers answer, or both answers where they differ.
fn answer(alloc: Global, bytes: &[u8]) -> Result<String, Fail> {
    let in_place = answer_in_place(alloc, bytes)?;
    let by_tree = answer_by_tree(alloc, bytes)?;
    if in_place.as_str() == by_tree.as_str() {
        return Ok(in_place);
    }
    Ok(format!(in alloc; "{} and {}", in_place.as_str(), by_tree.as_str())?)
}

/// Texts with their answers.
const ANSWERS: &str = " = Cut
(3:abc0:) = Whole 9 true
(3:ab = Cut
262144: = Cut
(((((((( = Cut
) = Bad 0 NotAToken
[ = Bad 0 Hint
1x = Bad 1 NotAToken
262145: = Bad 5 AtomTooLong
((((((((( = Bad 8 TooDeep
0: = Whole 2 true
3:abcd = Whole 5 true
()() = Whole 2 true
(((((((())))))))) = Whole 16 true
03:abc = Bad 1 LeadingZero
(03:abc) = Bad 2 LeadingZero
(1:a 1:b) = Bad 4 NotAToken
(1:a[ = Bad 4 Hint
((((((((0:( = Bad 10 TooDeep
(1x = Bad 2 NotAToken
(1( = Bad 2 NotAToken
(1[ = Bad 2 NotAToken
(x = Bad 1 NotAToken
  = Bad 0 NotAToken";

#[test]
fn answers_by_the_front_of_the_bytes(rt: HostRuntime) -> Result<(), Fail> {
    for row in ANSWERS.lines() {
        if let Some((text, want)) = row.split_once(" = ") {
            let got = answer(rt.alloc(), text.as_bytes())?;
            assert_eq!(rt; got.as_str(), want, "{text}");
        }
    }
    Ok(())
}

/// This many lists, each in the one before, the innermost with 16,384 members.
fn full_list(alloc: Global, depth: usize) -> Result<Vec<u8>, Memory> {
    let mut text = Vec::new(alloc);
    for _ in 0..depth {
        text.push(b'(')?;
    }
    for _ in 0..MAX_MEMBERS {
        text.extend_from_slice(b"0:")?;
    }
    Ok(text)
}

/// How many lists are open, what follows the last member that fits, and the answer.
const AFTER_THE_LAST: &str = "1 ) = Whole 32770 true
1 0 = Bad 32769 TooMany
1 ( = Bad 32769 TooMany
8 ( = Bad 32776 TooMany
1 [ = Bad 32769 Hint
1 x = Bad 32769 NotAToken";

#[test]
fn no_member_follows_the_last_that_fits(rt: HostRuntime) -> Result<(), Fail> {
    for row in AFTER_THE_LAST.lines() {
        if let Some((lists, want)) = row.split_once(" = ") {
            let (depth, next) = lists.split_once(" ").unwrap_or(("", ""));
            let mut text = full_list(rt.alloc(), depth.parse().unwrap_or(0))?;
            text.extend_from_slice(next.as_bytes())?;
            let got = answer(rt.alloc(), &text)?;
            assert_eq!(rt; got.as_str(), want, "{lists}");
        }
    }
    Ok(())
}

/// A number in decimal, or `none`.
fn shown(alloc: Global, number: Option<usize>) -> Result<String, Fail> {
    match number {
        Some(number) => Ok(number.to_string(alloc)?),
        None => Ok(String::from_str(alloc, "none")?),
    }
}

/// Inputs with the places where they stop being one text.
const STOPS: &str = "(3:abc0:) = none
(3:abc0:)( = 9
(3:ab = 5
(1:a 1:b) = 4
 = 0";

#[test]
fn an_input_is_one_text_or_stops(rt: HostRuntime) -> Result<(), Fail> {
    for row in STOPS.lines() {
        if let Some((text, want)) = row.split_once(" = ") {
            let got = shown(rt.alloc(), whole_text(text.as_bytes()).err())?;
            assert_eq!(rt; got.as_str(), want, "{text}");
        }
    }
    Ok(())
}

/// The octets of the atoms among the members, each followed by a comma.
fn atoms_in(alloc: Global, members: Rest<'_>) -> Result<Vec<u8>, Memory> {
    let mut octets = Vec::new(alloc);
    for member in members {
        if let Some(atom) = member.as_atom() {
            octets.extend_from_slice(atom)?;
            octets.push(b',')?;
        }
    }
    Ok(octets)
}

#[test]
fn members_are_lent_in_order(rt: HostRuntime) -> Result<(), Fail> {
    let text = whole_text(b"(3:abc(2:420:)0:1:d)").ok().ok_or("no text")?;
    let members = text.as_list().ok_or("no list")?;
    assert_eq!(rt; members.len(), 4);
    let octets = atoms_in(rt.alloc(), members)?;
    assert_eq!(rt; octets.as_slice(), b"abc,,d,".as_slice());
    Ok(())
}

#[test]
fn writes_the_text_and_its_length(rt: HostRuntime) -> Result<(), Fail> {
    let alloc = rt.alloc();
    let mut text = Vec::new(alloc);
    let mut length = 0;
    if let Read::Whole { value, .. } = read_one(alloc, b"(3:abc2:42)")? {
        write(alloc, &value, &mut text)?;
        length = length_of(&value);
    }
    assert_eq!(rt; text.as_slice(), b"(3:abc2:42)".as_slice());
    assert_eq!(rt; length, 11);
    Ok(())
}

#[test]
fn members_are_added_at_the_end(rt: HostRuntime) -> Result<(), Fail> {
    let alloc = rt.alloc();
    let mut members = Members::new(alloc);
    members.push(atom(alloc, b"abc")?)?;
    members.push(number_atom(alloc, 42)?)?;
    assert_eq!(rt; members.len(), 2);
    assert!(rt; members.as_slice()[1].is_word(b"42"));
    Ok(())
}

/// Octets with the number that they are in decimal.
const NUMBERS: &str = "0 = 0
10 = 10
4294967295 = 4294967295
4294967296 = none
42949672950 = none
 = none
00 = none
01 = none
+1 = none
1  = none";

#[test]
fn numbers_are_decimals_without_leading_zeros(rt: HostRuntime) -> Result<(), Fail> {
    for row in NUMBERS.lines() {
        if let Some((octets, want)) = row.split_once(" = ") {
            let number = number_of(octets.as_bytes()).map(|number| number as usize);
            let got = shown(rt.alloc(), number)?;
            assert_eq!(rt; got.as_str(), want, "{octets}");
        }
    }
    Ok(())
}
