//! Six entries of two machines in every order. What is said of them was computed by a separate
//! plain program.
use crate::places::{Place, add, body_of, joined, place_of, signed_text};
use live_auditor::Live;
use rule_engine::Verdict;
use rule_language::standard;
use sha2::{Digest, Sha256};
use std::alloc::Global;
use std::test::Fail;

/// The letter of each entry, its maker, its number with its stamp, what it names, and its deed. `f`
/// names an entry whose stamp isn't lower, and `x` is lost.
const ENTRIES: &str = "a|0|1:01:1||(6:opened)
f|0|1:11:1|a|(9:authorise1:11:2)
b|0|1:11:2|a|(9:authorise1:11:1)
c|1|1:01:3|b|(8:activate1:1)
x|1|1:11:4|c|(6:commit1:132:ballots have thirty-two octets..)
d|1|1:21:5|x|(4:cast1:132:ballots have thirty-two octets..)
e|0|1:21:6|d|(6:closed)";

/// The letters of the entries that are added.
const ADDED: &[u8] = b"abcdef";

/// Of which entries it is said, as a sum of 1 for `a`, 2 for `b` and so on, how many survive, the
/// gaps, the strays, the forks, and the verdicts on the standard rules.
const ROWS: &str = "\
0 0 - - - KKKKKKKKKKKKKKKKKKKKKK
1 1 - - - KKKKKKKKKKKKKKKKKKKKKK
2 1 a - - KUKKKKKKKKKKUKKKKUKKKK
3 2 - - - KKKKKKKKKKKKKKKKKKKKKK
4 1 b - - KKUKKKKKKKKKKKKKKKKKKK
5 2 b - - KKUKKKKKKKKKKKKKKKKKKK
6 2 a - - KUKKKKKKKKKKUKKKKUKKKK
7 3 - - - KKKKKKKKKKKKKKKKKKKKKK
8 1 x - - KKKKKUKKKKUKKKUKKUKKKK
9 2 x - - KKKKKUKKKKUKKKUKKUKKKK
10 2 xa - - KUKKKUKKKKUKUKUKKUKKKK
11 3 x - - KKKKKUKKKKUKKKUKKUKKKK
12 2 xb - - KKUKKUKKKKUKKKUKKUKKKK
13 3 xb - - KKUKKUKKKKUKKKUKKUKKKK
14 3 xa - - KUKKKUKKKKUKUKUKKUKKKK
15 4 x - - KKKKKUKKKKUKKKUKKUKKKK
16 1 d - - KKKKKKKKKKKKKKKKKUKKKK
17 2 d - - KKKKKKKKKKKKKKKKKUKKKK
18 2 da - - KUKKKKKKKKKKUUKKKUKKKK
19 3 d - - KKKKKKKKKKKKKUKKKUKKKK
20 2 db - - KKUKKKKKKKKKKKKKKUKKKK
21 3 db - - KKUKKKKKKKKKKKKKKUKKKK
22 3 da - - KUKKKKKKKKKKUUKKKUKKKK
23 4 d - - KKKKKKKKKKKKKUKKKUKKKK
24 2 x - - KKKKKUKKKKUKKKUKKUKKKK
25 3 x - - KKKKKUKKKKUKKKUKKUKKKK
26 3 xa - - KUKKKUKKKKUKUKUKKUKKKK
27 4 x - - KKKKKUKKKKUKKKUKKUKKKK
28 3 xb - - KKUKKUKKKKUKKKUKKUKKKK
29 4 xb - - KKUKKUKKKKUKKKUKKUKKKK
30 4 xa - - KUKKKUKKKKUKUKUKKUKKKK
31 5 x - - KKKKKUKKKKUKKKUKKUKKKK
32 1 a - - KUKKKKKKKKKKUKKKKUKKKK
33 1 - f - KKKKKKKKKKKKKKKKKKKKKK
34 2 a - 0.1 KUKKKKKKKKKKUKKKBUKKKK
35 2 - f - KKKKKKKKKKKKKKKKKKKKKK
36 2 ab - - KUUKKKKKKKKKUKKKKUKKKK
37 2 b f - KKUKKKKKKKKKKKKKKKKKKK
38 3 a - 0.1 KUKKKKKKKKKKUKKKBUKKKK
39 3 - f - KKKKKKKKKKKKKKKKKKKKKK
40 2 xa - - KUKKKUKKKKUKUKUKKUKKKK
41 2 x f - KKKKKUKKKKUKKKUKKUKKKK
42 3 xa - 0.1 KUKKKUKKKKUKUKUKBUKKKK
43 3 x f - KKKKKUKKKKUKKKUKKUKKKK
44 3 xab - - KUUKKUKKKKUKUKUKKUKKKK
45 3 xb f - KKUKKUKKKKUKKKUKKUKKKK
46 4 xa - 0.1 KUKKKUKKKKUKUKUKBUKKKK
47 4 x f - KKKKKUKKKKUKKKUKKUKKKK
48 2 da - - KUKKKKKKKKKKUUKKKUKKKK
49 2 d f - KKKKKKKKKKKKKKKKKUKKKK
50 3 da - 0.1 KUKKKKKKKKKKUUKKBUKKKK
51 3 d f - KKKKKKKKKKKKKUKKKUKKKK
52 3 dab - - KUUKKKKKKKKKUUKKKUKKKK
53 3 db f - KKUKKKKKKKKKKKKKKUKKKK
54 4 da - 0.1 KUKKKKKKKKKKUUKKBUKKKK
55 4 d f - KKKKKKKKKKKKKUKKKUKKKK
56 3 xa - - KUKKKUKKKKUKUUUKKUKKKK
57 3 x f - KKKKKUKKKKUKKKUKKUKKKK
58 4 xa - 0.1 KUKKKUKKKKUKUUUKBUKKKK
59 4 x f - KKKKKUKKKKUKKKUKKUKKKK
60 4 xab - - KUUKKUKKKKUKUUUKKUKKKK
61 4 xb f - KKUKKUKKKKUKKKUKKUKKKK
62 5 xa - 0.1 KUKKKUKKKKUKUUUKBUKKKK
63 5 x f - KKKKKUKKKKUKKKUKKUKKKK";

/// An entry's letter, its text and the digest of that.
#[derive(Drop)]
struct Made {
    letter: u8,
    text: Vec<u8>,
    digest: [u8; 32],
}

/// The entry with this letter.
fn made_of(made: &[Made], letter: u8) -> Result<&Made, Fail> {
    match made.iter().find(|one| one.letter == letter) {
        Some(one) => Ok(one),
        None => Err(Fail::from("the entry is made")),
    }
}

/// The atom of the digest of an entry that is named, if one is.
fn name_of(alloc: Global, made: &[Made], name: &str) -> Result<Vec<u8>, Fail> {
    let mut atom = Vec::new(alloc);
    if let Some(&letter) = name.as_bytes().first() {
        atom.extend_from_slice(b"32:")?;
        atom.extend_from_slice(&made_of(made, letter)?.digest)?;
    }
    Ok(atom)
}

/// The signature of the maker. The stray leaves the key's index for the entry after it.
fn signature_of(
    alloc: Global,
    place: &mut Place,
    letter: &str,
    maker: &str,
    body: &[u8],
) -> Result<Vec<u8>, Fail> {
    if letter == "f" {
        Ok(place.supervisor.signature(alloc, body)?)
    } else if maker == "0" {
        Ok(place.supervisor.sign(alloc, body)?)
    } else {
        Ok(place.booth.sign(alloc, body)?)
    }
}

/// The text of the entry of a row.
fn text_of(alloc: Global, place: &mut Place, made: &[Made], row: &str) -> Result<Vec<u8>, Fail> {
    let parts: Vec<&str> = row.split('|').collect(alloc)?;
    let &[letter, maker, numbers, name, deed] = parts.as_slice() else {
        return Err(Fail::from("the row has five parts"));
    };
    let name = name_of(alloc, made, name)?;
    let numbers = numbers.as_bytes();
    let deed = deed.as_bytes();
    let parts: &[&[u8]] = &[b"1:", maker.as_bytes(), numbers, b"(", &name, b")", deed];
    let body = body_of(alloc, &place.election, &joined(alloc, parts)?)?;
    let signature = signature_of(alloc, place, letter, maker, &body)?;
    signed_text(alloc, &body, &signature)
}

/// The entries of all rows.
fn entries(alloc: Global, place: &mut Place) -> Result<Vec<Made>, Fail> {
    let mut made = Vec::new(alloc);
    for row in ENTRIES.lines() {
        let text = text_of(alloc, place, made.as_slice(), row)?;
        let letter = row.as_bytes().first().copied().unwrap_or(0);
        let digest = Sha256::digest(&text);
        made.push(Made {
            letter,
            text,
            digest,
        })?;
    }
    Ok(made)
}

/// Adds the letters of these digests, or a dash if there are none.
fn add_letters(said: &mut String, made: &[Made], digests: &[[u8; 32]]) -> Result<(), Fail> {
    for digest in digests {
        let letter = made.iter().find(|one| one.digest == *digest);
        said.push(letter.map_or('?', |one| one.letter as char))?;
    }
    said.push_str(if digests.is_empty() { "- " } else { " " })?;
    Ok(())
}

/// Adds the maker and the number of each fork, or a dash if there are none.
fn add_forks(said: &mut String, forks: &[(u32, u32)]) -> Result<(), Fail> {
    for &(maker, number) in forks {
        write!(said, "{maker}.{number}")?;
    }
    said.push_str(if forks.is_empty() { "- " } else { " " })?;
    Ok(())
}

/// Adds a letter for each verdict.
fn add_verdicts(said: &mut String, verdicts: &[Verdict]) -> Result<(), Fail> {
    for verdict in verdicts {
        said.push(match verdict {
            Verdict::Kept => 'K',
            Verdict::Broken(_) => 'B',
            Verdict::Unsettled => 'U',
        })?;
    }
    Ok(())
}

/// What is said of the entries so far, as in `ROWS`.
fn said_of(alloc: Global, made: &[Made], live: &Live) -> Result<String, Fail> {
    let mut said = format!(in alloc; "{} ", live.survivors())?;
    add_letters(&mut said, made, live.gaps())?;
    add_letters(&mut said, made, live.strays())?;
    add_forks(&mut said, live.forks())?;
    add_verdicts(&mut said, live.verdicts())?;
    Ok(said)
}

/// The place of one of the entries that aren't in the sum yet.
fn place_left(sum: u32, nth: u32) -> u32 {
    let mut left = nth;
    for at in 0..6u32 {
        if sum >> at & 1 == 0 {
            if left == 0 {
                return at;
            }
            left -= 1;
        }
    }
    0
}

/// The row of the entries of this sum.
fn row_of(sum: u32) -> &'static str {
    let row = ROWS.lines().nth(sum as usize).unwrap_or("");
    row.split_once(' ').unwrap_or(("", "")).1
}

/// Adds the entries in this order, and answers the first sum of which something else is said.
fn differs_at(
    alloc: Global,
    place: &Place,
    made: &[Made],
    order: u32,
) -> Result<Option<u32>, Fail> {
    let mut live = Live::make(alloc, &place.roster, standard(alloc)?)?;
    let mut code = order;
    let mut sum = 0u32;
    for added in 0..6u32 {
        let at = place_left(sum, code % (6 - added));
        code /= 6 - added;
        let letter = ADDED.get(at as usize).copied().unwrap_or(0);
        let text = &made_of(made, letter)?.text;
        let became = add(alloc, &place.roster, &place.election, &mut live, text)?;
        sum |= 1 << (at % 32);
        let said = said_of(alloc, made, &live)?;
        if became.as_str() != "New" || said.as_str() != row_of(sum) {
            return Ok(Some(sum));
        }
    }
    Ok(None)
}

#[test]
fn each_order_says_the_same_of_the_same_entries(rt: HostRuntime) -> Result<(), Fail> {
    let alloc = rt.alloc();
    let mut place = place_of(alloc)?;
    let made = entries(alloc, &mut place)?;
    for order in 0..720 {
        let differs = differs_at(alloc, &place, made.as_slice(), order)?;
        assert!(rt; differs.is_none(), "{order}: {differs:?}");
    }
    Ok(())
}
