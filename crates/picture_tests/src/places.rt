//! Reports on the logs of a supervisor and two booths, which hold some of twelve entries.
use auditor::{Report, RulesFrom, audit};
use hall_outside::MemoryStore;
use lms_ots::OtsKind;
use lms_sign::LmsSecret;
use roster::election;
use sha2::{Digest, Sha256};
use std::alloc::Global;
use std::test::Fail;

/// The letter of each entry, its maker, its number, its stamp, what it names, and its deed. In a
/// first election b1 commits a ballot before b2 is activated (`d`, `e`, `f`); in a second it casts
/// it, and the supervisor closes (`g` to `j`). `k` is another first entry, and `l` is a second one
/// with the stamp of the first. The others are of no honest place: some name what no entry bears
/// (`?`). Of one maker the numbers rise, as its key signs.
const ENTRIES: &str = "\
a|0|0|1||(6:opened)
k|0|0|1||(6:closed)
m|1|0|1||(4:cast1:132:ballots have thirty-two octets..)
n|0|0|2|m|(9:authorise1:11:1)
p|0|0|2|?|(9:authorise1:11:1)
q|0|0|2|?|(9:authorise1:91:1)
r|1|0|2|?|(8:activate1:1)
o|0|1|3|?|(6:closed)
s|0|1|2|?|(6:closed)
b|0|1|2|a|(9:authorise1:11:1)
l|0|1|1|a|(9:authorise1:11:1)
c|0|2|3|b|(9:authorise1:21:2)
d|1|0|4|c|(8:activate1:1)
g|1|0|3|b|(8:activate1:1)
e|1|1|5|d|(6:commit1:132:ballots have thirty-two octets..)
h|1|1|4|g|(6:commit1:132:ballots have thirty-two octets..)
f|2|0|6|ce|(8:activate1:2)
i|1|2|5|h|(4:cast1:132:ballots have thirty-two octets..)
j|0|2|6|i|(6:closed)";

/// An entry's letter, its text and the digest of that.
#[derive(Drop)]
struct Made {
    letter: u8,
    text: Vec<u8>,
    digest: [u8; 32],
}

/// The machines' keys, their roster, and the entries.
#[derive(Drop)]
pub(crate) struct Place {
    keys: Vec<LmsSecret>,
    roster: Vec<u8>,
    election: [u8; 32],
    made: Vec<Made>,
}

/// The bytes of the parts, one after another.
fn joined(alloc: Global, parts: &[&[u8]]) -> Result<Vec<u8>, Fail> {
    let mut bytes = Vec::new(alloc);
    for part in parts {
        bytes.extend_from_slice(part)?;
    }
    Ok(bytes)
}

/// The keys of three machines, which have signed nothing.
fn keys_of(alloc: Global) -> Result<Vec<LmsSecret>, Fail> {
    let mut keys = Vec::new(alloc);
    for id in 0..3u8 {
        keys.push(LmsSecret::make(alloc, OtsKind::W2, 5, [id; 16], [7; 32])?)?;
    }
    Ok(keys)
}

/// The text of the roster of these keys.
fn roster_text(alloc: Global, keys: &[LmsSecret]) -> Result<Vec<u8>, Fail> {
    let [supervisor, first, second] = keys else {
        return Err(Fail::from("three machines have keys"));
    };
    let supervisor = supervisor.public();
    let first = first.public();
    let second = second.public();
    joined(
        alloc,
        &[
            b"(6:roster1:1(2:sv10:supervisor56:",
            supervisor.bytes(),
            b")(2:b15:booth56:",
            first.bytes(),
            b")(2:b25:booth56:",
            second.bytes(),
            b"))",
        ],
    )
}

/// The entry with this letter.
fn made_of(made: &[Made], letter: u8) -> Result<&Made, Fail> {
    match made.iter().find(|one| one.letter == letter) {
        Some(one) => Ok(one),
        None => Err(Fail::from("the entry is made")),
    }
}

/// The atoms of the digests of the entries with these letters. `?` is the greatest digest, which no
/// entry bears.
fn names_of(alloc: Global, made: &[Made], letters: &str) -> Result<Vec<u8>, Fail> {
    let mut atoms = Vec::new(alloc);
    for letter in letters.as_bytes() {
        atoms.extend_from_slice(b"32:")?;
        if *letter == b'?' {
            atoms.extend_from_slice(&[255; 32])?;
        } else {
            atoms.extend_from_slice(&made_of(made, *letter)?.digest)?;
        }
    }
    Ok(atoms)
}

/// The text of an entry without its signature.
fn body_of(alloc: Global, place: &Place, parts: &[&str]) -> Result<Vec<u8>, Fail> {
    let &[_, maker, number, stamp, names, deed] = parts else {
        return Err(Fail::from("the row has six parts"));
    };
    let numbers = format!(in alloc; "1:{maker}1:{number}1:{stamp}(")?;
    let names = names_of(alloc, place.made.as_slice(), names)?;
    joined(
        alloc,
        &[
            b"(5:entry1:132:",
            &place.election,
            numbers.as_bytes(),
            &names,
            b")",
            deed.as_bytes(),
            b")",
        ],
    )
}

/// The first byte of a part of a row.
fn byte_of(parts: &[&str], part: usize) -> u8 {
    match parts.get(part) {
        Some(text) => text.as_bytes().first().copied().unwrap_or(0),
        None => 0,
    }
}

/// The signature of the maker of a row, whose key goes on with the number.
fn signature_of(
    alloc: Global,
    keys: &mut [LmsSecret],
    parts: &[&str],
    body: &[u8],
) -> Result<Vec<u8>, Fail> {
    let maker = usize::from(byte_of(parts, 1) % 8);
    let number = u32::from(byte_of(parts, 2) % 8);
    match keys.get_mut(maker) {
        Some(key) => {
            if key.next() < number && !key.is_spent() {
                key.advance();
            }
            Ok(key.signature(alloc, body)?)
        }
        None => Err(Fail::from("the maker has a key")),
    }
}

/// The text of the entry of a row.
fn text_of(alloc: Global, place: &mut Place, parts: &[&str]) -> Result<Vec<u8>, Fail> {
    let body = body_of(alloc, place, parts)?;
    let signature = signature_of(alloc, &mut place.keys, parts, &body)?;
    let length = format!(in alloc; "{}:", signature.len())?;
    joined(
        alloc,
        &[b"(6:sealed", &body, length.as_bytes(), &signature, b")"],
    )
}

/// The polling place, with the entries of all rows.
pub(crate) fn place_of(alloc: Global) -> Result<Place, Fail> {
    let keys = keys_of(alloc)?;
    let roster = roster_text(alloc, &keys)?;
    let election = election(&roster);
    let made = Vec::new(alloc);
    let mut place = Place {
        keys,
        roster,
        election,
        made,
    };
    for row in ENTRIES.lines() {
        let parts: Vec<&str> = row.split('|').collect(alloc)?;
        let text = text_of(alloc, &mut place, &parts)?;
        let digest = Sha256::digest(&text);
        place.made.push(Made {
            letter: byte_of(&parts, 0),
            text,
            digest,
        })?;
    }
    Ok(place)
}

/// Adds the text of an entry, of whose signature the last octet may be another one.
fn add_text(log: &mut Vec<u8>, text: &[u8], is_changed: bool) -> Result<(), Fail> {
    match text {
        [front @ .., octet, close] if is_changed => {
            log.extend_from_slice(front)?;
            log.push(octet ^ 1)?;
            log.push(*close)?;
        }
        _ => log.extend_from_slice(text)?,
    }
    Ok(())
}

/// The text of a log of this name: its owner, and the letters of its entries, with `>` before
/// those that are sent, `<` before those that are got, and `!` before one that is changed. With
/// `-` at its end the last byte is lost.
fn log_of(alloc: Global, place: &Place, name: &str) -> Result<Vec<u8>, Fail> {
    let [owner, rest @ ..] = name.as_bytes() else {
        return Err(Fail::from("the log has an owner"));
    };
    let mut log = joined(alloc, &[b"(3:log1:11:", &[*owner], b")"])?;
    let mut is_changed = false;
    for byte in rest {
        match byte {
            b'>' => log.extend_from_slice(b"(4:sent")?,
            b'<' => log.extend_from_slice(b"(3:got")?,
            b'!' => is_changed = true,
            b'-' => drop(log.pop()),
            letter => {
                add_text(&mut log, &made_of(&place.made, *letter)?.text, is_changed)?;
                log.push(b')')?;
                is_changed = false;
            }
        }
    }
    Ok(log)
}

/// The report on the logs of these names, by the standard rules or by these.
pub(crate) fn report_by(
    alloc: Global,
    place: &Place,
    logs: &str,
    rules: Option<&str>,
) -> Result<Report, Fail> {
    let mut store = MemoryStore::make(alloc, Vec::new(alloc), Vec::new(alloc));
    let mut names = Vec::new(alloc);
    let mut source = RulesFrom::Standard;
    store.place(alloc, "roster", &place.roster)?;
    if let Some(text) = rules {
        store.place(alloc, "rules", text.as_bytes())?;
        source = RulesFrom::File("rules");
    }
    for name in logs.split(' ') {
        store.place(alloc, name, &log_of(alloc, place, name)?)?;
        names.push(String::from_str(alloc, name)?)?;
    }
    match audit(alloc, &mut store, "roster", source, &names) {
        Ok(report) => Ok(report),
        Err(_) => Err(Fail::from("the logs are audited")),
    }
}

/// The report by the standard rules on the logs of these names.
pub(crate) fn report_on(alloc: Global, place: &Place, logs: &str) -> Result<Report, Fail> {
    report_by(alloc, place, logs, None)
}
