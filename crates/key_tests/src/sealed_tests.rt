//! Sealed entries: the first fault of a text, and entries that another program seals likewise.
ghost use Rattle.std.specs.Prelude.{IsTrue};
ghost use Rattle.entry_format.specs.EntryText.{IsVersion, IsDeedIn};

use crate::entry_format_tests::text_in;
use entry_format::{
    Deed, Entry, EntryFault, How, Names, SealFault, Sealed, is_rising, seal, unseal, unseal_vec,
};
use hex::encode;
use lms_ots::OtsKind;
use lms_sign::{LmsSecret, sign_each};
use roster::{Roster, election};
use std::alloc::Global;
use std::test::Fail;

const SUPERVISOR_ID: [u8; 16] = [0, 1, 2, 3, 4, 5, 6, 7, 8, 9, 10, 11, 12, 13, 14, 15];

const BOOTH_ID: [u8; 16] = [
    16, 17, 18, 19, 20, 21, 22, 23, 24, 25, 26, 27, 28, 29, 30, 31,
];

const SEED: [u8; 32] = [7; 32];

/// These parts one after another.
fn joined(alloc: Global, parts: &[&[u8]]) -> Result<Vec<u8>, Fail> {
    let mut text = Vec::new(alloc);
    for part in parts {
        text.extend_from_slice(part)?;
    }
    Ok(text)
}

/// The text of a roster of a supervisor and a booth with these keys.
fn roster_text(alloc: Global, supervisor: &[u8], booth: &[u8]) -> Result<Vec<u8>, Fail> {
    let front = b"(6:roster1:1(2:sv10:supervisor56:";
    joined(
        alloc,
        &[front, supervisor, b")(2:b15:booth56:", booth, b"))"],
    )
}

/// The text of the body with the signature.
fn signed_text(alloc: Global, body: &[u8], signature: &[u8]) -> Result<Vec<u8>, Fail> {
    let length = format!(in alloc; "{}:", signature.len())?;
    joined(
        alloc,
        &[b"(6:sealed", body, length.as_bytes(), signature, b")"],
    )
}

/// Whether the version has the deed.
fn has(version: u32, deed: Deed) -> bool
    ensures { IsTrue result → IsVersion version × IsDeedIn version deed }
{
    match deed {
        Deed::Challenge { .. } => version == 2,
        Deed::Override { how, .. } if how == How::Cast => version == 2,
        _ => version == 1 || version == 2,
    }
}

/// Seals an entry with the key's next number. It answers no fault where the roster's text or the
/// names are invalid, the maker has another key or the version doesn't have the deed.
fn sealed_by(
    alloc: Global,
    text: &[u8],
    secret: &LmsSecret,
    maker: u32,
    stamp: u32,
    names: Vec<[u8; 32]>,
    version: u32,
    deed: Deed,
) -> Result<Sealed, Option<SealFault>> {
    let Ok(roster) = Roster::read(alloc, text) else {
        return Err(None);
    };
    let machines = roster.machines.as_slice();
    let place = maker as usize;
    if place >= machines.len() {
        return Err(None);
    }
    let public = secret.public();
    if machines[place].key != *public.bytes() {
        return Err(None);
    }
    if !is_rising(names.as_slice()) {
        return Err(None);
    }
    if names.len() > 16384 || !has(version, deed) {
        return Err(None);
    }
    let entry = Entry {
        version,
        election: election(text),
        maker,
        number: secret.next(),
        stamp,
        names: Names::from_vec(names),
        deed,
    };
    match seal(alloc, &roster, secret, entry) {
        Ok(sealed) => Ok(sealed),
        Err(fault) => Err(Some(fault)),
    }
}

/// The octets that the digits say or, where there are none, the signature with the key's first
/// index.
fn signature_of(
    alloc: Global,
    secret: &LmsSecret,
    body: &[u8],
    digits: &str,
) -> Result<Vec<u8>, Fail> {
    if digits.is_empty() {
        return Ok(secret.signature(alloc, body)?);
    }
    let mut signature = Vec::new(alloc);
    for digit in digits.as_bytes() {
        signature.push(digit.saturating_sub(b'0'))?;
    }
    Ok(signature)
}

/// The text of the maker's entry with these names and this deed.
fn body_of(alloc: Global, maker: &str, names: &str, deed: &str) -> Result<Vec<u8>, Fail> {
    let body = format!(in alloc; "(5:entry1:1E{maker}1:71:9({names}){deed})")?;
    Ok(text_in(alloc, body.as_str())?)
}

/// The same with its signature.
fn text_of(
    alloc: Global,
    secret: &LmsSecret,
    maker: &str,
    names: &str,
    deed: &str,
    digits: &str,
) -> Result<Vec<u8>, Fail> {
    let body = body_of(alloc, maker, names, deed)?;
    let signature = signature_of(alloc, secret, &body, digits)?;
    signed_text(alloc, &body, &signature)
}

/// The fault of an entry of these parts: its election, maker, names, deed and signature. The
/// election is 32 times a letter. A text that might be taken has the same fault, and comes back.
fn fault_of(
    alloc: Global,
    roster: &Roster,
    secret: &LmsSecret,
    parts: &[&str],
) -> Result<Option<EntryFault>, Fail> {
    let [election, maker, names, deed, digits] = parts else {
        return Ok(None);
    };
    let text = text_of(alloc, secret, maker, names, deed, digits)?;
    let election = [if *election == "E" { b'e' } else { b'o' }; 32];
    let given = Vec::from_slice(alloc, &text)?;
    let Err(refused) = unseal_vec(alloc, roster, &election, given) else {
        return Ok(None);
    };
    let comes_back = refused.text.as_slice() == text.as_slice();
    match unseal(alloc, roster, &election, &text) {
        Err(fault) if comes_back && fault.word() == refused.fault.word() => Ok(Some(fault)),
        _ => Ok(None),
    }
}

/// Whether the fault of the row's entry is the one that the row says.
fn is_refused(alloc: Global, roster: &Roster, secret: &LmsSecret, row: &str) -> Result<bool, Fail> {
    let Some((entry, want)) = row.split_once(" = ") else {
        return Ok(false);
    };
    let parts: Vec<&str> = entry.split('|').collect(alloc)?;
    match fault_of(alloc, roster, secret, parts.as_slice())? {
        Some(fault) => Ok(fault.word() == want),
        None => Ok(false),
    }
}

/// The roster of a supervisor with the key and a booth.
fn roster_of(alloc: Global, secret: &LmsSecret) -> Result<Roster, Fail> {
    let text = roster_text(alloc, secret.public().bytes(), &[b'k'; 56])?;
    Ok(Roster::read(alloc, &text)?)
}

/// Entries with their first faults. The key of the second machine has an unknown type.
const FAULTS: &str = "E|1:0||(06:opened)|0007 = NotCanonical
E|1:0||(4:vote)|0007 = WrongShape
E|1:0|BA|(6:opened)|0007 = NamesNotRising
O|1:0|AB|(6:opened)|0007 = OtherElection
E|1:2|AB|(6:opened)|0007 = UnknownMaker
E|1:0|AB|(6:opened)| = WrongIndex
E|1:0|AB|(6:opened)|007 = WrongIndex
E|1:0|AB|(6:opened)|0007 = BadSignature
E|1:1|AB|(6:opened)|0007 = BadSignature
E|1:0|BA|(4:vote)|0007 = WrongShape
O|1:0|BA|(6:opened)|0007 = NamesNotRising
O|1:2|AB|(6:opened)|0007 = OtherElection
E|1:2|AB|(6:opened)|0008 = UnknownMaker
E|1:0|AB|(6:opened)|0008 = WrongIndex";

/// The first row whose fault is another one.
fn first_wrong_row(
    alloc: Global,
    roster: &Roster,
    secret: &LmsSecret,
) -> Result<Option<&'static str>, Fail> {
    for row in FAULTS.lines() {
        if !is_refused(alloc, roster, secret, row)? {
            return Ok(Some(row));
        }
    }
    Ok(None)
}

/// The same, under a roster of the supervisor with a new key and a booth.
fn first_wrong_fault(alloc: Global) -> Result<Option<&'static str>, Fail> {
    let secret = LmsSecret::make(alloc, OtsKind::W4, 5, SUPERVISOR_ID, SEED)?;
    let roster = roster_of(alloc, &secret)?;
    first_wrong_row(alloc, &roster, &secret)
}

#[test]
fn sealed_texts_are_refused_by_their_first_fault(rt: HostRuntime) -> Result<(), Fail> {
    let wrong = first_wrong_fault(rt.alloc())?;
    assert!(rt; wrong.is_none(), "{wrong:?}");
    Ok(())
}

/// Whether the text is unsealed, to an entry of the same text.
fn unseals(alloc: Global, roster_text: &[u8], text: &[u8]) -> bool {
    let Ok(roster) = Roster::read(alloc, roster_text) else {
        return false;
    };
    match unseal(alloc, &roster, &election(roster_text), text) {
        Ok(read) => read.text() == text,
        Err(_) => false,
    }
}

/// Whether the text is unsealed, to an entry that takes it.
fn unseals_vec(alloc: Global, roster_text: &[u8], text: &[u8]) -> Result<bool, Fail> {
    let roster = Roster::read(alloc, roster_text)?;
    let given = Vec::from_slice(alloc, text)?;
    match unseal_vec(alloc, &roster, &election(roster_text), given) {
        Ok(read) => Ok(read.text() == text),
        Err(_) => Ok(false),
    }
}

/// Whether a copy of what is sealed has its text, and that is unsealed again.
fn is_copied(alloc: Global, roster_text: &[u8], sealed: &Sealed) -> Result<bool, Fail> {
    let copy = sealed.copy(alloc)?;
    let text = copy.text();
    let again = unseals(alloc, roster_text, text) && unseals_vec(alloc, roster_text, text)?;
    Ok(again && text == sealed.text())
}

/// The length of what is sealed and its digest in hexadecimal.
fn line_of(alloc: Global, sealed: &Sealed) -> Result<String, Fail> {
    let digest = encode(alloc, sealed.digest())?;
    Ok(format!(in alloc; "{} {}", sealed.text().len(), digest.as_str())?)
}

/// Whether what is sealed has this length and digest, and is unsealed again.
fn is_wanted(alloc: Global, text: &[u8], sealed: &Sealed, want: &str) -> Result<bool, Fail> {
    Ok(is_copied(alloc, text, sealed)? && line_of(alloc, sealed)?.as_str() == want)
}

const BALLOT: [u8; 32] = [b'v'; 32];

/// The names of a deed's entry: an opening has none, another two.
fn names_of(alloc: Global, deed: Deed) -> Result<Vec<[u8; 32]>, Fail> {
    let mut names = Vec::new(alloc);
    if !matches!(deed, Deed::Opened) {
        names.push([b'a'; 32])?;
        names.push([b'b'; 32])?;
    }
    Ok(names)
}

/// Whether the maker's deed is sealed with this length and digest, and unsealed again. An opening
/// has the first stamp.
fn is_sealed_as(
    alloc: Global,
    text: &[u8],
    secret: &LmsSecret,
    maker: u32,
    version: u32,
    deed: Deed,
    want: &str,
) -> Result<bool, Fail> {
    let names = names_of(alloc, deed)?;
    let stamp = if names.is_empty() { 1 } else { 9 };
    match sealed_by(alloc, text, secret, maker, stamp, names, version, deed) {
        Ok(sealed) => is_wanted(alloc, text, &sealed, want),
        Err(_) => Ok(false),
    }
}

/// Versions and deeds, with the length and the digest of the sealed text.
const SEALED: &[(u32, Deed, &str)] = &[
    (
        1,
        Deed::Opened,
        "2431 1cbdb043d04e3cffd395f54d57d919e1965a8b6b7e796360f6cdb1c56e4a7ddb",
    ),
    (
        1,
        Deed::Commit {
            session: 3,
            ballot: BALLOT,
        },
        "2539 731585973cf6de0352076ded2778464aa9f643bf9d4b9b8d5924deceb3f1e425",
    ),
    (
        2,
        Deed::Opened,
        "2431 6ca5212f2703dca1038e51ee81fef40d9173c5551a7e6d144799f944f4b69e17",
    ),
    (
        2,
        Deed::Override {
            session: 3,
            how: How::Cast,
        },
        "2512 a3e9768497b62084d4a64088a2c5125394f5dc17c0c0745fe7c8c5421d656f80",
    ),
    (
        2,
        Deed::Challenge {
            session: 3,
            ballot: BALLOT,
        },
        "2542 f25006e3a1aaf3740f0e85250481977214b66b6cdfbdc90a1e679b99e132077d",
    ),
];

/// The booth's key, of which the first index is used.
fn booth_secret(alloc: Global) -> Result<LmsSecret, Fail> {
    let mut booth = LmsSecret::make(alloc, OtsKind::W4, 5, BOOTH_ID, SEED)?;
    booth.advance();
    Ok(booth)
}

/// Whether the row's deed is sealed so: by the booth, if it is a booth's.
fn is_row_sealed(
    alloc: Global,
    supervisor: &LmsSecret,
    booth: &LmsSecret,
    version: u32,
    deed: Deed,
    want: &str,
) -> Result<bool, Fail> {
    let text = roster_text(alloc, supervisor.public().bytes(), booth.public().bytes())?;
    match deed {
        Deed::Commit { .. } | Deed::Challenge { .. } => {
            is_sealed_as(alloc, &text, booth, 1, version, deed, want)
        }
        _ => is_sealed_as(alloc, &text, supervisor, 0, version, deed, want),
    }
}

/// What the first row wants whose deed isn't sealed so.
fn first_wrong_deed(
    alloc: Global,
    supervisor: &LmsSecret,
    booth: &LmsSecret,
) -> Result<Option<&'static str>, Fail> {
    for &(version, deed, want) in SEALED {
        if !is_row_sealed(alloc, supervisor, booth, version, deed, want)? {
            return Ok(Some(want));
        }
    }
    Ok(None)
}

/// The same, sealed with new keys.
fn first_wrong_sealed(alloc: Global) -> Result<Option<&'static str>, Fail> {
    let supervisor = LmsSecret::make(alloc, OtsKind::W4, 5, SUPERVISOR_ID, SEED)?;
    let booth = booth_secret(alloc)?;
    first_wrong_deed(alloc, &supervisor, &booth)
}

#[test]
fn sealed_entries_are_those_of_another_program(rt: HostRuntime) -> Result<(), Fail> {
    let wrong = first_wrong_sealed(rt.alloc())?;
    assert!(rt; wrong.is_none(), "{wrong:?}");
    Ok(())
}

/// A key that has signed with each of its indexes.
fn spent_secret(alloc: Global) -> Result<LmsSecret, Fail> {
    let mut secret = LmsSecret::make(alloc, OtsKind::W1, 5, SUPERVISOR_ID, SEED)?;
    let messages = vec![in alloc; b"vote".as_slice(); 32]?;
    let _signatures = sign_each(alloc, &mut secret, &messages)?;
    Ok(secret)
}

/// Whether the supervisor's opening is refused, since the key is spent.
fn is_spent(alloc: Global, secret: &LmsSecret) -> Result<bool, Fail> {
    let text = roster_text(alloc, secret.public().bytes(), &[b'k'; 56])?;
    let names = Vec::new(alloc);
    let sealed = sealed_by(alloc, &text, secret, 0, 1, names, 1, Deed::Opened);
    Ok(matches!(sealed, Err(Some(SealFault::Spent))))
}

#[test]
fn a_spent_key_seals_nothing(rt: HostRuntime) -> Result<(), Fail> {
    let secret = spent_secret(rt.alloc())?;
    assert!(rt; is_spent(rt.alloc(), &secret)?);
    Ok(())
}
