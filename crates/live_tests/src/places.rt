//! A supervisor and a booth, and entries that they sign.
ghost use Rattle.std.specs.Prelude.{◌≡◌};

use entry_format::unseal;
use live_auditor::{Fresh, Live, LiveFault};
use lms_ots::OtsKind;
use lms_sign::LmsSecret;
use roster::{Roster, election};
use std::alloc::Global;
use std::test::Fail;

/// The machines' keys, and their roster.
#[derive(Drop)]
pub(crate) struct Place {
    pub(crate) supervisor: LmsSecret,
    pub(crate) booth: LmsSecret,
    pub(crate) roster: Roster,
    pub(crate) election: [u8; 32],
}

/// The bytes of the parts, one after another.
pub(crate) fn joined(alloc: Global, parts: &[&[u8]]) -> Result<Vec<u8>, Fail> {
    let mut bytes = Vec::new(alloc);
    for part in parts {
        bytes.extend_from_slice(part)?;
    }
    Ok(bytes)
}

/// A key that has signed nothing.
fn key_of(alloc: Global, id: u8) -> Result<LmsSecret, Fail> {
    Ok(LmsSecret::make(alloc, OtsKind::W2, 5, [id; 16], [7; 32])?)
}

/// The text of a roster with these keys.
fn roster_text(alloc: Global, supervisor: &LmsSecret, booth: &LmsSecret) -> Result<Vec<u8>, Fail> {
    let supervisor = supervisor.public();
    let booth = booth.public();
    let front = b"(6:roster1:1(2:sv10:supervisor56:";
    let middle = b")(2:b15:booth56:";
    joined(
        alloc,
        &[front, supervisor.bytes(), middle, booth.bytes(), b"))"],
    )
}

/// The polling place.
pub(crate) fn place_of(alloc: Global) -> Result<Place, Fail> {
    let supervisor = key_of(alloc, 1)?;
    let booth = key_of(alloc, 2)?;
    let text = roster_text(alloc, &supervisor, &booth)?;
    Ok(Place {
        supervisor,
        booth,
        roster: Roster::read(alloc, &text)?,
        election: election(&text),
    })
}

/// The text of an entry of the election with these fields, without its signature.
pub(crate) fn body_of(alloc: Global, election: &[u8; 32], fields: &[u8]) -> Result<Vec<u8>, Fail> {
    joined(alloc, &[b"(5:entry1:132:", election, fields, b")"])
}

/// The text of the body with the signature.
pub(crate) fn signed_text(alloc: Global, body: &[u8], signature: &[u8]) -> Result<Vec<u8>, Fail> {
    let length = format!(in alloc; "{}:", signature.len())?;
    joined(
        alloc,
        &[b"(6:sealed", body, length.as_bytes(), signature, b")"],
    )
}

/// What becomes of the entry of this text. The entry comes back where it is refused.
pub(crate) fn add(
    alloc: Global,
    roster: &Roster,
    election: &[u8; 32],
    live: &mut Live,
    text: &[u8],
) -> Result<String, Fail>
    requires { live.old.machines ≡ roster.now.machines }
    ensures { live.new.machines ≡ roster.now.machines }
{
    match unseal(alloc, roster, election, text) {
        Ok(entry) => told(alloc, text, live.add(alloc, entry)),
        Err(fault) => Ok(format!(in alloc; "{fault:?}")?),
    }
}

/// What became of the entry of this text.
fn told(alloc: Global, text: &[u8], added: Result<Fresh, LiveFault>) -> Result<String, Fail> {
    match added {
        Ok(fresh) => Ok(format!(in alloc; "{fresh:?}")?),
        Err(LiveFault::Collision(back)) if back.text() == text => {
            Ok(format!(in alloc; "Collision")?)
        }
        Err(LiveFault::TooMany(back)) if back.text() == text => Ok(format!(in alloc; "TooMany")?),
        Err(LiveFault::TooWide(back, place)) if back.text() == text => {
            Ok(format!(in alloc; "TooWide {place}")?)
        }
        Err(_) => Ok(format!(in alloc; "lost")?),
    }
}
