// Unsealing beside verification.
ghost use Rattle.lms_sign.specs.Height.{IsHeight};

use crate::{ID, SEED};
use anyhow::{Result, bail};
use entry_format::unseal;
use lms_ots::OtsKind;
use lms_sign::{LmsSecret, verify};
use roster::{Roster, election};
use std::alloc::Global;
use std::time::CpuClock;

// The text of a roster of one machine with this key.
fn roster_text(alloc: Global, key: &[u8]) -> Result<Vec<u8>> {
    let mut text = Vec::from_slice(alloc, b"(6:roster1:1(2:sv10:supervisor56:")?;
    text.extend_from_slice(key)?;
    text.extend_from_slice(b"))")?;
    Ok(text)
}

// The text of the opening entry's body.
fn body_text(alloc: Global, election: &[u8]) -> Result<Vec<u8>> {
    let mut text = Vec::from_slice(alloc, b"(5:entry1:132:")?;
    text.extend_from_slice(election)?;
    text.extend_from_slice(b"1:01:01:1()(6:opened))")?;
    Ok(text)
}

// The text of the body with the signature.
fn signed_text(alloc: Global, body: &[u8], signature: &[u8]) -> Result<Vec<u8>> {
    let mut text = Vec::from_slice(alloc, b"(6:sealed")?;
    text.extend_from_slice(body)?;
    let length = format!(in alloc; "{}:", signature.len())?;
    text.extend_from_slice(length.as_bytes())?;
    text.extend_from_slice(signature)?;
    text.push(b')')?;
    Ok(text)
}

// Verifies the signature of one entry and unseals the entry, `count` times by turns, and prints the
// nanoseconds that each took.
pub(crate) fn time_unsealing(
    rt: &(impl Print + CpuClock),
    alloc: Global,
    kind: OtsKind,
    height: u32,
    count: u32,
) -> Result<()>
    requires { IsHeight height }
{
    let secret = LmsSecret::make(alloc, kind, height, ID, SEED)?;
    let public = secret.public();
    let machines = roster_text(alloc, public.bytes())?;
    let election = election(&machines);
    let Ok(roster) = Roster::read(alloc, &machines) else {
        bail!("no roster");
    };
    let body = body_text(alloc, &election)?;
    let signature = secret.signature(alloc, &body)?;
    let text = signed_text(alloc, &body, &signature)?;
    let mut verifying = 0u128;
    let mut unsealing = 0u128;
    let mut accepted = 0usize;
    let mut valid = 0usize;
    for _turn in 0..count {
        let start = rt.thread_cpu_time()?;
        if verify(&public, &body, &signature) {
            accepted = accepted.saturating_add(1);
        }
        let verified = rt.thread_cpu_time()?;
        if unseal(alloc, &roster, &election, &text).is_ok() {
            valid = valid.saturating_add(1);
        }
        let unsealed = rt.thread_cpu_time()?;
        verifying = verifying.saturating_add(verified.saturating_sub(start).as_nanos());
        unsealing = unsealing.saturating_add(unsealed.saturating_sub(verified).as_nanos());
    }
    println!(rt; "verifying {verifying} accepted {accepted} unsealing {unsealing} valid {valid}")?;
    Ok(())
}
