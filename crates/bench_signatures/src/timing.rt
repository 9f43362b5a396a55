// Processor times.
ghost use Rattle.lms_sign.specs.Height.{IsHeight};

use crate::{ID, SEED};
use anyhow::Result;
use lms_ots::OtsKind;
use lms_sign::{LmsSecret, verify};
use sha2::{Digest, Sha256};
use std::alloc::Global;
use std::time::CpuClock;

// How many signatures are timed.
const SIGNATURES: u32 = 32;

// Hashes `count` messages of 55 bytes, each of which depends on the digest before it.
fn hash_plainly(count: u32) -> u8 {
    let mut message = [0; 55];
    for _turn in 0..count {
        let digest = Sha256::digest(&message);
        message[22] = digest[0];
    }
    message[22]
}

// Prints the nanoseconds of `hashes` plain hashes, of making a key, and of signing and verifying
// with each of the first 32 indexes, whose messages are their numbers as four bytes.
pub(crate) fn time_all(
    rt: &(impl Print + CpuClock),
    alloc: Global,
    kind: OtsKind,
    height: u32,
    hashes: u32,
) -> Result<()>
    requires { IsHeight height }
{
    let start = rt.thread_cpu_time()?;
    let last = hash_plainly(hashes);
    let plain = rt.thread_cpu_time()?;
    let mut secret = LmsSecret::make(alloc, kind, height, ID, SEED)?;
    let made = rt.thread_cpu_time()?;
    let public = secret.public();
    let mut signatures = Vec::with_capacity(alloc, SIGNATURES as usize)?;
    for i in 0..SIGNATURES {
        signatures.push(secret.sign(alloc, &i.to_be_bytes())?)?;
    }
    let signed = rt.thread_cpu_time()?;
    let mut accepted = 0usize;
    for i in 0..SIGNATURES {
        if let Some(signature) = signatures.get(i as usize) {
            if verify(&public, &i.to_be_bytes(), signature) {
                accepted = accepted.saturating_add(1);
            }
        }
    }
    let verified = rt.thread_cpu_time()?;
    println!(rt;
        "plain {} making {} signing {} verifying {} accepted {accepted} last {last}",
        plain.saturating_sub(start).as_nanos(),
        made.saturating_sub(plain).as_nanos(),
        signed.saturating_sub(made).as_nanos(),
        verified.saturating_sub(signed).as_nanos()
    )?;
    Ok(())
}
