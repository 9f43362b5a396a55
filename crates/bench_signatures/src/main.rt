//! Times keys, signatures and verification, and writes and checks them as files.
//!
//! Without words it prints what it made for each kind. `time KIND HEIGHT HASHES` prints processor
//! times, `unseal KIND HEIGHT COUNT` those of verifying and of unsealing one entry, `sign KIND
//! HEIGHT INDEX SECRET MESSAGE KEY SIGNATURE` writes a key and a signature, and `verify KEY MESSAGE
//! SIGNATURE` checks one; SECRET is a file of an identifier and a seed.
#![tactic(auto)]

mod files;
mod timing;
mod unsealing;

ghost use Rattle.std.specs.Prelude.{IfSome};
ghost use Rattle.lms_sign.specs.Height.{IsHeight};

use anyhow::{Result, bail, ensure};
use files::{sign_file, verify_files};
use lms_ots::OtsKind;
use lms_sign::{LmsSecret, verify};
use sha2::{Digest, Sha256};
use std::alloc::Global;
use std::env;
use timing::time_all;
use unsealing::time_unsealing;

// The identifier and the seed of the keys that are timed.
pub(crate) const ID: [u8; 16] = [0, 1, 2, 3, 4, 5, 6, 7, 8, 9, 10, 11, 12, 13, 14, 15];

pub(crate) const SEED: [u8; 32] = [7; 32];

// Makes a key of each kind, and signs with it.
fn run_each_kind(rt: &impl Print, alloc: Global) -> Result<()> {
    for (name, kind) in [
        ("w1", OtsKind::W1),
        ("w2", OtsKind::W2),
        ("w4", OtsKind::W4),
        ("w8", OtsKind::W8),
    ] {
        let mut secret = LmsSecret::make(alloc, kind, 5, ID, SEED)?;
        let public = secret.public();
        let signature = secret.sign(alloc, b"vote")?;
        print!(rt;
            "{name} {} {} ",
            signature.len(),
            verify(&public, b"vote", &signature)
        )?;
        for byte in Sha256::digest(&signature) {
            print!(rt; "{byte:02x}")?;
        }
        println!(rt; "")?;
    }
    Ok(())
}

fn kind_from(word: &str) -> Option<OtsKind> {
    match word {
        "w1" => Some(OtsKind::W1),
        "w2" => Some(OtsKind::W2),
        "w4" => Some(OtsKind::W4),
        "w8" => Some(OtsKind::W8),
        _ => None,
    }
}

fn height_from(word: &str) -> Option<u32>
    ensures { IfSome result IsHeight }
{
    match word {
        "5" => Some(5),
        "10" => Some(10),
        _ => None,
    }
}

fn run(rt: &HostRuntime, alloc: Global, words: &[String]) -> Result<()> {
    if words.is_empty() {
        return run_each_kind(rt, alloc);
    }
    let command = words[0].as_str();
    if command == "verify" {
        ensure!(words.len() == 4, "verify KEY MESSAGE SIGNATURE");
        return verify_files(rt, words[1].as_str(), words[2].as_str(), words[3].as_str());
    }
    ensure!(words.len() >= 4, "time, unseal, sign or verify");
    let Some(kind) = kind_from(words[1].as_str()) else {
        bail!("a kind is w1, w2, w4 or w8");
    };
    let Some(height) = height_from(words[2].as_str()) else {
        bail!("a height is 5 or 10");
    };
    let number = words[3].as_str().parse::<u32>()?;
    if command == "time" {
        return time_all(rt, alloc, kind, height, number);
    }
    if command == "unseal" {
        return time_unsealing(rt, alloc, kind, height, number);
    }
    ensure!(command == "sign", "time, unseal, sign or verify");
    ensure!(
        words.len() == 8,
        "sign KIND HEIGHT INDEX SECRET MESSAGE KEY SIGNATURE"
    );
    sign_file(rt, kind, height, number, &words[4..])
}

fn main(rt: HostRuntime) -> Result<()> {
    let alloc = rt.alloc();
    let mut words = Vec::new(alloc);
    for word in env::args(&rt)?.skip(1) {
        words.push(word)?;
    }
    run(&rt, alloc, &words)
}
