// Keys and signatures as files.
ghost use Rattle.std.specs.Prelude.{◌≡◌, length};
ghost use Rattle.lms_sign.specs.Height.{IsHeight};

use anyhow::{Result, bail, ensure};
use lms_ots::OtsKind;
use lms_sign::{LmsPublic, LmsSecret, verify};
use std::fs;
use std::rt::Files;

// Signs a message with the index `index`. The words name the files of the secret, which is an
// identifier and a seed, of the message, and those that the key and the signature go to.
pub(crate) fn sign_file<R: Files + AllocGlobal>(
    rt: &R,
    kind: OtsKind,
    height: u32,
    index: u32,
    words: &[String],
) -> Result<()>
    requires height { IsHeight height }
    requires words { length words.now ≡ 4 }
{
    let parts = fs::read(rt, words[0].as_str())?;
    ensure!(parts.len() == 48, "a secret has 16 and 32 bytes");
    let mut id = [0; 16];
    let mut seed = [0; 32];
    id.copy_from_slice(&parts[..16]);
    seed.copy_from_slice(&parts[16..]);
    let message = fs::read(rt, words[1].as_str())?;
    let mut secret = LmsSecret::make(rt.alloc(), kind, height, id, seed)?;
    for _used in 0..index {
        let _signature = secret.sign(rt.alloc(), &message)?;
    }
    let signature = secret.sign(rt.alloc(), &message)?;
    fs::write(rt, words[2].as_str(), secret.public().bytes().as_slice())?;
    fs::write(rt, words[3].as_str(), signature.as_slice())?;
    Ok(())
}

// Prints whether a signature is one of a message under a key.
pub(crate) fn verify_files<R: Files + AllocGlobal + Print>(
    rt: &R,
    key: &str,
    message: &str,
    signature: &str,
) -> Result<()> {
    let key = fs::read(rt, key)?;
    let message = fs::read(rt, message)?;
    let signature = fs::read(rt, signature)?;
    let Ok(key) = LmsPublic::from_bytes(&key) else {
        bail!("no key");
    };
    println!(rt; "{}", verify(&key, &message, &signature))?;
    Ok(())
}
