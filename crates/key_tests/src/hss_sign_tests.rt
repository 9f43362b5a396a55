use crate::key_rows::{ID, SEED, push_hex};
use hss_sign::{HssFault, HssSecret, Memory, hss_verify};
use lms_ots::OtsKind;
use sha2::{Digest, Sha256};
use std::alloc::Global;
use std::test::Fail;
use ways_of_work::InThreads;

// The public key, and the numbers of signatures of `ballot` with their digests: those of a plain
// program written from RFC 8554, section 6. Low trees have 32 leaves.
const PUBLIC: &str = "\
000000020000000500000002000102030405060708090a0b0c0d0e0f\
d4cdec84a786c9ba20e7d34bb71513a04b3155824f4806ff2b54a13b83c25ea7";

const FIRST: &[(u32, &str)] = &[(
    0,
    "fd147b16773c2ed36068860bdc6691ad7b8a6cf70513ca2a74c437c7ad6f32bc",
)];

const FROM_TREE_TO_TREE: &[(u32, &str)] = &[
    (
        31,
        "aed2b89cc145e9ed3d80e3219565960f4ef17392d49d513257acff601f58c36b",
    ),
    (
        32,
        "13f2e6eab353ebe457a812412a09bbaed6fa12c13c0bf5fcecac0382981c7e69",
    ),
    (
        33,
        "d292622e6181c1de7bbf5950a2614f8c646bad8afd421df48b57181277560690",
    ),
];

const LAST: &[(u32, &str)] = &[
    (
        1022,
        "a414866596498ad07228abd013d36db7a9fbe471279f8d0faaa3b672301dc999",
    ),
    (
        1023,
        "270c8911c6a57623c23fbd6aa7c91da8d1abce31fe6914a0b7b46dce943d986f",
    ),
];

fn secret_at(alloc: Global, next: u32) -> Result<HssSecret, Memory> {
    HssSecret::make(alloc, OtsKind::W2, 5, 5, ID, SEED, next.min(1024))
}

// Whether the bytes have this digest, in hexadecimal.
fn has_digest(alloc: Global, bytes: &[u8], digest: &str) -> Result<bool, Memory> {
    let mut text = String::new(alloc);
    push_hex(&mut text, &Sha256::digest(bytes))?;
    Ok(text.ends_with(digest))
}

// Whether the key makes these signatures one after another.
fn makes(alloc: Global, secret: &mut HssSecret, rows: &[(u32, &str)]) -> Result<bool, HssFault> {
    let key = secret.public();
    for &(number, digest) in rows {
        let is_next = secret.next() == number;
        let signature = secret.sign(alloc, b"ballot")?;
        let is_good = hss_verify(&key, b"ballot", &signature);
        if !is_next || !is_good || !has_digest(alloc, &signature, digest)? {
            return Ok(false);
        }
    }
    Ok(true)
}

#[test]
fn the_public_key_is_that_of_another_program(rt: HostRuntime) -> Result<(), Fail> {
    let alloc = rt.alloc();
    let mut text = String::new(alloc);
    push_hex(&mut text, &secret_at(alloc, 1024)?.public())?;
    assert!(rt; text.trim_start() == PUBLIC);
    Ok(())
}

#[test]
fn signatures_are_those_of_another_program(rt: HostRuntime) -> Result<(), Fail> {
    let alloc = rt.alloc();
    assert!(rt; makes(alloc, &mut secret_at(alloc, 0)?, FIRST)?);
    assert!(rt; makes(alloc, &mut secret_at(alloc, 31)?, FROM_TREE_TO_TREE)?);
    assert!(rt; makes(alloc, &mut secret_at(alloc, 1022)?, LAST)?);
    Ok(())
}

#[test]
fn a_key_is_spent_after_its_last_leaf(rt: HostRuntime) -> Result<(), Fail> {
    let alloc = rt.alloc();
    let mut secret = secret_at(alloc, 1023)?;
    let signature = secret.sign(alloc, b"ballot")?;
    assert!(rt; signature.len() == 8980 && secret.next() == 1024);
    assert!(rt; matches!(secret.sign(alloc, b"ballot"), Err(HssFault::Spent)));
    let mut made = secret_at(alloc, 1024)?;
    assert!(rt; matches!(made.sign(alloc, b"ballot"), Err(HssFault::Spent)));
    let answer = made.sign_by(&InThreads { rt: &rt }, alloc, b"ballot");
    assert!(rt; matches!(answer, Err(HssFault::Spent)));
    Ok(())
}

#[test]
fn keys_made_in_threads_are_the_same(rt: HostRuntime) -> Result<(), Fail> {
    let alloc = rt.alloc();
    let work = InThreads { rt: &rt };
    let mut secret = HssSecret::make_by(&work, alloc, OtsKind::W2, 5, 5, ID, SEED, 31)?;
    for &(number, digest) in FROM_TREE_TO_TREE {
        let signature = secret.sign_by(&work, alloc, b"ballot")?;
        assert!(rt; has_digest(alloc, &signature, digest)?, "{number}");
    }
    Ok(())
}

// Changes one bit of a byte, where there is one.
fn flip(bytes: &mut [u8], at: usize) {
    if let Some(byte) = bytes.get_mut(at) {
        *byte ^= 1;
    }
}

// Places in a public key: the number of levels, the top tree's types, identifier and root.
const IN_KEY: &[usize] = &[3, 7, 11, 12, 28, 59];

// Places in a signature: the number of signed keys; the index, the types, the randomizer, an
// element and the path of the top tree's signature; the types, identifier and root of the low
// tree's key; and the parts of its signature.
const IN_SIGNATURE: &[usize] = &[
    0, 3, 7, 11, 12, 44, 4303, 4304, 4467, 4471, 4472, 4488, 4523, 4527, 4528, 4560, 8819, 8820,
    8979,
];

#[test]
fn a_changed_key_or_signature_is_refused(rt: HostRuntime) -> Result<(), Fail> {
    let alloc = rt.alloc();
    let mut secret = secret_at(alloc, 31)?;
    let mut key = secret.public();
    let mut signature = secret.sign(alloc, b"ballot")?;
    assert!(rt; hss_verify(&key, b"ballot", &signature));
    assert!(rt; !hss_verify(&key, b"ballots", &signature));
    for &at in IN_KEY {
        flip(&mut key, at);
        assert!(rt; !hss_verify(&key, b"ballot", &signature), "{at}");
        flip(&mut key, at);
    }
    for &at in IN_SIGNATURE {
        flip(signature.as_mut_slice(), at);
        assert!(rt; !hss_verify(&key, b"ballot", &signature), "{at}");
        flip(signature.as_mut_slice(), at);
    }
    assert!(rt; hss_verify(&key, b"ballot", &signature));
    Ok(())
}

// Lengths of keys and signatures, and whether they are accepted.
const LENGTHS: &[(usize, usize, bool)] = &[
    (60, 8980, true),
    (60, 8981, false),
    (60, 8979, false),
    (60, 4520, false),
    (60, 4519, false),
    (60, 4, false),
    (60, 3, false),
    (60, 0, false),
    (61, 8980, false),
    (59, 8980, false),
    (4, 8980, false),
    (0, 8980, false),
    (0, 0, false),
];

#[test]
fn keys_and_signatures_of_other_lengths_are_refused(rt: HostRuntime) -> Result<(), Fail> {
    let alloc = rt.alloc();
    let mut secret = secret_at(alloc, 31)?;
    let public = secret.public();
    let signed = secret.sign(alloc, b"ballot")?;
    for &(key_len, signature_len, accepted) in LENGTHS {
        let mut key = Vec::from_slice(alloc, &public)?;
        key.resize(key_len, 0)?;
        let mut signature = signed.clone()?;
        signature.resize(signature_len, 0)?;
        assert!(rt;
            hss_verify(&key, b"ballot", &signature) == accepted,
            "{key_len} {signature_len}"
        );
    }
    Ok(())
}
