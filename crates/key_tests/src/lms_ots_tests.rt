use crate::key_rows::{ID, SEED, kind_in, number_in, push_hex};
use lms_ots::{OtsFault, OtsKind, checksum, digit, ots_candidate, ots_public, ots_sign};
use sha2::{Digest, Sha256};
use std::alloc::{AllocError, Global};
use std::fmt::Write;
use std::test::Fail;

const INDEX: u32 = 5;

#[test]
fn digits_and_checksums_are_the_worked_values(rt: HostRuntime) {
    assert!(rt; digit(&[0x12, 0x34], 7, 1) == 0 && digit(&[0x12, 0x34], 0, 4) == 1);
    const SUMS: &[(OtsKind, u16)] = &[
        (OtsKind::W1, 0x8000),
        (OtsKind::W2, 0x6000),
        (OtsKind::W4, 0x3c00),
        (OtsKind::W8, 0x1fe0),
    ];
    for &(kind, sum) in SUMS {
        assert!(rt; checksum(&[0; 32], kind) == sum && checksum(&[0xff; 32], kind) == 0);
    }
}

fn push_signature(
    alloc: Global,
    row: &mut String,
    kind: OtsKind,
    text: &[u8],
) -> Result<(), AllocError> {
    let signature = ots_sign(alloc, kind, &ID, INDEX, &SEED, text)?;
    push_hex(row, &Sha256::digest(&signature))
}

// A set's row: its word, the length of a signature, the digests of the signatures of the empty
// message and of 1,000 letters, and the key.
fn row_of(alloc: Global, kind: OtsKind) -> Result<String, AllocError> {
    let mut row = String::new(alloc);
    for byte in kind.word() {
        write!(row, "{}", char::from(*byte))?;
    }
    write!(row, " {}", kind.signature_len())?;
    push_signature(alloc, &mut row, kind, b"")?;
    push_signature(alloc, &mut row, kind, &[0x61; 1000])?;
    push_hex(&mut row, &ots_public(kind, &ID, INDEX, &SEED))?;
    Ok(row)
}

// The digests and the keys are those of a plain program written from RFC 8554.
const SETS: &str = "\
w1 8516 423ad39dfe87ab2e76155fc309f12f68b2138b712d84f65304a2fee6a621887e \
1b17cf2485f5eaaf37549703c099bc8cacd5f51c04d04ef575e4b8691887b6e2 \
28c3447d59ba3c7ca4dc9208f960c4361d3e000b53cacf32e70f11f1d0341d16
w2 4292 13e40f03fd9241b871f17a2c1ce203c7352690dfc8f56f63f9e16d8e201e2157 \
b1624813e9ff72ca430a56839d6d04d0019c74bd9d5e5734a961f45be60b7e50 \
016fca309ad36de3a5ab0011a6e501a991cc66f593292bb2a35e1756242def7a
w4 2180 f66336b2e7591a2f8d25fb7366ea17dae4dadd9afb6bf263d9204fd4bd0bc199 \
afdf1615a59f70e4a9b816cbb92ae06ba87899f072bd69120051583d96240a00 \
11ab554387137dd6ac02063c786ea8b17d289515319b915fcfdb20f460d2cede
w8 1124 bff8151fcae2d6d120b51255657e9fb960f75c2a319d02d960fc0d4ad400aee6 \
86c04df9584c94d9d2ee394a3a30166301451cd10e7dde66bf0dd4df0cbd80c7 \
c2868156ecb3e9a235bd81ccd67f9ede09b998ce372e1041ce883cc30225f3c2
";

#[test]
fn keys_and_signatures_are_those_of_another_program(rt: HostRuntime) -> Result<(), Fail> {
    let alloc = rt.alloc();
    for row in SETS.lines() {
        assert_eq!(rt; row_of(alloc, kind_in(row))?.as_str(), row);
    }
    Ok(())
}

// Alters one byte, where there is one.
fn flip(bytes: &mut [u8], at: usize) {
    if let Some(byte) = bytes.get_mut(at) {
        *byte ^= 1;
    }
}

fn word_of(kind: OtsKind, answer: Result<[u8; 32], OtsFault>) -> &'static str {
    match answer {
        Ok(key) if key == ots_public(kind, &ID, INDEX, &SEED) => "key",
        Ok(_) => "other",
        Err(OtsFault::WrongType) => "type",
        Err(OtsFault::WrongLength) => "length",
    }
}

// What a signature gives that has this length and this byte altered.
fn answer_to(
    alloc: Global,
    kind: OtsKind,
    length: usize,
    at: usize,
) -> Result<&'static str, AllocError> {
    let mut signature = ots_sign(alloc, kind, &ID, INDEX, &SEED, b"")?;
    signature.resize(length, 0)?;
    flip(signature.as_mut_slice(), at);
    let answer = ots_candidate(kind, &ID, INDEX, b"", &signature);
    Ok(word_of(kind, answer))
}

// A set, a length, the place of an altered byte, and what is answered. The places are those of the
// typecode, of C, of the first two elements and of the last, and one past the end.
const CHANGES: &str = "\
w1 8516 9999 key
w1 8516 3 type
w1 8516 4 other
w1 8516 36 other
w1 8516 68 other
w1 8516 8515 other
w1 8517 9999 length
w1 8515 9999 length
w2 4292 9999 key
w2 4292 0 type
w2 4292 35 other
w2 4292 4291 other
w2 4291 0 length
w4 2180 9999 key
w4 2180 0 type
w4 2180 36 other
w4 2180 2179 other
w4 2181 0 length
w8 1124 9999 key
w8 1124 0 type
w8 1124 36 other
w8 1124 1123 other
w8 0 9999 length
";

#[test]
fn a_changed_signature_has_another_candidate_or_none(rt: HostRuntime) -> Result<(), Fail> {
    let alloc = rt.alloc();
    for row in CHANGES.lines() {
        let answer = answer_to(alloc, kind_in(row), number_in(row, 1), number_in(row, 2))?;
        assert!(rt; row.ends_with(answer), "{row}");
    }
    Ok(())
}
