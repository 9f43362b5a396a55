use crate::key_rows::{ID, SEED, kind_in, number_in, push_hex};
use lms_ots::OtsKind;
use lms_sign::{LmsPublic, LmsSecret, Memory, SignFault, sign_each, verify};
use sha2::{Digest, Sha256};
use std::alloc::{AllocError, Global};
use std::fmt::Write;
use std::test::Fail;
use ways_of_work::InThreads;

// Appends a signature's length and its digest, and whether it is one of the text and of no other.
fn push_signature(
    alloc: Global,
    row: &mut String,
    secret: &mut LmsSecret,
    text: &[u8],
) -> Result<(), SignFault> {
    let public = secret.public();
    let signature = secret.sign(alloc, text)?;
    write!(row, " {}", signature.len())?;
    push_hex(row, &Sha256::digest(&signature))?;
    if verify(&public, text, &signature) && !verify(&public, b"another", &signature) {
        write!(row, " verified")?;
    }
    Ok(())
}

// The row of a key of this set and height: the height's word, the key, and its signatures of the
// empty message and of 1,000 letters.
fn row_of(alloc: Global, kind: OtsKind, height: u32) -> Result<String, SignFault> {
    let height = if height == 10 { 10 } else { 5 };
    let mut secret = LmsSecret::make(alloc, kind, height, ID, SEED)?;
    let mut row = String::new(alloc);
    for byte in kind.word() {
        write!(row, "{}", char::from(*byte))?;
    }
    write!(row, " {height}")?;
    push_hex(&mut row, secret.public().bytes())?;
    push_signature(alloc, &mut row, &mut secret, b"")?;
    push_signature(alloc, &mut row, &mut secret, &[0x61; 1000])?;
    Ok(row)
}

// The keys and the digests are those of a plain program written from RFC 8554.
const KEYS: &str = "\
w1 5 0000000500000001000102030405060708090a0b0c0d0e0f\
7545984fabd12932909599c9d382f2cb4a3763667ff1d50f786fbc5377e4de0a \
8684 363aa50b5e024ebaad9ea951aa8ca87920fe467f9ff9b25fad0bdf5cde48c0ca verified \
8684 c8201a7884d2b84ad6bc9d4213749f8db2bdff2216db99dec8f0006e39e3cc9c verified
w2 5 0000000500000002000102030405060708090a0b0c0d0e0f\
d4cdec84a786c9ba20e7d34bb71513a04b3155824f4806ff2b54a13b83c25ea7 \
4460 af9713857b0afbfd78eae10a64758ddd840d83533a3d9415fd55b830a8d9ea7f verified \
4460 5ab9372a4d63b7f4a8346ea107ede62be2afe58d881732f60f9d067c56d59068 verified
w4 5 0000000500000003000102030405060708090a0b0c0d0e0f\
c882df26c92d58fc56e3689d866ce76e80888b0788caac5e66668d923b25f6f2 \
2348 29c2ae8b3febcfc446a707f6af0e04d6cfb6ec22ae7eae6cd8aa6c2ea40bc117 verified \
2348 f767c481597c36b69f171cdbef627d6b231dcffac376a9b32bc8623c04138099 verified
w8 5 0000000500000004000102030405060708090a0b0c0d0e0f\
3ea34e77b39c5ee77aa9491a76ccbc4d7ed1f897575cfeebca82176d7accaf48 \
1292 d440c12a5618bfc90bc4c6d509dffcbaba6ed97c3390443281de6f63c122d3ac verified \
1292 9844da4b3db5553478d63e0af0002782d3f0abc516fd01e3d29efa35983f3029 verified
";

#[test]
fn keys_and_signatures_are_those_of_another_program(rt: HostRuntime) -> Result<(), Fail> {
    let alloc = rt.alloc();
    for row in KEYS.lines() {
        assert_eq!(rt; row_of(alloc, kind_in(row), 5)?.as_str(), row);
    }
    Ok(())
}

#[test]
fn a_key_of_height_ten_signs(rt: HostRuntime) -> Result<(), Fail> {
    let row = row_of(rt.alloc(), OtsKind::W4, 10)?;
    assert!(rt;
        row.starts_with(
            "w4 10 0000000600000003000102030405060708090a0b0c0d0e0f\
        0f188d18cf84dcbb3f1fab741f7281e96e725d1b442452127fb8a8fd65544b74 2508 "
        )
    );
    assert!(rt; row.ends_with(" verified"));
    Ok(())
}

// Sets one byte, where there is one.
fn set(bytes: &mut [u8], at: usize, value: u8) {
    if let Some(byte) = bytes.get_mut(at) {
        *byte = value;
    }
}

// Whether a signature is accepted that has this length and this byte changed.
fn answer_to(
    alloc: Global,
    kind: OtsKind,
    length: usize,
    at: usize,
    value: u8,
) -> Result<&'static str, SignFault> {
    let secret = LmsSecret::make(alloc, kind, 5, ID, SEED)?;
    let mut signature = secret.signature(alloc, b"ballot")?;
    signature.resize(length, 0)?;
    set(signature.as_mut_slice(), at, value);
    if verify(&secret.public(), b"ballot", &signature) {
        Ok("yes")
    } else {
        Ok("no")
    }
}

// A set, a length, the place and the new value of a byte, and whether it is accepted. The places
// are those of the index, of the two types, of the randomizer, of an element and of the path.
const CHANGES: &str = "\
w1 8684 9999 0 yes
w1 8684 3 32 no
w1 8684 3 1 no
w1 8684 7 9 no
w1 8684 8523 6 no
w1 8684 8 0 no
w1 8684 40 0 no
w1 8684 8524 0 no
w1 8685 9999 0 no
w1 8683 9999 0 no
w2 4460 9999 0 yes
w2 4460 40 0 no
w2 4460 4300 0 no
w2 4461 9999 0 no
w4 2348 9999 0 yes
w4 2348 40 0 no
w4 2348 2188 0 no
w4 2347 9999 0 no
w8 1292 9999 0 yes
w8 1292 1132 0 no
";

#[test]
fn a_changed_signature_is_refused(rt: HostRuntime) -> Result<(), Fail> {
    let alloc = rt.alloc();
    for row in CHANGES.lines() {
        let value = (number_in(row, 3) % 256) as u8;
        let answer = answer_to(
            alloc,
            kind_in(row),
            number_in(row, 1),
            number_in(row, 2),
            value,
        )?;
        assert!(rt; row.ends_with(answer), "{row}");
    }
    Ok(())
}

// One message more than there are indexes, each another one.
const TEXT: &[u8] = b"abcdefghijklmnopqrstuvwxyz0123456";

// Whether the answer is the signature of its own message with the index of its place, or that the
// key is spent.
fn is_answer(public: &LmsPublic, at: usize, answer: &Result<Vec<u8>, SignFault>) -> bool {
    match answer {
        Ok(signature) => {
            let index = signature.get(3).copied().unwrap_or(0);
            let text = TEXT.get(at..).unwrap_or(b"");
            usize::from(index) == at && verify(public, text, signature)
        }
        Err(SignFault::Spent) => at == 32,
        Err(SignFault::Memory) => false,
    }
}

#[test]
fn each_index_signs_its_own_message(rt: HostRuntime) -> Result<(), Fail> {
    let alloc = rt.alloc();
    let mut secret = LmsSecret::make(alloc, OtsKind::W1, 5, ID, SEED)?;
    let public = secret.public();
    let mut messages = Vec::new(alloc);
    for at in 0..TEXT.len() {
        messages.push(&TEXT[at..])?;
    }
    let answers = sign_each(alloc, &mut secret, &messages)?;
    assert!(rt; answers.len() == 33 && secret.is_spent());
    assert!(rt;
        answers
            .iter()
            .enumerate()
            .all(|(at, answer)| is_answer(&public, at, answer))
    );
    Ok(())
}

// The digest of the last signature of a key of 32 leaves, as another program makes it.
const LAST: &str = "fb072b08a6cd0dfac88913551e61319d4c0fea76aaf05262dd4bd0fc45bc4d2f";

#[test]
fn a_key_is_made_at_any_index(rt: HostRuntime) -> Result<(), Fail> {
    let alloc = rt.alloc();
    let mut last = LmsSecret::make_at(alloc, OtsKind::W1, 5, ID, SEED, 31)?;
    let signature = last.sign(alloc, b"ballot")?;
    let mut text = String::new(alloc);
    push_hex(&mut text, &Sha256::digest(&signature))?;
    assert!(rt; text.ends_with(LAST) && last.is_spent());
    let mut spent = LmsSecret::make_at(alloc, OtsKind::W1, 5, ID, SEED, 32)?;
    assert!(rt; matches!(spent.sign(alloc, b"ballot"), Err(SignFault::Spent)));
    Ok(())
}

#[test]
fn a_key_made_in_threads_is_the_same(rt: HostRuntime) -> Result<(), Fail> {
    let alloc = rt.alloc();
    let work = InThreads { rt: &rt };
    let made = LmsSecret::make(alloc, OtsKind::W4, 5, ID, SEED)?;
    let in_threads = LmsSecret::make_by(&work, alloc, OtsKind::W4, 5, ID, SEED)?;
    assert!(rt; made.public().bytes() == in_threads.public().bytes());
    let signature = made.signature(alloc, b"ballot")?;
    assert!(rt; signature == in_threads.signature(alloc, b"ballot")?);
    let at_one = LmsSecret::make_at_by(&work, alloc, OtsKind::W4, 5, ID, SEED, 1)?;
    assert!(rt; at_one.next() == 1 && at_one.public().bytes() == made.public().bytes());
    Ok(())
}
