//! Offices: what their texts say, and what their keys sign.
use crate::key_rows::push_hex;
use hss_sign::hss_verify;
use office_key::{Office, endorse, public_key, public_key_by, read_office, write_office};
use sha2::{Digest, Sha256};
use std::alloc::Global;
use std::test::Fail;
use ways_of_work::InThreads;

/// The public key of the office `county` whose seed has the octets from 0 to 31, and the digest of
/// its signature of `a report` and a newline with the number 7: those of a plain program written
/// from RFC 8554, section 6.
const PUBLIC: &str = "\
000000020000000500000003a08026deb852d375157faee621095f66\
ca074820cb36ecb56ff6a0db6442abd761b276bfc5b8f36c7e49764795d05f97";

const SIGNATURE: &str = "c98865b00de75e1205bb495446093d96697f346242cc35202558b584420ccf41";

const MESSAGE: &[u8] = b"a report\n";

fn seed() -> [u8; 32] {
    let mut seed = [0; 32];
    for i in 0..32_u8 {
        seed[i as usize] = i;
    }
    seed
}

/// What stands before and after an office's 32 bytes of seed, and its number, or `none`.
const TEXTS: &str = "\
(6:office1:132: 1:0) 0
(6:office1:132: 1:7) 7
(6:office1:132: 5:32767) 32767
(6:office1:132: 5:32768) 32768
(6:office1:132: 5:32769) none
(6:office1:132: 2:07) none
(6:office1:132: 1:7)) none
(6:office1:132: 1:7 none
(6:office1:132: 1:71:7) none
(6:office1:131: 1:7) none
(6:office1:232: 1:7) none
(6:Office1:132: 1:7) none";

/// The row's text.
fn text_in(alloc: Global, row: &str) -> Result<Vec<u8>, Fail> {
    let mut words = row.split(' ');
    let mut text = Vec::new(alloc);
    text.extend_from_slice(words.next().unwrap_or("").as_bytes())?;
    text.extend_from_slice(&seed())?;
    text.extend_from_slice(words.next().unwrap_or("").as_bytes())?;
    Ok(text)
}

#[test]
fn texts_are_those_of_offices(rt: HostRuntime) -> Result<(), Fail> {
    let alloc = rt.alloc();
    for row in TEXTS.lines() {
        let text = text_in(alloc, row)?;
        let want = row.rsplit(' ').next().unwrap_or("");
        match read_office(&text) {
            Some(office) => {
                let number = office.next.to_string(alloc)?;
                assert!(rt; number.as_str() == want && office.seed == seed(), "{row}");
                assert!(rt; office.is_spent() == (want == "32768"), "{row}");
                assert!(rt; write_office(alloc, office)? == text, "{row}");
            }
            None => assert_eq!(rt; want, "none", "{row}"),
        }
    }
    Ok(())
}

#[test]
fn an_office_signs_as_another_program_does(rt: HostRuntime) -> Result<(), Fail> {
    let alloc = rt.alloc();
    let key = public_key(alloc, b"county", &seed())?;
    assert!(rt; key == public_key_by(&InThreads { rt: &rt }, alloc, b"county", &seed())?);
    let office = Office {
        seed: seed(),
        next: 7,
    };
    let signature = endorse(alloc, b"county", &office, MESSAGE)?;
    assert!(rt; hss_verify(&key, MESSAGE, &signature));
    assert_eq!(rt; office.used().next, 8);
    let mut text = String::new(alloc);
    push_hex(&mut text, &key)?;
    assert_eq!(rt; text.trim_start(), PUBLIC);
    let mut text = String::new(alloc);
    push_hex(&mut text, &Sha256::digest(&signature))?;
    assert_eq!(rt; text.trim_start(), SIGNATURE);
    Ok(())
}
