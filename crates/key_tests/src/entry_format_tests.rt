//! Texts that are accepted and refused, with the digests that another program gives of them.
use canonical_sexp::Memory;
use entry_format::read_unsigned;
use hex::encode;
use std::alloc::Global;
use std::test::Fail;

/// The row's text: a capital stands for the atom of 32 such letters in lower case.
pub(crate) fn text_in(alloc: Global, row: &str) -> Result<Vec<u8>, Memory> {
    let mut text = Vec::new(alloc);
    for octet in row.as_bytes() {
        if octet.is_ascii_uppercase() {
            let letters = [octet.to_ascii_lowercase(); 32];
            text.extend_from_slice(b"32:")?;
            text.extend_from_slice(&letters)?;
        } else {
            text.push(*octet)?;
        }
    }
    Ok(text)
}

/// The first 8 octets of the entry's digest in hexadecimal, or the fault.
fn answer(alloc: Global, text: &[u8]) -> Result<String, Fail> {
    match read_unsigned(alloc, text) {
        Ok(plain) => Ok(encode(alloc, &plain.digest[..8])?),
        Err(fault) => Ok(String::from_str(alloc, fault.word())?),
    }
}

/// Texts with their answers.
const TEXTS: &str = "(6:sealed(5:entry1:1E1:31:71:9(AB)(6:opened))3:sig) = 1d60eb3ad51b948c
(6:sealed(5:entry1:1E1:31:71:9(AB)(9:authorise1:210:4294967295))3:sig) = 6c928b0c121fa20c
(6:sealed(5:entry1:1E1:31:71:9(AB)(8:override1:3))3:sig) = cdb9e0469ad44275
(6:sealed(5:entry1:1E1:31:71:9(AB)(6:closed))3:sig) = 5e448c27fc3ddc8b
(6:sealed(5:entry1:1E1:31:71:9(AB)(8:activate1:3))3:sig) = 5e8476d1092b0a1a
(6:sealed(5:entry1:1E1:31:71:9(AB)(6:commit1:3V))3:sig) = e45c0504593500ce
(6:sealed(5:entry1:1E1:31:71:9(AB)(4:cast1:3V))3:sig) = f22c47b0cc532ba9
(6:sealed(5:entry1:1E1:31:71:9(AB)(6:cancel1:3))3:sig) = e74c3ae9ff77a8bc
(6:sealed(5:entry1:2E1:31:71:9(AB)(6:opened))3:sig) = 3255ddc27173b933
(6:sealed(5:entry1:2E1:31:71:9(AB)(8:override1:36:cancel))3:sig) = 712c4a62b84f8713
(6:sealed(5:entry1:2E1:31:71:9(AB)(8:override1:34:cast))3:sig) = fe8929fa4b3201f3
(6:sealed(5:entry1:2E1:31:71:9(AB)(9:challenge1:3V))3:sig) = c373d63d90167f36
(6:sealed(5:entry1:2E1:31:71:9(AB)(6:cancel1:3))3:sig) = be8ef5e441060520
(6:sealed(5:entry1:0E1:31:71:9(AB)(6:opened))3:sig) = WrongShape
(6:sealed(5:entry1:3E1:31:71:9(AB)(6:opened))3:sig) = WrongShape
(6:sealed(5:entry2:02E1:31:71:9(AB)(6:opened))3:sig) = WrongShape
(6:sealed(5:entry()E1:31:71:9(AB)(6:opened))3:sig) = WrongShape
(6:sealed(5:entry1:1E1:31:71:9(AB)(8:override1:36:cancel))3:sig) = WrongShape
(6:sealed(5:entry1:1E1:31:71:9(AB)(8:override1:34:cast))3:sig) = WrongShape
(6:sealed(5:entry1:1E1:31:71:9(AB)(9:challenge1:3V))3:sig) = WrongShape
(6:sealed(5:entry1:2E1:31:71:9(AB)(8:override1:3))3:sig) = WrongShape
(6:sealed(5:entry1:2E1:31:71:9(AB)(8:override1:35:catch))3:sig) = WrongShape
(6:sealed(5:entry1:2E1:31:71:9(AB)(8:override1:3V))3:sig) = WrongShape
(6:sealed(5:entry1:2E1:31:71:9(AB)(9:challenge1:31:v))3:sig) = WrongShape
(6:sealed(5:entry1:2E1:31:71:9(AB)(9:challenge1:3))3:sig) = WrongShape
(6:sealed(5:entry1:2E1:31:71:9(BA)(8:override1:3))3:sig) = WrongShape
(6:sealed(5:entry1:1E10:42949672951:71:9()(6:opened))0:) = 99c1e46b97f53763
(6:sealed(5:entry1:1E10:42949672961:71:9()(6:opened))0:) = WrongShape
(6:sealed(5:entry1:1E2:011:71:9()(6:opened))0:) = WrongShape
(6:sealed(5:entry1:1E()1:71:9()(6:opened))0:) = WrongShape
(6:sealed(5:entry1:1E1:01:71:9(())(6:opened))0:) = WrongShape
(6:sealed(5:entry1:1E1:01:71:9(31:aaaaaaaaaaaaaaaaaaaaaaaaaaaaaaa)(6:opened))0:) = WrongShape
(6:sealed(5:entry1:1E1:01:71:9()(4:vote))0:) = WrongShape
(6:sealed(5:entry1:1E1:01:71:9()(6:opened1:1))0:) = WrongShape
(6:sealed(5:entry1:1E1:01:71:9()(9:authorise1:1))0:) = WrongShape
(6:sealed(5:entry1:1E1:01:71:9()(4:cast1:31:v))0:) = WrongShape
(6:sealed(5:entry1:1E1:01:71:9()6:opened)0:) = WrongShape
(6:sealed(5:entry1:1E1:01:71:9()(6:opened))()) = WrongShape
(6:sealed(5:entry1:1E1:01:71:9()(06:opened))0:) = NotCanonical
(6:sealed(5:entry1:1E1:01:71:9() (6:opened))0:) = NotCanonical
(6:sealed(5:entry1:1E1:01:71:9()(6:opened))0:x) = NotCanonical
(6:sealed(5:entry1:1E1:01:71:9()(4:vote))0:)) = NotCanonical
(6:sealed(5:entry1:1E1:01:71:9(AA)(6:opened))0:) = NamesNotRising
(6:sealed(5:entry1:1E1:01:71:9(BA)(6:opened))0:) = NamesNotRising
(6:sealed(5:entry1:1E1:01:71:9(BA)(4:vote))0:) = WrongShape
(6:sealed(5:entry1:1E1:01:71:9(BA)(6:opened))0:)) = NotCanonical
 = NotCanonical
()x = NotCanonical
(6:sealed = NotCanonical
() = WrongShape
6:sealed = WrongShape
(6:sealed5:entry0:) = WrongShape
(6:sealed()0:) = WrongShape";

/// Whether the row's text is answered as the row says.
fn is_answered(alloc: Global, row: &str) -> Result<bool, Fail> {
    let Some((text, want)) = row.split_once(" = ") else {
        return Ok(false);
    };
    let text = text_in(alloc, text)?;
    Ok(answer(alloc, &text)?.as_str() == want)
}

#[test]
fn texts_are_read_or_refused_by_their_first_fault(rt: HostRuntime) -> Result<(), Fail> {
    for row in TEXTS.lines() {
        assert!(rt; is_answered(rt.alloc(), row)?, "{row}");
    }
    Ok(())
}
