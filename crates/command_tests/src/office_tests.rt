//! The commands `office`, `endorse` and `endorsed`. The lengths and digests were computed by a
//! separate plain program.
use crate::auditing_tests::{all_of, empty, flipped, front_of, octets_of, told, words_of};
use auditorium_core::{Status, auditorium};
use hall_outside::{MemorySink, MemoryStore, OpenGate};
use sha2::{Digest, Sha256};
use std::alloc::Global;
use std::test::Fail;

/// The words for an office `o` whose seed is of zeros.
const MAKE: &str = "office o 0000000000000000000000000000000000000000000000000000000000000000";

/// What the office signs, in the file `f`.
const REPORT: &[u8] = b"a report\n";

/// Words, and after a bar the exit status and the output, one after another on one store.
const ROWS: &str = "\
endorse o f|6 absent o.office
office o 00|4 usage
office o 000000000000000000000000000000000000000000000000000000000000000G|4 usage
office o 000000000000000000000000000000000000000000000000000000000000000A|4 usage
office o|4 usage
endorse o|4 usage
endorsed o.key f|4 usage
MAKE|0 office o
MAKE|5 refused o.office 0 Exists
endorse o g|6 absent g
endorse o f|0 endorsed f 0
endorsed o.key f f.sig|0 good
endorse o f|0 endorsed f 1
endorsed o.key f f.sig|0 good
endorse o o.key|0 endorsed o.key 2
endorsed o.key o.key o.key.sig|0 good
endorsed o.key o.key f.sig|1 bad
endorsed o.key f o.key.sig|1 bad
endorsed f.sig f o.key|1 bad
endorsed f f f|1 bad
endorsed none f f.sig|1 bad
endorsed o.key f none|1 bad
endorsed o.key other f.sig|1 bad
endorsed k f s|6 absent k
endorsed o.key g s|6 absent g
endorsed o.key f s|6 absent s
endorsed long g s|5 refused long 0 TooLong
endorsed o.key g long|6 absent g
endorsed o.key f long|5 refused long 0 TooLong
endorse l f|5 refused l.office 0 TooLong
endorse l g|5 refused l.office 0 TooLong
office l 0000000000000000000000000000000000000000000000000000000000000000|5 \
    refused l.office 0 Exists
office e 0000000000000000000000000000000000000000000000000000000000000000|5 \
    refused e.office 0 Exists
endorse e f|5 refused e.office 0 Office";

/// A store with the files that the rows read: `l.office` is over the limit of 65,536 bytes, and
/// `e.office` is empty.
fn begun(alloc: Global) -> Result<MemoryStore, Fail> {
    let mut store = empty(alloc);
    store.place(alloc, "f", REPORT)?;
    store.place(alloc, "other", b"b report\n")?;
    store.place(alloc, "none", b"")?;
    store.place(alloc, "e.office", b"")?;
    let long = long_file(alloc, 65_537)?;
    store.place(alloc, "long", &long)?;
    store.place(alloc, "l.office", &long)?;
    Ok(store)
}

/// A file of this many bytes.
fn long_file(alloc: Global, length: usize) -> Result<Vec<u8>, Fail> {
    Ok(vec![in alloc; b'a'; length]?)
}

/// The length of a file, and its digest in hexadecimal.
fn shown(alloc: Global, store: &MemoryStore, name: &str) -> Result<String, Fail> {
    let bytes = store.file(name).unwrap_or(b"");
    let length = bytes.len();
    let digits = hex::encode(alloc, Sha256::digest(bytes))?;
    Ok(format!(in alloc; "{length} {digits}")?)
}

/// The exit status and the output of the words, without the newline.
fn answered(alloc: Global, words: &str, store: &mut MemoryStore) -> Result<String, Fail> {
    let words = if words == "MAKE" { MAKE } else { words };
    let text = told(alloc, words, store)?;
    Ok(String::from_str(alloc, text.as_str().trim_end())?)
}

#[test]
fn each_command_has_its_status_and_output(rt: HostRuntime) -> Result<(), Fail> {
    let alloc = rt.alloc();
    let mut store = begun(alloc)?;
    for row in ROWS.lines() {
        let (words, want) = row.split_once('|').unwrap_or(("", ""));
        let text = answered(alloc, words, &mut store)?;
        assert!(rt; text.as_str() == want, "{words}: {text}");
    }
    let key = octets_of(alloc, KEY)?;
    assert!(rt; store.file("o.office").unwrap_or(b"").len() == 51);
    assert!(rt; store.file("o.key") == Some(key.as_slice()));
    assert!(rt; store.file("e.office") == Some(b"") && store.file("e.key").is_none());
    assert!(rt; store.file("l.office").unwrap_or(b"").len() == 65_537);
    Ok(())
}

/// The number in the office's file; what `endorse` answers; and the length of the signature with
/// its digest. The numbers go from one low tree to the next, and to the last.
const SIGNATURES: &str = "\
0|0 endorsed f 0|4916 e245ce29c6ec7c813ff369d61797fb7e5638296572647d74d651b95c416eb510
1|0 endorsed f 1|4916 93fe3db140bb224f7e49adaf030b9fe8765c99629c2fda6bb3d52fafb54bf93a
1023|0 endorsed f 1023|4916 fcd88573cb4c9d53ba353c2f3c29cc79d84ae9d7b459899ba7f093470304900a
1024|0 endorsed f 1024|4916 2ba8dcde5e895c293ba7f618916675f4ee7bf848ea82d909eb5503d38af93204
32767|0 endorsed f 32767|4916 8eef046b5939bbd5f80a80715e8b92fc86b279f3517b553901342d435adf0853";

/// The text of the office of the rows with this number.
fn office_with(alloc: Global, number: &str) -> Result<Vec<u8>, Fail> {
    let rest = format!(in alloc; "{}:{number})", number.len())?;
    all_of(alloc, &[b"(6:office1:132:", &[0; 32], rest.as_bytes()])
}

/// A store with the report and an office's file that has this number.
fn numbered(alloc: Global, number: &str) -> Result<MemoryStore, Fail> {
    let mut store = empty(alloc);
    store.place(alloc, "f", REPORT)?;
    store.place(alloc, "o.office", &office_with(alloc, number)?)?;
    Ok(store)
}

#[test]
fn keys_and_signatures_are_those_of_another_program(rt: HostRuntime) -> Result<(), Fail> {
    let alloc = rt.alloc();
    for row in SIGNATURES.lines() {
        let (number, rest) = row.split_once('|').unwrap_or(("", ""));
        let (answer, want) = rest.split_once('|').unwrap_or(("", ""));
        let mut store = numbered(alloc, number)?;
        let text = answered(alloc, "endorse o f", &mut store)?;
        let file = shown(alloc, &store, "f.sig")?;
        assert!(rt;
            text.as_str() == answer && file.as_str() == want,
            "{number}: {text}, {file}"
        );
    }
    Ok(())
}

/// What an office's file may have between `(6:office1:132:`, 32 zeros and the end, but no
/// office.
const NO_OFFICES: &str = "\
5:32769)|1:00)|2:00)|2:01)|01:0)|1:a)|0:)|10:4294967296)|1:0))|1:01:0)|1:0) |1:0|1:|(1:0))";

#[test]
fn other_texts_are_no_offices(rt: HostRuntime) -> Result<(), Fail> {
    let alloc = rt.alloc();
    let mut store = numbered(alloc, "0")?;
    for rest in NO_OFFICES.split('|') {
        let text = all_of(alloc, &[b"(6:office1:132:", &[0; 32], rest.as_bytes()])?;
        store.place(alloc, "o.office", &text)?;
        let text = answered(alloc, "endorse o f", &mut store)?;
        assert!(rt;
            text.as_str() == "5 refused o.office 0 Office",
            "{rest}: {text}"
        );
    }
    Ok(())
}

#[test]
fn a_cut_office_is_none(rt: HostRuntime) -> Result<(), Fail> {
    let alloc = rt.alloc();
    let whole = office_with(alloc, "32768")?;
    let mut store = numbered(alloc, "0")?;
    for length in 0..whole.len() {
        store.place(alloc, "o.office", &whole[..length])?;
        let text = answered(alloc, "endorse o g", &mut store)?;
        assert!(rt;
            text.as_str() == "5 refused o.office 0 Office",
            "{length}: {text}"
        );
    }
    store.place(alloc, "o.office", &whole)?;
    let text = answered(alloc, "endorse o g", &mut store)?;
    assert!(rt; text.as_str() == "5 refused o.office 0 Spent", "{text}");
    Ok(())
}

/// The create, append or finish that fails, where each file takes its bytes in one piece; the
/// office's file after it; the length of the signature's file, or a hyphen; and what the next call
/// answers.
const STOPS: &str = "\
1|0|-|0 endorsed f 0
2||-|5 refused o.office 0 Office
3|1|-|0 endorsed f 1
4|1|-|0 endorsed f 1
5|1|0|0 endorsed f 1
6|1|4916|0 endorsed f 1";

/// Whether the office's file has this number, or nothing where there is none.
fn has_number(alloc: Global, store: &MemoryStore, number: &str) -> Result<bool, Fail> {
    let bytes = store.file("o.office").unwrap_or(b"a");
    if number.is_empty() {
        Ok(bytes.is_empty())
    } else {
        Ok(bytes == office_with(alloc, number)?.as_slice())
    }
}

/// The length of the signature's file, or a hyphen where there is none.
fn signature_length(alloc: Global, store: &MemoryStore) -> Result<String, Fail> {
    match store.file("f.sig") {
        Some(bytes) => {
            let length = bytes.len();
            Ok(format!(in alloc; "{length}")?)
        }
        None => Ok(format!(in alloc; "-")?),
    }
}

/// A store as `numbered` makes it, whose create, append or finish of this number fails.
fn stopping(alloc: Global, failing: u64) -> Result<MemoryStore, Fail> {
    let writes = vec![in alloc; failing]?;
    let mut store = MemoryStore::make(alloc, Vec::new(alloc), writes);
    store.place(alloc, "f", REPORT)?;
    store.place(alloc, "o.office", &office_with(alloc, "0")?)?;
    Ok(store)
}

#[test]
fn no_failed_call_lets_a_number_sign_twice(rt: HostRuntime) -> Result<(), Fail> {
    let alloc = rt.alloc();
    for row in STOPS.lines() {
        let (failing, rest) = row.split_once('|').unwrap_or(("", ""));
        let (number, rest) = rest.split_once('|').unwrap_or(("", ""));
        let (length, next) = rest.split_once('|').unwrap_or(("", ""));
        let mut store = stopping(alloc, failing.parse::<u64>().unwrap_or(0))?;
        let text = answered(alloc, "endorse o f", &mut store)?;
        assert!(rt; text.as_str() == "9", "{failing}: {text}");
        assert!(rt; has_number(alloc, &store, number)?, "{failing}");
        let left = signature_length(alloc, &store)?;
        assert!(rt; left.as_str() == length, "{failing}: {left}");
        let text = answered(alloc, "endorse o f", &mut store)?;
        assert!(rt; text.as_str() == next, "{failing}: {text}");
    }
    Ok(())
}

#[test]
fn a_failed_output_leaves_the_number_used(rt: HostRuntime) -> Result<(), Fail> {
    let alloc = rt.alloc();
    let mut store = numbered(alloc, "0")?;
    let mut out = MemorySink::make(alloc, 1000, vec![in alloc; 1u64]?);
    let words = words_of(alloc, "endorse o f")?;
    let status = auditorium(
        &rt,
        alloc,
        words.as_slice(),
        &mut store,
        &mut out,
        &OpenGate,
    );
    assert!(rt; status == Status::WriteFault && out.bytes().is_empty());
    assert!(rt; has_number(alloc, &store, "1")?);
    assert!(rt; signature_length(alloc, &store)?.as_str() == "4916");
    let key = octets_of(alloc, KEY)?;
    store.place(alloc, "o.key", &key)?;
    let text = answered(alloc, "endorsed o.key f f.sig", &mut store)?;
    assert!(rt; text.as_str() == "0 good", "{text}");
    Ok(())
}

/// The office's public key, in hexadecimal.
const KEY: &str = "\
000000020000000500000003c8a484073390b0f7ca8a331af057605e4fbf4142\
16b5652fbde28d68189b8eb565cbd893d9f6fdd739ee23e013621132";

/// Places in a public key: the number of levels, the top tree's types, identifier and root.
const IN_KEY: &[usize] = &[3, 7, 11, 12, 27, 28, 59];

/// Places in a signature: the number of signed keys; the index, the types, the randomizer, an
/// element and the path of the top tree's signature; the types, identifier and root of the low
/// tree's key; and the parts of its signature.
const IN_SIGNATURE: &[usize] = &[
    3, 7, 11, 12, 44, 2187, 2191, 2192, 2351, 2355, 2359, 2360, 2376, 2407, 2411, 2415, 2416, 2448,
    4591, 4595, 4596, 4915,
];

/// What `endorsed` says where this bit of the file is changed.
fn said_of_changed(
    alloc: Global,
    store: &mut MemoryStore,
    (name, place): (&str, usize),
) -> Result<String, Fail> {
    let whole = front_of(alloc, store, name, 5000)?;
    store.place(alloc, name, &flipped(alloc, &whole, place)?)?;
    let text = answered(alloc, "endorsed o.key f f.sig", store)?;
    store.place(alloc, name, &whole)?;
    Ok(text)
}

#[test]
fn a_changed_key_file_or_signature_is_bad(rt: HostRuntime) -> Result<(), Fail> {
    let alloc = rt.alloc();
    let mut store = numbered(alloc, "1023")?;
    store.place(alloc, "o.key", &octets_of(alloc, KEY)?)?;
    answered(alloc, "endorse o f", &mut store)?;
    for (name, places) in [("o.key", IN_KEY), ("f", &[0, 8]), ("f.sig", IN_SIGNATURE)] {
        for &place in places {
            let text = said_of_changed(alloc, &mut store, (name, place))?;
            assert!(rt; text.as_str() == "1 bad", "{name} {place}: {text}");
        }
    }
    let text = answered(alloc, "endorsed o.key f f.sig", &mut store)?;
    assert!(rt; text.as_str() == "0 good", "{text}");
    Ok(())
}

/// Words, and how many reads they make: of each file one gives the bytes and one finds the end, and
/// `office` makes one alone.
const READS: &str = "\
office p 0000000000000000000000000000000000000000000000000000000000000000|1
endorse o f|4
endorsed f f f|6";

/// What the words answer over the report and an office where this read fails.
fn said_of_failed_read(alloc: Global, words: &str, failing: u64) -> Result<String, Fail> {
    let reads = vec![in alloc; failing]?;
    let mut store = MemoryStore::make(alloc, reads, Vec::new(alloc));
    store.place(alloc, "f", REPORT)?;
    store.place(alloc, "o.office", &office_with(alloc, "0")?)?;
    let text = answered(alloc, words, &mut store)?;
    if has_number(alloc, &store, "0")? && store.file("p.office").is_none() {
        Ok(text)
    } else {
        Ok(format!(in alloc; "{text}, and a file was written")?)
    }
}

#[test]
fn each_read_may_fail(rt: HostRuntime) -> Result<(), Fail> {
    let alloc = rt.alloc();
    for row in READS.lines() {
        let (words, count) = row.split_once('|').unwrap_or(("", ""));
        for failing in 1..=count.parse::<u64>().unwrap_or(0) {
            let text = said_of_failed_read(alloc, words, failing)?;
            assert!(rt; text.as_str() == "8", "{words}, {failing}: {text}");
        }
    }
    Ok(())
}
