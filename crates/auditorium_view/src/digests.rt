//! The digests of the files of a request, each read once for itself.
use crate::words::{Request, request_of};
use auditor::RulesFrom;
use command_line::rules_from;
use hall_outside::{FolderStore, read_file};
use sha2::{Digest, Sha256};
use std::alloc::AllocError;
use std::fs::{self, File};
use std::rt::Files;

/// The most bytes of a file that is hashed, which is the limit of logs.
const MOST: usize = 67_108_864;

/// The SHA-256 of the file's bytes, if it can be read once more: a pipe or a terminal can't.
fn digest_of<R: Files<File = File> + AllocGlobal>(rt: &R, name: &str) -> Option<[u8; 32]> {
    let metadata = fs::metadata(rt, name).ok()?;
    if !metadata.is_file() {
        return None;
    }
    let mut store = FolderStore::make(rt).ok()?;
    let bytes = read_file(rt.alloc(), &mut store, name, MOST).ok()?;
    Some(Sha256::digest(bytes.as_slice()))
}

/// The digests of the files that are read for the request, in this order.
fn digests_for<R: Files<File = File> + AllocGlobal>(
    rt: &R,
    request: Request<'_>,
) -> Result<Vec<Option<[u8; 32]>>, AllocError> {
    let mut digests = Vec::new(rt.alloc());
    digests.push(digest_of(rt, request.roster))?;
    if let RulesFrom::File(name) = rules_from(request.rules) {
        digests.push(digest_of(rt, name))?;
    }
    for name in request.logs {
        digests.push(digest_of(rt, name.as_str()))?;
    }
    Ok(digests)
}

/// The digests of the files that are read for the words; none where these ask for no page.
pub(crate) fn digests_of<R: Files<File = File> + AllocGlobal>(
    rt: &R,
    words: &[String],
) -> Result<Vec<Option<[u8; 32]>>, AllocError> {
    match request_of(words) {
        Some(request) if !request.picture => digests_for(rt, request),
        _ => Ok(Vec::new(rt.alloc())),
    }
}
