//! Rows of words that describe keys and signatures, and the key that they describe.
use lms_ots::OtsKind;
use std::alloc::AllocError;
use std::fmt::Write;

/// The identifier of the keys.
pub(crate) const ID: [u8; 16] = [0, 1, 2, 3, 4, 5, 6, 7, 8, 9, 10, 11, 12, 13, 14, 15];

/// The seed of the keys.
pub(crate) const SEED: [u8; 32] = [7; 32];

/// The parameter set of a row's first word.
pub(crate) fn kind_in(row: &str) -> OtsKind {
    let word = row.split(' ').next().unwrap_or("");
    OtsKind::of_word(word.as_bytes()).unwrap_or(OtsKind::W1)
}

/// The number that the row has at the place, counted in words.
pub(crate) fn number_in(row: &str, place: usize) -> usize {
    match row.split(' ').nth(place) {
        Some(word) => word.parse().unwrap_or(0),
        None => 0,
    }
}

/// Appends a space and the bytes in hexadecimal.
pub(crate) fn push_hex(row: &mut String, bytes: &[u8]) -> Result<(), AllocError> {
    write!(row, " ")?;
    for byte in bytes {
        write!(row, "{byte:02x}")?;
    }
    Ok(())
}
