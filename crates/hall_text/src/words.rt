//! Words that stand for values.
ghost use Rattle.std.specs.Prelude.{◌≡◌, ◌<◌, ◌^◌};
ghost use Rattle.std.specs.Fmt.{decimal};
ghost use Rattle.canonical_sexp.specs.Forms.{Finds};
ghost use Rattle.hall_text.specs.Words.{number_in, digest_in, IsDigestText};

use canonical_sexp::number_of;
use hex::{FromHex, encode_to_slice};

/// The number that the word is: decimal digits without a leading zero, at most 4,294,967,295. Of
/// any other word `None`. It takes no memory.
pub fn decimal(word: &[u8]) -> Option<u32>
    ensures value { result ≡ number_in word.now }
    ensures exact { Finds (λ number. (number < 2 ^ 32) × (word.now ≡ decimal number)) result }
{
    number_of(word)
}

/// How many bytes a digest has.
const DIGEST: usize = 32;

/// The digest of 32 bytes that the word is, in exactly 64 lower-case hexadecimal digits. Of any
/// other word `None`. It takes no memory.
pub fn digest_hex(word: &[u8]) -> Option<[u8; 32]>
    ensures value { result ≡ digest_in word.now }
    ensures exact { Finds (IsDigestText word.now) result }
{
    let digest = <[u8; DIGEST] as FromHex>::from_hex(word).ok()?;
    // Upper-case digits are read too, so the digest is written back and compared.
    let mut text = [0; 2 * DIGEST];
    encode_to_slice(digest.as_slice(), &mut text).ok()?;
    if text.as_slice() == word {
        Some(digest)
    } else {
        None
    }
}
