//! Inputs that are exactly one text.
ghost use Rattle.std.specs.Prelude.{◌≡◌, IfOk, IfErr};
ghost use Rattle.canonical_sexp.specs.Text.{text_of, Fits};
ghost use Rattle.canonical_sexp.specs.Reading.{IsCanonical, StopsAt};

use crate::front::{Front, front_of};
use crate::in_place::Text;

/// The text that the bytes are, with nothing after it. It takes no memory.
///
/// # Errors
///
/// The place, counted from 0, where the bytes stop being exactly one text: that of the first byte
/// that is invalid, the length of the text that other bytes follow, or the length of the bytes
/// where they end inside a text.
pub fn whole_text(bytes: &[u8]) -> Result<Text<'_>, usize>
    ensures ok { IfOk result (λ tree. Fits tree × (bytes.now ≡ text_of tree)) }
    ensures err { IfErr result (λ at. StopsAt bytes.now at × (¬ IsCanonical bytes.now)) }
{
    match front_of(bytes) {
        Front::Whole { text, used } => {
            if used < bytes.len() {
                return Err(used);
            }
            Ok(text)
        }
        Front::Cut => Err(bytes.len()),
        Front::Bad { at, .. } => Err(at),
    }
}
