//! Text in markup.
ghost use Rattle.std.specs.Prelude.{◌≡◌, ◌++◌, IfOk, OnErr, OnOk};
ghost use Rattle.std.specs.List.{list_all};
ghost use Rattle.page_markup.specs.Escaping.{escaped, escaped_byte, is_plain, is_special};
ghost use Rattle.page_markup.specs.Escaping.{reference_of};

use std::alloc::{AllocError, Global};

/// Whether the byte has a meaning in markup.
fn is_special(byte: u8) -> bool
    ensures { result ≡ is_special byte }
{
    byte == b'&' || byte == b'<' || byte == b'>' || byte == b'"' || byte == b'\''
}

/// Whether the byte stands in text as it is.
fn is_plain(byte: u8) -> bool
    ensures { result ≡ is_plain byte }
{
    (byte == b'\n' || b' ' <= byte && byte <= b'~') && !is_special(byte)
}

/// What stands for another byte.
fn reference_of(byte: u8) -> &'static [u8]
    ensures { result.now ≡ reference_of byte }
{
    match byte {
        b'&' => b"&amp;",
        b'<' => b"&lt;",
        b'>' => b"&gt;",
        b'"' => b"&quot;",
        b'\'' => b"&#39;",
        _ => b"?",
    }
}

/// Adds a byte of text.
fn add_byte(out: &mut Vec<u8>, byte: u8) -> Result<(), AllocError>
    ensures { OnOk result (out.new.items ≡ out.old.items ++ escaped_byte byte) }
{
    if is_plain(byte) {
        out.push(byte)?;
        Ok(())
    } else {
        out.extend_from_slice(reference_of(byte))
    }
}

/// The text, as it is written in markup.
#[tactic(auto, unfolding(crate::specs::Escaping::escaped))]
fn escaped(alloc: Global, text: &[u8]) -> Result<Vec<u8>, AllocError>
    ensures { IfOk result (λ bytes. bytes.items ≡ escaped text.now) }
{
    let mut out = Vec::new(alloc);
    for byte in text {
        add_byte(&mut out, *byte)?;
    }
    Ok(out)
}

/// Whether all of the text stands in markup as it is.
fn is_all_plain(text: &[u8]) -> bool
    ensures { result ≡ list_all is_plain text.now }
{
    text.iter().all(|byte| is_plain(*byte))
}

/// Adds the text, as it is written in markup: at once where it is written as it is. If an
/// allocation fails, the bytes stay as they were.
pub(crate) fn add_escaped(alloc: Global, out: &mut Vec<u8>, text: &[u8]) -> Result<(), AllocError>
    ensures ok { OnOk result (out.new.items ≡ out.old.items ++ escaped text.now) }
    ensures err { OnErr result (out.new.items ≡ out.old.items) }
{
    if is_all_plain(text) {
        return out.extend_from_slice(text);
    }
    let bytes = escaped(alloc, text)?;
    out.extend_from_slice(bytes.as_slice())
}
