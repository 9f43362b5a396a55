//! Pieces of text, added as one. If an allocation fails, the bytes stay as they were.
ghost use Rattle.std.specs.Prelude.{◌≡◌, ◌++◌, OnErr, OnOk};

use std::alloc::AllocError;

/// Adds two pieces.
fn add_two(out: &mut Vec<u8>, a: &[u8], b: &[u8]) -> Result<(), AllocError>
    ensures ok { OnOk result (out.new.items ≡ out.old.items ++ a.now ++ b.now) }
    ensures err { OnErr result (out.new.items ≡ out.old.items) }
{
    let before = out.len();
    out.extend_from_slice(a)?;
    let added = out.extend_from_slice(b);
    if added.is_err() {
        out.truncate(before);
    }
    added
}

/// Adds three pieces.
pub(crate) fn add_three(out: &mut Vec<u8>, a: &[u8], b: &[u8], c: &[u8]) -> Result<(), AllocError>
    ensures ok { OnOk result (out.new.items ≡ out.old.items ++ a.now ++ b.now ++ c.now) }
    ensures err { OnErr result (out.new.items ≡ out.old.items) }
{
    let before = out.len();
    add_two(out, a, b)?;
    let added = out.extend_from_slice(c);
    if added.is_err() {
        out.truncate(before);
    }
    added
}

/// Adds four pieces.
pub(crate) fn add_four(
    out: &mut Vec<u8>,
    a: &[u8],
    b: &[u8],
    c: &[u8],
    d: &[u8],
) -> Result<(), AllocError>
    ensures ok { OnOk result (out.new.items ≡ out.old.items ++ a.now ++ b.now ++ c.now ++ d.now) }
    ensures err { OnErr result (out.new.items ≡ out.old.items) }
{
    let before = out.len();
    add_two(out, a, b)?;
    let added = add_two(out, c, d);
    if added.is_err() {
        out.truncate(before);
    }
    added
}
