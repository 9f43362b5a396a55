//! The texts of elements.
ghost use Rattle.std.specs.Prelude.{◌≡◌, ◌++◌, OnErr, OnOk};
ghost use Rattle.page_markup.specs.Elements.{element, end_tag, start_tag, void_element};

use crate::names::{Tag, VoidTag};
use crate::pieces::add_four;
use std::alloc::AllocError;

/// Adds a start tag. If an allocation fails, the bytes stay as they were.
#[tactic(auto, unfolding(crate::specs::Elements::start_tag))]
fn add_start(out: &mut Vec<u8>, tag: Tag, attributes: &[u8]) -> Result<(), AllocError>
    ensures ok { OnOk result (out.new.items ≡ out.old.items ++ start_tag tag attributes.now) }
    ensures err { OnErr result (out.new.items ≡ out.old.items) }
{
    add_four(out, b"<", tag.name(), attributes, b">")
}

/// Adds what is in an element, and its end tag. If an allocation fails, the bytes stay as they
/// were.
#[tactic(auto, unfolding(crate::specs::Elements::end_tag))]
fn add_end(out: &mut Vec<u8>, inner: &[u8], tag: Tag) -> Result<(), AllocError>
    ensures ok { OnOk result (out.new.items ≡ out.old.items ++ inner.now ++ end_tag tag) }
    ensures err { OnErr result (out.new.items ≡ out.old.items) }
{
    add_four(out, inner, b"</", tag.name(), b">")
}

/// Adds an element, with room for all of it at once. If an allocation fails, the bytes stay as
/// they were.
#[tactic(auto, unfolding(crate::specs::Elements::element))]
pub(crate) fn add_element(
    out: &mut Vec<u8>,
    tag: Tag,
    attributes: &[u8],
    inner: &[u8],
) -> Result<(), AllocError>
    ensures ok { OnOk result (out.new.items
        ≡ out.old.items ++ element tag attributes.now inner.now) }
    ensures err { OnErr result (out.new.items ≡ out.old.items) }
{
    let before = out.len();
    out.reserve(
        attributes
            .len()
            .saturating_add(inner.len())
            .saturating_add(64),
    )?;
    add_start(out, tag, attributes)?;
    let added = add_end(out, inner, tag);
    if added.is_err() {
        out.truncate(before);
    }
    added
}

/// Adds an element with nothing in it. If an allocation fails, the bytes stay as they were.
#[tactic(auto, unfolding(crate::specs::Elements::void_element))]
pub(crate) fn add_void(out: &mut Vec<u8>, tag: VoidTag, attributes: &[u8]) -> Result<(), AllocError>
    ensures ok { OnOk result (out.new.items
        ≡ out.old.items ++ void_element tag attributes.now) }
    ensures err { OnErr result (out.new.items ≡ out.old.items) }
{
    add_four(out, b"<", tag.name(), attributes, b"/>")
}
