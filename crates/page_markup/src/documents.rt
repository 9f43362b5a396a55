//! Whole documents.
ghost use Rattle.std.specs.Prelude.{◌≡◌, IfOk};
ghost use Rattle.page_markup.specs.Elements.{html_document, svg_document};
ghost use Rattle.page_markup.specs.WellFormed.{IsDocument};

use crate::attributes::Attributes;
use crate::elements::add_element;
use crate::markup::Markup;
use crate::names::Tag;
use std::alloc::{AllocError, Global};

/// A page with these attributes and this in it.
///
/// # Errors
///
/// Out of memory.
#[tactic(auto, unfolding(crate::specs::Elements::html_document))]
pub fn html_document(
    alloc: Global,
    attributes: &Attributes,
    inner: &Markup,
) -> Result<Vec<u8>, AllocError>
    ensures value { IfOk result (λ bytes. bytes.items ≡ html_document attributes.now inner.now) }
    ensures well_formed { IfOk result (λ bytes. ∥ IsDocument bytes.items ∥₁) }
{
    let attributes = attributes.as_slice();
    let inner = inner.as_slice();
    let mut out = Vec::with_capacity(alloc, inner.len().saturating_add(1024))?;
    out.extend_from_slice(b"<!DOCTYPE html>\n")?;
    add_element(&mut out, Tag::Html, attributes, inner)?;
    out.push(b'\n')?;
    Ok(out)
}

/// A drawing with these attributes and this in it: an SVG document.
///
/// # Errors
///
/// Out of memory.
#[tactic(auto, unfolding(crate::specs::Elements::svg_document))]
pub fn svg_document(
    alloc: Global,
    attributes: &Attributes,
    inner: &Markup,
) -> Result<Vec<u8>, AllocError>
    ensures value { IfOk result (λ bytes. bytes.items ≡ svg_document attributes.now inner.now) }
    ensures well_formed { IfOk result (λ bytes. ∥ IsDocument bytes.items ∥₁) }
{
    let attributes = attributes.as_slice();
    let inner = inner.as_slice();
    let mut out = Vec::with_capacity(alloc, inner.len().saturating_add(1024))?;
    add_element(&mut out, Tag::Svg, attributes, inner)?;
    out.push(b'\n')?;
    Ok(out)
}
