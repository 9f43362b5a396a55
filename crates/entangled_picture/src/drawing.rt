//! What a picture is drawn with.
ghost use Rattle.std.specs.Prelude.{◌≡◌, ◌++◌, IfOk, OnOk, string_bytes};
ghost use Rattle.entangled_picture.specs.Drawing.{
  group,
  drawn_line,
  mark,
  place_text,
  title,
  titled_line,
  words_at,
};

use page_markup::{AttributeName, Attributes, Markup, Tag};
use std::alloc::{AllocError, Global};

/// A place, as a transformation.
pub(crate) fn place_text(alloc: Global, x: u128, y: u128) -> Result<String, AllocError>
    ensures { IfOk result (λ text. string_bytes text ≡ place_text x y) }
{
    format!(in alloc; "translate({x} {y})")
}

/// Adds words of a class at a place.
#[tactic(auto, unfolding(crate::specs::Drawing::words_at))]
pub(crate) fn add_words(
    alloc: Global,
    out: &mut Markup,
    class: &[u8],
    place: &[u8],
    text: &[u8],
) -> Result<(), AllocError>
    ensures { OnOk result (out.new ≡ out.old ++ words_at class.now place.now text.now) }
{
    let mut attributes = Attributes::new(alloc);
    attributes.add(alloc, AttributeName::Class, class)?;
    attributes.add(alloc, AttributeName::Transform, place)?;
    let mut inner = Markup::new(alloc);
    inner.add_text(alloc, text)?;
    out.add_element(alloc, Tag::Text, &attributes, &inner)
}

/// Adds a line of a class along a path.
#[tactic(auto, unfolding(crate::specs::Drawing::drawn_line))]
pub(crate) fn add_line(
    alloc: Global,
    out: &mut Markup,
    class: &[u8],
    path: &[u8],
) -> Result<(), AllocError>
    ensures { OnOk result (out.new ≡ out.old ++ drawn_line class.now path.now) }
{
    let mut attributes = Attributes::new(alloc);
    attributes.add(alloc, AttributeName::Class, class)?;
    attributes.add(alloc, AttributeName::D, path)?;
    out.add_element(alloc, Tag::Path, &attributes, &Markup::new(alloc))
}

/// Adds a title.
#[tactic(auto, unfolding(crate::specs::Drawing::title))]
pub(crate) fn add_title(alloc: Global, out: &mut Markup, text: &[u8]) -> Result<(), AllocError>
    ensures { OnOk result (out.new ≡ out.old ++ title text.now) }
{
    let mut inner = Markup::new(alloc);
    inner.add_text(alloc, text)?;
    out.add_element(alloc, Tag::Title, &Attributes::new(alloc), &inner)
}

/// Adds a line of a class along a path, with a title.
#[tactic(auto, unfolding(crate::specs::Drawing::titled_line))]
pub(crate) fn add_titled_line(
    alloc: Global,
    out: &mut Markup,
    class: &[u8],
    path: &[u8],
    text: &[u8],
) -> Result<(), AllocError>
    ensures { OnOk result (out.new ≡ out.old ++ titled_line class.now path.now text.now) }
{
    let mut attributes = Attributes::new(alloc);
    attributes.add(alloc, AttributeName::Class, class)?;
    attributes.add(alloc, AttributeName::D, path)?;
    let mut inner = Markup::new(alloc);
    add_title(alloc, &mut inner, text)?;
    out.add_element(alloc, Tag::Path, &attributes, &inner)
}

/// Adds what is drawn of a class at a place.
#[tactic(auto, unfolding(crate::specs::Drawing::group))]
pub(crate) fn add_group(
    alloc: Global,
    out: &mut Markup,
    class: &[u8],
    place: &[u8],
    inner: &Markup,
) -> Result<(), AllocError>
    ensures { OnOk result (out.new ≡ out.old ++ group class.now place.now inner.now) }
{
    let mut attributes = Attributes::new(alloc);
    attributes.add(alloc, AttributeName::Class, class)?;
    attributes.add(alloc, AttributeName::Transform, place)?;
    out.add_element(alloc, Tag::G, &attributes, inner)
}

/// Adds a mark of a class at a place: a title, a line along a path, and a label.
#[tactic(auto, unfolding(crate::specs::Drawing::mark))]
pub(crate) fn add_mark(
    alloc: Global,
    out: &mut Markup,
    class: &[u8],
    place: &[u8],
    text: &[u8],
    path: &[u8],
    beside: &[u8],
    label: &[u8],
) -> Result<(), AllocError>
    ensures { OnOk result (out.new ≡ out.old
        ++ mark class.now place.now text.now path.now beside.now label.now) }
{
    let mut inner = Markup::new(alloc);
    add_title(alloc, &mut inner, text)?;
    add_line(alloc, &mut inner, b"glyph", path)?;
    add_words(alloc, &mut inner, b"label", beside, label)?;
    add_group(alloc, out, class, place, &inner)
}
