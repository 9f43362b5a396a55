//! The style of a picture, the heads of its arrows, and its legend.
ghost use Rattle.std.specs.Prelude.{◌≡◌, ◌++◌, IfOk, OnOk};
ghost use Rattle.entangled_picture.specs.Legend.{
  arrow_head,
  arrow_heads,
  head_place,
  head_size,
  left_meanings,
  legend,
  meaning,
  right_meanings,
};

use crate::drawing::{add_group, add_line, add_words, place_text};
use page_markup::{AttributeName, Attributes, Markup, Tag};
use std::alloc::{AllocError, Global};

/// The style, for light and dark windows and for paper. Text has a contrast of at least 7 to 1, and
/// lines of at least 3 to 1. The colours can be told apart by everybody (Okabe and Ito), and the
/// marks by shape alone.
pub(crate) const STYLE: &str = "\
.picture{--ink:#000;--paper:#fff;--quiet:#767676;--loss:#b84a00;--fork:#0072b2;--sky:#56b4e9;\
--lit:#e69f00;--shade:#d9d9d9;--ballot:#9fd0f0;\
font:12px sans-serif;max-width:none;background:var(--paper)}\
@media screen and (prefers-color-scheme:dark){.picture{--ink:#f0f0f0;--paper:#16181c;\
--quiet:#9a9a9a;--loss:#ff9d57;--fork:#6cc4ff;--sky:#2f7fae;--lit:#7a5400;--shade:#4a4a4a;\
--ballot:#1d5a85}}\
.picture .paper{fill:var(--paper);stroke:none}\
.picture text{fill:var(--ink);stroke:none}\
.picture path{fill:none;stroke:var(--ink);stroke-width:1.5}\
.picture .verdict{font-size:17px;font-weight:bold}\
.picture .machine{font-size:13px;font-weight:bold}\
.picture .lane{stroke:var(--quiet)}\
.picture .log{stroke:var(--quiet);stroke-dasharray:2 4}\
.picture .none{font-style:italic}\
.picture .names,.picture .arrow .glyph{stroke:var(--ink);stroke-width:1;marker-end:url(#p-names)}\
.picture .names-head{fill:var(--ink);stroke:none}\
.picture .loss-head{fill:var(--loss);stroke:none}\
.picture path.bar,.picture .bar .glyph{stroke:var(--quiet);stroke-width:8}\
.picture .light .glyph{fill:var(--lit);stroke-dasharray:3 2}\
.picture .glyph{fill:var(--paper)}\
.picture .opened .glyph,.picture .closed .glyph,.picture .authorise .glyph,\
.picture .override .glyph{fill:var(--shade)}\
.picture .commit .glyph,.picture .cast .glyph,.picture .challenge .glyph{fill:var(--ballot)}\
.picture .number{text-anchor:middle;font-size:11px}\
.picture .label,.picture .above,.picture .count,.picture .file{font-size:11px;\
paint-order:stroke;stroke:var(--paper);stroke-width:3px}\
.picture .gap .glyph{stroke:var(--loss);stroke-width:2;stroke-dasharray:3 2}\
.picture .loss{stroke:var(--loss);stroke-dasharray:4 3;marker-end:url(#p-loss)}\
.picture path.fork,.picture .fork .glyph{stroke:var(--fork);stroke-width:2.5}\
.picture .stray .glyph{fill:var(--sky)}\
.picture .refused .glyph,.picture .ending .glyph,.picture .break .glyph\
{fill:none;stroke:var(--loss);stroke-width:2.5}";

/// The size of an arrow's head.
#[tactic(auto, unfolding(crate::specs::Legend::head_size))]
fn head_size(alloc: Global) -> Result<Attributes, AllocError>
    ensures { IfOk result (λ attributes. attributes ≡ head_size) }
{
    let mut attributes = Attributes::new(alloc);
    attributes.add(alloc, AttributeName::MarkerUnits, b"userSpaceOnUse")?;
    attributes.add(alloc, AttributeName::MarkerWidth, b"8")?;
    attributes.add(alloc, AttributeName::MarkerHeight, b"8")?;
    Ok(attributes)
}

/// Adds where it is, at an arrow's end that is this far from the middle of what it points to.
#[tactic(auto, unfolding(crate::specs::Legend::head_place))]
fn add_head_place(
    alloc: Global,
    attributes: &mut Attributes,
    distance: &[u8],
) -> Result<(), AllocError>
    ensures { OnOk result (attributes.new ≡ attributes.old ++ head_place distance.now) }
{
    attributes.add(alloc, AttributeName::RefX, distance)?;
    attributes.add(alloc, AttributeName::RefY, b"4")?;
    attributes.add(alloc, AttributeName::Orient, b"auto")
}

/// Adds the head of an arrow whose end is this far from the middle of what it points to.
#[tactic(auto, unfolding(crate::specs::Legend::arrow_head))]
fn add_arrow_head(
    alloc: Global,
    out: &mut Markup,
    id: &[u8],
    class: &[u8],
    distance: &[u8],
) -> Result<(), AllocError>
    ensures { OnOk result (out.new ≡ out.old ++ arrow_head id.now class.now distance.now) }
{
    let mut attributes = head_size(alloc)?;
    attributes.add(alloc, AttributeName::Id, id)?;
    add_head_place(alloc, &mut attributes, distance)?;
    let mut inner = Markup::new(alloc);
    add_line(alloc, &mut inner, class, b"M0 0L8 4L0 8z")?;
    out.add_element(alloc, Tag::Marker, &attributes, &inner)
}

/// Adds the heads of both kinds of arrows.
#[tactic(auto, unfolding(crate::specs::Legend::arrow_heads))]
pub(crate) fn add_arrow_heads(alloc: Global, out: &mut Markup) -> Result<(), AllocError>
    ensures { OnOk result (out.new ≡ out.old ++ arrow_heads) }
{
    let mut inner = Markup::new(alloc);
    add_arrow_head(alloc, &mut inner, b"p-names", b"names-head", b"19")?;
    add_arrow_head(alloc, &mut inner, b"p-loss", b"loss-head", b"17")?;
    out.add_element(alloc, Tag::Defs, &Attributes::new(alloc), &inner)
}

/// Adds what a sign means.
#[tactic(auto, unfolding(crate::specs::Legend::meaning))]
fn add_meaning(
    alloc: Global,
    out: &mut Markup,
    class: &[u8],
    x: u128,
    y: u128,
    path: &[u8],
    text: &[u8],
) -> Result<(), AllocError>
    ensures { OnOk result (out.new ≡ out.old ++ meaning class.now x y path.now text.now) }
{
    let place = place_text(alloc, x, y)?;
    let mut inner = Markup::new(alloc);
    add_line(alloc, &mut inner, b"glyph", path)?;
    add_words(alloc, &mut inner, b"meaning", b"translate(22 4)", text)?;
    add_group(alloc, out, class, place.as_bytes(), &inner)
}

/// The left half of the legend.
#[tactic(auto, unfolding(crate::specs::Legend::left_meanings))]
fn left_meanings(alloc: Global) -> Result<Markup, AllocError>
    ensures { IfOk result (λ half. half ≡ left_meanings) }
{
    let circle = b"M-10 0a10 10 0 1 0 20 0a10 10 0 1 0 -20 0z";
    let light = b"M-9 0a9 9 0 1 0 18 0a9 9 0 1 0 -18 0z";
    let gap = b"M-8 0a8 8 0 1 0 16 0a8 8 0 1 0 -16 0z";
    let line = b"M-12 0h24";
    let entry = b"an entry, with its number";
    let names = b"it names an entry";
    let broken = b"a broken rule names it";
    let missing = b"a gap: named, and in no log";
    let folded = b"entries left out";
    let mut half = Markup::new(alloc);
    add_meaning(alloc, &mut half, b"entry", 24, 112, circle, entry)?;
    add_meaning(alloc, &mut half, b"arrow", 24, 136, line, names)?;
    add_meaning(alloc, &mut half, b"light", 24, 160, light, broken)?;
    add_meaning(alloc, &mut half, b"gap", 24, 184, gap, missing)?;
    add_meaning(alloc, &mut half, b"bar", 24, 208, line, folded)?;
    Ok(half)
}

/// The right half of the legend.
#[tactic(auto, unfolding(crate::specs::Legend::right_meanings))]
fn right_meanings(alloc: Global) -> Result<Markup, AllocError>
    ensures { IfOk result (λ half. half ≡ right_meanings) }
{
    let fork = b"M-12 6v-8h24v8";
    let stray = b"M0 -10L10 0L0 10L-10 0z";
    let cross = b"M-7 -7L7 7M-7 7L7 -7";
    let gap = b"M-4 -10V10M4 -10V10";
    let torn = b"M-6 -10L2 -4L-6 2L2 8";
    let refused = b"a refused record";
    let broken = b"a break in a log";
    let ending = b"a damaged end";
    let mut half = Markup::new(alloc);
    add_meaning(alloc, &mut half, b"fork", 244, 112, fork, b"a fork")?;
    add_meaning(alloc, &mut half, b"stray", 244, 136, stray, b"a stray")?;
    add_meaning(alloc, &mut half, b"refused", 244, 160, cross, refused)?;
    add_meaning(alloc, &mut half, b"break", 244, 184, gap, broken)?;
    add_meaning(alloc, &mut half, b"ending", 244, 208, torn, ending)?;
    Ok(half)
}

/// Adds the legend.
pub(crate) fn add_legend(alloc: Global, out: &mut Markup) -> Result<(), AllocError>
    ensures { OnOk result (out.new ≡ out.old ++ legend) }
{
    let mut both = left_meanings(alloc)?;
    let right = right_meanings(alloc)?;
    both.add(&right)?;
    out.add(&both)
}
