//! From a report to the picture that shows it.
ghost use Rattle.std.specs.Prelude.{◌≡◌, ◌++◌, ◌<◌, IfOk, OnErr, OnOk};
ghost use Rattle.std.specs.Prelude.{count_by, length, string_bytes};
ghost use Rattle.std.specs.List.{flat_map};
ghost use Rattle.auditor.specs.Report.{report_of};
ghost use Rattle.auditor.specs.Outcomes.{is_broken, is_unsettled};
ghost use Rattle.page_markup.specs.WellFormed.{IsDocument};
ghost use Rattle.entangled_picture.specs.Document.{
  all_of,
  arrows_line,
  arrows_words,
  attributes_of,
  broken_line,
  broken_words,
  count_words,
  drawn_words,
  graph_words,
  is_entry,
  kind_attributes,
  lanes_in,
  named_text,
  picture_attributes,
  picture_base,
  picture_head,
  picture_of,
  picture_paper,
  picture_style,
  picture_text,
  picture_titles,
  picture_words,
  rule_word,
  rule_words,
  size_attributes,
  after_space,
  unsettled_line,
  unsettled_words,
  verdict_words,
  view_box,
};
ghost use Rattle.entangled_picture.specs.ShapeMarks.{shape_line};

use crate::drawing::add_words;
use crate::layout::{tops_of, width_of};
use crate::legend::{STYLE, add_arrow_heads, add_legend};
use crate::names::{rule_name, two_words};
use crate::shape::Shape;
use crate::shape_marks::add_shape_line;
use crate::shapes::{MOST_ARROWS, drawing_of};
use auditor::Report;
use entry_graph::Graph;
use page_markup::{AttributeName, Attributes, Markup, Tag, svg_document};
use precedence::Arrows;
use rule_engine::Verdict;
use std::alloc::{AllocError, Global};

/// What a picture shows, for those who don't see it.
const DESCRIPTION: &[u8] = b"A lane for each machine and a mark for each entry, from left to right \
by their stamps; arrows go to the entries that they name.";

/// Adds the name of a rule, if it is broken.
fn add_broken(out: &mut Vec<u8>, report: &Report, rule: usize) -> Result<(), AllocError>
    requires { rule < length report.now.verdicts }
    ensures { OnOk result (out.new.items
        ≡ out.old.items ++ rule_word is_broken (report_of report.now) rule) }
{
    match report.verdicts()[rule] {
        Verdict::Broken(_) => add_name(out, rule_name(report, rule)),
        _ => Ok(()),
    }
}

/// Adds the name of a rule, if it is unsettled.
fn add_unsettled(out: &mut Vec<u8>, report: &Report, rule: usize) -> Result<(), AllocError>
    requires { rule < length report.now.verdicts }
    ensures { OnOk result (out.new.items
        ≡ out.old.items ++ rule_word is_unsettled (report_of report.now) rule) }
{
    match report.verdicts()[rule] {
        Verdict::Unsettled => add_name(out, rule_name(report, rule)),
        _ => Ok(()),
    }
}

/// Adds a space and a name.
fn add_name(out: &mut Vec<u8>, name: &str) -> Result<(), AllocError>
    ensures { OnOk result (out.new.items ≡ out.old.items ++ after_space name.now) }
{
    out.push(b' ')?;
    out.extend_from_slice(name.as_bytes())
}

/// Adds the names of the broken rules.
#[tactic(auto, using(crate::proofs::Grown::growing))]
fn add_all_broken(out: &mut Vec<u8>, report: &Report) -> Result<(), AllocError>
    ensures { OnOk result (out.new.items
        ≡ out.old.items ++ rule_words is_broken (report_of report.now)) }
{
    for rule in 0..report.verdicts().len() {
        add_broken(out, report, rule)?;
    }
    Ok(())
}

/// Adds the names of the unsettled rules.
#[tactic(auto, using(crate::proofs::Grown::growing))]
fn add_all_unsettled(out: &mut Vec<u8>, report: &Report) -> Result<(), AllocError>
    ensures { OnOk result (out.new.items
        ≡ out.old.items ++ rule_words is_unsettled (report_of report.now)) }
{
    for rule in 0..report.verdicts().len() {
        add_unsettled(out, report, rule)?;
    }
    Ok(())
}

/// The line of the broken rules.
fn broken_line(alloc: Global, report: &Report) -> Result<Vec<u8>, AllocError>
    ensures { IfOk result (λ line. line.items ≡ broken_line (report_of report.now)) }
{
    let mut line = Vec::new(alloc);
    line.extend_from_slice(b"broken:")?;
    add_all_broken(&mut line, report)?;
    Ok(line)
}

/// The line of the unsettled rules.
fn unsettled_line(alloc: Global, report: &Report) -> Result<Vec<u8>, AllocError>
    ensures { IfOk result (λ line. line.items ≡ unsettled_line (report_of report.now)) }
{
    let mut line = Vec::new(alloc);
    line.extend_from_slice(b"unsettled:")?;
    add_all_unsettled(&mut line, report)?;
    Ok(line)
}

/// How many of the survivors are drawn, and how many gaps, forks and strays there are.
fn drawn_words(
    alloc: Global,
    drawn: usize,
    all: usize,
    gaps: usize,
    forks: usize,
    strays: usize,
) -> Result<String, AllocError>
    ensures { IfOk result (λ text. string_bytes text ≡ drawn_words drawn all gaps forks strays) }
{
    format!(in alloc;
        "{drawn} of {all} entries are drawn; gaps {gaps}, forks {forks}, strays {strays}, \
of each the first 300"
    )
}

/// The same of a graph.
fn graph_words(alloc: Global, graph: &Graph, drawn: usize) -> Result<String, AllocError>
    ensures { IfOk result (λ text. string_bytes text ≡ graph_words graph.now drawn) }
{
    let all = graph.count();
    let gaps = graph.gaps().len();
    let forks = graph.forks().len();
    let strays = graph.strays().len();
    drawn_words(alloc, drawn, all, gaps, forks, strays)
}

/// Whether the shape is a survivor's mark.
fn is_entry(shape: &Shape) -> bool
    ensures { result ≡ is_entry shape.now }
{
    match *shape {
        Shape::Entry { .. } => true,
        _ => false,
    }
}

/// How many of the shapes are survivors' marks.
fn count_entries(shapes: &[Shape]) -> usize
    ensures { result ≡ count_by is_entry shapes.now }
{
    shapes.iter().filter(|shape| is_entry(shape)).count()
}

/// The part that is shown.
fn view_box(alloc: Global, width: u128, height: u64) -> Result<String, AllocError>
    ensures { IfOk result (λ text. string_bytes text ≡ view_box width height) }
{
    format!(in alloc; "0 0 {width} {height}")
}

/// The attributes of each picture.
#[tactic(auto, unfolding(crate::specs::Document::kind_attributes))]
fn kind_attributes(alloc: Global) -> Result<Attributes, AllocError>
    ensures { IfOk result (λ attributes. attributes ≡ kind_attributes) }
{
    let mut attributes = Attributes::new(alloc);
    attributes.add(alloc, AttributeName::Xmlns, b"http://www.w3.org/2000/svg")?;
    attributes.add(alloc, AttributeName::Class, b"picture")?;
    attributes.add(alloc, AttributeName::Role, b"graphics-document document")?;
    attributes.add(alloc, AttributeName::AriaLabelledby, b"p-title p-text")?;
    Ok(attributes)
}

/// Adds a size.
#[tactic(auto, unfolding(crate::specs::Document::size_attributes))]
fn add_size(
    alloc: Global,
    attributes: &mut Attributes,
    width: u128,
    height: u64,
) -> Result<(), AllocError>
    ensures { OnOk result (attributes.new ≡ attributes.old ++ size_attributes width height) }
{
    let view = view_box(alloc, width, height)?;
    attributes.add_number(alloc, AttributeName::Width, width)?;
    attributes.add_number(alloc, AttributeName::Height, u128::from(height))?;
    attributes.add(alloc, AttributeName::ViewBox, view.as_bytes())
}

/// The attributes of a picture of this size.
#[tactic(auto, unfolding(crate::specs::Document::picture_attributes))]
fn picture_attributes(alloc: Global, width: u128, height: u64) -> Result<Attributes, AllocError>
    ensures { IfOk result (λ attributes. attributes ≡ picture_attributes width height) }
{
    let mut attributes = kind_attributes(alloc)?;
    add_size(alloc, &mut attributes, width, height)?;
    Ok(attributes)
}

/// Adds an element with this id and this text.
#[tactic(auto, unfolding(crate::specs::Document::named_text))]
fn add_named_text(
    alloc: Global,
    out: &mut Markup,
    tag: Tag,
    id: &[u8],
    text: &[u8],
) -> Result<(), AllocError>
    ensures { OnOk result (out.new ≡ out.old ++ named_text tag id.now text.now) }
{
    let mut attributes = Attributes::new(alloc);
    attributes.add(alloc, AttributeName::Id, id)?;
    let mut inner = Markup::new(alloc);
    inner.add_text(alloc, text)?;
    out.add_element(alloc, tag, &attributes, &inner)
}

/// Adds the style.
#[tactic(auto, unfolding(crate::specs::Document::picture_style))]
fn add_style(alloc: Global, out: &mut Markup) -> Result<(), AllocError>
    ensures { OnOk result (out.new ≡ out.old ++ picture_style) }
{
    let mut style = Markup::new(alloc);
    style.add_text(alloc, STYLE.as_bytes())?;
    out.add_element(alloc, Tag::Style, &Attributes::new(alloc), &style)
}

/// The title, the description and the style.
#[tactic(auto, unfolding(crate::specs::Document::picture_titles))]
fn picture_titles(alloc: Global, verdict: &str) -> Result<Markup, AllocError>
    ensures { IfOk result (λ titles. titles ≡ picture_titles verdict.now) }
{
    let text = two_words(alloc, "verdict ", verdict)?;
    let mut titles = Markup::new(alloc);
    add_named_text(alloc, &mut titles, Tag::Title, b"p-title", text.as_bytes())?;
    titles.add_text(alloc, b"\n")?;
    add_named_text(alloc, &mut titles, Tag::Desc, b"p-text", DESCRIPTION)?;
    add_style(alloc, &mut titles)?;
    Ok(titles)
}

/// Adds the paper.
#[tactic(auto, unfolding(crate::specs::Document::picture_paper))]
fn add_paper(alloc: Global, out: &mut Markup) -> Result<(), AllocError>
    ensures { OnOk result (out.new ≡ out.old ++ picture_paper) }
{
    let mut attributes = Attributes::new(alloc);
    attributes.add(alloc, AttributeName::Class, b"paper")?;
    attributes.add(alloc, AttributeName::Width, b"100%")?;
    attributes.add(alloc, AttributeName::Height, b"100%")?;
    out.add_element(alloc, Tag::Rect, &attributes, &Markup::new(alloc))
}

/// Adds what the report comes to.
#[tactic(auto, unfolding(crate::specs::Document::verdict_words))]
fn add_verdict(alloc: Global, out: &mut Markup, verdict: &str) -> Result<(), AllocError>
    ensures { OnOk result (out.new ≡ out.old ++ verdict_words verdict.now) }
{
    let text = two_words(alloc, "verdict ", verdict)?;
    add_words(alloc, out, b"verdict", b"translate(8 24)", text.as_bytes())
}

/// Adds the line of the broken rules.
#[tactic(auto, unfolding(crate::specs::Document::broken_words))]
fn add_broken_words(alloc: Global, out: &mut Markup, report: &Report) -> Result<(), AllocError>
    ensures { OnOk result (out.new ≡ out.old ++ broken_words (report_of report.now)) }
{
    let line = broken_line(alloc, report)?;
    add_words(alloc, out, b"rules", b"translate(8 46)", line.as_slice())
}

/// Adds the line of the unsettled rules.
#[tactic(auto, unfolding(crate::specs::Document::unsettled_words))]
fn add_unsettled_words(alloc: Global, out: &mut Markup, report: &Report) -> Result<(), AllocError>
    ensures { OnOk result (out.new ≡ out.old ++ unsettled_words (report_of report.now)) }
{
    let line = unsettled_line(alloc, report)?;
    add_words(alloc, out, b"rules", b"translate(8 64)", line.as_slice())
}

/// Adds how many of the survivors are drawn.
#[tactic(auto, unfolding(crate::specs::Document::count_words))]
fn add_count_words(
    alloc: Global,
    out: &mut Markup,
    graph: &Graph,
    drawn: usize,
) -> Result<(), AllocError>
    ensures { OnOk result (out.new ≡ out.old ++ count_words graph.now drawn) }
{
    let line = graph_words(alloc, graph, drawn)?;
    add_words(alloc, out, b"rules", b"translate(8 82)", line.as_bytes())
}

/// How many of the arrows are drawn.
fn arrows_line(alloc: Global, arrows: usize) -> Result<String, AllocError>
    ensures { IfOk result (λ text. string_bytes text ≡ arrows_line arrows) }
{
    if arrows <= MOST_ARROWS {
        return String::from_str(alloc, "of arrows to a gap the first 16 are drawn");
    }
    format!(in alloc;
        "of arrows to a gap the first 16 are drawn, of {arrows} between entries the first 5000"
    )
}

/// Adds how many of the arrows are drawn.
#[tactic(auto, unfolding(crate::specs::Document::arrows_words))]
fn add_arrows_words(alloc: Global, out: &mut Markup, arrows: usize) -> Result<(), AllocError>
    ensures { OnOk result (out.new ≡ out.old ++ arrows_words arrows) }
{
    let line = arrows_line(alloc, arrows)?;
    add_words(alloc, out, b"rules", b"translate(8 98)", line.as_bytes())
}

/// What the report comes to, the rules that aren't kept, and how many entries and arrows are drawn.
#[tactic(auto, unfolding(crate::specs::Document::picture_words))]
fn picture_words(
    alloc: Global,
    report: &Report,
    verdict: &str,
    drawn: usize,
    arrows: usize,
) -> Result<Markup, AllocError>
    ensures { IfOk result (λ lines.
        lines ≡ picture_words (report_of report.now) verdict.now drawn arrows) }
{
    let mut lines = Markup::new(alloc);
    add_verdict(alloc, &mut lines, verdict)?;
    add_broken_words(alloc, &mut lines, report)?;
    add_unsettled_words(alloc, &mut lines, report)?;
    add_count_words(alloc, &mut lines, report.graph(), drawn)?;
    add_arrows_words(alloc, &mut lines, arrows)?;
    Ok(lines)
}

/// The title, the description, the style, the heads of arrows, and the paper.
#[tactic(auto, unfolding(crate::specs::Document::picture_base))]
fn picture_base(alloc: Global, verdict: &str) -> Result<Markup, AllocError>
    ensures { IfOk result (λ base. base ≡ picture_base verdict.now) }
{
    let mut base = picture_titles(alloc, verdict)?;
    add_arrow_heads(alloc, &mut base)?;
    add_paper(alloc, &mut base)?;
    Ok(base)
}

/// What stands before the shapes, with the number of all arrows.
#[tactic(auto, unfolding(crate::specs::Document::picture_head))]
fn picture_head(
    alloc: Global,
    report: &Report,
    shapes: &[Shape],
    arrows: usize,
) -> Result<Markup, AllocError>
    ensures { IfOk result (λ head. head ≡ picture_head (report_of report.now) shapes.now arrows) }
{
    let verdict = report.outcome().word();
    let lines = picture_words(alloc, report, verdict, count_entries(shapes), arrows)?;
    let mut head = picture_base(alloc, verdict)?;
    head.add(&lines)?;
    add_legend(alloc, &mut head)?;
    head.add_text(alloc, b"\n")?;
    Ok(head)
}

/// Adds the shapes, one after another.
fn add_shapes(
    alloc: Global,
    out: &mut Markup,
    report: &Report,
    tops: &[u64],
    shapes: &[Shape],
) -> Result<(), AllocError>
    ensures { OnOk result (out.new
        ≡ out.old ++ flat_map (shape_line (report_of report.now) tops.now) shapes.now) }
{
    for shape in shapes {
        add_shape_line(alloc, out, report, tops, shape)?;
    }
    Ok(())
}

/// How many lanes there are: those of the machines, and three below them.
fn lanes_in(report: &Report) -> usize
    ensures { result ≡ lanes_in (report_of report.now) }
{
    report.roster().machines.as_slice().len() + 3
}

/// The attributes of the report's picture, and what is in it.
#[tactic(auto, unfolding(crate::specs::Document::attributes_of, crate::specs::Document::all_of))]
fn parts_of(alloc: Global, report: &Report) -> Result<(Attributes, Markup), AllocError>
    ensures attributes { IfOk result (λ parts. parts.0 ≡ attributes_of (report_of report.now)) }
    ensures inner { IfOk result (λ parts. parts.1 ≡ all_of (report_of report.now)) }
{
    let (shapes, arrows) = drawing_of(alloc, report)?;
    let lanes = lanes_in(report);
    let (tops, height) = tops_of(alloc, shapes.as_slice(), lanes)?;
    let attributes = picture_attributes(alloc, width_of(shapes.as_slice()), height)?;
    let mut inner = picture_head(alloc, report, shapes.as_slice(), arrows)?;
    add_shapes(
        alloc,
        &mut inner,
        report,
        tops.as_slice(),
        shapes.as_slice(),
    )?;
    Ok((attributes, inner))
}

/// Adds the picture of the report: an element for a page, or for a document of its own. Each mark
/// of a survivor is a reference to `#e` and its number among the survivors, counted from 0.
///
/// # Errors
///
/// Out of memory; the markup stays as it was.
#[tactic(auto, unfolding(crate::specs::Document::picture_of))]
pub fn add_picture(alloc: Global, out: &mut Markup, report: &Report) -> Result<(), AllocError>
    ensures ok { OnOk result (out.new ≡ out.old ++ picture_of (report_of report.now)) }
    ensures err { OnErr result (out.new ≡ out.old) }
{
    let (attributes, inner) = parts_of(alloc, report)?;
    out.add_element(alloc, Tag::Svg, &attributes, &inner)
}

/// The picture of the report: an SVG document.
///
/// # Errors
///
/// Out of memory.
#[tactic(auto, unfolding(crate::specs::Document::picture_text))]
pub fn write_picture(alloc: Global, report: &Report) -> Result<Vec<u8>, AllocError>
    ensures value { IfOk result (λ bytes. bytes.items ≡ picture_text (report_of report.now)) }
    ensures well_formed { IfOk result (λ bytes. ∥ IsDocument bytes.items ∥₁) }
{
    let (attributes, inner) = parts_of(alloc, report)?;
    svg_document(alloc, &attributes, &inner)
}
