//! Markup: text, elements and their attributes, for pages (HTML) and drawings (SVG). All names come
//! from tables, all text is escaped, and each start tag has its end tag, so that what is written is
//! well-formed.
#![tactic(auto)]

mod attributes;
mod documents;
mod elements;
mod escaping;
mod laws;
mod markup;
mod names;
mod pieces;

pub use attributes::Attributes;
pub use documents::{html_document, svg_document};
pub use laws::escaped_text_is_character_data;
pub use markup::Markup;
pub use names::{AttributeName, Tag, VoidTag};
