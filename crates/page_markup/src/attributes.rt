//! The attributes of an element.
ghost use Rattle.std.specs.Prelude.{◌≡◌, ◌++◌, [], OnOk, OnErr, codes};
ghost use Rattle.std.specs.Fmt.{decimal};
ghost use Rattle.page_markup.specs.Elements.{attribute};
ghost use Rattle.page_markup.specs.Escaping.{escaped};

use crate::escaping::add_escaped;
use crate::names::AttributeName;
use crate::pieces::add_three;
use std::alloc::{AllocError, Global};
use std::marker::Model;

/// Attributes, in the order in which they were added. Contracts see their text. That a name isn't
/// added twice is the caller's part.
#[derive(Drop)]
pub struct Attributes {
    bytes: Vec<u8>,
}

impl Model for Attributes {
    ghost use Rattle.std.specs.Prelude.{List, ℕ};
    ghost use Rattle.page_markup.specs.WellFormed.{AreAttributes};

    ghost Value = { List ℕ };

    ghost view = { λ attributes. attributes.bytes.items };

    ghost invariant = { λ attributes. ∥ AreAttributes attributes.bytes.items ∥₁ };
}

/// Adds the value of an attribute, and the quote after it. If an allocation fails, the bytes stay
/// as they were.
fn add_value(alloc: Global, out: &mut Vec<u8>, value: &[u8]) -> Result<(), AllocError>
    ensures ok { OnOk result (out.new.items ≡ out.old.items ++ escaped value.now ++ codes "\"") }
    ensures err { OnErr result (out.new.items ≡ out.old.items) }
{
    let before = out.len();
    add_escaped(alloc, out, value)?;
    let added = out.extend_from_slice(b"\"");
    if added.is_err() {
        out.truncate(before);
    }
    added
}

/// Adds an attribute. If an allocation fails, the bytes stay as they were.
#[tactic(auto, unfolding(crate::specs::Elements::attribute))]
fn add_attribute(
    alloc: Global,
    out: &mut Vec<u8>,
    name: AttributeName,
    value: &[u8],
) -> Result<(), AllocError>
    ensures ok { OnOk result (out.new.items ≡ out.old.items ++ attribute name value.now) }
    ensures err { OnErr result (out.new.items ≡ out.old.items) }
{
    let before = out.len();
    add_three(out, b" ", name.name(), b"=\"")?;
    let added = add_value(alloc, out, value);
    if added.is_err() {
        out.truncate(before);
    }
    added
}

impl Attributes {
    ghost use Rattle.page_markup.specs.WellFormed.{AreAttributes};

    /// No attributes.
    pub fn new(alloc: Global) -> Attributes
        ensures { result ≡ [] }
    {
        Attributes {
            bytes: Vec::new(alloc),
        }
    }

    /// Adds an attribute. If an allocation fails, the attributes stay as they were.
    pub fn add(
        &mut self,
        alloc: Global,
        name: AttributeName,
        value: &[u8],
    ) -> Result<(), AllocError>
        ensures ok { OnOk result (self.new ≡ self.old ++ attribute name value.now) }
        ensures err { OnErr result (self.new ≡ self.old) }
    {
        add_attribute(alloc, &mut self.bytes, name, value)
    }

    /// Adds an attribute with a number in decimal. If an allocation fails, the attributes stay as
    /// they were.
    pub fn add_number(
        &mut self,
        alloc: Global,
        name: AttributeName,
        value: u128,
    ) -> Result<(), AllocError>
        ensures ok { OnOk result (self.new ≡ self.old ++ attribute name (decimal value)) }
        ensures err { OnErr result (self.new ≡ self.old) }
    {
        let digits = value.to_string(alloc)?;
        self.add(alloc, name, digits.as_bytes())
    }

    /// Lends the text.
    pub(crate) fn as_slice(&self) -> &[u8]
        ensures value { result.now ≡ self.now }
        ensures well_formed { ∥ AreAttributes self.now ∥₁ }
    {
        self.bytes.as_slice()
    }
}
