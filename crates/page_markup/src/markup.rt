//! Text and elements, one after another.
ghost use Rattle.std.specs.Prelude.{◌≡◌, ◌++◌, [], OnOk, OnErr};
ghost use Rattle.std.specs.Fmt.{decimal};
ghost use Rattle.page_markup.specs.Escaping.{escaped};
ghost use Rattle.page_markup.specs.Elements.{element, void_element};

use crate::attributes::Attributes;
use crate::elements::{add_element, add_void};
use crate::escaping::add_escaped;
use crate::names::{Tag, VoidTag};
use std::alloc::{AllocError, Global};
use std::marker::Model;

/// Text and elements, in the order in which they were added. Contracts see their bytes.
#[derive(Drop)]
pub struct Markup {
    bytes: Vec<u8>,
}

impl Model for Markup {
    ghost use Rattle.std.specs.Prelude.{List, ℕ};
    ghost use Rattle.page_markup.specs.WellFormed.{IsContent};

    ghost Value = { List ℕ };

    ghost view = { λ markup. markup.bytes.items };

    ghost invariant = { λ markup. ∥ IsContent markup.bytes.items ∥₁ };
}

impl Markup {
    ghost use Rattle.page_markup.specs.WellFormed.{IsContent};

    /// Nothing.
    pub fn new(alloc: Global) -> Markup
        ensures { result ≡ [] }
    {
        Markup {
            bytes: Vec::new(alloc),
        }
    }

    /// Adds text, escaped. If an allocation fails, the markup stays as it was.
    pub fn add_text(&mut self, alloc: Global, text: &[u8]) -> Result<(), AllocError>
        ensures ok { OnOk result (self.new ≡ self.old ++ escaped text.now) }
        ensures err { OnErr result (self.new ≡ self.old) }
    {
        add_escaped(alloc, &mut self.bytes, text)
    }

    /// Adds a number in decimal. If an allocation fails, the markup stays as it was.
    pub fn add_number(&mut self, alloc: Global, value: u128) -> Result<(), AllocError>
        ensures ok { OnOk result (self.new ≡ self.old ++ escaped (decimal value)) }
        ensures err { OnErr result (self.new ≡ self.old) }
    {
        let digits = value.to_string(alloc)?;
        self.add_text(alloc, digits.as_bytes())
    }

    /// Adds other markup. If an allocation fails, the markup stays as it was.
    pub fn add(&mut self, other: &Markup) -> Result<(), AllocError>
        ensures ok { OnOk result (self.new ≡ self.old ++ other.now) }
        ensures err { OnErr result (self.new ≡ self.old) }
    {
        self.bytes.extend_from_slice(other.bytes.as_slice())
    }

    /// Adds an element with these attributes and this in it. If an allocation fails, the markup
    /// stays as it was.
    pub fn add_element(
        &mut self,
        _alloc: Global,
        tag: Tag,
        attributes: &Attributes,
        inner: &Markup,
    ) -> Result<(), AllocError>
        ensures ok { OnOk result (self.new ≡ self.old ++ element tag attributes.now inner.now) }
        ensures err { OnErr result (self.new ≡ self.old) }
    {
        add_element(
            &mut self.bytes,
            tag,
            attributes.as_slice(),
            inner.as_slice(),
        )
    }

    /// Adds an element with nothing in it and no end tag. If an allocation fails, the markup stays
    /// as it was.
    pub fn add_void(
        &mut self,
        _alloc: Global,
        tag: VoidTag,
        attributes: &Attributes,
    ) -> Result<(), AllocError>
        ensures ok { OnOk result (self.new ≡ self.old ++ void_element tag attributes.now) }
        ensures err { OnErr result (self.new ≡ self.old) }
    {
        add_void(&mut self.bytes, tag, attributes.as_slice())
    }

    /// Lends the bytes.
    pub fn as_slice(&self) -> &[u8]
        ensures value { result.now ≡ self.now }
        ensures well_formed { ∥ IsContent self.now ∥₁ }
    {
        self.bytes.as_slice()
    }
}
