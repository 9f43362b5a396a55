//! Texts that are read in place, without memory.
ghost use Rattle.std.specs.Prelude.{◌≡◌, ◌≢◌, ℕ, List, IfSome, IfNone, IsTrue, ◌↔◌};
ghost use Rattle.canonical_sexp.specs.inside.Spelt.{IsSpelt, IsSpelt-prop, AreSpelt, AreSpelt-prop};

use crate::number::number_of;
use crate::scanning::{Extent, octets_in, scan};
use std::marker::Model;

/// A text within the limits, in place. Contracts see the tree whose text it is.
#[derive(Drop)]
pub struct Text<'a> {
    bytes: &'a [u8],
    ghost spelt: { IsSpelt bytes.now } by { IsSpelt-prop bytes.now },
}

impl<'a> Model for Text<'a> {
    ghost use Rattle.canonical_sexp.specs.declared.sexp.Sexp.{Sexp};

    ghost Value = { Sexp };

    ghost use Rattle.canonical_sexp.specs.inside.Spelt.{sexp_code};

    ghost coded = { sexp_code };

    ghost view = { λ text. text.spelt.0 };
}

impl<'a> Text<'a> {
    ghost use Rattle.canonical_sexp.specs.Text.{text_of, Fits};
    ghost use Rattle.canonical_sexp.specs.Forest.{Forest};
    ghost use Rattle.canonical_sexp.specs.Forms.{Finds, IsU32, number_atom};
    ghost use Rattle.canonical_sexp.specs.declared.sexp.Sexp.TheVariants.{Atom, List as Branch};

    /// The text that the bytes are.
    pub(crate) fn new(bytes: &'a [u8]) -> Text<'a>
        requires { IsSpelt bytes.now }
        ensures { Fits result × (bytes.now ≡ text_of result) }
    {
        Text { bytes }
    }

    /// Lends the bytes of the text.
    pub fn bytes(&self) -> &'a [u8]
        ensures { Fits self.now × (result.now ≡ text_of self.now) }
    {
        self.bytes
    }

    /// Lends the octets of an atom.
    pub fn as_atom(&self) -> Option<&'a [u8]>
        ensures found { IfSome result (λ octets. self.now ≡ Atom octets.now) }
        ensures none { IfNone result ((octets : List ℕ) → self.now ≢ Atom octets) }
    {
        octets_in(self.bytes())
    }

    /// The members of a list.
    pub fn as_list(&self) -> Option<Rest<'a>>
        ensures found { IfSome result (λ members. self.now ≡ Branch members) }
        ensures none { IfNone result ((members : Forest) → self.now ≢ Branch members) }
    {
        let bytes = self.bytes();
        if bytes[0] != b'(' {
            return None;
        }
        let end = bytes.len() - 1;
        Some(Rest::new(&bytes[1..end]))
    }

    /// Whether this is the atom with these octets.
    pub fn is_word(&self, octets: &[u8]) -> bool
        ensures { IsTrue result ↔ (self.now ≡ Atom octets.now) }
    {
        match self.as_atom() {
            Some(word) => word == octets,
            None => false,
        }
    }

    /// The number that this is the atom of: digits without a leading zero, and at most
    /// 4,294,967,295.
    pub fn as_number(&self) -> Option<u32>
        ensures { Finds (λ number. IsU32 number × (self.now ≡ number_atom number)) result }
    {
        match self.as_atom() {
            Some(octets) => number_of(octets),
            None => None,
        }
    }
}

/// The members of a list that are left, in place. Contracts see their row.
#[derive(Drop)]
pub struct Rest<'a> {
    bytes: &'a [u8],
    ghost spelt: { AreSpelt bytes.now } by { AreSpelt-prop bytes.now },
}

impl<'a> Model for Rest<'a> {
    ghost use Rattle.canonical_sexp.specs.Forest.{Forest, forest_code};

    ghost Value = { Forest };

    ghost coded = { forest_code };

    ghost view = { λ rest. rest.spelt.0 };
}

impl<'a> Rest<'a> {
    ghost use Rattle.canonical_sexp.specs.Text.{texts_of, Fits};
    ghost use Rattle.canonical_sexp.specs.Forest.{no_trees, count_of};
    ghost use Rattle.canonical_sexp.specs.Sexp.{in_front};
    ghost use Rattle.canonical_sexp.specs.declared.sexp.Sexp.TheVariants.{List as Branch};

    /// The members whose texts the bytes are.
    fn new(bytes: &'a [u8]) -> Rest<'a>
        requires { AreSpelt bytes.now }
        ensures { Fits (Branch result) × (bytes.now ≡ texts_of result) }
    {
        Rest { bytes }
    }

    /// Lends the bytes of the members.
    fn bytes(&self) -> &'a [u8]
        ensures { Fits (Branch self.now) × (result.now ≡ texts_of self.now) }
    {
        self.bytes
    }

    /// Whether no member is left.
    pub fn is_empty(&self) -> bool
        ensures { IsTrue result ↔ (self.now ≡ no_trees) }
    {
        self.bytes().is_empty()
    }

    /// How many members are left. It looks at the tokens of all.
    pub fn len(&self) -> usize
        ensures { result ≡ count_of self.now }
    {
        let mut rest = Rest::new(self.bytes());
        let mut count = 0;
        while rest.take_next().is_some() {
            count += 1;
        }
        count
    }

    /// Takes the next member.
    pub fn take_next(&mut self) -> Option<Text<'a>>
        ensures found { IfSome result (λ tree. self.old ≡ in_front tree self.new) }
        ensures none { IfNone result ((self.old ≡ no_trees) × (self.new ≡ no_trees)) }
    {
        let bytes = self.bytes();
        match scan(bytes) {
            Extent::Whole { used } => {
                *self = Rest::new(&bytes[used..]);
                Some(Text::new(&bytes[..used]))
            }
            Extent::Cut => None,
            Extent::Bad { .. } => None,
        }
    }
}

impl<'a> Iterator for Rest<'a> {
    type Item = Text<'a>;

    ghost use Rattle.std.specs.Iterator.{YieldsFirst, item_count};
    ghost use Rattle.canonical_sexp.specs.Sexp.{members_of};

    ghost next_gives = { YieldsFirst members_of };

    ghost remaining = { item_count members_of };

    fn next(&mut self) -> Option<Text<'a>> {
        self.take_next()
    }
}
