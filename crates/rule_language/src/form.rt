//! The forms of formulas, apart from their parts, and the words that they begin with.
ghost use Rattle.std.specs.Prelude.{◌≡◌};
ghost use Rattle.rule_language.specs.Kinds.{head_word, head_named, is_quantifier};

use crate::kind::Kind;
use crate::term::Term;
use roster::Role;

/// A formula without the formulas in it.
#[derive(Clone, Copy)]
pub enum Form {
    True,
    ForEvery { v: u8, kind: Kind },
    ForSome { v: u8, kind: Kind },
    EveryBefore { v: u8, kind: Kind, u: u8 },
    SomeBefore { v: u8, kind: Kind, u: u8 },
    And,
    Or,
    Not,
    Implies,
    Same(u8, u8),
    Before(u8, u8),
    Next(u8, u8),
    Is(u8, Role),
    OfKind(u8, Kind),
    Equal(Term, Term),
    Less(Term, Term),
}

/// What a formula in parentheses begins with.
#[derive(Clone, Copy)]
pub(crate) enum Head {
    ForEvery,
    ForSome,
    And,
    Or,
    Not,
    Implies,
    Same,
    Before,
    Next,
    Is,
    OfKind,
    Equal,
    Less,
}

// The heads, in the order of their declaration.
const HEADS: &[Head] = &[
    Head::ForEvery,
    Head::ForSome,
    Head::And,
    Head::Or,
    Head::Not,
    Head::Implies,
    Head::Same,
    Head::Before,
    Head::Next,
    Head::Is,
    Head::OfKind,
    Head::Equal,
    Head::Less,
];

impl Head {
    /// The word.
    pub(crate) fn word(self) -> &'static [u8]
        ensures { result.now ≡ head_word self }
    {
        match self {
            Head::ForEvery => b"every",
            Head::ForSome => b"some",
            Head::And => b"and",
            Head::Or => b"or",
            Head::Not => b"not",
            Head::Implies => b"implies",
            Head::Same => b"same",
            Head::Before => b"before",
            Head::Next => b"next",
            Head::Is => b"is",
            Head::OfKind => b"kind",
            Head::Equal => b"=",
            Head::Less => b"<",
        }
    }

    /// Whether it is a quantifier's.
    pub(crate) fn is_quantifier(self) -> bool
        ensures { result ≡ is_quantifier self }
    {
        matches!(self, Head::ForEvery | Head::ForSome)
    }

    /// What the word begins.
    pub(crate) fn of_word(word: &[u8]) -> Option<Head>
        ensures { result ≡ head_named word.now }
    {
        for &head in HEADS {
            if word == head.word() {
                return Some(head);
            }
        }
        None
    }
}
