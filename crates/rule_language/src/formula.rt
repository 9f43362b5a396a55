//! Formulas and rules.

use crate::kind::Kind;
use crate::term::Term;
use roster::Role;

/// A formula. A variable is the byte of its letter. Contracts see a formula as its tree
/// (`tree_of`), whatever room its vectors have.
#[derive(Drop)]
pub enum Formula {
    True,
    /// For each survivor of the kind.
    ForEvery {
        v: u8,
        kind: Kind,
        body: Box<Formula>,
    },
    /// For some survivor of the kind.
    ForSome {
        v: u8,
        kind: Kind,
        body: Box<Formula>,
    },
    /// For each entry of the kind that precedes what `u` stands for.
    EveryBefore {
        v: u8,
        kind: Kind,
        u: u8,
        body: Box<Formula>,
    },
    /// For some entry of the kind that precedes what `u` stands for.
    SomeBefore {
        v: u8,
        kind: Kind,
        u: u8,
        body: Box<Formula>,
    },
    /// 1 to 64 formulas.
    And(Vec<Formula>),
    /// 1 to 64 formulas.
    Or(Vec<Formula>),
    Not(Box<Formula>),
    Implies(Box<Formula>, Box<Formula>),
    /// One entry.
    Same(u8, u8),
    /// The first precedes the second.
    Before(u8, u8),
    /// Both have one maker, and their numbers follow.
    Next(u8, u8),
    /// The role of the entry's maker.
    Is(u8, Role),
    OfKind(u8, Kind),
    Equal(Term, Term),
    Less(Term, Term),
}

/// A rule: a name and what it says.
#[derive(Drop)]
pub struct Rule {
    /// 1 to 16 letters and digits.
    pub name: String,
    /// A formula in which no variable is free.
    pub body: Formula,
}
