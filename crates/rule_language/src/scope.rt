//! The variables that are bound at a place of a rule.
ghost use Rattle.std.specs.Prelude.{◌≡◌, nat_le, length};
ghost use Rattle.rule_language.specs.Scopes.{kind_in};
ghost use Rattle.rule_language.specs.inside.Unread.{bindings};

use crate::kind::Kind;

/// The bound variables, the innermost first, each with the kind of its quantifier.
#[derive(Drop)]
pub(crate) enum Scope<'a> {
    Empty,
    With {
        v: u8,
        kind: Kind,
        outer: &'a Scope<'a>,
    },
}

impl<'a> Scope<'a> {
    /// The kind of the quantifier that binds the variable.
    pub(crate) fn kind_of(&self, variable: u8) -> Option<Kind>
        ensures { result ≡ kind_in (bindings self.now) variable }
    {
        match self {
            Scope::Empty => None,
            Scope::With { v, kind, outer } => {
                if variable == *v {
                    Some(*kind)
                } else {
                    outer.kind_of(variable)
                }
            }
        }
    }

    /// Whether at least this many variables are bound.
    pub(crate) fn has(&self, count: usize) -> bool
        ensures { result ≡ nat_le count (length (bindings self.now)) }
    {
        match self {
            Scope::Empty => count == 0,
            Scope::With { outer, .. } => count == 0 || outer.has(count - 1),
        }
    }
}
