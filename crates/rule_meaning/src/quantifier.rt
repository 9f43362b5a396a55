//! A quantifier, and the rows that it goes over.
ghost use Rattle.std.specs.Prelude.{◌≡◌, None};

use rule_language::Kind;

/// A quantifier without its body. What `some` finds is the opposite of what `every` finds of the
/// opposite body.
#[derive(Clone, Copy)]
pub struct Quantifier {
    pub some: bool,
    pub v: u8,
    pub kind: Kind,
    /// The row before which they come, if there is one.
    pub within: Option<usize>,
}

/// The quantifier over all survivors of the kind.
pub fn quantifier_over(some: bool, v: u8, kind: Kind) -> Quantifier
    ensures { result ≡ record { some = some; v = v; kind = kind; within = None } }
{
    Quantifier {
        some,
        v,
        kind,
        within: None,
    }
}
