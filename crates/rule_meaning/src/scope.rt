//! The variables that are bound, and the rows that they stand for.
ghost use Rattle.std.specs.Prelude.{◌≡◌, ◌<◌, ℕ, IfSome};
ghost use Rattle.rule_meaning.specs.Scopes.{env_of, BindsRows};

/// The bound variables, the innermost first, each with the place of its row.
#[derive(Drop)]
pub enum Scope<'a> {
    Empty,
    With {
        v: u8,
        place: usize,
        outer: &'a Scope<'a>,
    },
}

impl<'a> Scope<'a> {
    /// The place of the row that the variable stands for.
    pub fn place_of(&self, variable: u8) -> Option<usize>
        ensures is { result ≡ env_of self.now variable }
        ensures within { (count : ℕ) → BindsRows count self.now
            → IfSome result (λ place. place < count) }
    {
        match self {
            Scope::Empty => None,
            Scope::With { v, place, outer } => {
                if variable == *v {
                    Some(*place)
                } else {
                    outer.place_of(variable)
                }
            }
        }
    }
}
