// The order of two entries.
ghost use Rattle.std.specs.Prelude.{◌≡◌};
ghost use Rattle.log_commands.specs.Lines.{order_word};

/// Where one entry comes relative to another, as far as it is known.
#[derive(Clone, Copy, Debug, PartialEq, Eq)]
pub(crate) enum OrderWord {
    /// They are one.
    Same,
    Before,
    After,
    /// Neither is before the other.
    Apart,
    Unknown,
}

impl OrderWord {
    /// The word as it is printed.
    pub fn word(self) -> &'static str
        ensures { result.now ≡ order_word self }
    {
        match self {
            OrderWord::Same => "same",
            OrderWord::Before => "before",
            OrderWord::After => "after",
            OrderWord::Apart => "apart",
            OrderWord::Unknown => "unknown",
        }
    }
}
