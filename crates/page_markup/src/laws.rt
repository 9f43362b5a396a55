//! What holds of all text in markup.
ghost use Rattle.std.specs.Prelude.{List, ℕ};
ghost use Rattle.page_markup.specs.Escaping.{escaped};
ghost use Rattle.page_markup.specs.WellFormed.{IsCharacterData};

/// Whatever a text from outside holds: escaped, it has no `<`, `>`, `"` or `'`, and each `&` begins
/// a reference.
pub fn escaped_text_is_character_data()
    ensures { (text : List ℕ) → IsCharacterData (escaped text) }
{}
