//! Laws about a booth's rules, which hold of the definitions alone. Each is the contract of a
//! function that does nothing.
//! that does nothing.
ghost use Rattle.std.specs.Prelude.{◌≡◌, ◌↔◌, ℕ, Bool, List, All, Result, Err, IsTrue};
ghost use Rattle.entry_format.specs.declared.deed.Deed.{Deed};
ghost use Rattle.entry_format.specs.declared.entry.Entry.{Entry};
ghost use Rattle.entry_format.specs.EntryText.{IsDeedIn};
ghost use Rattle.booth_core.specs.declared.state.BoothNot.{BoothNot};
ghost use Rattle.booth_core.specs.declared.state.BoothNot.TheVariants.{CastForced};
ghost use Rattle.booth_core.specs.Table.{Refuses};
ghost use Rattle.booth_core.specs.VersionOne.{RefusesInVersion1};

/// Each deed has exactly one answer after each history, whether the log is whole or not.
pub fn each_deed_has_one_answer()
    ensures some { (owner : ℕ) (entries : List Entry) (whole : Bool) (deed : Deed) →
        (answer : Result (Unit {0}) BoothNot) × Refuses owner entries (IsTrue whole) deed answer }
    ensures one { (owner : ℕ) (entries : List Entry) (whole : Bool) (deed : Deed)
        (answer other : Result (Unit {0}) BoothNot) →
        Refuses owner entries (IsTrue whole) deed answer →
        Refuses owner entries (IsTrue whole) deed other → answer ≡ other }
{}

/// Where every entry that is held and the deed are of version 1, the answer is that of version 1's
/// own rules, and the cause that came with version 2 never comes.
/// rules, and the cause that came with version 2 never comes.
pub fn version_1_has_its_own_answers()
    ensures same { (owner : ℕ) (entries : List Entry) (whole : Bool) (deed : Deed)
        (answer : Result (Unit {0}) BoothNot) →
        All (λ entry. IsDeedIn 1 entry.deed) entries → IsDeedIn 1 deed →
        Refuses owner entries (IsTrue whole) deed answer
        ↔ RefusesInVersion1 owner entries (IsTrue whole) deed answer }
    ensures no_cast_forced { (owner : ℕ) (entries : List Entry) (whole : Bool) (deed : Deed) →
        All (λ entry. IsDeedIn 1 entry.deed) entries → IsDeedIn 1 deed →
        ¬ Refuses owner entries (IsTrue whole) deed (Err CastForced) }
{}
