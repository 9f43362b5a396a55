//! Laws about the supervisor's rules, which hold of the definitions alone. Each is the contract of
//! a function that does nothing.
//! function that does nothing.
ghost use Rattle.std.specs.Prelude.{◌≡◌, ◌↔◌, ℕ, List, All, Result, Err};
ghost use Rattle.entry_format.specs.declared.deed.Deed.{Deed};
ghost use Rattle.entry_format.specs.declared.entry.Entry.{Entry};
ghost use Rattle.entry_format.specs.EntryText.{IsDeedIn};
ghost use Rattle.supervisor_core.specs.declared.state.SupervisorNot.{SupervisorNot};
ghost use Rattle.supervisor_core.specs.declared.state.SupervisorNot.TheVariants.{
  OtherOverride,
  NothingCommitted,
};
ghost use Rattle.supervisor_core.specs.Table.{Refuses};
ghost use Rattle.supervisor_core.specs.VersionOne.{RefusesInVersion1};

/// Each deed has exactly one answer after each history.
pub fn each_deed_has_one_answer()
    ensures some { (owner : ℕ) (entries : List Entry) (deed : Deed) →
        (answer : Result (Unit {0}) SupervisorNot) × Refuses owner entries deed answer }
    ensures one { (owner : ℕ) (entries : List Entry) (deed : Deed)
        (answer other : Result (Unit {0}) SupervisorNot) →
        Refuses owner entries deed answer → Refuses owner entries deed other → answer ≡ other }
{}

/// Where every entry that is held and the deed are of version 1, the answer is that of version 1's
/// own rules, and the causes that came with version 2 never come.
/// rules, and the causes that came with version 2 never come.
pub fn version_1_has_its_own_answers()
    ensures same { (owner : ℕ) (entries : List Entry) (deed : Deed)
        (answer : Result (Unit {0}) SupervisorNot) →
        All (λ entry. IsDeedIn 1 entry.deed) entries → IsDeedIn 1 deed →
        Refuses owner entries deed answer ↔ RefusesInVersion1 owner entries deed answer }
    ensures no_other_override { (owner : ℕ) (entries : List Entry) (deed : Deed) →
        All (λ entry. IsDeedIn 1 entry.deed) entries → IsDeedIn 1 deed →
        ¬ Refuses owner entries deed (Err OtherOverride) }
    ensures no_nothing_committed { (owner : ℕ) (entries : List Entry) (deed : Deed) →
        All (λ entry. IsDeedIn 1 entry.deed) entries → IsDeedIn 1 deed →
        ¬ Refuses owner entries deed (Err NothingCommitted) }
{}
