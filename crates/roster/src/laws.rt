//! Laws about rosters' texts. Each is the contract of a function that does nothing.
ghost use Rattle.std.specs.Prelude.{◌≡◌, ℕ, List, Result};
ghost use Rattle.roster.specs.RosterText.{IsRosterText};
ghost use Rattle.roster.specs.Reading.{Reads};
ghost use Rattle.roster.specs.declared.post.Post.{Post};
ghost use Rattle.roster.specs.declared.rosters.Roster.{Roster};
ghost use Rattle.roster.specs.declared.faults.RosterFault.{RosterFault};

/// A text has one roster.
pub fn texts_have_one_roster()
    ensures { (text : List ℕ) (machines others : List Post) →
        IsRosterText text machines → IsRosterText text others → machines ≡ others }
{}

/// At most one reading of a text is right.
pub fn one_reading_is_right()
    ensures { (text : List ℕ) (answer other : Result Roster RosterFault) →
        Reads text answer → Reads text other → answer ≡ other }
{}
