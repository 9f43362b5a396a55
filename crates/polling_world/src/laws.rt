//! Laws about what machines may send, which hold of the definitions alone. Each is the contract of
//! a function that does nothing.
ghost use Rattle.std.specs.Prelude.{◌≡◌, ℕ, List, Option};
ghost use Rattle.entry_format.specs.SealedEntry.{SealedEntry};
ghost use Rattle.entry_order.specs.declared.event.Event.{Event};
ghost use Rattle.polling_world.specs.Configs.{Config};
ghost use Rattle.polling_world.specs.Playing.{ScriptsArePlayedInOneWay};
ghost use Rattle.polling_world.specs.Worlds.{TellsNext};
ghost use Rattle.polling_world.specs.Waiting.{WhatIsLeftIsToldInOneWay};

/// Of any machines one function says what each may send after any history, and no other does.
pub fn one_function_tells_what_is_sent()
    ensures some { (configs : List Config) →
        (next : ℕ → List (Event SealedEntry) → Option SealedEntry) × TellsNext configs next }
    ensures one { (configs : List Config)
        (next other : ℕ → List (Event SealedEntry) → Option SealedEntry) →
        TellsNext configs next → TellsNext configs other →
        (m : ℕ) (h : List (Event SealedEntry)) → next m h ≡ other m h }
{}

/// A script is played in one way.
pub fn scripts_are_played_in_one_way()
    ensures { ScriptsArePlayedInOneWay }
{}

/// What is left of a machine's actions is uniquely determined.
pub fn what_is_left_is_told_in_one_way()
    ensures { WhatIsLeftIsToldInOneWay }
{}
