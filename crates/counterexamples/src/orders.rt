//! A computed example of the definitions, and why three of them are as they are.

ghost use Rattle.counterexamples.specs.Example.{IsExample};
ghost use Rattle.counterexamples.specs.WrongFrontier.{ArrivalFails};
ghost use Rattle.counterexamples.specs.WrongNames.{OwnLastFails};
ghost use Rattle.counterexamples.specs.WrongStrays.{ByOthersFails};

/// A world of three machines and an entry that one of them hears late, and what is left where it
/// is lost.
pub fn three_machines()
    ensures { IsExample }
{}

/// Where machines name only their own last entry, an entry is held and no path leads to it.
pub fn naming_own_last_fails()
    ensures { OwnLastFails }
{}

/// A frontier that only drops what each new entry names keeps an entry that a held one names.
pub fn frontier_by_arrival_fails()
    ensures { ArrivalFails }
{}

/// A test of strays that forgets the entry itself lets an entry precede itself.
pub fn strays_by_others_fail()
    ensures { ByOthersFails }
{}
