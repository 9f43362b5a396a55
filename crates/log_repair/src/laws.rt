//! Laws of mending and finishing, which hold of the definitions alone. Each is the contract of a
//! function that does nothing.
ghost use Rattle.log_repair.specs.Laws.{
  HistoriesOnlyGrow,
  MendingIsAPlay,
  MendingIsShort,
  RunningMachinesAreMended,
  WorldsAreMendedInOneWay,
};

use entry_order::Knot;

/// Every world is mended by one list of steps, and finished by one.
pub fn worlds_are_mended_in_one_way<T: Knot>()
    ensures { WorldsAreMendedInOneWay T.node }
{}

/// Mending and finishing are plays of the steps that were taken.
pub fn mending_is_a_play<T: Knot>()
    ensures { MendingIsAPlay T.node }
{}

/// Mending takes at most as many steps as there are machines times sent entries.
pub fn mending_is_short<T: Knot>()
    ensures { MendingIsShort T.node }
{}

/// After mending each machine that runs has a whole log, or a full one, or misses a digest that no
/// machine that runs holds.
pub fn running_machines_are_mended<T: Knot>()
    ensures { RunningMachinesAreMended T.node }
{}

/// Each machine's history only grows.
pub fn histories_only_grow<T: Knot>()
    ensures { HistoriesOnlyGrow T.node }
{}
