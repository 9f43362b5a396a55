//! Laws about demonstrations, which hold of the definitions alone. Each is the contract of a
//! function that does nothing.
ghost use Rattle.demonstration.specs.OneShown.{ScriptsAreShownInOneWay, ScriptsAreRefusedInOneWay};
ghost use Rattle.demonstration.specs.OneShown.{ScriptsAreShownOrRefused};

use auditor::files_give_one_report;
use polling_world::scripts_are_played_in_one_way;

/// A script and a session show one thing, or are refused in one way, and not both.
pub fn scripts_are_shown_in_one_way()
    ensures shown { ScriptsAreShownInOneWay }
    ensures refused { ScriptsAreRefusedInOneWay }
    ensures either { ScriptsAreShownOrRefused }
{
    scripts_are_played_in_one_way();
    files_give_one_report();
}
