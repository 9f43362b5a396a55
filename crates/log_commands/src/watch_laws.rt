// Laws about `watch`, which hold of the definitions alone.
ghost use Rattle.log_commands.specs.WatchAgrees.{
  HonestWatchesBreakNoRule,
  OrdersOfLogsEndAlike,
  WatchesAgreeWithAudits,
};

use auditor::files_give_one_report;
use evidence::{
    entries_give_one_graph, log_files_give_one_answer, roster_files_give_one_answer,
    survivors_are_sound,
};
use rule_language::one_reading_is_right;

/// Where `watch` isn't refused, `audit` of the same words and files isn't either, and has the same
/// status; and the last line of `watch` is what the report of `audit` says. It does nothing.
pub fn watches_agree_with_audits()
    ensures { WatchesAgreeWithAudits }
{
    entries_give_one_graph();
    files_give_one_report();
}

/// `watch` over the same logs in another order, where it is refused in neither, has the same status
/// and the same last line. It does nothing.
pub fn orders_of_logs_end_alike()
    ensures { OrdersOfLogsEndAlike }
{
    roster_files_give_one_answer();
    log_files_give_one_answer();
    entries_give_one_graph();
    survivors_are_sound();
    one_reading_is_right();
    files_give_one_report();
}

/// Over what is left of an honest place's logs `watch` by the standard rules is refused only
/// because of more than 1,024 different entries, and otherwise says in no line that a rule is
/// broken, nor does its status. It does nothing.
pub fn honest_watches_break_no_rule()
    ensures { HonestWatchesBreakNoRule }
{}
