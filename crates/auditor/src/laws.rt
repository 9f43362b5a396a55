//! Laws of audits, which hold of the definitions alone. Each is the contract of a function that
//! does nothing.
ghost use Rattle.auditor.specs.OneReport.{FilesGiveOneReport};
ghost use Rattle.auditor.specs.PlainRules.{PlainRules};

use evidence::{entries_give_one_graph, log_files_give_one_answer, roster_files_give_one_answer};
use rule_language::one_reading_is_right;

/// Files give at most one answer: a report with one text, or one refusal.
pub fn files_give_one_report()
    ensures { FilesGiveOneReport }
{
    roster_files_give_one_answer();
    one_reading_is_right();
    log_files_give_one_answer();
    entries_give_one_graph();
}

/// A rule that is known to be true of survivors holds in every completion of what they say, and one
/// that is known to be false in none.
pub fn plain_rules()
    ensures { PlainRules }
{}
