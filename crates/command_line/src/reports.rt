// What the words and the statuses of a report mean.
ghost use Rattle.std.specs.Prelude.{◌≡◌};
ghost use Rattle.auditor.specs.Sources.{source_of};
ghost use Rattle.command_line.specs.Reports.{source_named, status_by};

use crate::status::Status;
use auditor::{Outcome, RulesFrom};

/// The rules that a word of the command line names.
pub fn rules_from(word: &str) -> RulesFrom<'_>
    ensures { source_of result ≡ source_named word.now }
{
    if word == "standard" {
        RulesFrom::Standard
    } else {
        RulesFrom::File(word)
    }
}

/// The status of what a report comes to.
pub fn status_by(outcome: Outcome) -> Status
    ensures { result ≡ status_by outcome }
{
    match outcome {
        Outcome::Kept => Status::Done,
        Outcome::Findings => Status::Findings,
        Outcome::Unsettled => Status::Unsettled,
        Outcome::Broken => Status::Broken,
    }
}
