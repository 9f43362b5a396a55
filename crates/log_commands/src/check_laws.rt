// Laws about `check`, which hold of the definitions alone.
ghost use Rattle.log_commands.specs.CheckAgrees.{ChecksAgreeWithAudits, ChecksSayNoMore};

use audit_proof::{one_text_is_canonical, proofs_are_read_in_one_way};
use evidence::{
    entries_give_one_graph, log_files_give_one_answer, roster_files_give_one_answer,
    survivors_are_sound,
};
use rule_language::one_reading_is_right as rules_are_read_in_one_way;

/// `check` by the proof that `prove` writes for the same logs answers with the verdicts of `audit`,
/// rule for rule. It does nothing.
pub fn checks_agree_with_audits()
    ensures { ChecksAgreeWithAudits }
{
    roster_files_give_one_answer();
    log_files_give_one_answer();
    entries_give_one_graph();
    survivors_are_sound();
    one_text_is_canonical();
    proofs_are_read_in_one_way();
    rules_are_read_in_one_way();
}

/// `check` by any proof, whoever made it, says of each rule what `audit` says, or that it is
/// unsettled. It does nothing.
pub fn checks_say_no_more()
    ensures { ChecksSayNoMore }
{
    roster_files_give_one_answer();
    log_files_give_one_answer();
    entries_give_one_graph();
    survivors_are_sound();
    rules_are_read_in_one_way();
}
