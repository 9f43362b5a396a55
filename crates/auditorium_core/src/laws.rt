// Laws about answers, which hold of the definitions alone.
ghost use Rattle.std.specs.Prelude.{◌≡◌, ℕ, List, Option, Some};
ghost use Rattle.hall_outside.specs.Files.{Files};
ghost use Rattle.evidence.specs.NamedFiles.{OnExposed};
ghost use Rattle.command_line.specs.declared.status.Status.{Status};
ghost use Rattle.command_line.specs.Lines.{Answer};
ghost use Rattle.auditorium_core.specs.Words.{run, IsAny, IsStill, Means};
ghost use Rattle.auditorium_core.specs.Answer.{AnswersWords, HasItsWords};
ghost use Rattle.auditorium_core.specs.Outcome.{HasDone, IsGivenBy, IsGivenSomehow};
ghost use Rattle.command_line.specs.Outside.{Outside, outside};
ghost use Rattle.auditorium_core.specs.Complete.{IsComplete, IsCompleteAsRead};
ghost use Rattle.auditorium_core.specs.OneRun.{HistoriesDetermineRuns, WrittenFilesDetermineAnswers};
ghost use Rattle.auditorium_core.specs.ReadBack.{
  PlaysAreReadBack,
  RepairsAreReadBack,
  RunsAreReadBack,
};

use audit_proof::{one_text_is_canonical, proofs_are_read_in_one_way};
use auditor::files_give_one_report;
use demonstration::scripts_are_shown_in_one_way;
use election_script::one_reading_is_right;
use evidence::{
    entries_give_one_graph, log_files_give_one_answer, roster_files_give_one_answer,
    survivors_are_sound,
};
use hall_outside::{Sink, Store};
use log_files::bytes_say_one_log;
use polling_world::{scripts_are_played_in_one_way, what_is_left_is_told_in_one_way};
use rule_language::one_reading_is_right as rules_are_read_in_one_way;

/// Without threads words and files have at most one answer. What is lost between threads is not
/// determined by a script, so `run` may have several: `histories_determine_answers` says how far
/// they differ. It does nothing.
pub fn one_answer_is_right()
    ensures { (words : List (List ℕ)) (files : Files) (answer other : Answer) →
        AnswersWords IsStill words (OnExposed (Some files)) answer →
        AnswersWords IsStill words (OnExposed (Some files)) other → answer ≡ other }
{
    bytes_say_one_log();
    one_reading_is_right();
    scripts_are_played_in_one_way();
    what_is_left_is_told_in_one_way();
    roster_files_give_one_answer();
    log_files_give_one_answer();
    entries_give_one_graph();
    survivors_are_sound();
    one_text_is_canonical();
    proofs_are_read_in_one_way();
    rules_are_read_in_one_way();
    files_give_one_report();
    scripts_are_shown_in_one_way();
}

/// With threads, too, an answer is determined but for the causes of losses, once it is known what
/// each machine of a run did: by the histories, and so by the logs that were written. It does
/// nothing.
pub fn histories_determine_answers()
    ensures histories { HistoriesDetermineRuns }
    ensures files { WrittenFilesDetermineAnswers }
{
    bytes_say_one_log();
    one_reading_is_right();
    scripts_are_played_in_one_way();
    what_is_left_is_told_in_one_way();
    roster_files_give_one_answer();
    log_files_give_one_answer();
    entries_give_one_graph();
    survivors_are_sound();
    one_text_is_canonical();
    proofs_are_read_in_one_way();
    rules_are_read_in_one_way();
    files_give_one_report();
    scripts_are_shown_in_one_way();
}

/// Where the words aren't those of a run, an answer is right without threads exactly where it is
/// right with them. It does nothing.
pub fn only_runs_need_threads()
    ensures any { (words : List (List ℕ)) (told : Option Files) (answer : Answer) →
        ((script prefix : List ℕ) → ¬ Means words (run script prefix)) →
        AnswersWords IsStill words (OnExposed told) answer →
        AnswersWords IsAny words (OnExposed told) answer }
    ensures still { (words : List (List ℕ)) (told : Option Files) (answer : Answer) →
        ((script prefix : List ℕ) → ¬ Means words (run script prefix)) →
        AnswersWords IsAny words (OnExposed told) answer →
        AnswersWords IsStill words (OnExposed told) answer }
{}

/// Over any files, the status of an answer says of which words it is the answer. It does nothing.
pub fn statuses_have_their_words()
    ensures any { (words : List (List ℕ)) (told : Option Files) (answer : Answer) →
        AnswersWords IsAny words (OnExposed told) answer → HasItsWords IsAny words answer }
    ensures still { (words : List (List ℕ)) (told : Option Files) (answer : Answer) →
        AnswersWords IsStill words (OnExposed told) answer → HasItsWords IsStill words answer }
{}

/// What the program has done for files as they were read it has done over the exposed files. So the
/// other laws hold of it. It does nothing.
pub fn answers_are_over_exposed_files<S: Store, K: Sink>()
    ensures any { (words : List (List ℕ)) (store store_after : S) (out out_after : K)
        (how : Status) →
        HasDone IsAny words (IsGivenBy S.Store K.Sink store out store_after out_after)
        (outside S.Store K.Sink store out) how (outside S.Store K.Sink store_after out_after) →
        HasDone IsAny words (IsGivenSomehow (outside S.Store K.Sink store out))
        (outside S.Store K.Sink store out) how (outside S.Store K.Sink store_after out_after) }
    ensures still { (words : List (List ℕ)) (store store_after : S) (out out_after : K)
        (how : Status) →
        HasDone IsStill words (IsGivenBy S.Store K.Sink store out store_after out_after)
        (outside S.Store K.Sink store out) how (outside S.Store K.Sink store_after out_after) →
        HasDone IsStill words (IsGivenSomehow (outside S.Store K.Sink store out))
        (outside S.Store K.Sink store out) how (outside S.Store K.Sink store_after out_after) }
{}

/// What the program has done is complete, by whatever calls it was given: where no count of
/// faults rose, a command over files that are all accepted is carried out, or the program ran out
/// of memory. It does nothing.
pub fn answers_are_complete()
    ensures any { (words : List (List ℕ)) (old : Outside) (how : Status) (new : Outside) →
        HasDone IsAny words (IsGivenSomehow old) old how new → IsComplete IsAny words old how new }
    ensures still { (words : List (List ℕ)) (old : Outside) (how : Status) (new : Outside) →
        HasDone IsStill words (IsGivenSomehow old) old how new →
        IsComplete IsStill words old how new }
{
    bytes_say_one_log();
    one_reading_is_right();
    scripts_are_played_in_one_way();
    what_is_left_is_told_in_one_way();
    roster_files_give_one_answer();
    log_files_give_one_answer();
    entries_give_one_graph();
    survivors_are_sound();
    one_text_is_canonical();
    proofs_are_read_in_one_way();
    rules_are_read_in_one_way();
    files_give_one_report();
    scripts_are_shown_in_one_way();
}

/// The same of what was read, whether or not the store exposes its files: so it holds of the
/// program as it is shipped. It does nothing.
pub fn answers_as_read_are_complete<S: Store, K: Sink>()
    ensures any { (words : List (List ℕ)) (store store_after : S) (out out_after : K)
        (how : Status) →
        HasDone IsAny words (IsGivenBy S.Store K.Sink store out store_after out_after)
        (outside S.Store K.Sink store out) how (outside S.Store K.Sink store_after out_after) →
        IsCompleteAsRead S.Store K.Sink IsAny words store out how store_after out_after }
    ensures still { (words : List (List ℕ)) (store store_after : S) (out out_after : K)
        (how : Status) →
        HasDone IsStill words (IsGivenBy S.Store K.Sink store out store_after out_after)
        (outside S.Store K.Sink store out) how (outside S.Store K.Sink store_after out_after) →
        IsCompleteAsRead S.Store K.Sink IsStill words store out how store_after out_after }
{
    bytes_say_one_log();
    one_reading_is_right();
    scripts_are_played_in_one_way();
    what_is_left_is_told_in_one_way();
    roster_files_give_one_answer();
    log_files_give_one_answer();
    entries_give_one_graph();
    survivors_are_sound();
    one_text_is_canonical();
    proofs_are_read_in_one_way();
    rules_are_read_in_one_way();
    files_give_one_report();
    scripts_are_shown_in_one_way();
}

/// Where different entries have different digests, `audit` by the standard rules over exactly the
/// files that a play, a repair or a run wrote, read back by their names, says of each rule that it is kept,
/// with the status `Done`, and `order` says what the machines held. It does nothing.
pub fn written_files_are_read_back()
    ensures play { PlaysAreReadBack }
    ensures repair { RepairsAreReadBack }
    ensures run { RunsAreReadBack }
{}
