// Laws about the calls of an office, which hold of the definitions alone. Each is the contract of a
// function that does nothing.
ghost use Rattle.std.specs.Prelude.{◌≡◌, ◌<◌, ◌≤◌, [], ◌∷◌, ℕ, List, Some, codes, length};
ghost use Rattle.hall_outside.specs.Files.{Files};
ghost use Rattle.office_key.specs.Endorsements.{endorsement, office_public};
ghost use Rattle.office_key.specs.Offices.{max_signatures};
ghost use Rattle.office_key.specs.declared.office.Office.{Office};
ghost use Rattle.command_line.specs.declared.status.Status.{Status};
ghost use Rattle.command_line.specs.declared.status.Status.TheVariants.{Done};
ghost use Rattle.office_commands.specs.Endorsed.{IsEndorsedAnswer};
ghost use Rattle.command_line.specs.Lines.{Answer, line_answer};
ghost use Rattle.office_commands.specs.NamedBytes.{max_signed};
ghost use Rattle.auditorium_core.specs.OfficeCalls.{AreCallsOn, Call, IsCall, IsLeftSo};
ghost use Rattle.auditorium_core.specs.OfficeCalls.{IsSignedByNumber, IsSignedInTurn, NumbersRise};
ghost use Rattle.auditorium_core.specs.Outcome.{HasDone, IsGivenBy};
ghost use Rattle.command_line.specs.Outside.{outside};
ghost use Rattle.auditorium_core.specs.Words.{IsAny, IsStill, Means, endorse};

use hall_outside::{Sink, Store};

/// What `endorse` writes `endorsed` calls good, with the public key that `office` wrote and the
/// bytes that were read. It does nothing.
pub fn endorsements_are_called_good()
    ensures { (name key file signature bytes : List ℕ) (of : Office) (answer : Answer) →
        of.next < max_signatures → length bytes ≤ max_signed →
        IsEndorsedAnswer key file signature (Some (office_public name of.seed) ∷ Some bytes
        ∷ Some (endorsement name of bytes) ∷ []) answer → answer ≡ line_answer Done (codes "good") }
{}

/// On a store that exposes its files a call of `endorse`, whatever its status, leaves them in one
/// of three states, and the signature's file differs from before only where the office's file has
/// the next number. It does nothing.
pub fn endorsements_leave_three_states()
    ensures any { (name file : List ℕ) (call : Call) → Means call.words (endorse name file) →
        IsCall IsAny call → IsLeftSo name file call.before call.after }
    ensures still { (name file : List ℕ) (call : Call) → Means call.words (endorse name file) →
        IsCall IsStill call → IsLeftSo name file call.before call.after }
    ensures signed { (name file : List ℕ) (call : Call) → Means call.words (endorse name file) →
        IsCall IsAny call → IsSignedByNumber name file call.before call.after }
{}

/// Over any calls of `office`, `endorse` and `endorsed` on one store that exposes its files, and
/// whatever else leaves the office's file as it is, the numbers that the office uses rise. So none
/// signs twice. It does nothing.
pub fn numbers_sign_once()
    ensures any { (name : List ℕ) (files : Files) (calls : List Call) →
        AreCallsOn IsAny name files calls → NumbersRise name calls }
    ensures still { (name : List ℕ) (files : Files) (calls : List Call) →
        AreCallsOn IsStill name files calls → NumbersRise name calls }
{}

/// On any store, a call of `endorse` has the office's file with the next number put in place before
/// the signature's file is begun. So no power cut leaves a signature whose number is used again. It
/// does nothing.
pub fn numbers_are_in_place_first<S: Store, K: Sink>()
    ensures any { (words : List (List ℕ)) (name file : List ℕ) (store store_after : S)
        (out out_after : K) (how : Status) → Means words (endorse name file) →
        HasDone IsAny words (IsGivenBy S.Store K.Sink store out store_after out_after)
        (outside S.Store K.Sink store out) how (outside S.Store K.Sink store_after out_after) →
        IsSignedInTurn S.Store name file store how store_after }
    ensures still { (words : List (List ℕ)) (name file : List ℕ) (store store_after : S)
        (out out_after : K) (how : Status) → Means words (endorse name file) →
        HasDone IsStill words (IsGivenBy S.Store K.Sink store out store_after out_after)
        (outside S.Store K.Sink store out) how (outside S.Store K.Sink store_after out_after) →
        IsSignedInTurn S.Store name file store how store_after }
{}
