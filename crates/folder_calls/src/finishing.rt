// Files that are put in place, be they a set or not.
ghost use Rattle.std.specs.Prelude.{◌≡◌, true, false, ◌∷◌, OnOk, IfNone, IfSome};
ghost use Rattle.folder_calls.specs.World.{Now, Goes};
ghost use Rattle.folder_calls.specs.Placing.{AllInPlace, AreBegun};
ghost use Rattle.folder_calls.specs.Sets.{IsPlacing, marks_set};
ghost use Rattle.folder_calls.specs.Leftovers.{AreGone};

use crate::begun::Begun;
use crate::folder::Folder;
use crate::placing::{Stopped, finish_files};
use crate::sets::finish_set;

/// The mark and the other files, where several files are a set.
fn set_of(begun: &[Begun]) -> Option<(&Begun, &[Begun])>
    ensures none { IfNone result (marks_set begun.now ≡ false) }
    ensures some { IfSome result (λ set. (begun.now ≡ (set.0).now ∷ (set.1).now)
        × (marks_set begun.now ≡ true)) }
{
    match begun.split_first() {
        Some((mark, rest)) => {
            if mark.is_mark && !rest.is_empty() {
                return Some((mark, rest));
            }
            None
        }
        None => None,
    }
}

/// The same of the file's place among all of a set, of which the mark is the first.
fn in_set(stopped: Stopped, others: usize) -> Stopped {
    Stopped {
        at: if stopped.at < others {
            stopped.at.saturating_add(1)
        } else {
            0
        },
        renamed: stopped.renamed,
        is_untouched: stopped.is_untouched,
        reason: stopped.reason,
    }
}

/// Puts the files in place, in the order in which they were begun. Of a set the mark is put in place
/// last; what it replaces has the name `aside` meanwhile. Where a call fails, the files that aren't
/// in place are removed.
#[tactic(auto, using(crate::proofs::Wholes::placing_files, crate::proofs::Wholes::placing_set))]
pub fn finish<F: Folder>(folder: &mut F, begun: &[Begun], aside: &str) -> Result<(), Stopped>
    requires { Now (F.moments folder.old) (AreBegun begun.now) }
    ensures any_moment { Goes (IsPlacing begun.now)
        (F.moments folder.old) (F.moments folder.new) }
    ensures placed { OnOk result (Now (F.moments folder.old) (λ first.
        Now (F.moments folder.new) (AllInPlace begun.now first))) }
    ensures gone { Now (F.moments folder.new)
        (AreGone (F.removal_failed folder.new) begun.now) }
{
    match set_of(begun) {
        Some((mark, rest)) => match finish_set(folder, mark, rest, aside) {
            Ok(()) => Ok(()),
            Err(stopped) => Err(in_set(stopped, rest.len())),
        },
        None => finish_files(folder, begun),
    }
}
