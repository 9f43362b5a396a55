// Files that belong together: the first is the mark of the set.
ghost use Rattle.std.specs.Prelude.{
  ◌≡◌,
  ◌≤◌,
  ◌+◌,
  ◌++◌,
  true,
  false,
  List,
  OnOk,
  IfErr,
  [],
  ◌∷◌,
  take,
  string_bytes,
  None,
};
ghost use Rattle.folder_calls.specs.World.{Now, Goes, Does, renamed};
ghost use Rattle.folder_calls.specs.Placing.{
  AllInPlace,
  AreBegun,
  AreFlushed,
  IsFlushedMore,
  IsFewer,
  HaveOtherNames,
  is_other as is_other_name,
};
ghost use Rattle.folder_calls.specs.Sets.{IsWholeSet, IsGone, IsNeverMixed};
ghost use Rattle.folder_calls.specs.Asides.{AreElsewhere};
ghost use Rattle.folder_calls.specs.Leftovers.{AreGone, AreRenamed, IsRenaming};
ghost use Rattle.folder_calls.specs.declared.begun.Begun.{Begun};

use crate::begun::Begun;
use crate::flushing::flush_name;
use crate::folder::Folder;
use crate::names::is_other;
use crate::placing::{
    Stopped, discard, discard_all, flush, flush_all, left_after, place, place_all,
};
use std::io::{self, ErrorKind};

/// Where a crash leaves a mark, it leaves all others old, or all others new.
pub fn sets_are_never_mixed()
    ensures { IsNeverMixed }
{}

/// Whether no file of these is written under the name.
fn are_elsewhere(aside: &str, begun: &[Begun]) -> bool
    ensures { result ≡ true → AreElsewhere aside.now begun.now }
{
    for file in begun {
        if file.other_name.as_str() == aside {
            return false;
        }
    }
    true
}

/// Whether the name is one that is kept for files that aren't in place, and none of these has it.
fn is_free(aside: &str, mark: &Begun, rest: &[Begun]) -> bool
    ensures other { result ≡ true → is_other_name aside.now ≡ true }
    ensures elsewhere { result ≡ true → AreElsewhere aside.now (mark.now ∷ rest.now) }
{
    if mark.other_name.as_str() == aside {
        return false;
    }
    is_other(aside) && are_elsewhere(aside, rest)
}

/// A failure with the mark, before any file was renamed.
fn at_mark(others: usize, reason: io::Error) -> Stopped
    ensures { result.renamed ≡ 0 }
{
    Stopped {
        at: others,
        renamed: 0,
        is_untouched: false,
        reason,
    }
}

/// The same of the mark, which comes after the others.
fn after_others(failed: Stopped, others: usize) -> Stopped
    ensures untouched { result.is_untouched ≡ false }
    ensures renamed { result.renamed ≤ others + failed.renamed }
{
    Stopped {
        at: others,
        renamed: others.saturating_add(failed.renamed),
        is_untouched: false,
        reason: failed.reason,
    }
}

/// Puts the other files in place, and the mark after them.
fn place_set<F: Folder>(folder: &mut F, mark: &Begun, rest: &[Begun]) -> Result<(), Stopped>
    requires begun { Now (F.moments folder.old) (AreBegun (mark.now ∷ rest.now)) }
    requires flushed { Now (F.moments folder.old) (AreFlushed (mark.now ∷ rest.now)) }
    requires gone { Now (F.moments folder.old) (IsGone (string_bytes mark.now.name)) }
    ensures any_moment { Goes (IsWholeSet mark.now rest.now)
        (F.moments folder.old) (F.moments folder.new) }
    ensures placed { OnOk result (Now (F.moments folder.old) (λ first.
        Now (F.moments folder.new) (AllInPlace (mark.now ∷ rest.now) first))) }
    ensures untouched { IfErr result (λ stopped. stopped.is_untouched ≡ true
        → F.moments folder.new ≡ F.moments folder.old) }
    ensures renamed { Now (F.moments folder.new)
        (IsRenaming result (rest.now ++ mark.now ∷ [])) }
{
    place_all(folder, rest)?;
    match place(folder, mark) {
        Ok(()) => Ok(()),
        Err(failed) => Err(after_others(failed, rest.len())),
    }
}

/// Puts a set in place where nothing has the mark's name.
fn place_new<F: Folder>(folder: &mut F, mark: &Begun, rest: &[Begun]) -> Result<(), Stopped>
    requires begun { Now (F.moments folder.old) (AreBegun (mark.now ∷ rest.now)) }
    requires flushed { Now (F.moments folder.old) (AreFlushed (mark.now ∷ rest.now)) }
    requires free { Now (F.moments folder.old) (λ w. w.at (string_bytes mark.now.name) ≡ None) }
    ensures any_moment { Goes (IsWholeSet mark.now rest.now)
        (F.moments folder.old) (F.moments folder.new) }
    ensures placed { OnOk result (Now (F.moments folder.old) (λ first.
        Now (F.moments folder.new) (AllInPlace (mark.now ∷ rest.now) first))) }
    ensures renamed { Now (F.moments folder.new)
        (IsRenaming result (rest.now ++ mark.now ∷ [])) }
{
    match flush_name(folder, mark.name.as_str()) {
        Ok(()) => {}
        Err(reason) => return Err(at_mark(rest.len(), reason)),
    }
    place_set(folder, mark, rest)
}

/// Gives the mark that was set aside its name back, as far as the system does.
fn restore<F: Folder>(folder: &mut F, mark: &Begun, aside: &str)
    ensures { Does (renamed aside.now (string_bytes mark.now.name)) false
        (F.moments folder.old) (F.moments folder.new) }
{
    let _ = folder.rename(aside, mark.name.as_str());
}

/// Puts a set in place of another, whose mark is set aside first. The old mark gets its name back
/// where no file was renamed.
fn replace<F: Folder>(
    folder: &mut F,
    mark: &Begun,
    rest: &[Begun],
    aside: &str,
) -> Result<(), Stopped>
    requires begun { Now (F.moments folder.old) (AreBegun (mark.now ∷ rest.now)) }
    requires flushed { Now (F.moments folder.old) (AreFlushed (mark.now ∷ rest.now)) }
    requires other { is_other_name aside.now ≡ true }
    requires elsewhere { AreElsewhere aside.now (mark.now ∷ rest.now) }
    ensures any_moment { Goes (IsWholeSet mark.now rest.now)
        (F.moments folder.old) (F.moments folder.new) }
    ensures placed { OnOk result (Now (F.moments folder.old) (λ first.
        Now (F.moments folder.new) (AllInPlace (mark.now ∷ rest.now) first))) }
    ensures renamed { Now (F.moments folder.new)
        (IsRenaming result (rest.now ++ mark.now ∷ [])) }
{
    match folder.rename(mark.name.as_str(), aside) {
        Ok(()) => {}
        Err(reason) => return Err(at_mark(rest.len(), reason)),
    }
    match flush_name(folder, mark.name.as_str()) {
        Ok(()) => {}
        Err(reason) => {
            restore(folder, mark, aside);
            return Err(at_mark(rest.len(), reason));
        }
    }
    match place_set(folder, mark, rest) {
        Ok(()) => Ok(()),
        Err(stopped) => {
            if stopped.is_untouched {
                restore(folder, mark, aside);
                return Err(stopped);
            }
            Err(stopped)
        }
    }
}

/// Puts a set in place whose files are flushed.
fn place_flushed<F: Folder>(
    folder: &mut F,
    mark: &Begun,
    rest: &[Begun],
    aside: &str,
) -> Result<(), Stopped>
    requires begun { Now (F.moments folder.old) (AreBegun (mark.now ∷ rest.now)) }
    requires flushed { Now (F.moments folder.old) (AreFlushed (mark.now ∷ rest.now)) }
    requires other { is_other_name aside.now ≡ true }
    requires elsewhere { AreElsewhere aside.now (mark.now ∷ rest.now) }
    ensures any_moment { Goes (IsWholeSet mark.now rest.now)
        (F.moments folder.old) (F.moments folder.new) }
    ensures placed { OnOk result (Now (F.moments folder.old) (λ first.
        Now (F.moments folder.new) (AllInPlace (mark.now ∷ rest.now) first))) }
    ensures renamed { Now (F.moments folder.new)
        (IsRenaming result (rest.now ++ mark.now ∷ [])) }
{
    match folder.look(mark.name.as_str()) {
        Ok(Some(_)) => replace(folder, mark, rest, aside),
        Ok(None) => place_new(folder, mark, rest),
        Err(reason) => Err(at_mark(rest.len(), reason)),
    }
}

/// Flushes the files of a set and puts them in place, the mark last.
fn flush_and_place_set<F: Folder>(
    folder: &mut F,
    mark: &Begun,
    rest: &[Begun],
    aside: &str,
) -> Result<(), Stopped>
    requires begun { Now (F.moments folder.old) (AreBegun (mark.now ∷ rest.now)) }
    requires other { is_other_name aside.now ≡ true }
    requires elsewhere { AreElsewhere aside.now (mark.now ∷ rest.now) }
    ensures any_moment { Goes (IsWholeSet mark.now rest.now)
        (F.moments folder.old) (F.moments folder.new) }
    ensures placed { OnOk result (Now (F.moments folder.old) (λ first.
        Now (F.moments folder.new) (AllInPlace (mark.now ∷ rest.now) first))) }
    ensures renamed { Now (F.moments folder.new)
        (IsRenaming result (rest.now ++ mark.now ∷ [])) }
{
    flush_set(folder, mark, rest)?;
    place_flushed(folder, mark, rest, aside)
}

/// Flushes the bytes of the files of a set.
fn flush_set<F: Folder>(folder: &mut F, mark: &Begun, rest: &[Begun]) -> Result<(), Stopped>
    ensures any_moment { Goes IsFlushedMore
        (F.moments folder.old) (F.moments folder.new) }
    ensures flushed { OnOk result
        (Now (F.moments folder.new) (AreFlushed (mark.now ∷ rest.now))) }
    ensures none { IfErr result (λ stopped. stopped.renamed ≡ 0) }
{
    flush_all(folder, rest)?;
    match flush(folder, mark) {
        Ok(()) => Ok(()),
        Err(reason) => Err(at_mark(rest.len(), reason)),
    }
}

/// Removes what stands under a name that is kept for files that aren't in place, as far as the
/// system does.
fn clear<F: Folder>(folder: &mut F, name: &str, is_there: bool)
    requires { is_other_name name.now ≡ true }
    ensures any_moment { Goes IsFewer (F.moments folder.old) (F.moments folder.new) }
    ensures stay { (others : List Begun) → Now (F.moments folder.old) (AreRenamed others)
        → Now (F.moments folder.new) (AreRenamed others) }
{
    if is_there {
        let _ = folder.remove(name);
    }
}

/// Removes the files of a set that aren't in place, of which the first `renamed` ones are.
fn give_up<F: Folder>(folder: &mut F, mark: &Begun, rest: &[Begun], renamed: usize)
    requires others { Now (F.moments folder.old) (λ w. HaveOtherNames (mark.now ∷ rest.now)) }
    requires renamed { Now (F.moments folder.old)
        (AreRenamed (take renamed (rest.now ++ mark.now ∷ []))) }
    ensures any_moment { Goes IsFewer (F.moments folder.old) (F.moments folder.new) }
    ensures gone { Now (F.moments folder.new)
        (AreGone (F.removal_failed folder.new) (mark.now ∷ rest.now)) }
{
    discard_all(folder, left_after(rest, renamed));
    if renamed <= rest.len() {
        discard(folder, mark);
    }
}

/// Puts a set in place: the mark's name is taken away first and placed last, so that the set is old,
/// or new, or has no mark. What is replaced has the name `aside` meanwhile. Where a call fails the
/// files that aren't in place are removed, and the old mark gets its name back where none is.
pub fn finish_set<F: Folder>(
    folder: &mut F,
    mark: &Begun,
    rest: &[Begun],
    aside: &str,
) -> Result<(), Stopped>
    requires { Now (F.moments folder.old) (AreBegun (mark.now ∷ rest.now)) }
    ensures any_moment { Goes (IsWholeSet mark.now rest.now)
        (F.moments folder.old) (F.moments folder.new) }
    ensures placed { OnOk result (Now (F.moments folder.old) (λ first.
        Now (F.moments folder.new) (AllInPlace (mark.now ∷ rest.now) first))) }
    ensures gone { Now (F.moments folder.new)
        (AreGone (F.removal_failed folder.new) (mark.now ∷ rest.now)) }
{
    if !is_free(aside, mark, rest) {
        give_up(folder, mark, rest, 0);
        return Err(at_mark(rest.len(), io::Error::from(ErrorKind::AlreadyExists)));
    }
    match flush_and_place_set(folder, mark, rest, aside) {
        Ok(()) => {
            clear(folder, aside, true);
            Ok(())
        }
        Err(stopped) => {
            clear(folder, aside, stopped.renamed > 0);
            give_up(folder, mark, rest, stopped.renamed);
            Err(stopped)
        }
    }
}
