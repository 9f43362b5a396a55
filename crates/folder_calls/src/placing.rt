// Files that are put in place together.
ghost use Rattle.std.specs.Prelude.{
  ◌≡◌,
  ◌≤◌,
  ◌+◌,
  List,
  drop,
  true,
  false,
  ℕ,
  string_bytes,
  is_ok,
  IfErr,
  OnOk,
  [],
  ◌∷◌,
  IsSome,
  Bool,
  ◌⊎◌,
};
ghost use Rattle.folder_calls.specs.World.{
  FolderMoment,
  Now,
  Goes,
  Does,
  does,
  renamed,
  name_flushed,
  file_flushed,
};
ghost use Rattle.folder_calls.specs.Placing.{
  IsOldOrNew,
  AllInPlace,
  AreBegun,
  AreFlushed,
  IsFlushedMore,
  IsFewer,
  HaveOtherNames,
  StandsReady,
  IsPlacedFirst,
};
ghost use Rattle.folder_calls.specs.Leftovers.{AreGone, AreRenamed, IsRenaming};
ghost use Rattle.folder_calls.specs.declared.begun.Begun.{Begun};

use crate::begun::Begun;
use crate::flushing::flush_name;
use crate::folder::Folder;
use crate::kinds::require_same_kind;
use crate::settling::settle;
use std::io;

/// What a call put in place stays there while a later one puts another file in place: so an office's
/// number is on the disk before the signature has its name.
pub fn numbers_come_first()
    ensures { IsPlacedFirst }
{}

/// Why files weren't put in place.
#[derive(Drop)]
pub struct Stopped {
    /// Which file it is about, counted from 0.
    pub at: usize,
    /// How many were renamed before.
    pub renamed: usize,
    /// No file was renamed, and nothing has changed.
    pub is_untouched: bool,
    pub reason: io::Error,
}

/// Whether something is seen to stand under the name.
pub(crate) fn stands<F: Folder>(folder: &mut F, name: &str) -> bool
    ensures there { result ≡ true → Now (F.moments folder.old) (λ w. IsSome (w.at name.now)) }
    ensures same { F.moments folder.new ≡ F.moments folder.old }
{
    match folder.look(name) {
        Ok(Some(_)) => true,
        _ => false,
    }
}

/// Puts the file in place, and flushes its name to the disk.
pub(crate) fn place<F: Folder>(folder: &mut F, file: &Begun) -> Result<(), Stopped>
    requires begun { Now (F.moments folder.old) (AreBegun (file.now ∷ [])) }
    requires flushed { Now (F.moments folder.old) (AreFlushed (file.now ∷ [])) }
    ensures any_moment { Goes (IsOldOrNew (file.now ∷ []))
        (F.moments folder.old) (F.moments folder.new) }
    ensures done { OnOk result (F.moments folder.new
        ≡ does (name_flushed (string_bytes file.now.name))
        (does (renamed (string_bytes file.now.other_name) (string_bytes file.now.name))
        (F.moments folder.old))) }
    ensures untouched { IfErr result (λ stopped. stopped.is_untouched ≡ true
        → F.moments folder.new ≡ F.moments folder.old) }
    ensures renamed { Now (F.moments folder.new) (IsRenaming result (file.now ∷ [])) }
    ensures stay { (others : List Begun) → Now (F.moments folder.old) (AreRenamed others)
        → Now (F.moments folder.new) (AreRenamed others) }
{
    match folder.rename(file.other_name.as_str(), file.name.as_str()) {
        Ok(()) => {}
        Err(reason) => {
            return Err(Stopped {
                at: 0,
                renamed: 0,
                is_untouched: stands(folder, file.other_name.as_str()),
                reason,
            });
        }
    }
    match flush_name(folder, file.name.as_str()) {
        Ok(()) => Ok(()),
        Err(reason) => Err(Stopped {
            at: 0,
            renamed: 1,
            is_untouched: false,
            reason,
        }),
    }
}

/// The same of the file that comes after `placed` others.
fn stopped_at(stopped: Stopped, placed: usize, is_first: bool) -> Stopped
    ensures first { result.is_untouched ≡ true → is_first ≡ true }
    ensures untouched { result.is_untouched ≡ true → stopped.is_untouched ≡ true }
    ensures renamed { result.renamed ≤ placed + stopped.renamed }
{
    Stopped {
        at: placed,
        renamed: placed.saturating_add(stopped.renamed),
        is_untouched: is_first && stopped.is_untouched,
        reason: stopped.reason,
    }
}

/// Puts the files in place in their order, each on the disk before the next.
pub fn place_all<F: Folder>(folder: &mut F, begun: &[Begun]) -> Result<(), Stopped>
    requires begun { Now (F.moments folder.old) (AreBegun begun.now) }
    requires flushed { Now (F.moments folder.old) (AreFlushed begun.now) }
    ensures any_moment { Goes (IsOldOrNew begun.now)
        (F.moments folder.old) (F.moments folder.new) }
    ensures placed { OnOk result (Now (F.moments folder.old) (λ first.
        Now (F.moments folder.new) (AllInPlace begun.now first))) }
    ensures untouched { IfErr result (λ stopped. stopped.is_untouched ≡ true
        → F.moments folder.new ≡ F.moments folder.old) }
    ensures keeps { OnOk result ((other : Begun) → Now (F.moments folder.old) (StandsReady other begun.now)
        → Now (F.moments folder.new) (StandsReady other [])) }
    ensures renamed { Now (F.moments folder.new) (IsRenaming result begun.now) }
{
    let mut placed = 0usize;
    let mut is_first = true;
    for file in begun {
        match place(folder, file) {
            Ok(()) => {}
            Err(stopped) => return Err(stopped_at(stopped, placed, is_first)),
        }
        is_first = false;
        placed = placed.saturating_add(1);
    }
    Ok(())
}

/// Gives the file its owner and permissions, and flushes its bytes to the disk. It fails where the
/// file that it replaces is of another kind.
pub(crate) fn flush<F: Folder>(folder: &mut F, file: &Begun) -> io::Result<()>
    ensures did { Does (file_flushed file.now.number) (is_ok result)
        (F.moments folder.old) (F.moments folder.new) }
{
    require_same_kind(folder, file)?;
    settle(folder, file)?;
    folder.flush_file(file.number)
}

pub(crate) fn not_flushed(at: usize, reason: io::Error) -> Stopped
    ensures { result.renamed ≡ 0 }
{
    Stopped {
        at,
        renamed: 0,
        is_untouched: false,
        reason,
    }
}

/// Flushes the bytes of the files.
pub(crate) fn flush_all<F: Folder>(folder: &mut F, begun: &[Begun]) -> Result<(), Stopped>
    ensures any_moment { Goes IsFlushedMore
        (F.moments folder.old) (F.moments folder.new) }
    ensures flushed { OnOk result (Now (F.moments folder.new) (AreFlushed begun.now)) }
    ensures none { IfErr result (λ stopped. stopped.renamed ≡ 0) }
{
    let mut at = 0usize;
    for file in begun {
        match flush(folder, file) {
            Ok(()) => {}
            Err(reason) => return Err(not_flushed(at, reason)),
        }
        at = at.saturating_add(1);
    }
    Ok(())
}

/// Removes the file under its other name, as far as the system does.
pub(crate) fn discard<F: Folder>(folder: &mut F, file: &Begun)
    requires { Now (F.moments folder.old) (λ w. HaveOtherNames (file.now ∷ [])) }
    ensures any_moment { Goes IsFewer
        (F.moments folder.old) (F.moments folder.new) }
    ensures gone { Now (F.moments folder.new)
        (AreGone (F.removal_failed folder.new) (file.now ∷ [])) }
    ensures stay { (others : List Begun)
        → Now (F.moments folder.old) (AreGone (F.removal_failed folder.old) others)
        → Now (F.moments folder.new) (AreGone (F.removal_failed folder.new) others) }
{
    let _ = folder.remove(file.other_name.as_str());
}

/// Removes the files under their other names, as far as the system does.
pub fn discard_all<F: Folder>(folder: &mut F, begun: &[Begun])
    requires { Now (F.moments folder.old) (λ w. HaveOtherNames begun.now) }
    ensures any_moment { Goes IsFewer
        (F.moments folder.old) (F.moments folder.new) }
    ensures gone { Now (F.moments folder.new)
        (AreGone (F.removal_failed folder.new) begun.now) }
    ensures stay { (others : List Begun)
        → Now (F.moments folder.old) (AreGone (F.removal_failed folder.old) others)
        → Now (F.moments folder.new) (AreGone (F.removal_failed folder.new) others) }
{
    for file in begun {
        discard(folder, file);
    }
}

/// The files after the first `renamed` ones.
pub(crate) fn left_after(begun: &[Begun], renamed: usize) -> &[Begun]
    ensures { result.now ≡ drop renamed begun.now }
{
    &begun[renamed.min(begun.len())..]
}

fn flush_and_place<F: Folder>(folder: &mut F, begun: &[Begun]) -> Result<(), Stopped>
    requires begun { Now (F.moments folder.old) (AreBegun begun.now) }
    ensures any_moment { Goes (IsOldOrNew begun.now)
        (F.moments folder.old) (F.moments folder.new) }
    ensures placed { OnOk result (Now (F.moments folder.old) (λ first.
        Now (F.moments folder.new) (AllInPlace begun.now first))) }
    ensures renamed { Now (F.moments folder.new) (IsRenaming result begun.now) }
{
    flush_all(folder, begun)?;
    place_all(folder, begun)
}

/// Flushes the files and puts them in place in their order, each on the disk before the next. Where
/// a call fails those that aren't in place are removed.
pub fn finish_files<F: Folder>(folder: &mut F, begun: &[Begun]) -> Result<(), Stopped>
    requires begun { Now (F.moments folder.old) (AreBegun begun.now) }
    ensures any_moment { Goes (IsOldOrNew begun.now)
        (F.moments folder.old) (F.moments folder.new) }
    ensures placed { OnOk result (Now (F.moments folder.old) (λ first.
        Now (F.moments folder.new) (AllInPlace begun.now first))) }
    ensures gone { Now (F.moments folder.new)
        (AreGone (F.removal_failed folder.new) begun.now) }
{
    match flush_and_place(folder, begun) {
        Ok(()) => Ok(()),
        Err(stopped) => {
            discard_all(folder, left_after(begun, stopped.renamed));
            Err(stopped)
        }
    }
}
