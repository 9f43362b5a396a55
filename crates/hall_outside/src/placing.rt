// Files that were begun, put in place or given up.
ghost use Rattle.std.specs.Prelude.{◌≡◌, [], OnOk, OnErr};
ghost use Rattle.folder_calls.specs.World.{Now, Goes};
ghost use Rattle.folder_calls.specs.Placing.{StandsInOrder, IsFewer, HaveOtherNames, shown_files};
ghost use Rattle.folder_calls.specs.Sets.{IsPlacing};
ghost use Rattle.folder_calls.specs.Leftovers.{AreGone};

use crate::begun_files::BegunFiles;
use crate::failure::Failure;
use folder_calls::{Begun, Folder, discard_all, finish};
use std::alloc::Global;
use std::io;

/// Why files weren't put in place, and which of them it is about.
#[derive(Drop)]
pub(crate) struct Unplaced {
    at: usize,
    reason: io::Error,
}

impl Unplaced {
    /// The failure, for a line to the user.
    pub fn failure(self, alloc: Global, files: &BegunFiles) -> Option<Failure> {
        let name = match files.begun.get(self.at) {
            Some(file) => file.name.as_str(),
            None => "files",
        };
        Failure::new(alloc, "writing", name, self.reason)
    }
}

/// Puts the files in place, and closes them.
fn finish_begun<F: Folder>(folder: &mut F, begun: &[Begun], aside: &str) -> Result<(), Unplaced>
    requires { Now (F.moments folder.old) (StandsInOrder begun.now) }
    ensures placed { OnOk result (shown_files [] (F.moments folder.new)
        ≡ shown_files begun.now (F.moments folder.old)) }
    ensures shows { shown_files begun.now (F.moments folder.new)
        ≡ shown_files begun.now (F.moments folder.old) }
    ensures any_moment { Goes (IsPlacing begun.now)
        (F.moments folder.old) (F.moments folder.new) }
    ensures gone { Now (F.moments folder.new)
        (AreGone (F.removal_failed folder.new) begun.now) }
{
    match finish(folder, begun, aside) {
        Ok(()) => {
            folder.close();
            Ok(())
        }
        Err(stopped) => {
            folder.close();
            Err(Unplaced {
                at: stopped.at,
                reason: stopped.reason,
            })
        }
    }
}

/// Puts the files in place that were begun, and forgets them. Where that fails they are kept.
pub(crate) fn place<F: Folder>(folder: &mut F, files: &mut BegunFiles) -> Result<(), Unplaced>
    requires { Now (F.moments folder.old) (StandsInOrder files.old.begun.items) }
    ensures ready { OnOk result (Now (F.moments folder.new) (StandsInOrder files.new.begun.items)) }
    ensures none { OnOk result (files.new.begun.items ≡ []) }
    ensures kept { OnErr result (files.new.begun ≡ files.old.begun) }
    ensures shows { shown_files files.new.begun.items (F.moments folder.new)
        ≡ shown_files files.old.begun.items (F.moments folder.old) }
    ensures any_moment { Goes (IsPlacing files.old.begun.items)
        (F.moments folder.old) (F.moments folder.new) }
    ensures gone { Now (F.moments folder.new)
        (AreGone (F.removal_failed folder.new) files.old.begun.items) }
{
    match files.name_aside() {
        Ok(()) => place_named(folder, files),
        Err(refused) => {
            remove_all(folder, files.begun.as_slice());
            Err(Unplaced {
                at: 0,
                reason: io::Error::from(refused),
            })
        }
    }
}

/// As `place`, where the name that a mark has meanwhile is there.
fn place_named<F: Folder>(folder: &mut F, files: &mut BegunFiles) -> Result<(), Unplaced>
    requires { Now (F.moments folder.old) (StandsInOrder files.old.begun.items) }
    ensures ready { OnOk result (Now (F.moments folder.new) (StandsInOrder files.new.begun.items)) }
    ensures none { OnOk result (files.new.begun.items ≡ []) }
    ensures kept { OnErr result (files.new.begun ≡ files.old.begun) }
    ensures shows { shown_files files.new.begun.items (F.moments folder.new)
        ≡ shown_files files.old.begun.items (F.moments folder.old) }
    ensures any_moment { Goes (IsPlacing files.old.begun.items)
        (F.moments folder.old) (F.moments folder.new) }
    ensures gone { Now (F.moments folder.new)
        (AreGone (F.removal_failed folder.new) files.old.begun.items) }
{
    finish_begun(folder, files.begun.as_slice(), files.aside.as_str())?;
    files.clear();
    Ok(())
}

/// Removes the files, and closes them.
fn remove_all<F: Folder>(folder: &mut F, begun: &[Begun])
    requires { Now (F.moments folder.old) (λ w. HaveOtherNames begun.now) }
    ensures any_moment { Goes IsFewer (F.moments folder.old) (F.moments folder.new) }
    ensures gone { Now (F.moments folder.new)
        (AreGone (F.removal_failed folder.new) begun.now) }
{
    discard_all(folder, begun);
    folder.close();
}

/// Gives all files up, and removes them.
pub(crate) fn discard<F: Folder>(folder: &mut F, files: &mut BegunFiles)
    requires { Now (F.moments folder.old) (λ w. HaveOtherNames files.old.begun.items) }
    ensures gone { Now (F.moments folder.new)
        (AreGone (F.removal_failed folder.new) files.old.begun.items) }
{
    remove_all(folder, files.begun.as_slice());
    files.clear();
}
