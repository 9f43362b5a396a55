// Names that are flushed to the disk.
ghost use Rattle.std.specs.Prelude.{is_ok};
ghost use Rattle.folder_calls.specs.World.{Does, name_flushed};

use crate::folder::Folder;
use std::io::{self, ErrorKind};

/// Flushes the folder that the name is in to the disk, where this user may read it and the file
/// system can; elsewhere the name is taken to be there.
pub(crate) fn flush_name<F: Folder>(folder: &mut F, name: &str) -> io::Result<()>
    ensures did { Does (name_flushed name.now) (is_ok result)
        (F.moments folder.old) (F.moments folder.new) }
{
    match folder.open_folder(name) {
        Ok(()) => flush_open(folder, name),
        Err(error) if error.kind() == ErrorKind::PermissionDenied => folder.take_as_flushed(name),
        Err(error) => Err(error),
    }
}

fn flush_open<F: Folder>(folder: &mut F, name: &str) -> io::Result<()>
    ensures did { Does (name_flushed name.now) (is_ok result)
        (F.moments folder.old) (F.moments folder.new) }
{
    match folder.flush_folder(name) {
        Ok(true) => Ok(()),
        Ok(false) => folder.take_as_flushed(name),
        Err(error) => Err(error),
    }
}
