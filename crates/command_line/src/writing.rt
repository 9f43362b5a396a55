// From an answer to the bytes that go out.
ghost use Rattle.std.specs.Prelude.{◌≡◌, is_ok, IsErr, OnOk, OnErr};
ghost use Rattle.hall_outside.specs.Counts.{HasCause};
ghost use Rattle.command_line.specs.Written.{with_files, SetsSome};
ghost use Rattle.command_line.specs.Written.{PutsAll, PlacesAll, PlacesInTurn, IsWrittenBy};
ghost use Rattle.command_line.specs.Written.{IsWritten, IsCutShort};
ghost use Rattle.command_line.specs.Outside.{outside};

use crate::answer::{Answer, OutputFile};
use hall_outside::{Failed, Sink, Store, put_file, write_all};

/// Writes the files in order, each whole before the next. It takes no memory.
fn put_files<S: Store>(store: &mut S, files: &[OutputFile]) -> Result<(), Failed>
    ensures ok { OnOk result (S.files store.new ≡ with_files (S.files store.old) files.now) }
    ensures err { OnErr result (SetsSome (S.files store.old) files.now (S.files store.new)) }
    ensures cause { HasCause (S.write_faults store.old) (S.write_faults store.new) (IsErr result) }
    ensures answered { S.answered store.new ≡ S.answered store.old }
    ensures read_faults { S.read_faults store.new ≡ S.read_faults store.old }
    ensures calls { PutsAll S.Store store.old files.now (is_ok result) store.new }
{
    for file in files {
        put_file(store, file.name(), file.bytes())?;
    }
    Ok(())
}

/// Writes the files in order and says that they are all, if there are any. It takes no memory.
fn place_files<S: Store>(store: &mut S, files: &[OutputFile]) -> Result<(), Failed>
    ensures ok { OnOk result (S.files store.new ≡ with_files (S.files store.old) files.now) }
    ensures err { OnErr result (SetsSome (S.files store.old) files.now (S.files store.new)) }
    ensures cause { HasCause (S.write_faults store.old) (S.write_faults store.new) (IsErr result) }
    ensures answered { S.answered store.new ≡ S.answered store.old }
    ensures read_faults { S.read_faults store.new ≡ S.read_faults store.old }
    ensures calls { PlacesAll S.Store store.old files.now (is_ok result)
        store.new }
{
    if files.is_empty() {
        return Ok(());
    }
    put_files(store, files)?;
    store.finish()
}

/// Writes the answer's files: those that are ahead, and once they are in place the others. It takes
/// no memory.
fn place_in_turn<S: Store>(store: &mut S, answer: &Answer) -> Result<(), Failed>
    ensures ok { OnOk result
        (S.files store.new ≡ with_files (S.files store.old) answer.now.files) }
    ensures err { OnErr result
        (SetsSome (S.files store.old) answer.now.files (S.files store.new)) }
    ensures cause { HasCause (S.write_faults store.old) (S.write_faults store.new) (IsErr result) }
    ensures answered { S.answered store.new ≡ S.answered store.old }
    ensures read_faults { S.read_faults store.new ≡ S.read_faults store.old }
    ensures calls { PlacesInTurn S.Store answer.now store.old (is_ok result) store.new }
{
    place_files(store, answer.files_ahead())?;
    place_files(store, answer.other_files())
}

/// Writes the answer: first its files, then its output. It takes no memory.
pub(crate) fn write_answer<S: Store, K: Sink>(
    answer: &Answer,
    store: &mut S,
    out: &mut K,
) -> Result<(), Failed>
    ensures ok { OnOk result (IsWritten answer.now
        (outside S.Store K.Sink store.old out.old)
        (outside S.Store K.Sink store.new out.new)) }
    ensures err { OnErr result (IsCutShort answer.now
        (outside S.Store K.Sink store.old out.old)
        (outside S.Store K.Sink store.new out.new)) }
    ensures answered { S.answered store.new ≡ S.answered store.old }
    ensures calls { IsWrittenBy S.Store K.Sink answer.now store.old out.old (is_ok result)
        store.new out.new }
{
    place_in_turn(store, answer)?;
    write_all(out, answer.output())
}
