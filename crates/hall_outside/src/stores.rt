// Files by their names, and putting a whole file.
ghost use Rattle.std.specs.Prelude.{
  ◌≡◌,
  ◌<◌,
  ℕ,
  List,
  [],
  length,
  take,
  Option,
  Bool,
  Result,
  is_ok,
  IfOk,
  OnOk,
  OnErr,
  IsErr,
  IsSome,
};
ghost use Rattle.hall_outside.specs.Counts.{HasCause};
ghost use Rattle.hall_outside.specs.Files.{Files, OnFile, with_file, SetsPrefix};
ghost use Rattle.hall_outside.specs.Reading.{Answered, IsTaken, bytes_given, counted};
ghost use Rattle.hall_outside.specs.Writing.{IsCountOf, with_appended, PutsFile};

use std::alloc::AllocError;
use thiserror::Error;

/// The system gave no memory: another name of std's error.
pub type Memory = AllocError;

/// A read, a create, an append, a finish or a write failed.
#[derive(Clone, Copy, Debug, PartialEq, Eq, Error)]
#[error("the system failed")]
pub struct Failed;

/// What a read found.
#[derive(Clone, Copy, Debug, PartialEq, Eq)]
pub enum Taken {
    /// There is no such file.
    Absent,
    /// This many bytes were read. It is 0 exactly at the end of the file and past it.
    Bytes(usize),
}

/// Files by their names. A store either always or never exposes its files.
pub trait Store {
    ghost use Rattle.hall_outside.specs.declared.stores.Failed.{Failed};
    ghost use Rattle.hall_outside.specs.declared.stores.Taken.{Taken};

    /// The files, where the store exposes them.
    ghost files: { Self → Option Files };

    /// How many reads have failed, up to the greatest `u64`.
    ghost read_faults: { Self → ℕ };

    /// How many creates, appends and finishes have failed, up to the greatest `u64`.
    ghost write_faults: { Self → ℕ };

    /// What reads have answered in all, up to the greatest `u64` each.
    ghost answered: { Self → Answered };

    /// What more than the clauses below say may come of a read, a create, an append and a finish:
    /// the store before the call, what was asked, the answer, for a read the bytes that it gave, and
    /// the store after it.
    ghost reads: { List ℕ → ℕ → ℕ → Self → Result Taken Failed → List ℕ → Self → Type 0 };

    ghost creates: { List ℕ → Self → Bool → Self → Type 0 };

    ghost appends: { List ℕ → Self → List ℕ → Result ℕ Failed → Self → Type 0 };

    ghost finishes: { Self → Bool → Self → Type 0 };

    /// Reads into the front of `into` from the file's byte `at` on, counted from 0. The bytes of
    /// `into` that aren't read are unchanged, save after `Failed`.
    fn read_at(&mut self, name: &str, at: u64, into: &mut [u8]) -> Result<Taken, Failed>
        requires { 0 < length into.old }
        ensures taken { IfOk result (IsTaken (files self.old) name.now at into.old into.new) }
        ensures files { files self.new ≡ files self.old }
        ensures answered { answered self.new ≡ counted (answered self.old) result }
        ensures cause { HasCause (read_faults self.old) (read_faults self.new) (IsErr result) }
        ensures write_faults { write_faults self.new ≡ write_faults self.old }
        ensures step { reads name.now at (length into.old)
            self.old result (bytes_given result into.new) self.new };

    /// Makes the file empty, whether it is there or not.
    fn create(&mut self, name: &str) -> Result<(), Failed>
        ensures ok { OnOk result (files self.new ≡ with_file (files self.old) name.now []) }
        ensures err { OnErr result (files self.new ≡ files self.old) }
        ensures cause { HasCause (write_faults self.old) (write_faults self.new) (IsErr result) }
        ensures answered { answered self.new ≡ answered self.old }
        ensures read_faults { read_faults self.new ≡ read_faults self.old }
        ensures step { creates name.now self.old (is_ok result) self.new };

    /// Appends a prefix of `piece` to a file that is there, and answers its length in bytes.
    fn append(&mut self, name: &str, piece: &[u8]) -> Result<usize, Failed>
        requires some { 0 < length piece.now }
        requires there { OnFile (files self.old) name.now IsSome }
        ensures took { IfOk result (IsCountOf piece.now) }
        ensures ok { IfOk result (λ n.
            files self.new ≡ with_appended (files self.old) name.now (take n piece.now)) }
        ensures err { OnErr result (files self.new ≡ files self.old) }
        ensures cause { HasCause (write_faults self.old) (write_faults self.new) (IsErr result) }
        ensures answered { answered self.new ≡ answered self.old }
        ensures read_faults { read_faults self.new ≡ read_faults self.old }
        ensures step { appends name.now self.old piece.now result self.new };

    /// Says that what was created and appended since the last such call is all. A store that keeps
    /// its files elsewhere puts them in place now.
    fn finish(&mut self) -> Result<(), Failed>
        ensures files { files self.new ≡ files self.old }
        ensures cause { HasCause (write_faults self.old) (write_faults self.new) (IsErr result) }
        ensures answered { answered self.new ≡ answered self.old }
        ensures read_faults { read_faults self.new ≡ read_faults self.old }
        ensures step { finishes self.old (is_ok result) self.new };
}

/// Makes a file of these bytes: it is created, then appended to until all is there, each append
/// being offered all that is left. It takes no memory. After `Failed` the file is as before, or a
/// prefix of the bytes, and every other file is as before.
pub fn put_file<S: Store>(store: &mut S, name: &str, bytes: &[u8]) -> Result<(), Failed>
    ensures ok { OnOk result
        (S.files store.new ≡ with_file (S.files store.old) name.now bytes.now) }
    ensures err { OnErr result
        (SetsPrefix (S.files store.old) name.now bytes.now (S.files store.new)) }
    ensures cause { HasCause (S.write_faults store.old) (S.write_faults store.new) (IsErr result) }
    ensures offers { PutsFile (S.creates name.now) (S.appends name.now)
        store.old bytes.now (is_ok result) store.new }
    ensures answered { S.answered store.new ≡ S.answered store.old }
    ensures read_faults { S.read_faults store.new ≡ S.read_faults store.old }
{
    store.create(name)?;
    let mut done = 0;
    while done < bytes.len() {
        done += store.append(name, &bytes[done..])?;
    }
    Ok(())
}
