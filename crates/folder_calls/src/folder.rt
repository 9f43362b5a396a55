// The calls that the system gives, and what they mean.
ghost use Rattle.std.specs.Prelude.{
  ◌≡◌,
  ◌<◌,
  ◌≤◌,
  ◌⊎◌,
  ℕ,
  true,
  false,
  List,
  length,
  take,
  if◌then◌else◌,
  is_ok,
  Some,
  None,
  IfOk,
  IfSome,
  OnOk,
  OnErr,
};
ghost use Rattle.folder_calls.specs.World.{
  Moments,
  Now,
  Does,
  does,
  IsLookedUp,
  GivesPart,
  Makes,
  longer_by,
  emptied,
  renamed,
  removed,
  name_flushed,
  file_flushed,
};
ghost use Rattle.folder_calls.specs.Writes.{IsCount};

use std::io;

/// What the system says of what stands under a name.
#[derive(Clone, Copy)]
pub struct Found {
    /// It is a file: no folder, link, pipe or device.
    pub is_regular: bool,
    pub is_folder: bool,
    pub is_link: bool,
    /// Its device, and its number there.
    pub device: u64,
    pub number: u64,
    /// How many names it has.
    pub links: u64,
    /// Its permission bits.
    pub bits: u32,
    pub owner: u32,
    pub group: u32,
    /// When its bytes and its entry were last changed, in seconds and nanoseconds.
    pub written: (i64, i64),
    pub changed: (i64, i64),
    /// This program has read it, under whatever name.
    pub was_read: bool,
}

/// The calls of a system for the files of a folder: each is one of the system's or none, but
/// `are_all_as_read`, which asks for each file. Nobody else changes the files that these calls
/// name, but that another program may remove one that this program hasn't locked yet. Different
/// names are different places.
///
/// Source: POSIX.1-2017, the page that is named with each call. A folder either always or never
/// exposes its moments.
pub trait Folder {
    /// The moments so far, the newest first. There is none where the folder exposes nothing.
    ghost moments: { Self → Moments };

    /// A removal of this name has failed.
    ghost removal_failed: { Self → List ℕ → Type 0 };

    /// This program has made the file of this number.
    ghost is_made: { Self → ℕ → Type 0 };

    /// This program has locked the file of this number.
    ghost is_locked: { Self → ℕ → Type 0 };

    /// This program has removed only names of files that it had made or locked.
    ghost spares: { Self → Type 0 };

    /// The system has said that the name stands for what was read under it, if it was read.
    ghost unchanged: { Self → List ℕ → Type 0 };

    /// The system has said so of each regular file that was read.
    ghost all_unchanged: { Self → Type 0 };

    /// The file of this name is open to be read from this byte on.
    ghost is_open: { Self → List ℕ → ℕ → Type 0 };

    /// What had this name when it was read first is noted.
    ghost is_noted: { Self → List ℕ → Type 0 };

    /// The file of the last number is open, and is the one that has the first number on the device.
    ghost is_file: { Self → ℕ → ℕ → ℕ → Type 0 };

    /// What stands under the name itself: no link is followed (`lstat`).
    fn look(&mut self, name: &str) -> io::Result<Option<Found>>
        ensures found { IfOk result (λ found. Now (moments self.old) (IsLookedUp name.now found)) }
        ensures which { IfOk result (λ found. IfSome found (λ file.
            (i : ℕ) → is_file self.old file.number file.device i
            → Now (moments self.old) (λ w. w.at name.now ≡ Some i))) }
        ensures same { moments self.new ≡ moments self.old }
        ensures open { (file : List ℕ) (at : ℕ) → is_open self.old file at
            → is_open self.new file at }
        ensures own { (i : ℕ) → is_made self.old i → is_made self.new i }
        ensures locked { (i : ℕ) → is_locked self.old i → is_locked self.new i }
        ensures spared { spares self.old → spares self.new };

    /// Whether the file that is open to be read is that of the name, read up to this byte. No call
    /// of the system is made.
    fn is_open_at(&mut self, name: &str, at: u64) -> bool
        ensures open { result ≡ true → is_open self.new name.now at }
        ensures same { moments self.new ≡ moments self.old };

    /// Opens the file of this name to be read, in place of the one that is open; or finds no such
    /// file (`open`).
    fn open(&mut self, name: &str) -> io::Result<bool>
        ensures open { IfOk result (λ is. is ≡ true → is_open self.new name.now 0) }
        ensures none { IfOk result (λ is. is ≡ false
            → Now (moments self.old) (λ w. w.at name.now ≡ None)) }
        ensures same { moments self.new ≡ moments self.old };

    /// What the file is that is open to be read (`fstat`).
    fn look_read(&mut self, name: &str) -> io::Result<Found>
        ensures open { (at : ℕ) → is_open self.old name.now at → is_open self.new name.now at }
        ensures same { moments self.new ≡ moments self.old };

    /// Notes what has the name as it is read, unless the name is noted. No call of the system is
    /// made.
    fn note_read(&mut self, name: &str, found: &Option<Found>) -> io::Result<()>
        ensures noted { OnOk result (is_noted self.new name.now) }
        ensures open { (at : ℕ) → is_open self.old name.now at → is_open self.new name.now at }
        ensures same { moments self.new ≡ moments self.old };

    /// Has the file that was opened to be read from the byte `at` on (`lseek`).
    fn seek(&mut self, name: &str, at: u64) -> io::Result<()>
        requires { is_open self.old name.now 0 }
        ensures open { OnOk result (is_open self.new name.now at) }
        ensures noted { is_noted self.old name.now → is_noted self.new name.now }
        ensures same { moments self.new ≡ moments self.old };

    /// Reads on into the front of `into` (`read`).
    fn read_on(&mut self, name: &str, at: u64, into: &mut [u8]) -> io::Result<usize>
        requires some { 0 < length into.old }
        requires open { is_open self.old name.now at }
        ensures given { IfOk result (λ n.
            GivesPart (moments self.old) name.now at into.old into.new (Some n)) }
        ensures same { moments self.new ≡ moments self.old };

    /// Whether each regular file that was noted is what its name stands for (`stat`, of each).
    fn are_all_as_read(&mut self) -> io::Result<bool>
        ensures seen { IfOk result (λ are. are ≡ true → all_unchanged self.new) }
        ensures open { (name : List ℕ) (at : ℕ) → is_open self.old name at
            → is_open self.new name at }
        ensures noted { (name : List ℕ) → is_noted self.old name → is_noted self.new name }
        ensures same { moments self.new ≡ moments self.old };

    /// Opens a file of which the front is to be read, which doesn't count as read (`open`).
    fn open_front(&mut self, name: &str) -> io::Result<()>
        ensures same { moments self.new ≡ moments self.old };

    /// Reads the first bytes of that file, and closes it (`read`, `close`).
    fn read_front(&mut self, name: &str, into: &mut [u8]) -> io::Result<usize>
        requires { 0 < length into.old }
        ensures count { IfOk result (λ n. n ≤ length into.new) }
        ensures same { moments self.new ≡ moments self.old };

    /// Makes an empty file under the name and gives its number, or finds that the name is taken
    /// (`open` with `O_CREAT` and `O_EXCL`).
    fn create(&mut self, name: &str, bits: u32) -> io::Result<Option<u64>>
        ensures made { IfOk result (Makes name.now (moments self.old) (moments self.new)) }
        ensures own { IfOk result (λ number. IfSome number (is_made self.new)) }
        ensures err { OnErr result (moments self.new ≡ moments self.old) }
        ensures spared { spares self.old → spares self.new };

    /// Opens what has the name, to lock it, or finds nothing there (`open` with `O_APPEND`).
    fn open_left(&mut self, name: &str) -> io::Result<Option<u64>>
        ensures same { moments self.new ≡ moments self.old }
        ensures spared { spares self.old → spares self.new };

    /// Locks a file that was created or opened under the name, unless another program has (`flock`
    /// with `LOCK_EX` and `LOCK_NB`). Before that another program may have removed the name.
    fn lock(&mut self, number: u64, name: &str) -> io::Result<bool>
        ensures locked { IfOk result (λ is. is ≡ true → is_locked self.new number) }
        ensures meanwhile { Does (removed name.now) false (moments self.old) (moments self.new) }
        ensures own { (i : ℕ) → is_made self.old i → is_made self.new i }
        ensures spared { spares self.old → spares self.new };

    /// What the open file of this number is (`fstat`).
    fn look_open(&mut self, number: u64) -> io::Result<Found>
        ensures which { IfOk result (λ found. is_file self.new found.number found.device number) }
        ensures same { moments self.new ≡ moments self.old }
        ensures own { (i : ℕ) → is_made self.old i → is_made self.new i }
        ensures locked { (i : ℕ) → is_locked self.old i → is_locked self.new i }
        ensures spared { spares self.old → spares self.new };

    /// Whether the name stands for what it stood for when it was read, if it was (`stat`).
    fn is_as_read(&mut self, name: &str) -> io::Result<bool>
        ensures seen { IfOk result (λ is. is ≡ true → unchanged self.new name.now) }
        ensures same { moments self.new ≡ moments self.old }
        ensures own { (i : ℕ) → is_made self.old i → is_made self.new i }
        ensures locked { (i : ℕ) → is_locked self.old i → is_locked self.new i }
        ensures spared { spares self.old → spares self.new };

    /// Closes one file, and with that unlocks it (`close`).
    fn release(&mut self, number: u64)
        ensures same { moments self.new ≡ moments self.old }
        ensures spared { spares self.old → spares self.new };

    /// Appends a prefix of `piece` to a file that was created (`write` with `O_APPEND`).
    fn append(&mut self, number: u64, piece: &[u8]) -> io::Result<usize>
        requires { 0 < length piece.now }
        ensures took { IfOk result (IsCount piece.now) }
        ensures ok { IfOk result (λ n.
            moments self.new ≡ does (longer_by number (take n piece.now)) (moments self.old)) }
        ensures err { OnErr result (moments self.new ≡ moments self.old) };

    /// Takes all bytes from a file that was created (`ftruncate`).
    fn empty(&mut self, number: u64) -> io::Result<()>
        ensures ok { OnOk result (moments self.new ≡ does (emptied number) (moments self.old)) }
        ensures err { OnErr result (moments self.new ≡ moments self.old) };

    /// Gives a file that was created this owner and this group (`fchown`).
    fn give_owner(&mut self, number: u64, owner: u32, group: u32) -> io::Result<()>
        ensures same { moments self.new ≡ moments self.old };

    /// Gives a file that was created these permission bits (`fchmod`).
    fn set_bits(&mut self, number: u64, bits: u32) -> io::Result<()>
        ensures same { moments self.new ≡ moments self.old };

    /// Flushes the bytes of a file that was created to the disk (`fsync`).
    fn flush_file(&mut self, number: u64) -> io::Result<()>
        ensures did { Does (file_flushed number) (is_ok result)
            (moments self.old) (moments self.new) };

    /// What has one name has the other from now on, and what had that one has it no longer
    /// (`rename`).
    fn rename(&mut self, from: &str, to: &str) -> io::Result<()>
        ensures did { Does (renamed from.now to.now) (is_ok result)
            (moments self.old) (moments self.new) };

    /// Removes the name (`unlink`).
    fn remove(&mut self, name: &str) -> io::Result<()>
        ensures did { Does (removed name.now) (is_ok result) (moments self.old) (moments self.new) }
        ensures failed { OnErr result (removal_failed self.new name.now) }
        ensures spared { (i : ℕ) → is_made self.old i ⊎ is_locked self.old i
            → Now (moments self.old) (λ w. w.at name.now ≡ Some i)
            → spares self.old → spares self.new }
        ensures kept { (other : List ℕ) → removal_failed self.old other
            → removal_failed self.new other };

    /// Opens the folder that the name is in (`open`).
    fn open_folder(&mut self, name: &str) -> io::Result<()>
        ensures same { moments self.new ≡ moments self.old };

    /// Flushes the open folder, which the name is in, to the disk, and closes it; or finds that the
    /// file system can't (`fsync`, `close`).
    fn flush_folder(&mut self, name: &str) -> io::Result<bool>
        ensures ok { IfOk result (λ is. moments self.new
            ≡ (if is then does (name_flushed name.now) (moments self.old) else moments self.old)) }
        ensures err { OnErr result (Does (name_flushed name.now) false
            (moments self.old) (moments self.new)) };

    /// Takes the name to be on the disk, since the system can't be asked to flush it. No call is
    /// made.
    fn take_as_flushed(&mut self, name: &str) -> io::Result<()>
        ensures did { Does (name_flushed name.now) (is_ok result)
            (moments self.old) (moments self.new) };

    /// Closes the files that were created, and with that unlocks them (`close`).
    fn close(&mut self)
        ensures same { moments self.new ≡ moments self.old }
        ensures kept { (other : List ℕ) → removal_failed self.old other
            → removal_failed self.new other };
}
