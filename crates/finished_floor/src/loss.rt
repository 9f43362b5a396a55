//! Losses, and their causes.
ghost use Rattle.std.specs.Prelude.{◌≡◌};
ghost use Rattle.finished_floor.specs.CauseWords.{loss_why_word};

/// Why an entry didn't arrive at a machine.
#[derive(Clone, Copy, Debug, PartialEq, Eq)]
pub enum LossWhy {
    /// A line of the script says so.
    Scripted,
    /// The link held as many entries as it can.
    LinkFull,
    /// The receiver had stopped.
    ToStopped,
    /// The receiver's log had as many events as it can.
    LogFull,
    /// The receiver held another entry with the same digest.
    SameDigest,
}

impl LossWhy {
    /// The cause's word in lines of output.
    pub fn word(self) -> &'static str
        ensures { result.now ≡ loss_why_word self }
    {
        match self {
            LossWhy::Scripted => "Scripted",
            LossWhy::LinkFull => "LinkFull",
            LossWhy::ToStopped => "ToStopped",
            LossWhy::LogFull => "LogFull",
            LossWhy::SameDigest => "SameDigest",
        }
    }
}

/// An entry that didn't arrive at a machine.
#[derive(Clone, Copy, Debug, PartialEq, Eq)]
pub struct Loss {
    /// The maker's place among the machines, counted from 0.
    pub from: u32,
    /// The entry's number among its maker's, counted from 0.
    pub number: u32,
    /// The receiver's place among the machines.
    pub to: u32,
    /// Why it didn't arrive.
    pub why: LossWhy,
}
