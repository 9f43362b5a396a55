//! What a picture is made of.
use entry_format::{Deed, EntryFault};
use log_files::End;

/// A place in a picture. All three count from 0.
#[derive(Clone, Copy)]
pub struct Spot {
    /// How far right.
    pub column: u32,
    /// The lane, from the top: those of the machines, then one for the logs of no machine, one for
    /// the strays, and one for the gaps.
    pub lane: usize,
    /// How far below the line of the lane.
    pub level: usize,
}

/// A shape of a picture.
#[derive(Clone, Copy)]
pub enum Shape {
    /// The line of a machine, up to its end, and how many logs of it were given.
    Lane {
        end: Spot,
        logs: usize,
    },
    /// The line of a log, up to its end.
    Log {
        end: Spot,
        log: usize,
    },
    /// An entry names another one.
    Arrow {
        from: Spot,
        number: u32,
        to: Spot,
        named: u32,
    },
    /// A number of entries of a machine, between two that are drawn.
    Bar {
        from: Spot,
        to: Spot,
        entries: usize,
    },
    /// A broken rule names the entry there.
    Light {
        at: Spot,
        rule: usize,
    },
    /// The survivor at this place.
    Entry {
        at: Spot,
        place: usize,
        number: u32,
        deed: Deed,
        digest: [u8; 32],
    },
    /// A gap.
    Gap {
        at: Spot,
        digest: [u8; 32],
    },
    /// An entry names a gap.
    Loss {
        from: Spot,
        number: u32,
        to: Spot,
    },
    /// Two or more entries of a machine have this number: from the first to the last.
    Fork {
        from: Spot,
        to: Spot,
        number: u32,
    },
    /// An entry that was set aside: this number of others is to the left of it.
    Stray {
        at: Spot,
        order: usize,
        digest: [u8; 32],
    },
    /// A record of a log that was refused: this number of marks is between it and the lane's end.
    Refused {
        at: Spot,
        order: usize,
        log: usize,
        place: u32,
        fault: EntryFault,
    },
    /// The end of a log, which isn't clean.
    Ending {
        at: Spot,
        order: usize,
        log: usize,
        end: End,
    },
    /// The records of a log stop being a legal history of its owner.
    Break {
        at: Spot,
        order: usize,
        log: usize,
        place: u32,
    },
}
