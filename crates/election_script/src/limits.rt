//! The limits of a script's lines.

/// The most actions, over all machines.
pub const MAX_ACTIONS: usize = 4096;

/// The most entries on a link.
pub const MAX_LINK: u32 = 4096;

/// The most events of a log.
pub const MAX_EVENTS: u32 = 4096;

/// The most `lose` lines.
pub const MAX_LOSES: usize = 65_536;

/// The most steps.
pub const MAX_STEPS: usize = 131_072;
