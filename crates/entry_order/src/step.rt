//! The steps of a world of machines.

/// One step of a world of machines, numbered from 0.
#[derive(Clone, Copy, Debug, PartialEq, Eq)]
pub enum Step {
    /// The machine sends its next entry.
    Act(u32),
    /// A machine hears the entry of another that has this number among its maker's.
    Hear { at: u32, from: u32, number: u32 },
    /// The machine sends and hears nothing from now on.
    Stop(u32),
}
