//! What a rule compares.

use crate::kind::Field;

/// A field of the entry that a variable stands for, or a number.
#[derive(Clone, Copy)]
pub enum Term {
    /// A variable is the byte of its letter.
    Of { v: u8, field: Field },
    Number(u32),
}
