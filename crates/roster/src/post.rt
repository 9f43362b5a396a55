//! A machine of the roster.
ghost use Rattle.std.specs.Prelude.{◌≡◌, ◌↔◌, string_bytes, IfOk, IsTrue};
ghost use Rattle.canonical_sexp.specs.Forms.{Finds};
ghost use Rattle.roster.specs.Machines.{IsName};
ghost use Rattle.roster.specs.RosterText.{role_word};

use std::alloc::{AllocError, Global};
use std::marker::Model;

/// What a machine is for (VoteBox, USENIX Security 2008).
#[derive(Clone, Copy, Debug, PartialEq, Eq)]
pub enum Role {
    /// It opens the polling place, authorises sessions and closes.
    Supervisor,
    /// It takes ballots.
    Booth,
}

impl Role {
    /// The role's word in texts.
    pub fn word(self) -> &'static [u8]
        ensures { result.now ≡ role_word self }
    {
        match self {
            Role::Supervisor => b"supervisor",
            Role::Booth => b"booth",
        }
    }

    /// The role whose word it is.
    pub fn of_word(word: &[u8]) -> Option<Role>
        ensures { Finds (λ role. word.now ≡ role_word role) result }
    {
        if word == Role::Supervisor.word() {
            Some(Role::Supervisor)
        } else if word == Role::Booth.word() {
            Some(Role::Booth)
        } else {
            None
        }
    }
}

/// The most characters of a name.
const MAX_NAME: usize = 16;

/// Whether the bytes are a machine's name: 1 to 16 characters from `a` to `z` and `0` to `9`.
pub fn is_name(name: &[u8]) -> bool
    ensures { IsTrue result ↔ IsName name.now }
{
    !name.is_empty()
        && name.len() <= MAX_NAME
        && name.iter().all(|&byte| (byte >= b'a' && byte <= b'z') || (byte >= b'0' && byte <= b'9'))
}

/// A machine's name. Contracts see the list of its bytes.
#[derive(Debug, Drop)]
pub struct Name {
    text: String,
}

impl Model for Name {
    ghost use Rattle.std.specs.Prelude.{List, ℕ, string_bytes};

    ghost Value = { List ℕ };

    ghost view = { λ name. string_bytes name.text };
}

impl Name {
    /// The name with these characters.
    pub fn new(text: String) -> Name
        ensures { result ≡ string_bytes text }
    {
        Name { text }
    }

    /// Lends the name's characters.
    pub fn as_str(&self) -> &str
        ensures { result.now ≡ self.now }
    {
        self.text.as_str()
    }
}

/// A machine of the roster. A key of an unknown type is kept: no signature verifies under it.
#[derive(Drop)]
pub struct Post {
    /// 1 to 16 characters from `a` to `z` and `0` to `9`.
    pub name: Name,
    pub role: Role,
    /// The machine's public key, 56 bytes (RFC 8554, 5.3).
    pub key: [u8; 56],
}

impl Post {
    /// An equal machine.
    pub(crate) fn copy(&self, alloc: Global) -> Result<Post, AllocError>
        ensures { IfOk result (λ post. post ≡ self.now) }
    {
        let name = String::from_str(alloc, self.name.as_str())?;
        Ok(Post {
            name: Name::new(name),
            role: self.role,
            key: self.key,
        })
    }
}
