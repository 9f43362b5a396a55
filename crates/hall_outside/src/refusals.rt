// Whether a file may be replaced or read, by what was found of it.
ghost use Rattle.std.specs.Prelude.{IfNone, IfSome};
ghost use Rattle.hall_outside.specs.Replacing.{MayReplace, MayRead, IsReasonFor};

/// What stands under a name, as far as that decides whether it may be replaced or read.
#[derive(Clone, Copy)]
pub(crate) struct Standing {
    /// It is a file: no folder, link, pipe or device.
    pub is_regular: bool,
    pub owner_writes: bool,
    /// How many names it has.
    pub links: u64,
    /// This command has read it, under whatever name.
    pub was_read: bool,
    /// It holds a secret of which each copy would be used for itself.
    pub is_secret: bool,
}

/// Why a file may not be replaced, or not be read.
#[derive(Clone, Copy, Debug, PartialEq, Eq)]
pub(crate) enum Refusal {
    NotRegular,
    /// Its owner may not write it.
    Protected,
    WasRead,
    /// It holds a secret, and has another name too.
    OtherName,
}

/// Why the file may not be replaced, or `None` where it may.
pub(crate) fn replacing_refusal(file: &Standing) -> Option<Refusal>
    ensures none { IfNone result (MayReplace file.now) }
    ensures some { IfSome result (λ why. IsReasonFor why file.now) }
{
    if !file.is_regular {
        return Some(Refusal::NotRegular);
    }
    if !file.owner_writes {
        return Some(Refusal::Protected);
    }
    if file.is_secret {
        if file.links != 1 {
            return Some(Refusal::OtherName);
        }
    } else if file.was_read {
        return Some(Refusal::WasRead);
    }
    None
}

/// Why the file may not be read, or `None` where it may.
pub(crate) fn reading_refusal(file: &Standing) -> Option<Refusal>
    ensures none { IfNone result (MayRead file.now) }
    ensures some { IfSome result (λ why. IsReasonFor why file.now) }
{
    if !file.is_secret {
        return None;
    }
    if !file.is_regular {
        return Some(Refusal::NotRegular);
    }
    if file.links != 1 {
        return Some(Refusal::OtherName);
    }
    None
}
