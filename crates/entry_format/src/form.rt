//! What is read of an entry's text without a roster: the entry, and its parts in place.
ghost use Rattle.std.specs.Prelude.{◌≢◌, IfOk, IfErr};
ghost use Rattle.canonical_sexp.specs.Text.{text_of, Fits};
ghost use Rattle.entry_format.specs.Reading.{IsFormFault};
ghost use Rattle.entry_format.specs.inside.Parts.{IsForm};

use crate::entry::Entry;
use crate::plain::EntryFault;
use crate::reading::{entry_of, is_rising, signed_parts};
use canonical_sexp::Text;
use std::alloc::Global;

/// An entry with the parts of its text.
#[derive(Drop)]
pub(crate) struct Form<'a> {
    pub(crate) entry: Entry,
    pub(crate) body: Text<'a>,
    pub(crate) signature: &'a [u8],
}

/// The entry of the text that the tree has, with names that rise.
pub(crate) fn read_form<'a>(alloc: Global, tree: &Text<'a>) -> Result<Form<'a>, EntryFault>
    requires { Fits tree.now }
    ensures ok { IfOk result (λ form. IsForm (text_of tree.now) form) }
    ensures err { IfErr result (λ fault. fault ≢ EntryFault.Memory →
        IsFormFault (text_of tree.now) fault) }
{
    let Some(parts) = signed_parts(tree) else {
        return Err(EntryFault::WrongShape);
    };
    let Some(entry) = entry_of(alloc, &parts.body)? else {
        return Err(EntryFault::WrongShape);
    };
    if !is_rising(entry.names.as_slice()) {
        return Err(EntryFault::NamesNotRising);
    }
    Ok(Form {
        entry,
        body: parts.body,
        signature: parts.signature,
    })
}
