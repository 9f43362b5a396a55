//! Writing an office's text.
ghost use Rattle.std.specs.Prelude.{◌≡◌, IfOk};
ghost use Rattle.office_key.specs.Offices.{office_text, office_tree};

use crate::office::Office;
use canonical_sexp::{Members, Memory, Sexp, atom, number_atom, write};
use std::alloc::Global;

/// The office's text, from which it is read back. Its length is 50 bytes, and one for each digit of
/// the number.
pub fn write_office(alloc: Global, office: Office) -> Result<Vec<u8>, Memory>
    ensures { IfOk result (λ text. text.items ≡ office_text office) }
{
    let tree = tree_of(alloc, office)?;
    let mut text = Vec::new(alloc);
    write(alloc, &tree, &mut text)?;
    Ok(text)
}

/// The tree of the office's text.
fn tree_of(alloc: Global, office: Office) -> Result<Sexp, Memory>
    ensures { IfOk result (λ tree. tree ≡ office_tree office) }
{
    let mut members = Members::new(alloc);
    members.push(atom(alloc, b"office")?)?;
    members.push(atom(alloc, b"1")?)?;
    members.push(atom(alloc, &office.seed)?)?;
    members.push(number_atom(alloc, office.next)?)?;
    Ok(Sexp::List(members))
}
