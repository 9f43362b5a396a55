//! The tree of a roster.
ghost use Rattle.std.specs.Prelude.{◌≡◌, IfOk};
ghost use Rattle.roster.specs.RosterText.{post_tree, roster_tree};

use crate::post::Post;
use canonical_sexp::{Members, Memory, Sexp, atom};
use std::alloc::Global;

/// The tree of a machine.
fn tree_of_post(alloc: Global, post: &Post) -> Result<Sexp, Memory>
    ensures { IfOk result (λ tree. tree ≡ post_tree post.now) }
{
    let mut members = Members::new(alloc);
    members.push(atom(alloc, post.name.as_str().as_bytes())?)?;
    members.push(atom(alloc, post.role.word())?)?;
    members.push(atom(alloc, &post.key)?)?;
    Ok(Sexp::List(members))
}

/// The tree of the roster of these machines.
pub(crate) fn tree_of(alloc: Global, machines: &[Post]) -> Result<Sexp, Memory>
    ensures { IfOk result (λ tree. tree ≡ roster_tree machines.now) }
{
    let mut members = Members::new(alloc);
    members.push(atom(alloc, b"roster")?)?;
    members.push(atom(alloc, b"1")?)?;
    for post in machines {
        members.push(tree_of_post(alloc, post)?)?;
    }
    Ok(Sexp::List(members))
}
