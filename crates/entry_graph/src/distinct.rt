//! The distinct entries among those given.
ghost use Rattle.std.specs.Prelude.{◌≡◌, IfOk, IfErr};
ghost use Rattle.entry_graph.specs.Given.{HasNoCollision, distinct};
ghost use Rattle.entry_graph.specs.inside.Distinct.{HasNoDigestTwice, IsDistinctFault};

use crate::digest_table::DigestTable;
use crate::fault::GraphFault;
use crate::signed_text::SignedText;
use std::alloc::Global;

/// The entries, of those with one text the first alone, unless two with different texts have one
/// digest.
pub fn distinct_of<T: SignedText + Drop>(
    alloc: Global,
    entries: Vec<T>,
) -> Result<Vec<T>, GraphFault<T>>
    ensures no_collision { IfOk result (λ _. HasNoCollision T.node T.text entries.items) }
    ensures found { IfOk result (λ found. found.items ≡ distinct T.node entries.items) }
    ensures single { IfOk result (λ found. HasNoDigestTwice T.node found.items) }
    ensures fault { IfErr result (IsDistinctFault T.node T.text entries.items) }
{
    let mut places = DigestTable::new(alloc);
    let mut distinct: Vec<T> = Vec::new(alloc);
    for entry in entries {
        match places.get(entry.digest()) {
            None => {
                places.set(entry.digest(), distinct.len())?;
                distinct.push(entry)?;
            }
            Some(place) => {
                if distinct[place].signed_text() != entry.signed_text() {
                    return Err(GraphFault::Collision(distinct.swap_remove(place), entry));
                }
            }
        }
    }
    Ok(distinct)
}
