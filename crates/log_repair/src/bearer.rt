//! Who answers a machine that asks for a digest.
ghost use Rattle.std.specs.Prelude.{◌≡◌, option_map};
ghost use Rattle.entry_format.specs.Nodes.{node_of_sealed};
ghost use Rattle.entry_format.specs.SealedEntry.{SealedEntry};
ghost use Rattle.polling_world.specs.Worlds.{machine_of, world_of};
ghost use Rattle.log_repair.specs.Mending.{answer_of, bearer};

use entry_order::Knot;
use polling_world::Machine;

/// Maker and number of the entry with the digest in the least machine that hasn't stopped and holds
/// one. A table of each machine says where such an entry is, so that no log is searched.
pub fn bearer(machines: &[Machine], digest: &[u8; 32]) -> Option<(u32, u32)>
    ensures { result ≡ option_map (λ (e : SealedEntry). (e.entry.maker, e.entry.number))
        (bearer node_of_sealed digest.now (world_of machines.now)) }
{
    for machine in machines {
        match answer_of(machine, digest) {
            Some(found) => return Some(found),
            None => {}
        }
    }
    None
}

// What the machine answers.
fn answer_of(machine: &Machine, digest: &[u8; 32]) -> Option<(u32, u32)>
    ensures { result ≡ option_map (λ (e : SealedEntry). (e.entry.maker, e.entry.number))
        (answer_of node_of_sealed digest.now (machine_of machine.now)) }
{
    if machine.stopped() {
        return None;
    }
    match machine.log().with_digest(digest) {
        Some(entry) => Some((entry.maker(), entry.number())),
        None => None,
    }
}
