//! What becomes of an entry that a machine sent.
ghost use Rattle.std.specs.Prelude.{◌≡◌, ◌≢◌, ◌≤◌, ◌<◌, ◌+◌, ◌++◌, ℕ, List, All};
ghost use Rattle.std.specs.Prelude.{slice_index_or, vec_capacity, vec_len};
ghost use Rattle.election_script.specs.Lawful.{max_actions};
ghost use Rattle.roster.specs.Machines.{max_machines};
ghost use Rattle.entry_format.specs.SealedEntry.{SealedEntry};
ghost use Rattle.broadcast_queues.specs.Ends.{IsOutOf, OutView};
ghost use Rattle.finished_floor.specs.declared.loss.Loss.{Loss};
ghost use Rattle.floor_links.specs.Sendings.{AreCopies, IsSentBelow, IsSentTo};
ghost use Rattle.floor_links.specs.Rows.{HaveCapacity, IsRowOf};

use crate::links::Links;
use crate::parcel::Broadcast;
use broadcast_queues::{Link, LinkOut};
use election_script::Lose;
use entry_format::Sealed;
use entry_order::Knot;
use finished_floor::{Loss, LossWhy, is_scripted};
use std::sync::Wait;

// Sends one copy, or notes why it isn't sent.
fn send_one<R: Wait>(
    rt: &R,
    link: &Link<Broadcast>,
    out: &mut LinkOut<Broadcast>,
    scripted: bool,
    losses: &mut Vec<Loss>,
    to: u32,
    copy: Sealed,
)
    requires end { IsOutOf link.now out.old }
    requires from { copy.entry.maker ≡ link.now.from }
    requires small { copy.entry.number < max_actions }
    requires greater { All (λ (before : SealedEntry).
        before.entry.number < copy.entry.number) out.old.put }
    requires room { vec_len losses.old < vec_capacity losses.old }
    ensures sent { IsSentTo scripted link.now.capacity to copy
        out.old out.new losses.old.items losses.new.items }
    ensures capacity { vec_capacity losses.new ≡ vec_capacity losses.old }
{
    let (from, number) = (copy.maker(), copy.number());
    if scripted {
        losses.push_reserved(Loss {
            from,
            number,
            to,
            why: LossWhy::Scripted,
        });
        return;
    }
    match link.put(rt, out, Broadcast::new(copy)) {
        Ok(()) => {}
        Err(_back) => losses.push_reserved(Loss {
            from,
            number,
            to,
            why: LossWhy::LinkFull,
        }),
    }
}

/// Sends a copy of machine `own`'s entry to each other machine, in ascending order, and notes each
/// that is lost. It takes no memory, and may wait for the links' other ends.
pub fn send_all<R: Wait>(
    rt: &R,
    links: &Links,
    own: u32,
    number: u32,
    mut copies: Vec<Sealed>,
    loses: &[Lose],
    outs: &mut Vec<LinkOut<Broadcast>>,
    losses: &mut Vec<Loss>,
)
    // The ends are those of the links in the machine's row.
    requires own { own < vec_len outs.old }
    requires few { vec_len outs.old ≤ max_machines }
    requires row { IsRowOf links.now own outs.old.items }

    // The entry is the machine's next, and there is a copy for each receiver.
    requires greater { (to : ℕ) (d : OutView SealedEntry) → to < vec_len outs.old → to ≢ own →
        All (λ (before : SealedEntry). before.entry.number < number)
        (slice_index_or outs.old.items to d).put }
    requires copies { AreCopies own number copies.items }
    requires many { vec_len copies + 1 ≡ vec_len outs.old }

    requires room { vec_len losses.old + vec_len outs.old ≤ vec_capacity losses.old }
    ensures sent { (e : SealedEntry) (capacity : ℕ) →
        e.entry.maker ≡ own → e.entry.number ≡ number →
        All (λ (x : SealedEntry). x ≡ e) copies.items →
        HaveCapacity links.now own (vec_len outs.old) capacity →
        (fresh : List Loss) × (losses.new.items ≡ losses.old.items ++ fresh)
        × IsSentBelow loses.now capacity (vec_len outs.old) e outs.old.items outs.new.items fresh }
    ensures capacity { vec_capacity losses.new ≡ vec_capacity losses.old }
{
    let count = outs.len();
    for to in 0..count {
        if to != own as usize {
            let Some(copy) = copies.pop() else {
                unreachable!();
            };
            let link = links.link(own as usize, to);
            let scripted = is_scripted(loses, own, number, to as u32);
            send_one(rt, link, &mut outs[to], scripted, losses, to as u32, copy);
        }
    }
}
