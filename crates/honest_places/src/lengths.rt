//! How long the logs of an honest place are at most.
ghost use Rattle.std.specs.Prelude.{ℕ, ◌<◌, ◌≤◌, ◌^◌, List, Ok, length};
ghost use Rattle.std.specs.List.{Contains};
ghost use Rattle.roster.specs.declared.post.Post.{Post};
ghost use Rattle.roster.specs.Machines.{max_machines};
ghost use Rattle.election_script.specs.Lawful.{max_actions};
ghost use Rattle.entry_format.specs.Nodes.{node_of_sealed};
ghost use Rattle.entry_format.specs.SealedEntry.{SealedEntry};
ghost use Rattle.entry_format.specs.Unsealing.{Unseals};
ghost use Rattle.entry_order.specs.declared.event.Event.{Event};
ghost use Rattle.entry_order.specs.History.{IsLegal};
ghost use Rattle.entry_order.specs.Receipt.{IsOrderly};
ghost use Rattle.entry_order.specs.World.{World, history, sent_in};
ghost use Rattle.log_files.specs.LogFile.{max_bytes};
ghost use Rattle.log_files.specs.Written.{log_text};
ghost use Rattle.honest_places.specs.Named.{count_named};

use entry_order::Knot;

/// The entries that a machine sent name together at most as many digests as it holds entries: it
/// names none twice, since its own entry takes the place of what it names.
pub fn a_machine_names_each_digest_once<T: Knot>()
    ensures { (owner : ℕ) (h : List (Event T)) → IsLegal T.node owner h →
        count_named T.node h ≤ length h }
{}

/// Of at most 16 machines, which sent at most 4,096 entries whose texts are valid under a roster,
/// each log is within the limit of its file.
pub fn honest_logs_are_within_their_limit()
    ensures { (posts : List Post) (election : List ℕ) (w : World SealedEntry) →
        IsOrderly node_of_sealed w → length w ≤ max_machines → length (sent_in w) ≤ max_actions →
        ((e : SealedEntry) → Contains (sent_in w) e → Unseals posts election e.text (Ok e)) →
        (m : ℕ) → m < 2 ^ 32 → length (log_text m (history w m)) ≤ max_bytes }
{}
