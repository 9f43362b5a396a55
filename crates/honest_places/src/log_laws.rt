//! The laws of what is left of an honest polling place's logs. Each is the contract of a function
//! with an empty body.
ghost use Rattle.std.specs.Prelude.{◌≡◌, ◌<◌, ◌^◌, ℕ, List, length, slice_get, take, Some};
ghost use Rattle.canonical_sexp.specs.Text.{text_of};
ghost use Rattle.roster.specs.declared.post.Post.{Post};
ghost use Rattle.election_script.specs.declared.script.Script.{Script};
ghost use Rattle.election_script.specs.Lawful.{IsLawful};
ghost use Rattle.entry_format.specs.Nodes.{node_of_sealed};
ghost use Rattle.entry_format.specs.SealedEntry.{SealedEntry};
ghost use Rattle.entry_graph.specs.Given.{HasNoCollision};
ghost use Rattle.entry_order.specs.declared.event.Event.{Event};
ghost use Rattle.entry_order.specs.declared.step.Step.{Step};
ghost use Rattle.entry_order.specs.Naming.{Distinct};
ghost use Rattle.entry_order.specs.World.{World, history, sent_in};
ghost use Rattle.log_files.specs.Logs.{LogRead};
ghost use Rattle.log_files.specs.LogText.{HasHeader, header_tree};
ghost use Rattle.log_files.specs.SealedLog.{SaysSealed};
ghost use Rattle.log_files.specs.Written.{log_text};
ghost use Rattle.polling_world.specs.Keys.{roster_of};
ghost use Rattle.polling_world.specs.Making.{election_of};
ghost use Rattle.polling_world.specs.Playing.{ComesTo};
ghost use Rattle.evidence.specs.Graphs.{entries_of};
ghost use Rattle.honest_places.specs.Agreement.{HaveAll, IsAllGiven, IsHonestlyGiven};
ghost use Rattle.honest_places.specs.HonestWorld.{IsHonestWorld};
ghost use Rattle.honest_places.specs.WhatIsLeft.{
  AreLeftOf,
  AreReadIn,
  IsLeftOf,
  IsPrefixRead,
  IsUnbrokenLog,
  IsWholeRead,
};

/// By any steps the machines of a script come to an honest world under the script's roster.
pub fn scripts_lead_to_honest_worlds()
    ensures { (script : Script) → IsLawful script → (steps : List Step) (w : World SealedEntry) →
        ComesTo script steps w → IsHonestWorld (roster_of script) w }
{}

/// What is left of a machine's log has a header, and is read as what the machine did.
#[tactic(auto, using(crate::proofs::ReadLogs::logs_give))]
pub fn what_is_left_is_read()
    ensures header { (posts : List Post) (w : World SealedEntry) → IsHonestWorld posts w →
        (m : ℕ) → m < length w → (bytes : List ℕ) → IsLeftOf m (history w m) bytes →
        HasHeader bytes }
    ensures log { (posts : List Post) (w : World SealedEntry) → IsHonestWorld posts w →
        (m : ℕ) → m < length w → (bytes : List ℕ) → IsLeftOf m (history w m) bytes →
        (log : LogRead) → SaysSealed posts (election_of posts) bytes log →
        IsPrefixRead m (history w m) bytes log }
    // It is a log.
    ensures says { (posts : List Post) (w : World SealedEntry) → IsHonestWorld posts w →
        (m : ℕ) → m < length w → (bytes : List ℕ) → IsLeftOf m (history w m) bytes →
        IsUnbrokenLog posts m bytes }
    // A whole log is read whole.
    ensures whole { (posts : List Post) (w : World SealedEntry) → IsHonestWorld posts w →
        (m : ℕ) → m < length w → (log : LogRead) →
        SaysSealed posts (election_of posts) (log_text m (history w m)) log →
        IsWholeRead m (history w m) log }
    // Several files, of one machine or of several, in any order.
    ensures files { (posts : List Post) (w : World SealedEntry) → IsHonestWorld posts w →
        (files : List (List ℕ)) → AreLeftOf w files → (logs : List LogRead) →
        length logs ≡ length files →
        ((i : ℕ) (bytes : List ℕ) (log : LogRead) →
        slice_get files i ≡ Some bytes → slice_get logs i ≡ Some log →
        SaysSealed posts (election_of posts) bytes log) →
        AreReadIn w logs }
{}

/// What is left of a log is read in one way: of the owner, with no refused record and no break, as
/// `IsPrefixRead` says outright, and with one list of records and one end.
pub fn prefixes_are_read_in_one_way()
    ensures kept { (owner : ℕ) (events : List (Event SealedEntry)) (bytes : List ℕ)
        (log other : LogRead) → IsPrefixRead owner events bytes log →
        IsPrefixRead owner events bytes other → log.kept ≡ other.kept }
    ensures end { (owner : ℕ) (events : List (Event SealedEntry)) (bytes : List ℕ)
        (log other : LogRead) → IsPrefixRead owner events bytes log →
        IsPrefixRead owner events bytes other → log.end ≡ other.end }
{}

/// A log that is cut inside its header has none, so it is refused.
pub fn cut_headers_are_none()
    ensures { (owner : ℕ) → owner < 2 ^ 32 → (events : List (Event SealedEntry)) (place : ℕ) →
        place < length (text_of (header_tree owner)) →
        ¬ HasHeader (take place (log_text owner events)) }
{}

/// Where different entries have different digests, what is left of the logs, or of some of them,
/// has no collision, and its graph has no stray and no fork and agrees with the world.
pub fn what_is_left_agrees()
    ensures { (posts : List Post) (w : World SealedEntry) → IsHonestWorld posts w →
        Distinct node_of_sealed (sent_in w) → (logs : List LogRead) → AreReadIn w logs →
        IsHonestlyGiven w (entries_of logs) }
{}

/// Where all logs are given, whole, and nothing collides, different entries have different digests.
pub fn answers_show_distinct()
    ensures all { (w : World SealedEntry) (logs : List LogRead) → HaveAll w logs →
        IsAllGiven w (entries_of logs) }
    ensures distinct { (posts : List Post) (w : World SealedEntry) → IsHonestWorld posts w →
        (given : List SealedEntry) → IsAllGiven w given →
        HasNoCollision node_of_sealed (λ e. e.text) given → Distinct node_of_sealed (sent_in w) }
{}
