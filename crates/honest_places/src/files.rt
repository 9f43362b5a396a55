//! What the files that are left of an honest place's logs give, and the graph of their entries.
//! Each law is the contract of a function with an empty body.
ghost use Rattle.std.specs.Prelude.{◌≡◌, ℕ, List, Option, Result, Some, Ok, Err, IsOkAnd};
ghost use Rattle.canonical_sexp.specs.Text.{text_of};
ghost use Rattle.roster.specs.declared.post.Post.{Post};
ghost use Rattle.roster.specs.RosterText.{roster_tree};
ghost use Rattle.election_script.specs.declared.script.Script.{Script};
ghost use Rattle.election_script.specs.Lawful.{IsLawful};
ghost use Rattle.entry_format.specs.Nodes.{node_of_sealed};
ghost use Rattle.entry_format.specs.SealedEntry.{SealedEntry};
ghost use Rattle.entry_graph.specs.EntryGraph.{EntryGraph};
ghost use Rattle.entry_order.specs.declared.step.Step.{Step};
ghost use Rattle.entry_order.specs.Naming.{Distinct};
ghost use Rattle.entry_order.specs.World.{World, sent_in};
ghost use Rattle.log_files.specs.Logs.{LogRead};
ghost use Rattle.polling_world.specs.Keys.{roster_of};
ghost use Rattle.polling_world.specs.Making.{election_of};
ghost use Rattle.polling_world.specs.Machines.{MachineState};
ghost use Rattle.polling_world.specs.Playing.{ComesTo, IsPlayed};
ghost use Rattle.polling_world.specs.Worlds.{world_of};
ghost use Rattle.evidence.specs.declared.roster_file.RosterRead.{RosterRead};
ghost use Rattle.evidence.specs.Graphs.{GivesGraph, entries_of};
ghost use Rattle.evidence.specs.Logs.{GivesLogs};
ghost use Rattle.evidence.specs.Refusal.{Refusal};
ghost use Rattle.evidence.specs.RosterFile.{GivesRoster};
ghost use Rattle.honest_places.specs.Agreement.{HaveAll, IsHonestGraph};
ghost use Rattle.honest_places.specs.HonestReading.{IsHonestlyRead};
ghost use Rattle.honest_places.specs.HonestWorld.{IsHonestWorld};
ghost use Rattle.honest_places.specs.LeftFiles.{
  AreAllFilesOf,
  AreFilesOf,
  AreReadOf,
  written_logs,
};
ghost use Rattle.honest_places.specs.OfScript.{IsOfScript};
ghost use Rattle.honest_places.specs.WhatIsLeft.{AreReadIn};

/// A world of a script whose roster was read is honest under that roster, and in its election,
/// which is that of every roster that is read of a file.
#[tactic(auto, using(crate::proofs::HonestFiles::roster_election))]
pub fn worlds_of_scripts_are_honest()
    ensures honest { (machines : List Post) (election : List ℕ) (w : World SealedEntry) →
        IsOfScript machines election w → IsHonestWorld machines w }
    ensures election { (machines : List Post) (election : List ℕ) (w : World SealedEntry) →
        IsOfScript machines election w → election ≡ election_of machines }
    ensures read { (name : List ℕ) (file : Option (List ℕ)) (read : RosterRead) →
        GivesRoster name file (Ok read) → read.election ≡ election_of read.roster.machines }
{}

/// The file of a script's roster gives that roster, in the election of its text.
pub fn rosters_of_scripts_are_read()
    ensures { (script : Script) → IsLawful script → (steps : List Step) (w : World SealedEntry) →
        ComesTo script steps w → (name : List ℕ) (answer : Result RosterRead Refusal) →
        GivesRoster name (Some (text_of (roster_tree (roster_of script)))) answer →
        IsOkAnd answer (λ read. IsOfScript read.roster.machines read.election w) }
{}

/// The logs of a script's machines that have played, as they are written, are files of their world,
/// all of them whole.
#[tactic(auto, using(crate::proofs::PlayedFiles::written_are_left))]
pub fn written_logs_are_of_their_world()
    ensures left { (script : Script) (machines : List MachineState) → IsPlayed script machines →
        AreFilesOf (world_of machines) (written_logs machines) }
    ensures all { (script : Script) (machines : List MachineState) → IsPlayed script machines →
        AreAllFilesOf (world_of machines) (written_logs machines) }
{}

/// What is left of the logs of an honest world, under its roster, gives logs that are read as what
/// the machines did. None of them is refused, since each is within the limit of a log's file.
#[tactic(auto, using(crate::proofs::LeftFileFacts::files_give))]
pub fn left_files_give_their_logs()
    ensures read { (posts : List Post) (w : World SealedEntry) → IsHonestWorld posts w →
        (names : List (List ℕ)) (files : List (Option (List ℕ))) → AreFilesOf w files →
        (logs : List LogRead) → GivesLogs posts (election_of posts) names files (Ok logs) →
        AreReadIn w logs }
    // Each is what its file is read as.
    ensures each { (posts : List Post) (w : World SealedEntry) → IsHonestWorld posts w →
        (names : List (List ℕ)) (files : List (Option (List ℕ))) → AreFilesOf w files →
        (logs : List LogRead) → GivesLogs posts (election_of posts) names files (Ok logs) →
        AreReadOf w files logs }
    // Where the whole logs are among the files, they are all read whole.
    ensures all { (posts : List Post) (w : World SealedEntry) → IsHonestWorld posts w →
        (names : List (List ℕ)) (files : List (Option (List ℕ))) → AreAllFilesOf w files →
        (logs : List LogRead) → GivesLogs posts (election_of posts) names files (Ok logs) →
        HaveAll w logs }
    ensures given { (posts : List Post) (w : World SealedEntry) → IsHonestWorld posts w →
        (names : List (List ℕ)) (files : List (Option (List ℕ))) → AreFilesOf w files →
        (refusal : Refusal) → ¬ GivesLogs posts (election_of posts) names files (Err refusal) }
{}

/// Where different entries have different digests, the graph of what is read of an honest world's
/// logs accuses nobody and agrees with the world, and it isn't refused.
#[tactic(auto, using(crate::proofs::HonestFiles::graph_is_honest))]
pub fn left_logs_give_an_honest_graph()
    ensures graph { (posts : List Post) (w : World SealedEntry) → IsHonestWorld posts w →
        Distinct node_of_sealed (sent_in w) → (logs : List LogRead) → AreReadIn w logs →
        (graph : EntryGraph SealedEntry) → GivesGraph (entries_of logs) (Ok graph) →
        IsHonestGraph w (entries_of logs) graph }
    ensures not_refused { (posts : List Post) (w : World SealedEntry) → IsHonestWorld posts w →
        Distinct node_of_sealed (sent_in w) → (logs : List LogRead) → AreReadIn w logs →
        (refusal : Refusal) → ¬ GivesGraph (entries_of logs) (Err refusal) }
{}

/// All logs of an honest world, whole, have a graph only where different entries have different
/// digests.
pub fn whole_logs_show_distinct()
    ensures { (posts : List Post) (w : World SealedEntry) → IsHonestWorld posts w →
        (logs : List LogRead) → HaveAll w logs → (graph : EntryGraph SealedEntry) →
        GivesGraph (entries_of logs) (Ok graph) → Distinct node_of_sealed (sent_in w) }
{}

/// The same for a script's world under the roster and the election that were read, from the files
/// to the graph: what a command that reads rosters and logs needs.
pub fn files_of_a_script_are_honestly_read()
    ensures read { (machines : List Post) (election : List ℕ) (w : World SealedEntry) →
        IsOfScript machines election w → Distinct node_of_sealed (sent_in w) →
        (names : List (List ℕ)) (files : List (Option (List ℕ))) →
        AreFilesOf w files → (logs : List LogRead) →
        GivesLogs machines election names files (Ok logs) →
        (graph : EntryGraph SealedEntry) → GivesGraph (entries_of logs) (Ok graph) →
        IsHonestlyRead machines election w names files logs graph }
    // Neither a log nor the graph is refused.
    ensures given { (machines : List Post) (election : List ℕ) (w : World SealedEntry) →
        IsOfScript machines election w →
        (names : List (List ℕ)) (files : List (Option (List ℕ))) →
        AreFilesOf w files → (refusal : Refusal) →
        ¬ GivesLogs machines election names files (Err refusal) }
    ensures not_refused { (machines : List Post) (election : List ℕ) (w : World SealedEntry) →
        IsOfScript machines election w → Distinct node_of_sealed (sent_in w) →
        (names : List (List ℕ)) (files : List (Option (List ℕ))) →
        AreFilesOf w files → (logs : List LogRead) →
        GivesLogs machines election names files (Ok logs) →
        (refusal : Refusal) → ¬ GivesGraph (entries_of logs) (Err refusal) }
    // Where all logs are there, whole, a graph shows the premise on digests.
    ensures distinct { (machines : List Post) (election : List ℕ) (w : World SealedEntry) →
        IsOfScript machines election w →
        (names : List (List ℕ)) (files : List (Option (List ℕ))) →
        AreAllFilesOf w files → (logs : List LogRead) →
        GivesLogs machines election names files (Ok logs) →
        (graph : EntryGraph SealedEntry) → GivesGraph (entries_of logs) (Ok graph) →
        Distinct node_of_sealed (sent_in w) }
{}
