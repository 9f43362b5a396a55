// The command `prove`: the proof of the order of the entries that logs keep, by which others check
// an audit.
ghost use Rattle.std.specs.Prelude.{◌≡◌, ◌≢◌, ◌∷◌, map, Err, IfErr, IfOk, IfSome, Ok};
ghost use Rattle.std.specs.Prelude.{string_bytes};
ghost use Rattle.entry_format.specs.Nodes.{node_of_sealed};
ghost use Rattle.entry_graph.specs.EntryGraph.{IsEntryGraph};
ghost use Rattle.evidence.specs.Reading.{IsReadFrom};
ghost use Rattle.evidence.specs.Refusal.{IsAbsent, refusal_of};
ghost use Rattle.auditor.specs.Nodes.{nodes_of};
ghost use Rattle.log_commands.specs.Prove.{GivesMade, GivesText, proof_answer, prove_parts};
ghost use Rattle.log_commands.specs.inside.Checking.{ProvesFiles, ProvesLogs};
ghost use Rattle.command_line.specs.Promise.{IsAnsweredBy};

use audit_proof::ProveFault;
use command_line::{Answer, Fault, OutputFile};
use entry_graph::Graph;
use evidence::{InputFault, RosterRead, graph_from, read_logs_by, read_roster};
use hall_outside::Store;
use input_causes::Cause;
use log_files::{EntryWork, LogRead};
use precedence::Arrows;
use std::alloc::{AllocError, Global};
use std::marker::Model;

/// How many survivors there are, and the text of their proof.
#[derive(Drop)]
struct ProofMade {
    entries: usize,
    text: Vec<u8>,
}

impl Model for ProofMade {
    ghost use Rattle.log_commands.specs.Prove.{ProofMade as Made};

    ghost Value = { Made };

    ghost view = { λ made. record { entries = made.entries; text = made.text.items } };
}

/// The proof of the graph's survivors, which is to go into the named file.
fn proof_of(alloc: Global, name: &str, graph: &Graph) -> Result<ProofMade, InputFault>
    requires { IsEntryGraph node_of_sealed graph.now }
    ensures ok { IfOk result (λ made. GivesText name.now (nodes_of graph.now) (Ok made)) }
    ensures err { IfErr result (λ fault. IfSome (refusal_of fault)
        (λ refusal. GivesText name.now (nodes_of graph.now) (Err refusal))) }
    ensures only { IfErr result (λ fault. (fault ≢ InputFault.ReadFault) × (¬ IsAbsent fault)) }
{
    match audit_proof::prove(alloc, graph) {
        Ok(text) => Ok(ProofMade {
            entries: graph.count(),
            text,
        }),
        Err(ProveFault::TooLong) => Err(InputFault::refused(alloc, name, 0, Cause::TooLong)),
        Err(ProveFault::Memory) => Err(InputFault::Memory),
    }
}

/// The proof of the survivors of the entries that the logs keep.
fn proof_of_logs(alloc: Global, name: &str, logs: Vec<LogRead>) -> Result<ProofMade, InputFault>
    ensures ok { IfOk result (λ made. ProvesLogs name.now logs.items (Ok made)) }
    ensures err { IfErr result (λ fault. IfSome (refusal_of fault)
        (λ refusal. ProvesLogs name.now logs.items (Err refusal))) }
    ensures only { IfErr result (λ fault. (fault ≢ InputFault.ReadFault) × (¬ IsAbsent fault)) }
{
    match graph_from(alloc, logs) {
        Ok(graph) => proof_of(alloc, name, &graph),
        Err(fault) => Err(fault),
    }
}

/// Reads the logs, and makes the proof of what they keep.
fn prove_under<W: EntryWork, S: Store>(
    work: &W,
    alloc: Global,
    store: &mut S,
    read: &RosterRead,
    proof: &str,
    logs: &[String],
) -> Result<ProofMade, InputFault>
    requires { W.may_share work.now }
    ensures { IsReadFrom S.Store (λ made. made) (map string_bytes logs.now)
        (ProvesFiles read.now proof.now (map string_bytes logs.now))
        store.old result store.new }
{
    match read_logs_by(work, alloc, store, logs, &read.roster, &read.election) {
        Ok(logs) => proof_of_logs(alloc, proof, logs),
        Err(fault) => Err(fault),
    }
}

/// Reads the roster and the logs, and makes the proof of what they keep.
fn prove_all<W: EntryWork, S: Store>(
    work: &W,
    alloc: Global,
    store: &mut S,
    roster: &str,
    proof: &str,
    logs: &[String],
) -> Result<ProofMade, InputFault>
    requires { W.may_share work.now }
    ensures { IsReadFrom S.Store (λ made. made) (roster.now ∷ map string_bytes logs.now)
        (GivesMade roster.now proof.now (map string_bytes logs.now))
        store.old result store.new }
{
    match read_roster(alloc, store, roster) {
        Ok(read) => prove_under(work, alloc, store, &read, proof, logs),
        Err(fault) => Err(fault),
    }
}

/// The answer of a proof, which goes into the named file.
fn answer_of(alloc: Global, proof: &str, made: ProofMade) -> Result<Answer, AllocError>
    ensures { IfOk result (λ answer. answer ≡ proof_answer proof.now made) }
{
    let entries = made.entries;
    let bytes = made.text.len();
    let output = format!(in alloc; "proof {proof} entries {entries} bytes {bytes}\n")?;
    let mut files = Vec::new(alloc);
    files.push(OutputFile::new(String::from_str(alloc, proof)?, made.text))?;
    Ok(Answer::of_files(files, output))
}

/// The answer of `prove` for the roster and the logs in these files, and the name of the proof's.
pub fn prove<W: EntryWork, S: Store>(
    work: &W,
    alloc: Global,
    store: &mut S,
    roster: &str,
    proof: &str,
    logs: &[String],
) -> Result<Answer, Fault>
    requires { W.may_share work.now }
    ensures { IsAnsweredBy S.Store (prove_parts roster.now proof.now (map string_bytes logs.now))
        store.old result store.new }
{
    match prove_all(work, alloc, store, roster, proof, logs) {
        Ok(made) => Ok(answer_of(alloc, proof, made)?),
        Err(fault) => Answer::of_fault(alloc, &fault),
    }
}
