// A proof's file.
ghost use Rattle.std.specs.Prelude.{◌≢◌, ◌≤◌, Err, IfErr, IfOk, IfSome, Ok, Some, length};
ghost use Rattle.entry_format.specs.Nodes.{node_of_sealed};
ghost use Rattle.entry_graph.specs.EntryGraph.{IsEntryGraph};
ghost use Rattle.evidence.specs.Reading.{IsReadFromFile};
ghost use Rattle.evidence.specs.Refusal.{IsAbsent, refusal_of};
ghost use Rattle.auditor.specs.Nodes.{nodes_of};
ghost use Rattle.log_commands.specs.ProofFile.{GivesProof, max_proof};

use audit_proof::{Proof, ProofFault, read_proof};
use entry_graph::Graph;
use evidence::{InputFault, file_fault};
use hall_outside::{Store, read_file};
use input_causes::Cause;
use std::alloc::Global;

/// The most bytes of a proof's file.
const MAX_PROOF: usize = 67_108_864;

/// Reads the proof for this graph in the named file. No file changes.
pub fn read_proof_file<S: Store>(
    alloc: Global,
    store: &mut S,
    name: &str,
    graph: &Graph,
) -> Result<Proof, InputFault>
    requires { IsEntryGraph node_of_sealed graph.now }
    ensures { IsReadFromFile S.Store (λ proof. proof) name.now
        (GivesProof name.now (nodes_of graph.now))
        store.old result store.new }
{
    match read_file(alloc, store, name, MAX_PROOF) {
        Ok(bytes) => proof_of(alloc, name, graph, bytes.as_slice()),
        Err(fault) => Err(file_fault(alloc, name, fault)),
    }
}

/// The proof for this graph that these bytes of the named file are the text of.
fn proof_of(alloc: Global, name: &str, graph: &Graph, bytes: &[u8]) -> Result<Proof, InputFault>
    requires graph { IsEntryGraph node_of_sealed graph.now }
    requires fits { length bytes.now ≤ max_proof }
    ensures ok { IfOk result (λ proof.
        GivesProof name.now (nodes_of graph.now) (Some bytes.now) (Ok proof)) }
    ensures err { IfErr result (λ fault. IfSome (refusal_of fault) (λ refusal.
        GivesProof name.now (nodes_of graph.now) (Some bytes.now) (Err refusal))) }
    ensures only { IfErr result (λ fault. (fault ≢ InputFault.ReadFault) × (¬ IsAbsent fault)) }
{
    match read_proof(alloc, graph, bytes) {
        Ok(proof) => Ok(proof),
        Err(ProofFault::At { line, why }) => {
            Err(InputFault::refused(alloc, name, line as u64, Cause::Proof(why)))
        }
        Err(ProofFault::Memory) => Err(InputFault::Memory),
    }
}
