// A script's file.
ghost use Rattle.std.specs.Prelude.{◌≢◌, ◌≤◌, Err, IfErr, IfOk, IfSome, Ok, Some, length};
ghost use Rattle.election_script.specs.Lawful.{IsLawful};
ghost use Rattle.evidence.specs.Reading.{IsReadFromFile};
ghost use Rattle.evidence.specs.Refusal.{IsAbsent, refusal_of};
ghost use Rattle.place_commands.specs.ScriptFile.{GivesScript, max_script};

use election_script::{Script, ScriptFault, read};
use evidence::{InputFault, file_fault};
use hall_outside::{Store, read_file};
use input_causes::Cause;
use std::alloc::Global;

/// The most bytes of a script's file.
const MAX_SCRIPT: usize = 4_194_304;

/// Reads a script's file. No file changes.
pub fn read_script<S: Store>(alloc: Global, store: &mut S, name: &str) -> Result<Script, InputFault>
    ensures read { IsReadFromFile S.Store (λ script. script) name.now (GivesScript name.now)
        store.old result store.new }
    ensures lawful { IfOk result IsLawful }
{
    match read_file(alloc, store, name, MAX_SCRIPT) {
        Ok(bytes) => script_of(alloc, name, bytes.as_slice()),
        Err(fault) => Err(file_fault(alloc, name, fault)),
    }
}

/// The script that these bytes of the named file are the text of.
fn script_of(alloc: Global, name: &str, bytes: &[u8]) -> Result<Script, InputFault>
    requires { length bytes.now ≤ max_script }
    ensures ok { IfOk result (λ script. GivesScript name.now (Some bytes.now) (Ok script)) }
    ensures err { IfErr result (λ fault. IfSome (refusal_of fault)
        (λ refusal. GivesScript name.now (Some bytes.now) (Err refusal))) }
    ensures only { IfErr result (λ fault. (fault ≢ InputFault.ReadFault) × (¬ IsAbsent fault)) }
    ensures lawful { IfOk result IsLawful }
{
    match read(alloc, bytes) {
        Ok(script) => Ok(script),
        Err(ScriptFault::At { line, why }) => {
            Err(InputFault::refused(alloc, name, line as u64, Cause::Script(why)))
        }
        Err(ScriptFault::Memory) => Err(InputFault::Memory),
    }
}
