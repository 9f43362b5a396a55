//! From the words of the command line to the answer.
ghost use Rattle.std.specs.Prelude.{
  ◌≡◌,
  ◌++◌,
  ◌∷◌,
  ◌+◌,
  ◌≤◌,
  [],
  IfErr,
  IfOk,
  OnOk,
  Some,
  map,
  string_bytes,
};
ghost use Rattle.auditor.specs.Sources.{source_of};
ghost use Rattle.auditor.specs.Report.{report_of};
ghost use Rattle.report_page.specs.declared.input.What.TheVariants as What;
ghost use Rattle.auditorium_view.specs.Shown.{IsViewed, IsViewedBy};
ghost use Rattle.auditorium_view.specs.View.{known_digest, files_before, inputs_of, log_inputs};
ghost use Rattle.auditorium_view.specs.View.{rule_inputs, view_answer, view_text};
ghost use Rattle.auditorium_view.specs.inside.Requests.{asked};

use crate::words::{Request, request_of};
use auditor::{Report, RulesFrom, audit_by};
use command_line::{Answer, Fault, rules_from, status_by};
use entangled_picture::write_picture;
use hall_outside::Store;
use item_list::Items;
use report_page::{Input, What, write_page};
use std::alloc::{AllocError, Global};
use ways_of_work::Alone;

/// The digest at a place, if it is known.
fn known_digest(digests: &[Option<[u8; 32]>], place: usize) -> Option<[u8; 32]>
    ensures { result ≡ known_digest digests.now place }
{
    if place < digests.len() {
        digests[place]
    } else {
        None
    }
}

/// Adds an input.
fn add_input(
    inputs: &mut Items<Input>,
    alloc: Global,
    what: What,
    name: &str,
    digest: Option<[u8; 32]>,
) -> Result<(), AllocError>
    ensures { OnOk result (inputs.new
        ≡ inputs.old ++ record { what = what; name = name.now; digest = digest } ∷ []) }
{
    let name = Items::from_vec(Vec::from_slice(alloc, name.as_bytes())?);
    inputs.push(Input { what, name, digest })
}

/// Adds the rules, where they are in a file.
fn add_rules(
    inputs: &mut Items<Input>,
    alloc: Global,
    rules: RulesFrom<'_>,
    digests: &[Option<[u8; 32]>],
) -> Result<(), AllocError>
    ensures { OnOk result (inputs.new
        ≡ inputs.old ++ rule_inputs digests.now (source_of rules.entry)) }
{
    match rules {
        RulesFrom::Standard => Ok(()),
        RulesFrom::File(name) => {
            add_input(inputs, alloc, What::Rules, name, known_digest(digests, 1))
        }
    }
}

/// How many files are read before the logs.
fn files_before(rules: RulesFrom<'_>) -> usize
    ensures value { result ≡ files_before (source_of rules.entry) }
    ensures few { result ≤ 2 }
{
    match rules {
        RulesFrom::Standard => 1,
        RulesFrom::File(_) => 2,
    }
}

/// Adds the log at a place, before which these many other files are read.
fn add_log(
    inputs: &mut Items<Input>,
    alloc: Global,
    place: usize,
    name: &str,
    digests: &[Option<[u8; 32]>],
    before: usize,
) -> Result<(), AllocError>
    ensures { OnOk result (inputs.new ≡ inputs.old ++ record {
      what = What.Log place;
      name = name.now;
      digest = known_digest digests.now (before + place);
    } ∷ []) }
{
    let digest = match before.checked_add(place) {
        Some(at) => known_digest(digests, at),
        None => None,
    };
    add_input(inputs, alloc, What::Log(place), name, digest)
}

/// Adds the logs.
fn add_logs(
    inputs: &mut Items<Input>,
    alloc: Global,
    logs: &[String],
    digests: &[Option<[u8; 32]>],
    before: usize,
) -> Result<(), AllocError>
    ensures { OnOk result (inputs.new
        ≡ inputs.old ++ log_inputs digests.now before (map string_bytes logs.now)) }
{
    for place in 0..logs.len() {
        add_log(inputs, alloc, place, logs[place].as_str(), digests, before)?;
    }
    Ok(())
}

/// The inputs of an audit.
fn inputs_of(
    alloc: Global,
    request: Request<'_>,
    digests: &[Option<[u8; 32]>],
) -> Result<Items<Input>, AllocError>
    ensures { IfOk result (λ inputs. inputs ≡ inputs_of digests.now (asked request.entry)) }
{
    let rules = rules_from(request.rules);
    let mut inputs = Items::new(alloc);
    add_input(
        &mut inputs,
        alloc,
        What::Roster,
        request.roster,
        known_digest(digests, 0),
    )?;
    add_rules(&mut inputs, alloc, rules, digests)?;
    add_logs(
        &mut inputs,
        alloc,
        request.logs,
        digests,
        files_before(rules),
    )?;
    Ok(inputs)
}

/// What is shown of a report: its picture alone, or its page.
fn view_text(
    alloc: Global,
    request: Request<'_>,
    digests: &[Option<[u8; 32]>],
    report: &Report,
) -> Result<Vec<u8>, AllocError>
    ensures { IfOk result (λ bytes. bytes.items
        ≡ view_text digests.now (asked request.entry) (report_of report.now)) }
{
    if request.picture {
        write_picture(alloc, report)
    } else {
        let inputs = inputs_of(alloc, request, digests)?;
        write_page(alloc, report, inputs.as_slice())
    }
}

/// The answer of a report.
fn answer_of(
    alloc: Global,
    request: Request<'_>,
    digests: &[Option<[u8; 32]>],
    report: &Report,
) -> Result<Answer, Fault>
    ensures ok { IfOk result (λ answer.
        answer ≡ view_answer digests.now (asked request.entry) (report_of report.now)) }
    ensures err { IfErr result (λ fault. fault ≡ Fault.Memory) }
{
    let output = view_text(alloc, request, digests, report)?;
    Ok(Answer::of_text(alloc, status_by(report.outcome()), output))
}

/// The answer to what the words ask for.
fn view_of<S: Store>(
    alloc: Global,
    request: Request<'_>,
    digests: &[Option<[u8; 32]>],
    store: &mut S,
) -> Result<Answer, Fault>
    ensures { IsViewedBy S.Store digests.now (Some (asked request.entry))
        store.old result store.new }
{
    let rules = rules_from(request.rules);
    match audit_by(&Alone, alloc, store, request.roster, rules, request.logs) {
        Ok(report) => answer_of(alloc, request, digests, &report),
        Err(fault) => Answer::of_fault(alloc, &fault),
    }
}

/// The answer to the words, with these digests of the files. Nothing is written.
pub(crate) fn view<S: Store>(
    alloc: Global,
    words: &[String],
    digests: &[Option<[u8; 32]>],
    store: &mut S,
) -> Result<Answer, Fault>
    ensures { IsViewed S.Store digests.now (map string_bytes words.now)
        store.old result store.new }
{
    match request_of(words) {
        Some(request) => view_of(alloc, request, digests, store),
        None => Ok(Answer::usage(alloc)?),
    }
}
