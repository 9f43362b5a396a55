//! The lines of a report. Each call adds its lines after those that are there.
ghost use Rattle.std.specs.Prelude.{◌≡◌, ◌<◌, ◌++◌, ℕ, length, map, All, Some, OnOk, string_bytes};
ghost use Rattle.std.specs.List.{flat_map, zip};
ghost use Rattle.rule_engine.specs.declared.verdict.Verdict.{Verdict as VerdictOf};
ghost use Rattle.rule_language.specs.Forms.{rule_tree};
ghost use Rattle.survivor_rows.specs.Rows.{HaveMakers};
ghost use Rattle.auditor.specs.ReportText.{
  maker_name,
  log_head_line,
  break_line,
  log_lines,
  stray_lines,
  fork_lines,
};
ghost use Rattle.auditor.specs.ReportText.{
  graph_lines,
  entry_word,
  entry_words,
  verdict_line,
  rule_line,
};
ghost use Rattle.auditor.specs.inside.Places.{AreBelow, IsBelow};

use entry_format::Sealed;
use entry_graph::Graph;
use log_files::{LogRead, add_end, add_gaps, add_refused};
use precedence::Arrows;
use roster::Roster;
use rule_engine::Verdict;
use rule_language::Rule;
use std::alloc::{AllocError, Global};
use std::fmt::Write;

/// The name of the machine with this number.
fn name_at(roster: &Roster, maker: u32) -> &str
    requires { maker < length roster.now.machines }
    ensures { result.now ≡ maker_name roster.now.machines maker }
{
    roster.machines.as_slice()[maker as usize].name.as_str()
}

/// Adds the first line of a log.
fn add_log_line(lines: &mut String, file: &str, log: &LogRead) -> Result<(), AllocError>
    ensures { OnOk result
        (string_bytes lines.new ≡ string_bytes lines.old ++ log_head_line file.now log.now) }
{
    let owner = log.owner;
    let kept = log.kept.len();
    let refused = log.refused.len();
    write!(
        lines,
        "log {file} owner {owner} kept {kept} refused {refused}\n"
    )
}

/// Adds a line where the kept records of a log break.
fn add_break(lines: &mut String, file: &str, broke: Option<u32>) -> Result<(), AllocError>
    ensures { OnOk result
        (string_bytes lines.new ≡ string_bytes lines.old ++ break_line file.now broke) }
{
    match broke {
        None => Ok(()),
        Some(place) => write!(lines, "break {file} {place}\n"),
    }
}

/// Adds the lines of a log.
fn add_log(lines: &mut String, file: &str, log: &LogRead) -> Result<(), AllocError>
    ensures { OnOk result
        (string_bytes lines.new ≡ string_bytes lines.old ++ log_lines (file.now, log.now)) }
{
    add_log_line(lines, file, log)?;
    add_refused(lines, file, log.refused.as_slice())?;
    add_end(lines, file, log.end)?;
    add_break(lines, file, log.broke)
}

/// Adds the lines of the logs in these files.
pub(crate) fn add_logs(
    lines: &mut String,
    files: &[String],
    logs: &[LogRead],
) -> Result<(), AllocError>
    requires { length files.now ≡ length logs.now }
    ensures { OnOk result (string_bytes lines.new
        ≡ string_bytes lines.old
        ++ flat_map log_lines (zip (map string_bytes files.now) logs.now)) }
{
    for i in 0..files.len() {
        add_log(lines, files[i].as_str(), &logs[i])?;
    }
    Ok(())
}

/// Adds a line for each stray.
fn add_strays(alloc: Global, lines: &mut String, digests: &[[u8; 32]]) -> Result<(), AllocError>
    ensures { OnOk result
        (string_bytes lines.new ≡ string_bytes lines.old ++ stray_lines digests.now) }
{
    for digest in digests {
        let digits = hex::encode(alloc, *digest)?;
        write!(lines, "stray {digits}\n")?;
    }
    Ok(())
}

/// Adds a line for each fork.
fn add_forks(lines: &mut String, roster: &Roster, forks: &[(u32, u32)]) -> Result<(), AllocError>
    requires { All (λ (fork : ℕ × ℕ). fork.0 < length roster.now.machines) forks.now }
    ensures { OnOk result (string_bytes lines.new
        ≡ string_bytes lines.old ++ fork_lines roster.now.machines forks.now) }
{
    for (maker, number) in forks {
        let name = name_at(roster, *maker);
        write!(lines, "fork {name} {number}\n")?;
    }
    Ok(())
}

/// Adds the lines of the graph.
pub(crate) fn add_graph(
    alloc: Global,
    lines: &mut String,
    roster: &Roster,
    graph: &Graph,
) -> Result<(), AllocError>
    requires { HaveMakers roster.now.machines graph.now.survivors }
    ensures { OnOk result (string_bytes lines.new
        ≡ string_bytes lines.old ++ graph_lines roster.now.machines graph.now) }
{
    let count = graph.count();
    write!(lines, "entries {count}\n")?;
    add_strays(alloc, lines, graph.strays())?;
    add_forks(lines, roster, graph.forks())?;
    add_gaps(alloc, lines, graph.gaps())
}

/// Adds the word of an entry by which a rule is broken.
fn add_entry(
    alloc: Global,
    lines: &mut String,
    roster: &Roster,
    sealed: &Sealed,
) -> Result<(), AllocError>
    requires { sealed.now.entry.maker < length roster.now.machines }
    ensures { OnOk result (string_bytes lines.new
        ≡ string_bytes lines.old ++ entry_word roster.now.machines (Some sealed.now)) }
{
    let name = name_at(roster, sealed.entry().maker);
    let number = sealed.entry().number;
    let digits = hex::encode(alloc, *sealed.digest())?;
    write!(lines, " {name}.{number}:{digits}")
}

/// Adds the words of the survivors at these places.
fn add_entries(
    alloc: Global,
    lines: &mut String,
    roster: &Roster,
    graph: &Graph,
    places: &[u32],
) -> Result<(), AllocError>
    requires makers { HaveMakers roster.now.machines graph.now.survivors }
    requires below { AreBelow (length graph.now.survivors) places.now }
    ensures { OnOk result (string_bytes lines.new ≡ string_bytes lines.old
        ++ entry_words roster.now.machines graph.now.survivors places.now) }
{
    for place in places {
        add_entry(alloc, lines, roster, graph.node(*place as usize))?;
    }
    Ok(())
}

/// Adds the line of a rule with this name.
fn add_verdict(
    alloc: Global,
    lines: &mut String,
    roster: &Roster,
    graph: &Graph,
    name: &str,
    verdict: &Verdict,
) -> Result<(), AllocError>
    requires makers { HaveMakers roster.now.machines graph.now.survivors }
    requires below { IsBelow (length graph.now.survivors) verdict.now }
    ensures { OnOk result (string_bytes lines.new ≡ string_bytes lines.old
        ++ verdict_line roster.now.machines graph.now.survivors name.now verdict.now) }
{
    match verdict {
        Verdict::Kept => write!(lines, "kept {name}\n"),
        Verdict::Unsettled => write!(lines, "unsettled {name}\n"),
        Verdict::Broken(places) => {
            write!(lines, "broken {name}")?;
            add_entries(alloc, lines, roster, graph, places.as_slice())?;
            write!(lines, "\n")
        }
    }
}

/// Adds the line of each rule.
pub(crate) fn add_rules(
    alloc: Global,
    lines: &mut String,
    roster: &Roster,
    graph: &Graph,
    rules: &[Rule],
    verdicts: &[Verdict],
) -> Result<(), AllocError>
    requires makers { HaveMakers roster.now.machines graph.now.survivors }
    requires one_each { length rules.now ≡ length verdicts.now }
    requires below { All (λ (verdict : VerdictOf). IsBelow (length graph.now.survivors) verdict)
        verdicts.now }
    ensures { OnOk result (string_bytes lines.new ≡ string_bytes lines.old
        ++ flat_map (rule_line roster.now.machines graph.now.survivors)
        (zip (map rule_tree rules.now) verdicts.now)) }
{
    for i in 0..rules.len() {
        add_verdict(
            alloc,
            lines,
            roster,
            graph,
            rules[i].name.as_str(),
            &verdicts[i],
        )?;
    }
    Ok(())
}
