//! The words in a picture.
ghost use Rattle.std.specs.Prelude.{◌≡◌, IfOk, string_bytes};
ghost use Rattle.auditor.specs.Report.{report_of};
ghost use Rattle.entry_format.specs.EntryText.{deed_word};
ghost use Rattle.entangled_picture.specs.Names.{
  arrow_words,
  bar_words,
  break_words,
  entry_name,
  survivor_words,
  first_digits,
  light_words,
  file_name,
  machine_name,
  malformed_words,
  path_above,
  path_along,
  path_between,
  refused_words,
  row_reference,
  rule_name,
  short_name,
  torn_words,
  two_words,
};

use auditor::Report;
use entry_format::Deed;
use std::alloc::{AllocError, Global};

/// The name of the machine of this lane.
pub(crate) fn machine_name(report: &Report, lane: usize) -> &str
    ensures { result.now ≡ machine_name (report_of report.now) lane }
{
    match report.roster().machines.as_slice().get(lane) {
        Some(post) => post.name.as_str(),
        None => "",
    }
}

/// The name of the log at this place.
pub(crate) fn file_name(report: &Report, log: usize) -> &str
    ensures { result.now ≡ file_name (report_of report.now) log }
{
    match report.files().get(log) {
        Some(file) => file.as_str(),
        None => "",
    }
}

/// A name that is longer than there is room for, from its end.
pub(crate) fn short_name(alloc: Global, name: &str) -> Result<Vec<u8>, AllocError>
    ensures { IfOk result (λ short. short.items ≡ short_name name.now) }
{
    let bytes = name.as_bytes();
    let mut short = Vec::new(alloc);
    if bytes.len() <= 28 {
        short.extend_from_slice(bytes)?;
    } else {
        short.extend_from_slice(b"..")?;
        short.extend_from_slice(&bytes[bytes.len() - 26..])?;
    }
    Ok(short)
}

/// The name of the rule at this place.
pub(crate) fn rule_name(report: &Report, rule: usize) -> &str
    ensures { result.now ≡ rule_name (report_of report.now) rule }
{
    match report.rules().get(rule) {
        Some(rule) => rule.name.as_str(),
        None => "",
    }
}

/// The word of a deed.
pub(crate) fn deed_word(deed: Deed) -> &'static str
    ensures { result.now ≡ deed_word deed }
{
    match deed {
        Deed::Opened => "opened",
        Deed::Authorise { .. } => "authorise",
        Deed::Override { .. } => "override",
        Deed::Closed => "closed",
        Deed::Activate { .. } => "activate",
        Deed::Commit { .. } => "commit",
        Deed::Cast { .. } => "cast",
        Deed::Cancel { .. } => "cancel",
        Deed::Challenge { .. } => "challenge",
    }
}

/// The first eight digits of a digest.
pub(crate) fn first_digits(alloc: Global, digest: &[u8; 32]) -> Result<String, AllocError>
    ensures { IfOk result (λ digits. string_bytes digits ≡ first_digits digest.now) }
{
    hex::encode(alloc, &digest[..4])
}

/// Words of two parts.
pub(crate) fn two_words(alloc: Global, first: &str, second: &str) -> Result<String, AllocError>
    ensures { IfOk result (λ text. string_bytes text ≡ two_words first.now second.now) }
{
    format!(in alloc; "{first}{second}")
}

/// A machine's entry with a number.
pub(crate) fn entry_name(alloc: Global, machine: &str, number: u32) -> Result<String, AllocError>
    ensures { IfOk result (λ text. string_bytes text ≡ entry_name machine.now number) }
{
    format!(in alloc; "{machine}.{number}")
}

/// What a survivor's mark says.
pub(crate) fn survivor_words(
    alloc: Global,
    name: &str,
    kind: &str,
    digits: &str,
) -> Result<String, AllocError>
    ensures { IfOk result (λ text.
        string_bytes text ≡ survivor_words name.now kind.now digits.now) }
{
    format!(in alloc; "{name} {kind} {digits}")
}

/// What an arrow says.
pub(crate) fn arrow_words(alloc: Global, name: &str, other: &str) -> Result<String, AllocError>
    ensures { IfOk result (λ text. string_bytes text ≡ arrow_words name.now other.now) }
{
    format!(in alloc; "{name} names {other}")
}

/// What a bar says.
pub(crate) fn bar_words(alloc: Global, entries: usize, machine: &str) -> Result<String, AllocError>
    ensures { IfOk result (λ text. string_bytes text ≡ bar_words entries machine.now) }
{
    format!(in alloc; "{entries} more entries of {machine}")
}

/// What the light of a broken rule says.
pub(crate) fn light_words(alloc: Global, rule: &str) -> Result<String, AllocError>
    ensures { IfOk result (λ text. string_bytes text ≡ light_words rule.now) }
{
    format!(in alloc; "rule {rule} is broken")
}

/// What the mark of a refused record says.
pub(crate) fn refused_words(
    alloc: Global,
    log: &str,
    record_at: u32,
    cause: &str,
) -> Result<String, AllocError>
    ensures { IfOk result (λ text.
        string_bytes text ≡ refused_words log.now record_at cause.now) }
{
    format!(in alloc; "{log}: record {record_at} is refused, {cause}")
}

/// What the mark of a log that ends inside a record says.
pub(crate) fn torn_words(alloc: Global, log: &str, offset: u64) -> Result<String, AllocError>
    ensures { IfOk result (λ text. string_bytes text ≡ torn_words log.now offset) }
{
    format!(in alloc; "{log}: torn at {offset}")
}

/// What the mark of a log says that ends at a byte which isn't allowed there.
pub(crate) fn malformed_words(
    alloc: Global,
    log: &str,
    offset: u64,
    cause: &str,
) -> Result<String, AllocError>
    ensures { IfOk result (λ text.
        string_bytes text ≡ malformed_words log.now offset cause.now) }
{
    format!(in alloc; "{log}: malformed at {offset}, {cause}")
}

/// What the mark of a break says.
pub(crate) fn break_words(alloc: Global, log: &str, record_at: u32) -> Result<String, AllocError>
    ensures { IfOk result (λ text. string_bytes text ≡ break_words log.now record_at) }
{
    format!(in alloc; "{log}: no legal history from record {record_at} on")
}

/// A path between two points.
pub(crate) fn path_between(
    alloc: Global,
    x: u128,
    y: u128,
    to_x: u128,
    to_y: u128,
) -> Result<String, AllocError>
    ensures { IfOk result (λ text. string_bytes text ≡ path_between x y to_x to_y) }
{
    format!(in alloc; "M{x} {y}L{to_x} {to_y}")
}

/// A path along a lane, from its begin.
pub(crate) fn path_along(alloc: Global, y: u128, to_x: u128) -> Result<String, AllocError>
    ensures { IfOk result (λ text. string_bytes text ≡ path_along y to_x) }
{
    format!(in alloc; "M202 {y}H{to_x}")
}

/// A path above a fork.
pub(crate) fn path_above(alloc: Global, x: u128, y: u128, to_x: u128) -> Result<String, AllocError>
    ensures { IfOk result (λ text. string_bytes text ≡ path_above x y to_x) }
{
    format!(in alloc; "M{x} {y}m-14 -13v-8H{to_x}h14v8")
}

/// The reference to the row of an entry in the table of entries.
pub(crate) fn row_reference(alloc: Global, place: usize) -> Result<String, AllocError>
    ensures { IfOk result (λ text. string_bytes text ≡ row_reference place) }
{
    format!(in alloc; "#e{place}")
}
