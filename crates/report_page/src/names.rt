//! The names of machines and of entries.
ghost use Rattle.std.specs.Prelude.{◌≡◌};
ghost use Rattle.auditor.specs.Report.{report_of};
ghost use Rattle.auditor.specs.ReportText.{maker_name};

use auditor::Report;

/// The name of the machine at a place of the roster; nothing where it lacks the place.
pub(crate) fn name_of(report: &Report, place: usize) -> &str
    ensures { result.now ≡ maker_name (report_of report.now).machines place }
{
    match report.roster().machines.as_slice().get(place) {
        Some(post) => post.name.as_str(),
        None => "",
    }
}
