//! The laws of audits of what is left of an honest place. Each is the contract of a function with
//! an empty body.
ghost use Rattle.honest_places.specs.ReportLaws.{
  AuditsAreRefusedOnlySo,
  ReportsAccuseNobody,
  ReportsLeaveRulesOpen,
  ReportsSayNoneBroken,
  WholeReportsSayAllKept,
  WholeReportsShowDistinct,
};

/// Where different entries have different digests, a report on what is left of the logs of a
/// script's machines accuses nobody, whichever rules it goes by.
pub fn honest_places_have_honest_reports()
    ensures { ReportsAccuseNobody }
{}

/// With the standard rules it says of none that it is broken. Where the whole logs are all among
/// the files, it says of each that it is kept.
pub fn honest_places_keep_the_standard_rules()
    ensures never_broken { ReportsSayNoneBroken }
    // That there is a report shows that digests differ.
    ensures kept { WholeReportsSayAllKept }
{}

/// Where different entries have different digests, each standard rule that such a report leaves
/// unsettled, P3 too, may have been kept and may have been broken: some entries that complete the
/// survivors keep it, and some break it. So nobody can settle it from the same logs.
pub fn unsettled_rules_of_honest_places_are_open()
    ensures { ReportsLeaveRulesOpen }
{}

/// Where different entries have different digests, such an audit is refused only for rules in a
/// file: the file is refused, or one of its rules is too wide. By the standard rules it is never
/// refused. Nor is it for the roster, for a log, for a collision or for too many entries.
pub fn honest_audits_are_refused_only_so()
    ensures { AuditsAreRefusedOnlySo }
{}

/// Where the whole logs are all among the files, a report shows that different entries have
/// different digests.
pub fn whole_audits_show_distinct()
    ensures { WholeReportsShowDistinct }
{}
