//! The laws. Each is the contract of a function with an empty body.
ghost use Rattle.report_exactness.specs.ReportExact.{ReportsAreExact};

/// Of the standard rules just those are unsettled that may have been kept and may have been broken.
pub fn reports_are_exact()
    ensures { ReportsAreExact }
{}
