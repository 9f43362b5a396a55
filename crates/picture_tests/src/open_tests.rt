//! Where `unsettled` is exact and where it isn't, by what an audit says of a few entries.
use crate::places::{Place, place_of, report_by};
use auditor::write_report;
use std::alloc::Global;
use std::test::Fail;

/// The rule P3 with three further disjuncts: an end of the session may also precede its
/// authorising.
const EXACT: &str = "(rule P3 (every x authorise (every y closed (implies (before x y) (or \
    (some z cast before y (= z.session x.session)) \
    (some z cancel before y (= z.session x.session)) \
    (some z challenge before y (= z.session x.session)) \
    (some z cast before x (= z.session x.session)) \
    (some z cancel before x (= z.session x.session)) \
    (some z challenge before x (= z.session x.session)))))))";

/// Logs, the rules if they aren't the standard ones, and a line of the report.
const LINES: &[(&str, Option<&str>, &str)] = &[
    // The closing names a gap, by which the authorising may precede it. The session's cast precedes
    // the authorising, so it then precedes the closing. P3 doesn't see that, its exact form does.
    ("0<m>n>o", None, "unsettled P3"),
    ("0<m>n>o", Some(EXACT), "kept P3"),
    // Both name one gap, so one precedes the other only in a completion with a cycle.
    ("0>p>s", None, "unsettled P3"),
    ("0>p>s", Some(EXACT), "unsettled P3"),
    // A rule and its opposite, one of which holds in each completion.
    (
        "0>p",
        Some(
            "(rule R (every x authorise (or (some y cast before x true) \
            (not (some y cast before x true)))))",
        ),
        "unsettled R",
    ),
    (
        "0>p<r",
        Some(
            "(rule R (every x authorise (every y activate (or (before y x) \
            (not (before y x))))))",
        ),
        "unsettled R",
    ),
    // Whatever fills the gap is an entry, and of one of the ten kinds.
    (
        "0>p",
        Some("(rule R (every x authorise (some y entry before x true)))"),
        "unsettled R",
    ),
    (
        "0>p",
        Some(
            "(rule R (every x authorise (or (some y opened before x true) \
            (some y authorise before x true) (some y override before x true) \
            (some y forced before x true) (some y closed before x true) \
            (some y activate before x true) (some y commit before x true) \
            (some y cast before x true) (some y cancel before x true) \
            (some y challenge before x true))))",
        ),
        "unsettled R",
    ),
    // Each entry that is lost meets `true`.
    (
        "0>p",
        Some("(rule R (every x authorise (every y cast before x true)))"),
        "unsettled R",
    ),
    // No machine has the number 9, so no lost entry has that maker.
    (
        "0>q",
        Some("(rule R (every x authorise (some y cast before x (= y.maker x.booth))))"),
        "unsettled R",
    ),
    // The number is 0, so no entry has the one before it.
    (
        "0>p",
        Some("(rule R (every x authorise (some y opened before x (next y x))))"),
        "unsettled R",
    ),
    // Two-sided rules: what is unsettled is open.
    (
        "0>p",
        Some("(rule R (every x authorise (some y opened before x true)))"),
        "unsettled R",
    ),
    (
        "0>p",
        Some("(rule R (every x authorise (not (some y closed before x true))))"),
        "unsettled R",
    ),
];

/// Whether an audit of the logs by the rules has the line in its report.
fn is_said(
    alloc: Global,
    place: &Place,
    logs: &str,
    rules: Option<&str>,
    line: &str,
) -> Result<bool, Fail> {
    let report = report_by(alloc, place, logs, rules)?;
    let text = write_report(alloc, &report)?;
    match str::from_utf8(&text) {
        Ok(text) => Ok(text.lines().any(|said| said == line)),
        Err(_) => Err(Fail::from("the report is text")),
    }
}

#[test]
fn what_is_unsettled_may_be_settled_outside_the_class(rt: HostRuntime) -> Result<(), Fail> {
    let alloc = rt.alloc();
    let place = place_of(alloc)?;
    for &(logs, rules, line) in LINES {
        assert!(rt; is_said(alloc, &place, logs, rules, line)?);
    }
    Ok(())
}
