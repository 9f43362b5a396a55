//! What the pictures of worked places show. Marks and spots were computed by a separate plain
//! program.
use crate::places::{Place, place_of, report_on};
use auditor::Report;
use entangled_picture::{Shape, shapes_of, write_picture};
use std::alloc::Global;
use std::test::Fail;

/// The logs of each place, the spots of its entries, and the titles of its picture.
const PICTURES: &[(&str, &str, &str)] = &[
    // Nothing is missing.
    (
        "0>a>b>c 1<a<b<c>d>e 2<a<b<c<e>f",
        " 1.0.0 2.0.0 3.0.0 4.1.0 5.1.0 6.2.0",
        "verdict kept/machine sv/machine b1/machine b2/log 0&gt;a&gt;b&gt;c/\
        log 1&lt;a&lt;b&lt;c&gt;d&gt;e/log 2&lt;a&lt;b&lt;c&lt;e&gt;f/sv.1 names sv.0/\
        sv.2 names sv.1/b1.0 names sv.2/b1.1 names b1.0/b2.0 names sv.2/b2.0 names b1.1/\
        sv.0 opened 131a93ac/sv.1 authorise a4dd1b66/sv.2 authorise 50572071/\
        b1.0 activate 40246478/b1.1 commit ff77ea39/b2.0 activate ce5e2e20/",
    ),
    // The first booth's log is lost, and with it its first entry, which its second one names.
    (
        "0>a>b>c 2<a<b<c<e>f",
        " 1.0.0 2.0.0 3.0.0 4.1.0 5.2.0",
        "verdict unsettled/machine sv/machine b1/machine b2/log 0&gt;a&gt;b&gt;c/\
        log 2&lt;a&lt;b&lt;c&lt;e&gt;f/sv.1 names sv.0/sv.2 names sv.1/b2.0 names sv.2/\
        b2.0 names b1.1/b1.1 names a gap/gap 40246478/sv.0 opened 131a93ac/\
        sv.1 authorise a4dd1b66/sv.2 authorise 50572071/b1.1 commit ff77ea39/\
        b2.0 activate ce5e2e20/",
    ),
    // A record of the supervisor's log is forged.
    (
        "0>a>b<g<h<!i>j",
        " 1.0.0 2.0.0 3.1.0 4.1.0 5.0.0",
        "verdict unsettled/machine sv/machine b1/machine b2/\
        log 0&gt;a&gt;b&lt;g&lt;h&lt;!i&gt;j/\
        0&gt;a&gt;b&lt;g&lt;h&lt;!i&gt;j: record 4 is refused, BadSignature/\
        0&gt;a&gt;b&lt;g&lt;h&lt;!i&gt;j: no legal history from record 5 on/sv.1 names sv.0/\
        b1.0 names sv.1/b1.1 names b1.0/sv.2 names a gap/gap e41c783a/sv.0 opened 131a93ac/\
        sv.1 authorise a4dd1b66/b1.0 activate f1ddccc0/b1.1 commit 5149b0d4/\
        sv.2 closed b2bde547/",
    ),
    // The supervisor's key has signed two first entries.
    (
        "0>a 1<k",
        " 1.0.0 1.0.1",
        "verdict broken/machine sv/machine b1/machine b2/log 0&gt;a/log 1&lt;k/\
        rule K1 is broken/rule K1 is broken/fork sv.0/sv.0 closed 045301c2/\
        sv.0 opened 131a93ac/",
    ),
    // The supervisor's second entry has the stamp of the first.
    (
        "0>a>l",
        " 1.0.0",
        "verdict findings/machine sv/machine b1/machine b2/log 0&gt;a&gt;l/\
        0&gt;a&gt;l: no legal history from record 1 on/stray d5191e3f/sv.0 opened 131a93ac/",
    ),
    // The last byte of a log is lost.
    (
        "0>a>b<g<h<i>j-",
        " 1.0.0 2.0.0 3.1.0 4.1.0 5.1.0",
        "verdict findings/machine sv/machine b1/machine b2/\
        log 0&gt;a&gt;b&lt;g&lt;h&lt;i&gt;j-/\
        0&gt;a&gt;b&lt;g&lt;h&lt;i&gt;j-: torn at 22993/sv.1 names sv.0/b1.0 names sv.1/\
        b1.1 names b1.0/b1.2 names b1.1/sv.0 opened 131a93ac/sv.1 authorise a4dd1b66/\
        b1.0 activate f1ddccc0/b1.1 commit 5149b0d4/b1.2 cast e41c783a/",
    ),
];

/// Texts in the picture of two logs of the supervisor, one of the second booth, and two entries.
/// Columns are 36 apart from 220 on. A lane is 32 high, and 64 more for each level, from 268 on.
const DRAWN: &[&str] = &[
    // Room for the legend and words; three lanes, of which the first has two levels.
    " width=\"530\" height=\"620\" viewBox=\"0 0 530 620\">",
    // The first entry leads to the row of the first survivor.
    "<a class=\"opened\" href=\"#e0\" transform=\"translate(256 268)\">",
    // The second log's name is below the first one's, and the first booth's lane below both.
    "translate(8 336)\">0&gt;a&gt;b</text>",
    "d=\"M202 428H292\"><title>machine b1</title>",
    ">no log</text>",
];

/// The spots of the entries: column, lane and level of each.
fn spots_of(alloc: Global, report: &Report) -> Result<String, Fail> {
    let mut spots = String::new(alloc);
    for shape in &shapes_of(alloc, report)? {
        if let Shape::Entry { at, .. } = shape {
            let (column, lane, level) = (at.column, at.lane, at.level);
            write!(spots, " {column}.{lane}.{level}")?;
        }
    }
    Ok(spots)
}

/// The titles of a document, with a stroke after each.
fn titles_in(alloc: Global, document: &str) -> Result<String, Fail> {
    let mut titles = String::new(alloc);
    for line in document.lines() {
        if let Some((_, rest)) = line.split_once("<title") {
            let (_, rest) = rest.split_once(">").unwrap_or(("", rest));
            let (title, _) = rest.split_once("</title>").unwrap_or((rest, ""));
            write!(titles, "{title}/")?;
        }
    }
    Ok(titles)
}

/// How many logs each machine has, and the lane and level of the line of each log.
fn logs_of(alloc: Global, report: &Report) -> Result<String, Fail> {
    let mut logs = String::new(alloc);
    for shape in &shapes_of(alloc, report)? {
        match shape {
            Shape::Lane { logs: given, .. } => write!(logs, " {given}")?,
            Shape::Log { end, .. } => {
                let (lane, level) = (end.lane, end.level);
                write!(logs, " {lane}.{level}")?;
            }
            _ => {}
        }
    }
    Ok(logs)
}

/// Whether the picture of a report has the text.
fn is_drawn(alloc: Global, report: &Report, text: &str) -> Result<bool, Fail> {
    let document = write_picture(alloc, report)?;
    match str::from_utf8(&document) {
        Ok(document) => Ok(document.split_once(text).is_some()),
        Err(_) => Err(Fail::from("the document is text")),
    }
}

/// The titles of the picture of a report.
fn titles_of(alloc: Global, report: &Report) -> Result<String, Fail> {
    let document = write_picture(alloc, report)?;
    match str::from_utf8(&document) {
        Ok(document) => titles_in(alloc, document),
        Err(_) => Err(Fail::from("the document is text")),
    }
}

#[test]
fn each_place_has_its_marks(rt: HostRuntime) -> Result<(), Fail> {
    let alloc = rt.alloc();
    let place = place_of(alloc)?;
    for &(logs, spots, titles) in PICTURES {
        let report = report_on(alloc, &place, logs)?;
        assert_eq!(rt; spots_of(alloc, &report)?.as_str(), spots);
        assert_eq!(rt; titles_of(alloc, &report)?.as_str(), titles);
    }
    Ok(())
}

#[test]
fn each_log_stands_in_its_machines_lane(rt: HostRuntime) -> Result<(), Fail> {
    let alloc = rt.alloc();
    let place = place_of(alloc)?;
    let report = report_on(alloc, &place, "0>a 0>a>b 2<a")?;
    assert_eq!(rt; logs_of(alloc, &report)?.as_str(), " 2 0 1 0.0 0.1 2.0");
    for text in DRAWN {
        assert!(rt; is_drawn(alloc, &report, text)?);
    }
    Ok(())
}
