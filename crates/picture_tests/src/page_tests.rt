//! What the pages of worked places have, by the document of formats. Digests are those of the
//! pictures.
use crate::places::{place_of, report_by};
use auditor::Report;
use item_list::Items;
use report_page::{Input, What, write_page};
use std::alloc::Global;
use std::test::Fail;

/// The logs of each place, the rules if they aren't the standard ones, and what its page has, a
/// piece on a line.
const PAGES: &[(&str, Option<&str>, &str)] = &[
    // Nothing is missing.
    (
        "0>a>b>c 1<a<b<c>d>e 2<a<b<c<e>f",
        None,
        "<strong>Kept: \n\
<td>roster</td><td>&lt;roster&gt; &amp; &quot;more&#39;</td><td>abababab\n\
<p>The rules are the 22 standard ones.</p>\n\
<td>b2</td><td>booth</td><td>2&lt;a&lt;b&lt;c&lt;e&gt;f</td><td>5</td><td>0</td>\
<td>ends whole</td>\n\
<tr><td>O1</td><td>(rule O1 (every x opened (every y opened (same x y))))\n\
<td>There is at most one opening.</td></tr>\n\
<tr id=\"e3\"><td>b1</td><td>0</td><td>4</td><td>activate</td><td>1</td><td>40246478\n\
<td>2 </td><td><a href=\"#e2\">sv.2</a> </td></tr>\n\
verdict kept",
    ),
    // The first booth's log is lost, and with it its first entry, which its second one names.
    (
        "0>a>b>c 2<a<b<c<e>f",
        None,
        "<strong>Unsettled: \n\
<tr><td>b1</td><td>booth</td><td>none was given</td></tr>\n\
<td>gap 40246478\n\
<td><a href=\"#e3\">b1.1</a> </td></tr>\n\
<tr><td>b1</td><td>no log of it was given: ask for it first</td></tr>\n\
<td>unsettled C1</td><td>Ask for the missing logs, and so close the gaps.</td>\n\
<td>2 </td><td>a lost one </td></tr>\n\
verdict unsettled",
    ),
    // A record of the supervisor's log is forged.
    (
        "0>a>b<g<h<!i>j",
        None,
        "<td>refused 0&gt;a&gt;b&lt;g&lt;h&lt;!i&gt;j 4 BadSignature</td>\n\
<td>break 0&gt;a&gt;b&lt;g&lt;h&lt;!i&gt;j 5</td>\n\
<td>5</td><td>1</td><td>ends whole</td><td>broken at record 5</td></tr>\n\
<tr><td>sv</td><td>a log of it is damaged: ask for another copy</td></tr>",
    ),
    // The supervisor's key has signed two first entries.
    (
        "0>a 1<k",
        None,
        "<strong>Broken: \n\
<td>fork sv 0</td>\n\
<td>broken K1 <a href=\"#e0\">sv.0</a> <a href=\"#e1\">sv.0</a> </td><td>Look at the entries\n\
<p>None: each entry that a surviving one names survives.</p>",
    ),
    // The supervisor's second entry has the stamp of the first.
    ("0>a>l", None, "<strong>Findings: \n<td>stray d5191e3f"),
    // The last byte of a log is lost.
    (
        "0>a>b<g<h<i>j-",
        None,
        "<td>torn 0&gt;a&gt;b&lt;g&lt;h&lt;i&gt;j- 22993</td>\n<td>torn at byte 22993</td>",
    ),
    // Rules of one's own, under a standard name, that no entry keeps.
    (
        "0>a 1<k",
        Some("(rule O1 (every x entry (not true)))"),
        "<p>The rules are NOT the standard ones\n\
<td>broken O1 <a href=\"#e0\">sv.0</a> </td><td>The rules are not the standard ones: a rule\n\
<tr><td>O1</td><td>(rule O1 (every x entry (not true)))",
    ),
];

/// The page of the report on a roster whose name has all that is escaped.
fn page_of(alloc: Global, report: &Report) -> Result<Vec<u8>, Fail> {
    let name = Vec::from_slice(alloc, b"<roster> & \"more'")?;
    let inputs = vec![in alloc;
        Input {
            what: What::Roster,
            name: Items::from_vec(name),
            digest: Some([171; 32]),
        },
    ]?;
    Ok(write_page(alloc, report, &inputs)?)
}

/// Whether the page has each of the pieces.
fn has_all(page: &[u8], pieces: &str) -> Result<bool, Fail> {
    match str::from_utf8(page) {
        Ok(page) => Ok(pieces.lines().all(|piece| page.contains(piece))),
        Err(_) => Err(Fail::from("the page is text")),
    }
}

#[test]
fn each_page_has_its_rows(rt: HostRuntime) -> Result<(), Fail> {
    let alloc = rt.alloc();
    let place = place_of(alloc)?;
    for &(logs, rules, pieces) in PAGES {
        let report = report_by(alloc, &place, logs, rules)?;
        let page = page_of(alloc, &report)?;
        assert!(rt; has_all(&page, pieces)?);
    }
    Ok(())
}
