//! What the page says in words of its own.

/// The title of the page.
pub(crate) const TITLE: &str = "Audit of a polling place";

/// How wide a screen is taken to be.
pub(crate) const VIEWPORT: &str = "width=device-width";

/// The style, for light and dark windows and for paper. It has no character that is escaped.
pub(crate) const STYLE: &str =
    ":root{color-scheme:light dark;--ink:#1a1a1a;--paper:#fff;--line:#767676;\
--band:#f3f3f0;--link:#0b57a4}\
@media(prefers-color-scheme:dark){:root{--ink:#e8e8e4;--paper:#16181b;--line:#8c8c8c;\
--band:#22252a;--link:#8ec1f5}}\
body{margin:0 auto;padding:1rem;max-width:76rem;background:var(--paper);color:var(--ink);\
font:16px/1.45 sans-serif}\
h1{font-size:1.6rem}h2{font-size:1.25rem;margin:2rem 0 .5rem;border-bottom:2px solid var(--line)}\
h3{font-size:1.05rem;margin:1.2rem 0 .3rem}p{margin:.4rem 0;max-width:46rem}\
#verdict p:first-of-type{font-size:1.15rem;border-left:.4rem solid var(--ink);padding-left:.7rem}\
a{color:var(--link)}.wide{overflow-x:auto}\
table{border-collapse:collapse;font-size:.875rem;width:100%}\
th,td{border:1px solid var(--line);padding:.25rem .5rem;text-align:left;vertical-align:top;\
min-width:3rem}td{overflow-wrap:anywhere}\
#machines td:nth-child(3):last-child{font-weight:bold}\
th{background:var(--band)}tr:target td{outline:2px solid var(--link)}\
pre{overflow-x:auto;border:1px solid var(--line);padding:.5rem;font-size:.8rem}\
#machines table{min-width:44rem}#entries table{min-width:62rem}#rules table{min-width:30rem}\
#entries td:nth-child(6),#gaps td:first-child,#audited td:last-child{font-family:monospace}\
@media print{body{max-width:none;font-size:9pt;background:#fff;color:#000}\
.wide{overflow:visible}svg.picture{max-width:100%;height:auto}\
#machines table,#entries table,#rules table{min-width:0}\
pre{white-space:pre-wrap;overflow-wrap:anywhere}\
tr{break-inside:avoid}h2,h3{break-after:avoid}a{color:#000}}";

/// What stands in a table's place if it has no rows.
pub(crate) const NOTHING: &str = "None.";

/// What a report comes to.
pub(crate) const VERDICT: &str = "Verdict";

pub(crate) const SAYS_KEPT: &str = "Kept: the entries that survive keep every rule, whatever the \
lost ones were, and nothing was found.";

pub(crate) const SAYS_FINDINGS: &str = "Findings: the entries that survive keep every rule, \
whatever the lost ones were, but something was found.";

pub(crate) const SAYS_UNSETTLED: &str = "Unsettled: no rule is known to be broken, but of some it \
is not known whether the entries that survive keep them, since others are lost.";

pub(crate) const SAYS_BROKEN: &str = "Broken: the entries that survive break a rule, whatever the \
lost ones were.";

/// What no report says.
pub(crate) const LIMITS: &[&str] = &[
    "This page speaks of the entries that survive in the given logs, and of nothing else: \
an entry that left no trace is not in it.",
    "No line names a culprit. Loss alone cannot cause some lines; they show that \
something else happened, and not who did it.",
    "That a rule is kept does not mean that all was well: it says that the \
surviving entries keep it, whatever the lost ones were.",
];

/// What was audited.
pub(crate) const AUDITED: &str = "What was audited";

pub(crate) const INPUT_TITLES: &[&str] = &["Input", "File", "SHA-256 of its bytes"];

pub(crate) const NO_DIGEST: &str = "not known: it cannot be read twice";

pub(crate) const STANDARD_RULES: &str = "The rules are the 22 standard ones.";

pub(crate) const OWN_RULES: &str = "The rules are NOT the standard ones, whatever their names are: \
the sentences that explain the standard rules are left out below.";

pub(crate) const PROGRAM: &str = "Made by auditorium_view 1.0.0.";

/// The machines.
pub(crate) const MACHINES: &str = "Machines";

pub(crate) const MACHINES_SAY: &str =
    "A log says itself whose it is; that is not signed. A machine \
with several logs has a line for each.";

pub(crate) const MACHINE_TITLES: &[&str] = &[
    "Machine",
    "Role",
    "Log",
    "Records kept",
    "Records refused",
    "How the file ends",
    "Order of the records",
];

/// Findings.
pub(crate) const FINDINGS: &str = "Findings";

pub(crate) const FINDINGS_SAY: &str = "Loss means: a log is missing, or cut anywhere after its \
header.";

pub(crate) const ACCUSES: &str = "What loss alone never causes";

pub(crate) const LOSS: &str = "What loss alone may cause";

pub(crate) const FINDING_TITLES: &[&str] = &["Line of the report", "What to do next"];

/// Gaps.
pub(crate) const GAPS: &str = "Gaps";

pub(crate) const NO_GAPS: &str = "None: each entry that a surviving one names survives.";

pub(crate) const GAPS_SAY: &str = "A gap is the digest of an entry that no log has, and that a \
surviving entry names. Of more than 300 gaps the first 300 are listed here; the report has all.";

pub(crate) const GAP_TITLES: &[&str] = &["Digest of the lost entry", "Entries that name it"];

pub(crate) const MAKERS_SAY: &str =
    "Each lost entry is from one of these machines. Its maker's log \
has it, and so has the log of each machine that received it.";

pub(crate) const MAKER_TITLES: &[&str] = &["Machine", "Why it could be its entry"];

/// Rules.
pub(crate) const RULES: &str = "Rules";

pub(crate) const RULES_SAY: &str = "A kept rule holds of the surviving entries, and a broken one \
fails, whatever the lost ones were. Of an unsettled one neither is known.";

pub(crate) const BROKEN: &str = "Broken";

pub(crate) const UNSETTLED: &str = "Unsettled";

pub(crate) const KEPT: &str = "Kept";

pub(crate) const RULE_TITLES: &[&str] = &["Rule", "Its text", "In words"];

pub(crate) const BROKEN_TITLES: &[&str] = &["Rule", "Its text", "In words", "Broken by"];

/// The picture.
pub(crate) const PICTURE: &str = "Picture";

pub(crate) const PICTURE_SAYS: &str = "A lane for each machine, with a mark for each entry and an \
arrow to each entry that it names. A mark leads to its entry in the table below.";

/// Entries.
pub(crate) const ENTRIES: &str = "Entries";

pub(crate) const ENTRIES_SAY: &str = "The entries that survive, by stamp and then by digest.";

pub(crate) const ENTRY_TITLES: &[&str] = &[
    "Maker", "Number", "Stamp", "Kind", "Session", "Digest", "In logs", "Names",
];

/// The report.
pub(crate) const REPORT: &str = "The report as audit prints it";

pub(crate) const REPORT_SAYS: &str = "To the byte, so that it can be copied out and compared.";

/// What stands in place of the name of a log's owner that the roster lacks.
pub(crate) const UNLISTED: &str = "not in the roster";

/// What is said of a machine without a log.
pub(crate) const NO_LOG: &str = "none was given";

/// What is said of a log that ends after a whole record.
pub(crate) const WHOLE: &str = "ends whole";

/// What is said of a log whose kept records are a history that its owner could have written.
pub(crate) const UNBROKEN: &str = "in order";

/// Why a lost entry could be a machine's.
pub(crate) const LOG_LACKING: &str = "no log of it was given: ask for it first";

pub(crate) const LOG_DAMAGED: &str = "a log of it is damaged: ask for another copy";

pub(crate) const LOG_SEEMS_WHOLE: &str =
    "only if its log is cut exactly between two records, or right after its header, \
which leaves no trace";

/// What to do next about each kind of line.
pub(crate) const NEXT_REFUSED: &str =
    "If every record says OtherElection, the roster is the wrong one. \
Otherwise ask for another copy of the same log, and look for the entry in other logs.";

pub(crate) const NEXT_MALFORMED: &str =
    "What comes after that byte was not read. Ask for another copy. A failing disk \
can do this, too.";

pub(crate) const NEXT_BREAK: &str =
    "If a refused line of the same file comes first, that record was \
passed over, and may be the cause. Otherwise ask for another copy, and then ask who held the file.";

pub(crate) const NEXT_STRAY: &str = "In its maker's log a break line shows the record. Its maker's \
key signed it: ask who had that key.";

pub(crate) const NEXT_FORK: &str =
    "First ask whether the logs are of one run: logs of two runs under \
one roster look like this. Then ask who had the machine or its key.";

pub(crate) const NEXT_BROKEN: &str = "Look at the entries, and at what the rule says.";

pub(crate) const NEXT_OWN: &str = "The rules are not the standard ones: a rule of one's own may be \
broken at an honest place. Look at the entries, and at what the rule says.";

pub(crate) const NEXT_TORN: &str = "A crash or a cut copy leaves this. Ask for the complete log.";

pub(crate) const NEXT_GAP: &str =
    "Find the lost entry: who names it, and whose it could be, is below.";

pub(crate) const NEXT_UNSETTLED: &str = "Ask for the missing logs, and so close the gaps.";

/// What is said of a survivor that names an entry which no log has.
pub(crate) const A_LOST_ONE: &str = "a lost one ";

/// What the standard rules say, in their order.
pub(crate) const SENTENCES: &[&str] = &[
    "There is at most one opening.",
    "An opening precedes every authorisation.",
    "A session is activated only after it was authorised for that booth.",
    "No session is authorised twice.",
    "A ballot is committed only after its session was activated on that machine.",
    "A ballot is cast only after the same machine committed it in that session.",
    "No session is cast twice.",
    "A session that is cast is neither cancelled nor challenged.",
    "A session is cancelled only after it was authorised for that booth.",
    "A session is cancelled by an override only after it was authorised.",
    "No cast comes after an override that cancels its session.",
    "There is at most one closing.",
    "Nothing is authorised after a closing.",
    "A session that was authorised before a closing was cast, cancelled or challenged before it.",
    "Nothing is cast after a closing.",
    "The supervisor opens, authorises, overrides and closes; booths activate, commit, cast, cancel \
and challenge.",
    "No machine made two entries with one number: there is no fork.",
    "An entry whose number is not 0 comes after its machine's entry with the number before.",
    "A ballot is challenged only after the same machine committed it in that session.",
    "No session is challenged twice, and none that is challenged is cancelled.",
    "No challenge comes after an override of its session, of either kind.",
    "A session is cast by an override only after it was authorised, and a ballot committed in it.",
];
