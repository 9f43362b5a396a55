//! Hints for each slip of the command line, and for refusals and absences.
use command_hints::{Hint, hint_on, usage_hint};
use evidence::InputFault;
use input_causes::{Cause, ProofWhy, RuleWhy, ScriptWhy};
use roster::RosterFault;
use std::alloc::Global;
use std::test::Fail;

/// The words, each after a comma but the first; and what the hint on an invalid command line says
/// in its first line, and in its second, which is the usage line of the command that was meant.
const SLIPS: &str = "\
frobnicate|\"frobnicate\" is no command; there are gaps, play, run, repair, order, audit, watch, \
prove, check, make, demo, office, endorse, endorsed|COMMAND WORD..
aduit,r,standard,l|\"aduit\" is no command; did you mean audit?|audit ROSTER RULES LOG..
wacth,r,standard,l|\"wacth\" is no command; did you mean watch?|watch ROSTER RULES LOG..
Make,1|\"Make\" is no command; did you mean make?|make N
endorsee,o,f|\"endorsee\" is no command; did you mean endorse?|endorse NAME FILE
help|\"help\" is no command; did you mean --help?|--help
version|\"version\" is no command; did you mean --version?|--version
log,l|\"log\" is no command; did you mean gaps?|gaps LOG
verify,k,f,s|\"verify\" is no command; did you mean endorsed?|endorsed KEY FILE SIG
sign,o,f|\"sign\" is no command; did you mean endorse?|endorse NAME FILE
make,801|N must be a number of sessions from 1 to 800, in digits without a leading zero; \
got \"801\"|make N
demo,01|N must be a number of sessions from 1 to 800, in digits without a leading zero; \
got \"01\"|demo N
make|make wants N; words given: 0|make N
play,s|play wants SCRIPT PREFIX; words given: 1|play SCRIPT PREFIX
audit,r,standard|audit wants ROSTER RULES LOG..; words given: 2|audit ROSTER RULES LOG..
watch,r,standard|watch wants ROSTER RULES LOG..; words given: 2|watch ROSTER RULES LOG..
prove,r,q|prove wants ROSTER PROOF LOG..; words given: 2|prove ROSTER PROOF LOG..
check,r,c,q|check wants ROSTER RULES PROOF LOG..; words given: 3|check ROSTER RULES PROOF LOG..
order,r,b1.0,b1.1|order wants ROSTER X Y LOG..; words given: 3|order ROSTER X Y LOG..
gaps,1,2|gaps wants LOG; words given: 2|gaps LOG
audit,r,c,1,2,3,4,5,6,7,8,9,10,11,12,13,14,15,16,17|audit takes at most 16 logs; logs given: \
17|audit ROSTER RULES LOG..
order,r,b1.0,b1.1,1,2,3,4,5,6,7,8,9,10,11,12,13,14,15,16,17,18|order takes at most 16 logs; \
logs given: 18|order ROSTER X Y LOG..
order,r,b1,b1.0,l|X must be NAME.NUMBER, as b1.0, or an entry's digest in 64 lower-case \
hexadecimal digits; got \"b1\"|order ROSTER X Y LOG..
order,r,b1.0,b1.x,l|Y must be NAME.NUMBER, as b1.0, or an entry's digest in 64 lower-case \
hexadecimal digits; got \"b1.x\"|order ROSTER X Y LOG..
office,o|office wants NAME SEED; words given: 1|office NAME SEED
office,o,00|SEED must be 32 secret random bytes, in 64 lower-case hexadecimal digits; got 2 \
characters|office NAME SEED
endorse,o|endorse wants NAME FILE; words given: 1|endorse NAME FILE
endorsed,k,f|endorsed wants KEY FILE SIG; words given: 2|endorsed KEY FILE SIG
gaps,--all|\"--all\" begins with -, and there are no options|gaps LOG
gaps,my log|\"my log\" has a space or another byte outside ! to ~; a word has none|gaps LOG
gaps,|word 2 is empty|gaps LOG
-,|\"-\" begins with -, and there are no options|COMMAND WORD..";

/// The words, each after a comma but the first; `usage`, or the fault; and how the hint begins.
const ROWS: &str = "\
--help|usage|auditorium 1.0.0: a simulated polling place and the auditor of its logs
audit,-h|usage|auditorium 1.0.0: a
--version|usage|auditorium 1.0.0: a
play,s,-V|usage|auditorium 1.0.0: a
play,s.script,p|refused s.script 3 UnknownWord|auditorium: s.script, line 3, UnknownWord: a word
run,s,p|refused s 9 SameName|auditorium: s, line 9, SameName: a machine is named twice
audit,r,c,l|refused c 28 Unbound|auditorium: c, byte 28, counted from 0, Unbound: no every or some
audit,r,c,l|refused c 9 SameName|auditorium: c, byte 9, counted from 0, SameName: a rule has this
audit,r,c,l|refused r 0 SameName|auditorium: r, SameName: two machines have one name
audit,r,c,l|refused r 5 NotCanonical|auditorium: r, byte 5, counted from 0, NotCanonical: a
audit,r,c,l|refused c 3 TooWide|auditorium: c, rule 3, counted from 0, TooWide: the
watch,r,c,l|refused c 3 TooWide|auditorium: c, rule 3, counted from 0, TooWide: the
gaps,l|refused l 0 Header|auditorium: l, Header: a log begins with its header, as (3:log1:11:0);
check,r,c,q,l|refused q 1 Form|auditorium: q, line 1, Form: the lines of a proof are proof 1,
check,r,c,q,l|refused q 2 WrongCount|auditorium: q, line 2, WrongCount: the logs don't have so
check,r,c,q,l|refused q 3 OutOfRange|auditorium: q, line 3, OutOfRange: an entry's number is
check,r,c,q,l|refused q 4 NotRising|auditorium: q, line 4, NotRising: the entry after past is
check,r,c,q,l|refused q 5 NotFalling|auditorium: q, line 5, NotFalling: the entry before a colon
check,r,c,q,l|refused q 6 NotReached|auditorium: q, line 6, NotReached: the entry after a colon is
check,r,c,q,l|refused q 7 NotParent|auditorium: q, line 7, NotParent: the entry after a colon
check,r,c,q,l|refused q 8 NotClosed|auditorium: q, line 8, NotClosed: an ancestor is missing from
check,r,c,q,l|refused c 28 Unbound|auditorium: c, byte 28, counted from 0, Unbound: no every or
check,r,c,q,l|refused c 3 TooWide|auditorium: c, rule 3, counted from 0, TooWide: the
prove,r,q,l|refused q 0 TooLong|auditorium: q, TooLong: a proof has at most 67,108,864 bytes
prove,r,q,l|refused l 0 TooLong|auditorium: l, TooLong: a log has at most 67,108,864 bytes
prove,r,q,l|refused r 0 TooLong|auditorium: r, TooLong: a roster has at most 4,194,304 bytes
audit,r,c,l|refused c 0 TooLong|auditorium: c, TooLong: a file of rules has at most 4,194,304 bytes
endorse,o,f|refused o.office 0 TooLong|auditorium: o.office, TooLong: an office's file has at most
endorsed,k,f,s|refused k 0 TooLong|auditorium: k, TooLong: a public key has at most 65,536 bytes
endorsed,k,f,s|refused s 0 TooLong|auditorium: s, TooLong: a signature has at most 65,536 bytes
gaps,l|refused m 0 TooLong|auditorium: m, TooLong: a script, a roster or a file of rules has at
play,s,p|refused s 0 TooLong|auditorium: s, TooLong: a script has at most 4,194,304 bytes
order,r,b1.0,b2.0,l|refused b1.0 0 NoEntry|auditorium: b1.0, NoEntry: no surviving entry is b1.0
audit,r,c,l|refused entries 0 TooMany|auditorium: entries, TooMany: the logs have more than 16,384
audit,r,c,l|refused entries 0 Collision|auditorium: entries, Collision: two entries with
office,o,0|refused o.office 0 Exists|auditorium: o.office, Exists: an office's file is never
endorse,o,f|refused o.office 0 Office|auditorium: o.office, Office: an office's file is (6:office1:
endorse,o,f|refused o.office 0 Spent|auditorium: o.office, Spent: the office's key has made its
endorse,o,f|refused f 0 TooLong|auditorium: f, TooLong: a file that is signed has at most
gaps,l|absent l|auditorium: there is no file l, which is named as LOG: a log's file, as play and
audit,r,c,l|absent c|auditorium: there is no file c, which is named as RULES: a file of rules, or
endorse,o,f|absent o.office|auditorium: there is no file o.office, which is named as NAME: an
endorse,o,f|absent f|auditorium: there is no file f, which is named as FILE: any file of at most
endorsed,k,f,s|absent k|auditorium: there is no file k, which is named as KEY: a file of an
endorsed,k,f,s|absent s|auditorium: there is no file s, which is named as SIG: a file of a
check,r,c,q,l|absent q|auditorium: there is no file q, which is named as PROOF: the file of a
check,r,c,q,l|absent l|auditorium: there is no file l, which is named as LOG: a log's file, as
demo,1|absent x|auditorium: there is no file x";

/// The words; what is refused, its place and the cause; the text, with `/` for a newline; how what
/// is said of it begins, after the cause; and the lines that show the place, likewise.
const TEXTS: &str = "\
play,s,p|s 3 UnknownWord|# keys/seed 01/key w3 h5/log 64/|\"w3\" isn't one of w1, w2, w4, w8\
|     3 | key w3 h5/       |     ^^/
play,s,p|s 1 UnknownWord|key w4 h6/|\"h6\" isn't one of h5, h10|     1 | key w4 h6/       \
|        ^^/
play,s,p|s 1 UnknownWord|kee w4 h5/|\"kee\" isn't one of version, seed, key, log, link, machine, do\
|     1 | kee w4 h5/       | ^^^/
play,s,p|s 1 UnknownWord|machine b1 boot/|\"boot\" isn't one of supervisor, booth\
|     1 | machine b1 boot/       |            ^^^^/
play,s,p|s 1 UnknownWord|do b1 vote 1/|\"vote\" isn't one of open, authorise, override, close, \
activate, commit, cast, cancel/|     1 | do b1 vote 1/       |       ^^^^/
play,s,p|s 2 UnknownWord|version 2/do b1 vote 1/|\"vote\" isn't one of open, authorise, override, \
close, activate, commit, cast, cancel, challenge/|     2 | do b1 vote 1/       |       ^^^^/
play,s,p|s 1 UnknownWord|do b1 challenge 1/|\"challenge\" isn't one of open, authorise\
|     1 | do b1 challenge 1/       |       ^^^^^^^^^/
play,s,p|s 2 UnknownWord|version 2/do sv override 1 stop/|\"stop\" isn't one of cancel, cast/\
|     2 | do sv override 1 stop/       |                  ^^^^/
play,s,p|s 1 UnknownWord|step wait sv/|\"wait\" isn't one of act, hear, stop/\
|     1 | step wait sv/       |      ^^^^/
play,s,p|s 3 UnknownName|machine sv supervisor/machine b1 booth/do sv authorise b9 1/|\
no machine line has the name \"b9\"; the nearest is b1/\
|     3 | do sv authorise b9 1/       |                 ^^/
play,s,p|s 2 UnknownName|machine sv supervisor/stop booth 3/|\
no machine line has the name \"booth\"/|     2 | stop booth 3/       |      ^^^^^/
play,s,p|s 2 UnknownName|machine sv supervisor/step hear sv b1 0/|\
no machine line has the name \"b1\"/|     2 | step hear sv b1 0/       |              ^^/
play,s,p|s 2 SameName|machine sv supervisor/machine sv booth/|\"sv\": a machine is named twice\
|     2 | machine sv booth/       |         ^^/
play,s,p|s 3 SameName|machine sv supervisor/machine b1 booth/lose sv 0 sv/|\"sv\": a machine is\
|     3 | lose sv 0 sv/       |           ^^/
play,s,p|s 3 WrongRole|machine sv supervisor/machine b1 booth/do b1 open/|\"open\": the deed is\
|     3 | do b1 open/       |       ^^^^/
play,s,p|s 3 WrongRole|machine sv supervisor/machine b1 booth/do sv authorise sv 1/|\"sv\": the d\
|     3 | do sv authorise sv 1/       |                 ^^/
play,s,p|s 1 BadName|machine B1 booth/|\"B1\": a machine's name has 1 to 16 characters from a to z\
|     1 | machine B1 booth/       |         ^^/
play,s,p|s 1 BadNumber|log 064/|\"064\": a number is decimal digits without a leading zero\
|     1 | log 064/       |     ^^^/
play,s,p|s 1 BadHex|seed 0g/|\"0g\": a seed is an even number of|     1 | seed 0g/       |      ^^/
play,s,p|s 2 BadHex|machine b1 booth/do b1 commit 1 0f/|\"0f\": a seed is an even number of the\
|     2 | do b1 commit 1 0f/       |                ^^/
play,s,p|s 1 OutOfRange|log 0/|\"0\" isn't a number from 1 to 4096/|     1 | log 0/       |     ^/
play,s,p|s 1 OutOfRange|stop b1 5000/|\"5000\" isn't a number from 0 to 4096/\
|     1 | stop b1 5000/       |         ^^^^/
play,s,p|s 1 OutOfRange|do sv override 0/|\"0\" isn't a number from 1 to 4294967295/\
|     1 | do sv override 0/       |                ^/
play,s,p|s 1 OutOfRange|machine b17 booth/|a script has at most 16 lines that begin with machine/\
|     1 | machine b17 booth/       | ^^^^^^^/
play,s,p|s 1 WrongCount|key w4/|words of the line: 2; key KIND HEIGHT has 3, with one space\
|     1 | key w4/       |       ^/
play,s,p|s 1 WrongCount|key w4 h5 x y/|words of the line: 5; key KIND HEIGHT has 3, with one\
|     1 | key w4 h5 x y/       |           ^^^/
play,s,p|s 1 WrongCount|key w4  h5/|words of the line: 4; key KIND HEIGHT has 3, with one\
|     1 | key w4  h5/       |        ^/
play,s,p|s 1 WrongCount|do b1/|words of the line: 2; do NAME DEED has at least 3, with one\
|     1 | do b1/       |      ^/
play,s,p|s 1 WrongCount|do b1 commit 1/|words of the line: 4; do NAME commit SESSION BALLOT has 5\
|     1 | do b1 commit 1/       |               ^/
play,s,p|s 1 WrongCount|do sv override 1 cast/|words of the line: 5; do NAME override SESSION has 4\
|     1 | do sv override 1 cast/       |                  ^^^^/
play,s,p|s 2 WrongCount|version 2/do sv override 1/|words of the line: 4; do NAME override SESSION \
HOW has 5|     2 | do sv override 1/       |                 ^/
play,s,p|s 1 OutOfOrder|log 64/|\"log\": lines come in the order version, seed\
|     1 | log 64/       | ^^^/
play,s,p|s 2 NotPlain|seed 01/key\tw4 h5/|a line has only bytes from space to ~\
|     2 | key?w4 h5/       |    ^/
play,s,p|s 3 OutOfOrder|seed 01/key w4 h5/|lines come in the order|
play,s,p|s 9 OutOfOrder|seed 01/key w4 h5/|lines come in the order|
audit,x,c,l|c 17 UnknownKind|(rule A (every x casts true))/|\"casts\" is no kind; the nearest is \
cast; a kind is entry|     1 | (rule A (every x casts true))/       |                  ^^^^^/
audit,x,c,l|c 17 UnknownKind|(rule A (every x entries true))/|\"entries\" is no kind; the nearest \
is entry; a|     1 | (rule A (every x entries true))/       |                  ^^^^^^^/
audit,x,c,l|c 33 Unbound|(rule A (every x cast (= x.maker y.maker)))/|no every or some around this \
place binds \"y\"; bound here: \"x\"/\
|     1 | (rule A (every x cast (= x.maker y.maker)))/       \
|                                  ^^^^^^^/
audit,x,c,l|c 52 Unbound|(rule A (every x cast (some y commit before x (same z x))))/|no every or \
some around this place binds \"z\"; bound here: \"y\", \"x\"/\
|     1 | (rule A (every x cast (some y commit before x (same z x))))/       \
|                                                     ^/
audit,x,c,l|c 31 Unbound|(rule A (every x commit before y true))/|no every or some around this \
place binds \"y\"/|     1 | (rule A (every x commit before y true))/       \
|                                ^/
audit,x,c,l|c 60 Unbound|(rule A (and (some z cast (same z z)) (every x cast (same x z))))/\
|no every \
or some around|     1 | (rule A (and (some z cast (same z z)) (every x cast (same x z))))/       \
|                                                             ^/
audit,x,c,l|c 25 WrongField|(rule A (every x cast (= x.sesion 1)))/\
|entries of the kind cast have no \
field \"sesion\"; the nearest is session; they have maker, number, session, ballot/\
|     1 | (rule A (every x cast (= x.sesion 1)))/       |                          ^^^^^^^^/
audit,x,c,l|c 27 WrongField|(rule A (every x opened (= x.ballot 1)))/|entries of the kind opened \
have no field \"ballot\"; they have maker, number/\
|     1 | (rule A (every x opened (= x.ballot 1)))/       |                            ^^^^^^^^/
audit,x,c,l|c 35 WrongField|(rule A (every x cast (= x.session 1)))/|\"1\": entries of the \
variable's kind|     1 | (rule A (every x cast (= x.session 1)))/       \
|                                    ^/
audit,x,c,l|c 13 SameName|(rule A true)(rule A true)/|\"(\": a rule has this name already\
|     1 | (rule A true)(rule A true)/       |              ^/
audit,x,c,l|c 40 Shape|(rule A true)/|a rule begins with|
audit,x,c,l|c 32 Shape|(rule A true)/(rule B (every x (|a rule begins with\
|     2 | (rule B (every x (/       |                   ^/
audit,x,c,l|c 14 Shape|(rule A true)/|a rule begins with|     2 | /       | ^/
audit,x,c,l|c 62 Token|01234567890123456789012345678901234567890123456789012345678901\
#abcdefghijabcdefghijabcdefghijabcdefghijabcdefghijabcdefghijabcdefghij|a text of rules has\
|     1 | ..234567890123456789012345678901234567890123456789012345678901\
#abcdefghijabcdefghijabcdefghijabcdefghijabcdefghijabcdefghi\
../       |                                                               ^/
audit,r,c,l,m|m 0 Header||the file is empty; the audit can be made without it, so leave it out/|
order,r,b1.0,b1.1,l,m|m 0 Header||the file is empty; the audit can be made without it|
audit,r,c,l|l 0 Header||a log begins with its header, as (3:log1:11:0)|
gaps,l|l 0 Header||a log begins with its header, as (3:log1:11:0)|
audit,r,c,l,m|m 0 Header|no log|a log begins with its header, as (3:log1:11:0)|
check,r,c,q,l|q 2 WrongCount|proof 1/entries 3/past 0/|surviving entries: 3 by the proof, another \
number by the logs/|     2 | entries 3/       |         ^/
check,r,c,q,l|q 2 WrongCount|proof 1/entries 4294967295 past/|surviving entries: 4294967295 by the \
proof, another|     2 | entries 4294967295 past/       |         ^^^^^^^^^^/
check,r,c,q,l|q 2 WrongCount|proof 1/|the logs don't have so many entries that survive/|
check,r,c,q,l|q 2 WrongCount|proof 1/entries/|the logs don't have so many entries that survive/|";

/// The second line of a proof whose number is refused, the number of survivors, and how what is
/// said begins.
const COUNTS: &[(&str, u32, &str)] = &[
    (
        "entries 3",
        6,
        "surviving entries: 3 by the proof, 6 by the logs\n",
    ),
    (
        "entries 30",
        3,
        "surviving entries: 30 by the proof, 3 by the logs\n",
    ),
    (
        "entries 0 past",
        1,
        "surviving entries: 0 by the proof, 1 by the logs\n",
    ),
    (
        "entries 6",
        6,
        "surviving entries: 6 by the proof, another number by the logs\n",
    ),
];

/// The words of a row.
fn words_of(alloc: Global, text: &str) -> Result<Vec<String>, Fail> {
    let mut words = Vec::new(alloc);
    for word in text.split(',') {
        words.push(String::from_str(alloc, word)?)?;
    }
    Ok(words)
}

/// The causes, each after the letter with which the names of its files begin in these rows.
const CAUSES: &[(&str, Cause)] = &[
    ("s", Cause::Script(ScriptWhy::NotPlain)),
    ("s", Cause::Script(ScriptWhy::UnknownWord)),
    ("s", Cause::Script(ScriptWhy::OutOfOrder)),
    ("s", Cause::Script(ScriptWhy::WrongCount)),
    ("s", Cause::Script(ScriptWhy::BadNumber)),
    ("s", Cause::Script(ScriptWhy::BadHex)),
    ("s", Cause::Script(ScriptWhy::BadName)),
    ("s", Cause::Script(ScriptWhy::SameName)),
    ("s", Cause::Script(ScriptWhy::UnknownName)),
    ("s", Cause::Script(ScriptWhy::WrongRole)),
    ("s", Cause::Script(ScriptWhy::OutOfRange)),
    ("s", Cause::Script(ScriptWhy::NotOneSupervisor)),
    ("r", Cause::Roster(RosterFault::NotCanonical(5))),
    ("r", Cause::Roster(RosterFault::SameName)),
    ("c", Cause::Rules(RuleWhy::Token)),
    ("c", Cause::Rules(RuleWhy::Shape)),
    ("c", Cause::Rules(RuleWhy::UnknownKind)),
    ("c", Cause::Rules(RuleWhy::SameName)),
    ("c", Cause::Rules(RuleWhy::Unbound)),
    ("c", Cause::Rules(RuleWhy::WrongField)),
    ("c", Cause::Rules(RuleWhy::TooDeep)),
    ("q", Cause::Proof(ProofWhy::Form)),
    ("q", Cause::Proof(ProofWhy::WrongCount)),
    ("q", Cause::Proof(ProofWhy::OutOfRange)),
    ("q", Cause::Proof(ProofWhy::NotRising)),
    ("q", Cause::Proof(ProofWhy::NotFalling)),
    ("q", Cause::Proof(ProofWhy::NotReached)),
    ("q", Cause::Proof(ProofWhy::NotParent)),
    ("q", Cause::Proof(ProofWhy::NotClosed)),
    ("", Cause::Header),
    ("", Cause::TooLong),
    ("", Cause::TooWide),
    ("", Cause::TooMany),
    ("", Cause::Collision([0xd1; 32])),
    ("", Cause::NoEntry),
    ("", Cause::Exists),
    ("", Cause::Office),
    ("", Cause::Spent),
];

/// The cause of this word against the file, if it is one of the table.
fn cause_of(file: &str, word: &str) -> Option<Cause> {
    for &(letter, cause) in CAUSES {
        if file.starts_with(letter) && cause.word() == word {
            return Some(cause);
        }
    }
    None
}

/// The fault that a row names: `absent FILE`, or `refused FILE PLACE CAUSE`.
fn fault_of(alloc: Global, row: &str) -> Result<Option<InputFault>, Fail> {
    let (word, rest) = row.split_once(' ').unwrap_or((row, ""));
    if word == "absent" {
        return Ok(Some(InputFault::Absent(String::from_str(alloc, rest)?)));
    }
    let mut parts = rest.split(' ');
    let file = parts.next().unwrap_or("");
    let place = parts.next().unwrap_or("").parse::<u64>();
    let cause = cause_of(file, parts.next().unwrap_or(""));
    let (Ok(place), Some(cause)) = (place, cause) else {
        return Ok(None);
    };
    let file = String::from_str(alloc, file)?;
    Ok(Some(InputFault::Refused { file, place, cause }))
}

/// The hint of the program for these words and this fault, or an invalid command line.
fn hint_text(alloc: Global, program: &'static str, words: &str, row: &str) -> Result<String, Fail> {
    let words = words_of(alloc, words)?;
    if row == "usage" {
        let hint = usage_hint(alloc, Some(words.as_slice()));
        return Ok(format!(in alloc; "{hint}")?);
    }
    let fault = fault_of(alloc, row)?;
    match fault
        .as_ref()
        .and_then(|fault| hint_on(program, words.as_slice(), fault))
    {
        Some(hint) => Ok(format!(in alloc; "{hint}")?),
        None => Ok(String::new(alloc)),
    }
}

/// Whether the hint for these words, and for an output of `usage`, begins so.
fn is_blamed(alloc: Global, words: Option<&[String]>, want: &str) -> Result<bool, Fail> {
    let hint = usage_hint(alloc, words);
    let text = format!(in alloc; "{hint}")?;
    Ok(text.as_str().starts_with(want))
}

#[test]
fn hints_say_what_was_expected(rt: HostRuntime) -> Result<(), Fail> {
    for row in ROWS.lines() {
        let (words, rest) = row.split_once('|').unwrap_or(("", ""));
        let (line, want) = rest.split_once('|').unwrap_or(("", ""));
        let hint = hint_text(rt.alloc(), "auditorium", words, line)?;
        assert!(rt; hint.as_str().starts_with(want), "{row}");
    }
    Ok(())
}

/// The faults of a program that has `audit`'s words, and how its hint begins.
const PROGRAM_ROWS: &[(&str, &str)] = &[
    (
        "refused c 9 SameName",
        "auditorium_view: c, byte 9, counted",
    ),
    ("absent c", "auditorium_view: there is no file c, which"),
];

#[test]
fn a_hint_begins_with_the_name_of_its_program(rt: HostRuntime) -> Result<(), Fail> {
    for &(line, want) in PROGRAM_ROWS {
        let hint = hint_text(rt.alloc(), "auditorium_view", "audit,r,c,l", line)?;
        assert!(rt; hint.as_str().starts_with(want), "{line}");
    }
    Ok(())
}

/// The text with a newline for each slash.
fn lines_of(alloc: Global, text: &str) -> Result<String, Fail> {
    let mut lines = String::new(alloc);
    for c in text.chars() {
        lines.push(if c == '/' { '\n' } else { c })?;
    }
    Ok(lines)
}

/// What the program says of the refusal, whose file has this text.
fn explanation<'x>(
    alloc: Global,
    words: &'x [String],
    refusal: &str,
    text: &'x str,
) -> Result<String, Fail> {
    let row = format!(in alloc; "refused {refusal}")?;
    let Some(fault) = fault_of(alloc, row.as_str())? else {
        return Ok(String::new(alloc));
    };
    if let Some(Hint::Refused(refusal)) = hint_on("auditorium", words, &fault) {
        let explained = refusal.explained(alloc, Some(text.as_bytes()));
        return Ok(format!(in alloc; "{explained}")?);
    }
    Ok(String::new(alloc))
}

#[test]
fn refusals_quote_the_text_and_mark_it(rt: HostRuntime) -> Result<(), Fail> {
    let alloc = rt.alloc();
    for row in TEXTS.lines() {
        let (words, rest) = row.split_once('|').unwrap_or(("", ""));
        let (refusal, rest) = rest.split_once('|').unwrap_or(("", ""));
        let (text, rest) = rest.split_once('|').unwrap_or(("", ""));
        let (saying, shown) = rest.split_once('|').unwrap_or(("", ""));
        let cause = refusal.split(' ').nth(2).unwrap_or("");
        let text = lines_of(alloc, text)?;
        let saying = lines_of(alloc, saying)?;
        let shown = lines_of(alloc, shown)?;
        let words = words_of(alloc, words)?;
        let found = explanation(alloc, words.as_slice(), refusal, text.as_str())?;
        let found = found.as_str();
        let wanted = format!(in alloc; ", {cause}: {saying}")?;
        assert!(rt; found.contains(wanted.as_str()), "{row}: {found}");
        let excerpt = found.split_once('\n').unwrap_or(("", "")).1;
        assert_eq!(rt; excerpt, shown.as_str(), "{row}");
    }
    Ok(())
}

#[test]
fn a_wrong_count_gives_both_numbers(rt: HostRuntime) -> Result<(), Fail> {
    let alloc = rt.alloc();
    let words = words_of(alloc, "check,r,c,q,l")?;
    let fault = InputFault::Refused {
        file: String::from_str(alloc, "q")?,
        place: 2,
        cause: Cause::Proof(ProofWhy::WrongCount),
    };
    let Some(Hint::Refused(refusal)) = hint_on("auditorium", words.as_slice(), &fault) else {
        return Err(Fail::from("a refusal has a hint"));
    };
    assert!(rt; refusal.is_of_count());
    for &(second, survivors, want) in COUNTS {
        let text = format!(in alloc; "proof 1\n{second}\npast 0\n")?;
        let explained = refusal
            .with_survivors(survivors)
            .explained(alloc, Some(text.as_bytes()));
        let said = format!(in alloc; "{explained}")?;
        let want = format!(in alloc; "auditorium: q, line 2, WrongCount: {want}")?;
        assert!(rt;
            said.as_str().starts_with(want.as_str()),
            "{second}: {said}"
        );
    }
    Ok(())
}

#[test]
fn slips_have_three_lines(rt: HostRuntime) -> Result<(), Fail> {
    let alloc = rt.alloc();
    for row in SLIPS.lines() {
        let (words, rest) = row.split_once('|').unwrap_or(("", ""));
        let (wrong, usage) = rest.split_once('|').unwrap_or(("", ""));
        let hint = hint_text(alloc, "auditorium", words, "usage")?;
        let want = format!(in alloc;
            "auditorium: {wrong}\nusage: auditorium {usage}\nauditorium --help has all\n"
        )?;
        assert_eq!(rt; hint.as_str(), want.as_str(), "{row}");
    }
    Ok(())
}

#[test]
fn words_that_no_row_can_have_are_blamed(rt: HostRuntime) -> Result<(), Fail> {
    let alloc = rt.alloc();
    assert!(rt;
        is_blamed(
            alloc,
            None,
            "auditorium: a word isn't text in UTF-8\nusage: "
        )?
    );
    assert!(rt;
        is_blamed(
            alloc,
            Some(&[]),
            "auditorium: a command is wanted: gaps, play, run"
        )?
    );
    let mut word = String::new(alloc);
    for _ in 0..1025 {
        word.push('a')?;
    }
    let words = vec![in alloc; word]?;
    let want = "auditorium: word 1 has 1025 bytes; a word has at most 1024\n";
    assert!(rt; is_blamed(alloc, Some(words.as_slice()), want)?);
    Ok(())
}
