//! A sentence on each cause of a refusal.

use input_causes::{Cause, ProofWhy, RuleWhy, ScriptWhy};
use roster::RosterFault;

/// What was expected, for each cause.
pub(crate) fn sentence(cause: Cause) -> &'static str {
    match cause {
        Cause::Script(why) => script_sentence(why),
        Cause::Roster(fault) => roster_sentence(fault),
        Cause::Rules(why) => rule_sentence(why),
        Cause::Proof(why) => proof_sentence(why),
        Cause::Header => {
            "a log begins with its header, as (3:log1:11:0); the logs of play and run do"
        }
        Cause::TooLong => {
            "a script, a roster or a file of rules has at most 4,194,304 bytes; a log, a proof or \
             a file that is signed 67,108,864; and an office's file, a key or a signature 65,536"
        }
        Cause::TooWide => {
            "the rows of the rule's nested quantifiers multiply to more than 268,435,456"
        }
        Cause::TooMany =>
            "the logs have more than 16,384 distinct entries, or for watch more than 1,024",
        Cause::Collision(_) => "two entries with different texts have one digest",
        Cause::NoEntry => "no surviving entry is meant by this word",
        Cause::Exists => "an office's file is never overwritten; take another name",
        Cause::Office => {
            "an office's file is (6:office1:132: with its 32 bytes, and a number up to 32,768; one \
             that was cut short while it was written can't be used any more"
        }
        Cause::Spent => "the office's key has made its 32,768 signatures; make another office",
    }
}

fn script_sentence(why: ScriptWhy) -> &'static str {
    match why {
        ScriptWhy::NotPlain => {
            "a line has only bytes from space to ~, so no tab and no carriage return"
        }
        ScriptWhy::UnknownWord => {
            "a word isn't allowed in its place: a line begins with version, seed, key, log, link, \
             machine, do, lose, stop or step, and then come a deed, a role or another fixed word"
        }
        ScriptWhy::OutOfOrder => {
            "lines come in the order version, seed, key, log, link, machine, do, lose, stop, step; \
             the first five come once, and only version, do, lose, stop and step may be left out"
        }
        ScriptWhy::WrongCount => {
            "the line has too few or too many words; one space is between two, and none at an end"
        }
        ScriptWhy::BadNumber => {
            "a number is decimal digits without a leading zero, at most 4,294,967,295"
        }
        ScriptWhy::BadHex => {
            "a seed is an even number of the digits 0 to 9 and a to f, and a ballot 64 of them"
        }
        ScriptWhy::BadName => "a machine's name has 1 to 16 characters from a to z and 0 to 9",
        ScriptWhy::SameName => {
            "a machine is named twice, has a second stop line, or loses an entry to itself"
        }
        ScriptWhy::UnknownName => "no machine line has this name",
        ScriptWhy::WrongRole => {
            "the deed is one of the other role, or the machine that is authorised isn't a booth"
        }
        ScriptWhy::OutOfRange => {
            "a number, the length of the seed or the number of such lines is out of its range"
        }
        ScriptWhy::NotOneSupervisor => "exactly one machine line is of a supervisor",
    }
}

fn roster_sentence(fault: RosterFault) -> &'static str {
    match fault {
        RosterFault::NotCanonical(_) => {
            "a roster is exactly one canonical S-expression, as PREFIX.roster of play and run is"
        }
        RosterFault::WrongShape => {
            "a roster is (6:roster1:1 and a list for each machine, as play and run write it"
        }
        RosterFault::TooManyMachines => "a roster has at most 16 machines",
        RosterFault::BadName => "a machine's name has 1 to 16 characters from a to z and 0 to 9",
        RosterFault::SameName => "two machines have one name",
        RosterFault::NotOneSupervisor => "exactly one machine is a supervisor",
        RosterFault::Memory => "memory ran out",
    }
}

fn rule_sentence(why: RuleWhy) -> &'static str {
    match why {
        RuleWhy::Token => {
            "a text of rules has parentheses, words from ! to ~, spaces, tabs and ends of lines, \
             and nothing else"
        }
        RuleWhy::Shape => {
            "a rule begins with \"(rule NAME\", and a formula is true, or a parenthesis and then \
             every, some, and, or, not, implies, same, before, next, is, kind, = or <"
        }
        RuleWhy::UnknownKind => {
            "a kind is entry, opened, authorise, override, forced, closed, activate, commit, cast, \
             cancel or challenge"
        }
        RuleWhy::SameName => "a rule has this name already, or the variable is bound already",
        RuleWhy::Unbound => "no every or some around this place binds the variable",
        RuleWhy::WrongField => {
            "entries of the variable's kind have no such field, or the terms can't be compared"
        }
        RuleWhy::TooDeep => "at most 32 parentheses nest, and at most 4 of every and some",
    }
}

fn proof_sentence(why: ProofWhy) -> &'static str {
    match why {
        ProofWhy::Form => {
            "the lines of a proof are proof 1, then entries S, and then past I and words A:V, with \
             one space between two words, a newline at each end, and no leading zeros"
        }
        ProofWhy::WrongCount => "the logs don't have so many entries that survive",
        ProofWhy::OutOfRange => {
            "an entry's number is below that of the entries, since they count from 0"
        }
        ProofWhy::NotRising => "the entry after past is above that of the line before",
        ProofWhy::NotFalling => {
            "the entry before a colon is below the one before the colon of the word before"
        }
        ProofWhy::NotReached => {
            "the entry after a colon is the one after past, or comes earlier on the line, before \
             a colon"
        }
        ProofWhy::NotParent => {
            "the entry after a colon doesn't name the one before the colon in the logs"
        }
        ProofWhy::NotClosed => { "an ancestor is missing from this line" }
    }
}
