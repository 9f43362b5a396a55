// The words of the command line. The tables are in the order of the words.
ghost use Rattle.std.specs.Prelude.{IfNone, IfSome, map, string_bytes};
ghost use Rattle.auditorium_core.specs.Words.{Command, Means};
ghost use Rattle.auditorium_core.specs.inside.Meaning.{IsReadAs, asked};

use crate::requests::{
    audit_request, check_request, demonstration_request, endorse_request, endorsed_request,
    gaps_request, make_request, office_request, order_request, play_request, prove_request,
    repair_request, run_request, watch_request,
};
use command_line::have_form;

/// What a valid command line asks for.
#[derive(Clone, Copy)]
pub(crate) enum Request<'a> {
    /// `audit`: the report by the roster in the first file, the rules that the second word names,
    /// and the logs in the other files.
    Audit(&'a str, &'a str, &'a [String]),
    /// `check`: what the rules that the second word names come to, by the roster in the first file,
    /// the proof in the third and the logs in the others.
    Check(&'a str, &'a str, &'a str, &'a [String]),
    /// `demo`: what an audit shows of a day of this many sessions, of which one log is left, cut.
    Demonstrate(u32),
    /// `endorse`: the office of the first name signs the file of the second.
    Endorse(&'a str, &'a str),
    /// `endorsed`: whether the signature in the third file is one of the second under the public
    /// key in the first.
    Endorsed(&'a str, &'a str, &'a str),
    /// `gaps`: the gaps of the log in this file.
    Gaps(&'a str),
    /// `make`: the script of such a day.
    Make(u32),
    /// `office`: the files of an office of this name with this seed.
    Office(&'a str, [u8; 32]),
    /// `order`: which of the entries of the second word and the third came first, by the roster in
    /// the first file and the logs in the others.
    Order(&'a str, &'a str, &'a str, &'a [String]),
    /// `play`: the script in the first file, into files whose names begin with the second word.
    Play(&'a str, &'a str),
    /// `prove`: the proof of the order of the entries, by the roster in the first file and the logs
    /// in the others, into the second file.
    Prove(&'a str, &'a str, &'a [String]),
    /// `repair`: a script likewise, whose machines' logs are mended before they finish.
    Repair(&'a str, &'a str),
    /// `run`: `play` in threads.
    Run(&'a str, &'a str),
    /// `watch`: what an audit says after each entry, by the roster in the first file, the rules
    /// that the second word names, and the logs in the other files.
    Watch(&'a str, &'a str, &'a [String]),
}

/// What the words ask for; nothing where they are an invalid command line.
pub(crate) fn request_of(words: &[String]) -> Option<Request<'_>>
    ensures some { IfSome result (λ request. Means (map string_bytes words.now) (asked request)) }
    ensures none { IfNone result
        ((command : Command) → ¬ Means (map string_bytes words.now) command) }
{
    if !have_form(words) {
        return None;
    }
    match words {
        [name, rest @ ..] => request_named(name.as_str(), rest),
        [] => None,
    }
}

/// What a command's name and the words after it ask for.
fn request_named<'a>(name: &str, rest: &'a [String]) -> Option<Request<'a>>
    ensures { IsReadAs name.now (map string_bytes rest.now) result }
{
    match name {
        "audit" => audit_request(rest),
        "check" => check_request(rest),
        "demo" => demonstration_request(rest),
        "endorse" => endorse_request(rest),
        "endorsed" => endorsed_request(rest),
        "gaps" => gaps_request(rest),
        "make" => make_request(rest),
        "office" => office_request(rest),
        "order" => order_request(rest),
        "play" => play_request(rest),
        "prove" => prove_request(rest),
        "repair" => repair_request(rest),
        "run" => run_request(rest),
        "watch" => watch_request(rest),
        _ => None,
    }
}
