// The requests that the words after a command's name make.
ghost use Rattle.std.specs.Prelude.{codes, map, string_bytes};
ghost use Rattle.auditorium_core.specs.inside.Meaning.{IsReadAs};

use crate::words::Request;
use command_line::{are_logs, sessions_of};
use log_commands::order::are_ordered;
use office_commands::office::seed_of;

/// The request that the words after `audit` make.
pub(crate) fn audit_request(rest: &[String]) -> Option<Request<'_>>
    ensures { IsReadAs (codes "audit") (map string_bytes rest.now) result }
{
    match rest {
        [roster, rules, logs @ ..] if are_logs(logs) => {
            Some(Request::Audit(roster.as_str(), rules.as_str(), logs))
        }
        _ => None,
    }
}

/// The request that the words after `check` make.
pub(crate) fn check_request(rest: &[String]) -> Option<Request<'_>>
    ensures { IsReadAs (codes "check") (map string_bytes rest.now) result }
{
    match rest {
        [roster, rules, proof, logs @ ..] if are_logs(logs) => Some(Request::Check(
            roster.as_str(),
            rules.as_str(),
            proof.as_str(),
            logs,
        )),
        _ => None,
    }
}

/// The request that the words after `demo` make.
pub(crate) fn demonstration_request(rest: &[String]) -> Option<Request<'_>>
    ensures { IsReadAs (codes "demo") (map string_bytes rest.now) result }
{
    match rest {
        [word] => Some(Request::Demonstrate(sessions_of(word.as_str())?)),
        _ => None,
    }
}

/// The request that the words after `endorse` make.
pub(crate) fn endorse_request(rest: &[String]) -> Option<Request<'_>>
    ensures { IsReadAs (codes "endorse") (map string_bytes rest.now) result }
{
    match rest {
        [name, file] => Some(Request::Endorse(name.as_str(), file.as_str())),
        _ => None,
    }
}

/// The request that the words after `endorsed` make.
pub(crate) fn endorsed_request(rest: &[String]) -> Option<Request<'_>>
    ensures { IsReadAs (codes "endorsed") (map string_bytes rest.now) result }
{
    match rest {
        [key, file, signature] => Some(Request::Endorsed(
            key.as_str(),
            file.as_str(),
            signature.as_str(),
        )),
        _ => None,
    }
}

/// The request that the words after `gaps` make.
pub(crate) fn gaps_request(rest: &[String]) -> Option<Request<'_>>
    ensures { IsReadAs (codes "gaps") (map string_bytes rest.now) result }
{
    match rest {
        [log] => Some(Request::Gaps(log.as_str())),
        _ => None,
    }
}

/// The request that the words after `make` make.
pub(crate) fn make_request(rest: &[String]) -> Option<Request<'_>>
    ensures { IsReadAs (codes "make") (map string_bytes rest.now) result }
{
    match rest {
        [word] => Some(Request::Make(sessions_of(word.as_str())?)),
        _ => None,
    }
}

/// The request that the words after `office` make.
pub(crate) fn office_request(rest: &[String]) -> Option<Request<'_>>
    ensures { IsReadAs (codes "office") (map string_bytes rest.now) result }
{
    match rest {
        [name, seed] => Some(Request::Office(name.as_str(), seed_of(seed.as_str())?)),
        _ => None,
    }
}

/// The request that the words after `order` make.
pub(crate) fn order_request(rest: &[String]) -> Option<Request<'_>>
    ensures { IsReadAs (codes "order") (map string_bytes rest.now) result }
{
    match rest {
        [roster, x, y, logs @ ..] if are_ordered(x.as_str(), y.as_str(), logs) => {
            Some(Request::Order(roster.as_str(), x.as_str(), y.as_str(), logs))
        }
        _ => None,
    }
}

/// The request that the words after `play` make.
pub(crate) fn play_request(rest: &[String]) -> Option<Request<'_>>
    ensures { IsReadAs (codes "play") (map string_bytes rest.now) result }
{
    match rest {
        [script, prefix] => Some(Request::Play(script.as_str(), prefix.as_str())),
        _ => None,
    }
}

/// The request that the words after `prove` make.
pub(crate) fn prove_request(rest: &[String]) -> Option<Request<'_>>
    ensures { IsReadAs (codes "prove") (map string_bytes rest.now) result }
{
    match rest {
        [roster, proof, logs @ ..] if are_logs(logs) => {
            Some(Request::Prove(roster.as_str(), proof.as_str(), logs))
        }
        _ => None,
    }
}

/// The request that the words after `repair` make.
pub(crate) fn repair_request(rest: &[String]) -> Option<Request<'_>>
    ensures { IsReadAs (codes "repair") (map string_bytes rest.now) result }
{
    match rest {
        [script, prefix] => Some(Request::Repair(script.as_str(), prefix.as_str())),
        _ => None,
    }
}

/// The request that the words after `run` make.
pub(crate) fn run_request(rest: &[String]) -> Option<Request<'_>>
    ensures { IsReadAs (codes "run") (map string_bytes rest.now) result }
{
    match rest {
        [script, prefix] => Some(Request::Run(script.as_str(), prefix.as_str())),
        _ => None,
    }
}

/// The request that the words after `watch` make.
pub(crate) fn watch_request(rest: &[String]) -> Option<Request<'_>>
    ensures { IsReadAs (codes "watch") (map string_bytes rest.now) result }
{
    match rest {
        [roster, rules, logs @ ..] if are_logs(logs) => {
            Some(Request::Watch(roster.as_str(), rules.as_str(), logs))
        }
        _ => None,
    }
}
