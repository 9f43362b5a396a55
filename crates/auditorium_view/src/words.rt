//! The words of the command line.
ghost use Rattle.std.specs.Prelude.{◌≡◌, map, option_map, string_bytes};
ghost use Rattle.auditorium_view.specs.ViewWords.{audit_in, request_by, request_in};
ghost use Rattle.auditorium_view.specs.inside.Requests.{asked};

use command_line::{MAX_LOGS, have_form};

/// What the words ask for.
#[derive(Clone, Copy)]
pub(crate) struct Request<'a> {
    /// The picture alone, or else the page.
    pub picture: bool,
    pub roster: &'a str,
    pub rules: &'a str,
    pub logs: &'a [String],
}

/// The word before which the picture alone is asked for.
pub(crate) const PICTURE: &str = "picture";

/// A roster, rules, and 1 to 16 logs, if these are the words.
fn audit_in(picture: bool, words: &[String]) -> Option<Request<'_>>
    ensures { option_map asked result ≡ audit_in picture (map string_bytes words.now) }
{
    match words {
        [roster, rules, logs @ ..] if !logs.is_empty() && logs.len() <= MAX_LOGS => Some(Request {
            picture,
            roster: roster.as_str(),
            rules: rules.as_str(),
            logs,
        }),
        _ => None,
    }
}

/// The picture of an audit, or its page, if these are the words.
fn request_in(words: &[String]) -> Option<Request<'_>>
    ensures { option_map asked result ≡ request_in (map string_bytes words.now) }
{
    match words {
        [first, rest @ ..] if first.as_str() == PICTURE => audit_in(true, rest),
        _ => audit_in(false, words),
    }
}

/// What the words ask for, if they have their form.
pub(crate) fn request_of(words: &[String]) -> Option<Request<'_>>
    ensures { option_map asked result ≡ request_by (map string_bytes words.now) }
{
    if have_form(words) {
        request_in(words)
    } else {
        None
    }
}
