//! Signing again and again.
ghost use Rattle.std.specs.Prelude.{◌≡◌, IfOk, OnErr, length, map};
ghost use Rattle.std.specs.List.{range_with_len};
ghost use Rattle.lms_sign.specs.Calls.{accepted};
ghost use Rattle.hss_sign.specs.Calls.{EachOnce, HssAnswersEach, hss_used, leaves_of};
ghost use Rattle.hss_sign.specs.Signs.{leaves_in};

use crate::secret::{HssFault, HssSecret, Memory};
use std::alloc::Global;

/// Signs each message in turn, and answers what each call answered. The accepted signatures have
/// the numbers from the secret's next one on, so no leaf of a low tree signs twice. Out of memory
/// before the first call, it signs nothing.
pub fn hss_sign_each(
    alloc: Global,
    secret: &mut HssSecret,
    messages: &[&[u8]],
) -> Result<Vec<Result<Vec<u8>, HssFault>>, Memory>
    ensures count { IfOk result (λ answers. length answers.items ≡ length messages.now) }
    ensures answers { IfOk result (λ answers.
        HssAnswersEach secret.old (map (λ message. message.now) messages.now) answers.items) }
    ensures leaves { IfOk result (λ answers.
        map (λ s. leaves_in secret.old.kind secret.old.top s.items) (accepted answers.items)
        ≡ map (leaves_of secret.old.low)
        (range_with_len secret.old.next (length (accepted answers.items)))) }
    ensures once { IfOk result (λ answers. EachOnce
        (map (λ s. leaves_in secret.old.kind secret.old.top s.items) (accepted answers.items))) }
    ensures next { IfOk result (λ answers.
        secret.new ≡ hss_used secret.old (length (accepted answers.items))) }
    ensures err { OnErr result (secret.new ≡ secret.old) }
{
    let mut answers = Vec::with_capacity(alloc, messages.len())?;
    for message in messages {
        answers.push_reserved(secret.sign(alloc, message));
    }
    Ok(answers)
}
