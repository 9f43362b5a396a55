// The names that files have until they are put in place.
ghost use Rattle.std.specs.Prelude.{◌≡◌};
ghost use Rattle.folder_calls.specs.Placing.{after_last, is_other as is_other_name};

/// What follows the last slash.
fn after_last(bytes: &[u8]) -> &[u8]
    ensures { result.now ≡ after_last bytes.now bytes.now }
{
    let mut part = bytes;
    let mut at = 0usize;
    for byte in bytes {
        at += 1;
        if *byte == b'/' {
            part = &bytes[at..];
        }
    }
    part
}

/// Whether the name is kept for files that aren't in place yet.
pub fn is_other(name: &str) -> bool
    ensures { result ≡ is_other_name name.now }
{
    let part = after_last(name.as_bytes());
    let front = &part[..part.len().min(12)];
    front == b".auditorium-".as_slice()
}
