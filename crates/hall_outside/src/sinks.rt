// Sinks of bytes.
ghost use Rattle.std.specs.Prelude.{
  ◌≡◌,
  ◌<◌,
  ℕ,
  List,
  length,
  take,
  Option,
  Result,
  is_ok,
  IfOk,
  OnOk,
  OnErr,
  IsErr,
};
ghost use Rattle.hall_outside.specs.Counts.{HasCause};
ghost use Rattle.hall_outside.specs.Writing.{IsCountOf, appended, AppendsPrefix, OffersAll};

use crate::stores::Failed;

/// Where bytes go out to. A sink either always or never exposes what was written.
pub trait Sink {
    ghost use Rattle.hall_outside.specs.declared.stores.Failed.{Failed};

    /// The bytes written so far, where the sink exposes them.
    ghost written: { Self → Option (List ℕ) };

    /// How many writes have failed, up to the greatest `u64`.
    ghost faults: { Self → ℕ };

    /// What more than the clauses below say may come of a write: the sink before it, the piece, the
    /// answer and the sink after it.
    ghost writes: { Self → List ℕ → Result ℕ Failed → Self → Type 0 };

    /// Writes a prefix of `piece`, and answers its length in bytes.
    fn write(&mut self, piece: &[u8]) -> Result<usize, Failed>
        requires { 0 < length piece.now }
        ensures took { IfOk result (IsCountOf piece.now) }
        ensures ok { IfOk result (λ n.
            written self.new ≡ appended (written self.old) (take n piece.now)) }
        ensures err { OnErr result (written self.new ≡ written self.old) }
        ensures cause { HasCause (faults self.old) (faults self.new) (IsErr result) }
        ensures step { writes self.old piece.now result self.new };
}

/// Writes all of `bytes`, each write being offered all that is left. It takes no memory. After
/// `Failed` a prefix of the bytes was written.
pub fn write_all<K: Sink>(sink: &mut K, bytes: &[u8]) -> Result<(), Failed>
    ensures ok { OnOk result (K.written sink.new ≡ appended (K.written sink.old) bytes.now) }
    ensures err { OnErr result
        (AppendsPrefix (K.written sink.old) bytes.now (K.written sink.new)) }
    ensures cause { HasCause (K.faults sink.old) (K.faults sink.new) (IsErr result) }
    ensures offers { OffersAll K.writes sink.old bytes.now (is_ok result) sink.new }
{
    let mut done = 0;
    while done < bytes.len() {
        done += sink.write(&bytes[done..])?;
    }
    Ok(())
}
