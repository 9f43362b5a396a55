//! The parameter sets.
ghost use Rattle.std.specs.Prelude.{◌≡◌, ◌≢◌, ◌-◌, ◌*◌, ◌/◌, ◌^◌, ◌<◌, ◌≤◌, IfSome, IfNone};
ghost use Rattle.lms_ots.specs.Width.{IsWidth};

/// A parameter set of LM-OTS with SHA-256 and n = 32 (RFC 8554, 4.1), named by the width of a digit
/// in bits.
#[derive(Clone, Copy, Debug, PartialEq, Eq)]
pub enum OtsKind {
    W1,
    W2,
    W4,
    W8,
}

// What a set fixes.
#[derive(Clone, Copy)]
pub(crate) struct Parameters {
    pub(crate) typecode: u32,
    // The width of a digit in bits.
    pub(crate) w: u32,
    // The number of digits, those of the checksum included.
    pub(crate) p: u16,
    // The left shift of the checksum in bits.
    pub(crate) ls: u32,
}

impl Parameters {
    // The largest digit.
    pub(crate) fn largest(self) -> u8
        requires { IsWidth self.w }
        ensures { result ≡ 2 ^ self.w - 1 }
    {
        u8::MAX >> (8 - self.w)
    }
}

impl OtsKind {
    ghost use Rattle.lms_ots.specs.Parameters.{parameters, signature_len};
    ghost use Rattle.lms_ots.specs.Words.{ots_word};
    ghost use Rattle.lms_ots.specs.Checkpoints.{chain_checkpoints, checkpoint_count, stride};

    pub(crate) fn parameters(self) -> Parameters
        ensures table { result ≡ parameters self }

        // The width, the places of digits in a hash with its checksum, and the checksum's 16 bits.
        ensures width { IsWidth result.w }
        ensures places { result.p ≤ 8 * 34 / result.w }
        ensures checksum { 32 * 8 / result.w * (2 ^ result.w - 1) * 2 ^ result.ls < 2 ^ 16 }
    {
        let (typecode, w, p, ls) = match self {
            OtsKind::W1 => (1, 1, 265, 7),
            OtsKind::W2 => (2, 2, 133, 6),
            OtsKind::W4 => (3, 4, 67, 4),
            OtsKind::W8 => (4, 8, 34, 0),
        };
        Parameters { typecode, w, p, ls }
    }

    /// The number that stands for the set in a key or a signature.
    pub fn typecode(self) -> u32
        ensures { result ≡ (parameters self).typecode }
    {
        self.parameters().typecode
    }

    /// The set that a typecode stands for.
    pub fn from_typecode(typecode: u32) -> Option<OtsKind>
        ensures known { IfSome result (λ kind. (parameters kind).typecode ≡ typecode) }
        ensures unknown { IfNone result ((kind : OtsKind) → (parameters kind).typecode ≢ typecode) }
    {
        match typecode {
            1 => Some(OtsKind::W1),
            2 => Some(OtsKind::W2),
            3 => Some(OtsKind::W4),
            4 => Some(OtsKind::W8),
            _ => None,
        }
    }

    /// The set's word in texts: `w` and the width of a digit in bits.
    pub fn word(self) -> &'static [u8]
        ensures { result.now ≡ ots_word self }
    {
        match self {
            OtsKind::W1 => b"w1",
            OtsKind::W2 => b"w2",
            OtsKind::W4 => b"w4",
            OtsKind::W8 => b"w8",
        }
    }

    /// The set whose word it is.
    pub fn of_word(word: &[u8]) -> Option<OtsKind>
        ensures known { IfSome result (λ kind. word.now ≡ ots_word kind) }
        ensures unknown { IfNone result ((kind : OtsKind) → word.now ≢ ots_word kind) }
    {
        match word {
            b"w1" => Some(OtsKind::W1),
            b"w2" => Some(OtsKind::W2),
            b"w4" => Some(OtsKind::W4),
            b"w8" => Some(OtsKind::W8),
            _ => None,
        }
    }

    /// The length of a signature in bytes.
    pub fn signature_len(self) -> usize
        ensures { result ≡ signature_len self }
    {
        4 + 32 + 32 * usize::from(self.parameters().p)
    }

    // The steps of a chain from one checkpoint to the next. Chains of W1 and W2 are shorter.
    pub(crate) fn stride(self) -> u8
        ensures value { result ≡ stride self }
        ensures some { 0 < result }
    {
        match self {
            OtsKind::W1 => 2,
            OtsKind::W2 => 4,
            OtsKind::W4 => 4,
            OtsKind::W8 => 16,
        }
    }

    // The number of checkpoints of a chain.
    pub(crate) fn chain_checkpoints(self) -> u8
        ensures { result ≡ chain_checkpoints self }
    {
        match self {
            OtsKind::W1 => 0,
            OtsKind::W2 => 0,
            OtsKind::W4 => 3,
            OtsKind::W8 => 15,
        }
    }

    /// The number of checkpoints of a key: values of its chains that a signer may keep, so that it
    /// needn't walk each chain from its start again.
    pub fn checkpoint_count(self) -> usize
        ensures { result ≡ checkpoint_count self }
    {
        usize::from(self.parameters().p) * usize::from(self.chain_checkpoints())
    }
}
