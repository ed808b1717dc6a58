ghost use Rattle.std.specs.Prelude.{◌≡◌, ℕ, ◌+◌, ◌<◌, ◌≤◌, length};
ghost use Rattle.format.specs.Bytes.{AllBytes, word_at};

/// The two-byte number at a place, the high byte first.
pub fn word(bytes: &[u8], at: usize) -> u16
    requires { at + 2 ≤ length bytes.now }
    ensures { result ≡ word_at bytes.now at }
{
    u16::from_be_bytes([bytes[at], bytes[at + 1]])
}

/// Does nothing, and tells a proof that what a slice of bytes holds are bytes.
pub fn are_bytes(bytes: &[u8])
    ensures { AllBytes bytes.now }
{}
