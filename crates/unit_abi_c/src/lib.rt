//! The exports of `unit_abi` for C and Rust, as a static library: a slice of bytes passes as a pointer and a length.
// kept beside `unit_abi`: the C interface needs a static library, and a crate is a library or a static library, not both
#![tactic(auto)]

ghost use Rattle.std.specs.Prelude.{◌≡◌, ℕ, ◌*◌};
ghost use Rattle.format.specs.Reading.{reading};
ghost use Rattle.unit_abi.specs.Answers.{answer_of, refused_once};

/// 0 where the bytes are a unit, and else the number of the refusal, from 1 to 5.
#[unsafe(no_mangle)]
pub extern "C" fn berth_unit_read(bytes: &[u8]) -> u32
    ensures { result ≡ answer_of (reading bytes.now) }
{
    unit_abi::berth_unit_read(bytes)
}

/// Reads the bytes so many times; how often they were refused.
#[unsafe(no_mangle)]
pub extern "C" fn berth_unit_read_rounds(bytes: &[u8], rounds: u32) -> u32
    ensures { result ≡ rounds * refused_once (reading bytes.now) }
{
    unit_abi::berth_unit_read_rounds(bytes, rounds)
}
