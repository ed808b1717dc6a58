//! The reader for C and Rust, by one number. The crate `unit_abi_c` exports it as a static library.
#![tactic(auto)]

ghost use Rattle.std.specs.Prelude.{◌≡◌, ℕ, ◌*◌};
ghost use Rattle.format.specs.Reading.{reading};
ghost use Rattle.unit_abi.specs.Answers.{answer_of, refused_once};

use format::refusal::Refusal;
use unit::read::read;
use unit::unit::Unit;

/// 0 where the bytes are a unit, and else the number of the refusal, from 1 to 5.
// kept as one number: the C interface hands out a `u32`
pub fn berth_unit_read(bytes: &[u8]) -> u32
    ensures { result ≡ answer_of (reading bytes.now) }
{
    let mut unit = Unit::builtin();
    match read(bytes, &mut unit) {
        Ok(()) => 0,
        Err(error) => u32::from(Refusal::from(error).number),
    }
}

/// Reads the bytes so many times; how often they were refused.
pub fn berth_unit_read_rounds(bytes: &[u8], rounds: u32) -> u32
    ensures { result ≡ rounds * refused_once (reading bytes.now) }
{
    // kept as a loop: `filter` and `count` would count in a `usize`, which a cast makes a `u32` again
    let mut refused = 0;
    for _round in 0..rounds {
        let mut unit = Unit::builtin();
        if read(bytes, &mut unit).is_err() {
            refused += 1;
        }
    }
    refused
}
