ghost use Rattle.std.specs.Prelude.{◌^◌, ◌<◌};

/// A set of slots, of which there are 32 at most: bit n is slot n's.
#[derive(Clone, Copy, Debug, PartialEq, Eq, Hash)]
pub struct SlotSet {
    pub bits: u32,
    ghost fits: { bits < 2 ^ 32 },
}
