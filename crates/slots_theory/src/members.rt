ghost use Rattle.std.specs.Prelude.{◌≡◌, count_ones};
ghost use Rattle.slots_theory.specs.Sets.{bit_of, has_slot, has_all, with_slot, intersection as shared};

use crate::set::SlotSet;

/// The bit of a slot, and no bit from slot 32 on.
fn bit(slot: u16) -> u32
    ensures { result ≡ bit_of slot }
{
    if slot < 32 { 1 << slot } else { 0 }
}

impl SlotSet {
    /// How many slots are in the set: the more, the lower it lies.
    pub fn height(self) -> u32
        ensures { result ≡ count_ones self.bits }
    {
        self.bits.count_ones()
    }

    /// Whether a slot is in the set.
    pub fn contains(self, slot: u16) -> bool
        ensures { result ≡ has_slot self slot }
    {
        self.bits & bit(slot) != 0
    }

    /// Whether all slots of another set are in this one.
    pub fn contains_all(self, other: SlotSet) -> bool
        ensures { result ≡ has_all self other }
    {
        self.bits & other.bits == other.bits
    }

    /// The set with one slot added.
    #[tactic(auto, using(std::proofs::lemmas::Nat::or_of_32))]
    pub fn with_slot(self, slot: u16) -> SlotSet
        ensures { result ≡ with_slot self slot }
    {
        SlotSet {
            bits: self.bits | bit(slot),
        }
    }

    /// The slots that are in both sets.
    pub fn intersection(self, other: SlotSet) -> SlotSet
        ensures { result ≡ shared self other }
    {
        SlotSet {
            bits: self.bits & other.bits,
        }
    }
}
