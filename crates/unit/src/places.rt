ghost use Rattle.std.specs.Prelude.{◌+◌, ◌*◌, ◌^◌, ◌<◌};
ghost use Rattle.unit.specs.Places.{RecordPlace, ClassPlace, SlotPlace, InstructionPlace, Tables};

use crate::unit::Unit;
use format::layout::Span;

/// Where record i of a table stands, whose records have one width, if the table has so many.
fn record_place(table: Span, width: usize, i: usize) -> Option<usize>
    requires { table.start + width * table.count < 2 ^ 64 }
    ensures { RecordPlace table width i result }
{
    if i < table.count {
        Some(table.start + width * i)
    } else {
        None
    }
}

impl<'a> Unit<'a> {
    /// Does nothing, and tells a proof what the unit's invariant says of its tables.
    // Kept beside the invariant, and no second ghost field: it follows from `reads`, and would be proved wherever a unit is made.
    pub(crate) fn tables(&self)
        ensures { Tables self.now }
    {}

    /// Where the record of a class starts.
    #[tactic(auto, using(crate::proofs::Placing::class_placed))]
    pub(crate) fn class_place(&self, class: u16) -> Option<usize>
        ensures { ClassPlace self.now class result }
    {
        record_place(self.layout.classes, 19, class as usize)
    }

    /// Where the kind of a slot stands.
    #[tactic(auto, using(crate::proofs::Placing::slot_placed))]
    pub(crate) fn slot_place(&self, slot: usize) -> Option<usize>
        ensures { SlotPlace self.now slot result }
    {
        record_place(self.layout.slots, 2, slot)
    }

    /// Where an instruction stands.
    #[tactic(auto, using(crate::proofs::Placing::instruction_placed))]
    pub(crate) fn instruction_place(&self, at: usize) -> Option<usize>
        ensures { InstructionPlace self.now at result }
    {
        record_place(self.layout.code, 3, at)
    }
}
