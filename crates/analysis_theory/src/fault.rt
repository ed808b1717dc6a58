ghost use Rattle.std.specs.Prelude.{◌≡◌};
ghost use Rattle.analysis_theory.specs.Faults.{fault_number, fault_detail, fault_under};

/// What is wrong with an instruction in a state.
#[derive(Clone, Copy, Debug, PartialEq, Eq, Hash)]
pub enum Cause {
    /// There are fewer operands than the instruction takes.
    TooFew,
    /// More operands than the head allows would stand.
    TooDeep,
    /// The operand at this distance from the top is not what the instruction takes.
    Misfit { distance: u8 },
    /// This slot may be unset.
    Unset { slot: u16 },
    /// A row may be held already.
    RowHeld,
    /// No row may be held.
    NoRow,
    /// There is no such instruction.
    Outside,
}

// `number` and `detail` are kept as methods, and no `From`: they are two numbers of one cause, and `From` could give only one.
impl Cause {
    /// The number of the fault.
    pub fn number(self) -> u8
        ensures { result ≡ fault_number self }
    {
        match self {
            Cause::TooFew => 1,
            Cause::TooDeep => 2,
            Cause::Misfit { .. } => 3,
            Cause::Unset { .. } => 4,
            Cause::RowHeld => 5,
            Cause::NoRow => 6,
            Cause::Outside => 7,
        }
    }

    /// What the fault says besides: the distance from the top, or the slot.
    pub fn detail(self) -> u16
        ensures { result ≡ fault_detail self }
    {
        match self {
            Cause::Misfit { distance } => distance as u16,
            Cause::Unset { slot } => slot,
            Cause::TooFew | Cause::TooDeep | Cause::RowHeld | Cause::NoRow | Cause::Outside => 0,
        }
    }

    /// The fault of this cause under the layer of an analysis.
    pub fn under(self, layer: u8) -> Fault
        ensures { result ≡ fault_under layer self }
    {
        Fault { layer, cause: self }
    }
}

/// An analysis refuses an instruction in a state: which one refuses, by its layer, and why.
// The layer is kept as a number: the analyses behind the interface are open, and a type around it would say no more.
#[derive(Clone, Copy, Debug, PartialEq, Eq, Hash)]
pub struct Fault {
    pub layer: u8,
    pub cause: Cause,
}

/// Two states have no state above both.
#[derive(Clone, Copy, Debug, PartialEq, Eq, Hash)]
pub struct NoJoin;

/// Bytes do not begin with the writing of a state: which analysis says so, by its layer.
// The layer is kept as a number, as that of a fault is.
#[derive(Clone, Copy, Debug, PartialEq, Eq, Hash)]
pub struct Unreadable {
    pub layer: u8,
}
