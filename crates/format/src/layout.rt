/// The records of one field: where the first one starts, and how many there are.
// Kept as places in the bytes: a rule of the project, a unit is its caller's bytes with the places of its fields.
#[derive(Clone, Copy, Debug, PartialEq, Eq, Hash)]
pub struct Span {
    pub start: usize,
    pub count: usize,
}

/// Where the fields of a well-framed unit start, and where the last one ends. The head starts at 0.
#[derive(Clone, Copy, Debug, PartialEq, Eq, Hash)]
pub struct Frame {
    pub classes: usize,
    pub slots: usize,
    pub code: usize,
    pub end: usize,
}

/// Where the parts of a unit lie in its bytes.
#[derive(Clone, Copy, Debug, PartialEq, Eq, Hash)]
pub struct Layout {
    /// The greatest number of operands that may stand on the stack.
    pub depth: u8,
    pub classes: Span,
    pub slots: Span,
    pub code: Span,
}
