/// What a value may be used as.
#[derive(Clone, Copy, Debug, PartialEq, Eq, Hash)]
pub enum Kind {
    /// A signed 32-bit number.
    Int,
    /// The null reference alone.
    Null,
    /// Any value at all, so that nothing can be done with it but drop it.
    Unusable,
    /// Null, or an object of the class with this number or of one below it.
    Class(u16),
}
