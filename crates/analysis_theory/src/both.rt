/// The state of two analyses at once.
#[derive(Clone, Copy, Debug, PartialEq, Eq, Hash)]
pub struct Both<A, B> {
    pub left: A,
    pub right: B,
}
