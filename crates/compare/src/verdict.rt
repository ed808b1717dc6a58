use crate::digest::Digest;
use format::refusal::Refusal;
use std::fmt;
use unit::read::read;
use unit::unit::Unit;

/// The line on one unit: why it is refused, or what it holds.
#[derive(Clone, Copy)]
pub struct Verdict<'a> {
    pub number: usize,
    pub bytes: &'a [u8],
}

impl<'a> fmt::Display for Verdict<'a> {
    fn fmt<W: fmt::Write>(&self, f: &mut fmt::Formatter<W>) -> fmt::Result {
        let number = self.number;
        write!(f, "{number} ")?;
        let mut unit = Unit::builtin();
        match read(self.bytes, &mut unit) {
            Ok(()) => accepted(&unit, f),
            Err(error) => write!(f, "refused {}", Refusal::from(error)),
        }
    }
}

fn accepted<W: fmt::Write>(unit: &Unit, f: &mut fmt::Formatter<W>) -> fmt::Result {
    let bytes = unit.byte_len();
    let depth = unit.depth();
    let classes = unit.class_count();
    let slots = unit.slot_count();
    let instructions = unit.code_len();
    write!(
        f,
        "read {bytes} bytes depth {depth} classes {classes} slots {slots} instructions {instructions}"
    )?;
    let digest = Digest::of_parts(unit);
    let kinds = Digest::of_kinds(unit);
    write!(f, " digest {digest} kinds {kinds}")
}
