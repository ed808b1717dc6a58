use crate::code::Listing;
use std::fmt;
use unit::unit::Unit;

/// A unit as text: its sizes, its classes, its slots and its code.
#[derive(Clone, Copy)]
pub struct Shown<'a>(pub Unit<'a>);

impl<'a> fmt::Display for Shown<'a> {
    fn fmt<W: fmt::Write>(&self, f: &mut fmt::Formatter<W>) -> fmt::Result {
        heading(&self.0, f)?;
        f.write_str("\n")?;
        classes(&self.0, f)?;
        f.write_str("\n")?;
        slots(&self.0, f)?;
        write!(f, "\n{}", Listing(self.0))
    }
}

/// The line that says how much there is of everything.
fn heading<W: fmt::Write>(unit: &Unit, f: &mut fmt::Formatter<W>) -> fmt::Result {
    let bytes = unit.byte_len();
    let depth = unit.depth();
    let classes = unit.class_count();
    let slots = unit.slot_count();
    let instructions = unit.code_len();
    writeln!(
        f,
        "unit: {bytes} bytes, depth {depth}, {classes} classes, {slots} slots, {instructions} instructions"
    )
}

/// A line for each class.
fn classes<W: fmt::Write>(unit: &Unit, f: &mut fmt::Formatter<W>) -> fmt::Result {
    for class in 0..unit.class_count() as u16 {
        if let Some(parent) = unit.parent(class) {
            line_of_class(unit, class, parent, f)?;
        }
    }
    Ok(())
}

/// The line of a class: its parent, and the kinds of its fields.
fn line_of_class<W: fmt::Write>(
    unit: &Unit,
    class: u16,
    parent: u16,
    f: &mut fmt::Formatter<W>,
) -> fmt::Result {
    if class == 0 {
        write!(f, "class {class}: root, ")?;
    } else {
        write!(f, "class {class}: parent {parent}, ")?;
    }
    match unit.field_count(class) {
        None | Some(0) => f.write_str("no fields\n"),
        Some(count) => {
            f.write_str("fields")?;
            fields(unit, class, count, f)
        }
    }
}

/// The kinds of the fields of a class.
fn fields<W: fmt::Write>(
    unit: &Unit,
    class: u16,
    count: u8,
    f: &mut fmt::Formatter<W>,
) -> fmt::Result {
    for kind in (0..count).filter_map(|field| unit.field(class, field)) {
        write!(f, " {kind}")?;
    }
    f.write_str("\n")
}

/// A line for each slot.
fn slots<W: fmt::Write>(unit: &Unit, f: &mut fmt::Formatter<W>) -> fmt::Result {
    for slot in 0..unit.slot_count() {
        if let Some(kind) = unit.slot(slot) {
            writeln!(f, "slot {slot}: {kind}")?;
        }
    }
    Ok(())
}
