ghost use Rattle.std.specs.Prelude.{◌≡◌, ℕ, ◌+◌, ◌*◌, ◌<◌, ◌≤◌, length, Ok, Err};
ghost use Rattle.format.specs.Bytes.{first_failing};
ghost use Rattle.format.specs.Tests.{slot_readable};
ghost use Rattle.format.specs.Reading.{read_slots, span as span_of, layout_of};

use crate::bytes::word;
use crate::framing::{Fields, table};
use crate::records::storable;
use format::layout::Span;
use format::refusal::ReadError;

/// The slot table of a unit: kinds one after another, and how many classes the unit has.
#[derive(Clone, Copy)]
pub(crate) struct SlotTable<'a> {
    bytes: &'a [u8],
    span: Span,
    classes: usize,
    ghost whole: { span.start + 2 * span.count ≤ length bytes.now },
}

impl<'a> SlotTable<'a> {
    /// Whether slot i is int or a class, and slot 0 a class.
    fn reads(self, i: usize) -> bool
        requires { i < self.span.count }
        ensures { result ≡ slot_readable self.entry.bytes.now self.entry.classes self.entry.span i }
    {
        let code = word(self.bytes, self.span.start + 2 * i);
        if i == 0 {
            usize::from(code) < self.classes
        } else {
            storable(self.classes, code)
        }
    }

    /// The first slot that breaks its rule.
    fn first_bad(self) -> Option<usize>
        ensures { result ≡ first_failing (slot_readable self.entry.bytes.now self.entry.classes self.entry.span) 0 self.entry.span.count }
    {
        (0..self.span.count).find(|&i| !self.reads(i))
    }
}

impl<'a> Fields<'a> {
    /// The slot table, where its size and every slot in it are right.
    pub(crate) fn slots(self, classes: usize) -> Result<Span, ReadError>
        requires { classes ≡ (layout_of self.bytes.now self.frame).classes.count }
        ensures value { result ≡ read_slots self.entry.bytes.now self.entry.frame (Ok (span_of 2 self.entry.frame.slots self.entry.frame.code)) }
    {
        let Fields { bytes, frame } = self;
        let span = table(frame.slots, frame.code, 2, 32).ok_or(ReadError::Slot(0))?;
        let slots = SlotTable {
            bytes,
            span,
            classes,
        };
        match slots.first_bad() {
            Some(slot) => Err(ReadError::Slot(slot)),
            None => Ok(span),
        }
    }
}
