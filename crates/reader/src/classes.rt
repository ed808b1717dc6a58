ghost use Rattle.std.specs.Prelude.{◌≡◌, ℕ, ◌+◌, ◌*◌, ◌<◌, ◌≤◌, true, length, Ok, Err};
ghost use Rattle.format.specs.Bytes.{Follows, first_failing};
ghost use Rattle.format.specs.Tests.{class_readable};
ghost use Rattle.format.specs.Reading.{read_classes, span as span_of};

use crate::framing::{Fields, table};
use crate::records::{ClassRecord, WIDTH, fields_agree};
use format::layout::Span;
use format::refusal::ReadError;

/// The class table of a unit: records one after another.
#[derive(Clone, Copy)]
pub(crate) struct ClassTable<'a> {
    pub(crate) bytes: &'a [u8],
    pub(crate) span: Span,
    ghost whole: { span.start + 19 * span.count ≤ length bytes.now },
}

impl<'a> ClassTable<'a> {
    /// The record of class i.
    pub(crate) fn record(self, i: usize) -> ClassRecord<'a>
        requires { i < self.span.count }
        ensures bytes { result.bytes.now ≡ self.entry.bytes.now }
        ensures at { result.at ≡ self.entry.span.start + 19 * i }
    {
        ClassRecord {
            bytes: self.bytes,
            at: self.span.start + WIDTH * i,
        }
    }

    /// Whether class i keeps its rule, where those before it do.
    fn reads(self, i: usize) -> bool
        requires { i < self.span.count }
        ensures { Follows (class_readable self.entry.bytes.now self.entry.span) i result }
    {
        let class = self.record(i);
        let parent = usize::from(class.parent());
        let count = class.field_count();
        if i == 0 {
            if parent != 0 || count != 0 {
                return false;
            }
            return fields_agree(self.bytes, self.span.count, class.at, class.at, 0);
        }
        if count > 8 || parent >= i {
            return false;
        }
        let up = self.record(parent);
        let inherited = up.field_count();
        if inherited > count {
            return false;
        }
        let n = usize::from(inherited);
        fields_agree(self.bytes, self.span.count, class.at, up.at, n)
    }

    /// The first class that breaks its rule.
    fn first_bad(self) -> Option<usize>
        ensures { result ≡ first_failing (class_readable self.entry.bytes.now self.entry.span) 0 self.entry.span.count }
    {
        (0..self.span.count).find(|&i| !self.reads(i))
    }
}

impl<'a> Fields<'a> {
    /// The class table, where its size and every class in it are right.
    pub(crate) fn classes(self) -> Result<Span, ReadError>
        ensures value { result ≡ read_classes self.entry.bytes.now self.entry.frame (Ok (span_of 19 self.entry.frame.classes self.entry.frame.slots)) }
    {
        let Fields { bytes, frame } = self;
        let span = table(frame.classes, frame.slots, WIDTH, 256).ok_or(ReadError::Class(0))?;
        match (ClassTable { bytes, span }).first_bad() {
            Some(class) => Err(ReadError::Class(class)),
            None => Ok(span),
        }
    }
}
