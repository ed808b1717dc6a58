ghost use Rattle.std.specs.Prelude.{◌≡◌, ℕ, ◌+◌, ◌*◌, ◌<◌, ◌≤◌, ◌||◌, length, ◌==◌, nat_lt};
ghost use Rattle.format.specs.Bytes.{up_to, word_at};
ghost use Rattle.format.specs.Tests.{storable as storable_test, code_at, count_at, field_readable, field_agrees};

use crate::bytes::word;
use kinds::kind::Kind;

/// How many bytes the record of a class has.
pub(crate) const WIDTH: usize = 19;

/// Whether a code is that of int or of one of so many classes.
pub(crate) fn storable(classes: usize, code: u16) -> bool
    ensures { result ≡ storable_test classes code }
{
    match Kind::from(code) {
        Kind::Int => true,
        _ => usize::from(code) < classes,
    }
}

/// The record of a class, by the place where it starts.
#[derive(Clone, Copy)]
pub(crate) struct ClassRecord<'a> {
    pub(crate) bytes: &'a [u8],
    pub(crate) at: usize,
    ghost whole: { at + 19 ≤ length bytes.now },
}

impl<'a> ClassRecord<'a> {
    /// The number of the parent.
    pub(crate) fn parent(self) -> u16
        ensures { result ≡ word_at self.entry.bytes.now self.entry.at }
    {
        word(self.bytes, self.at)
    }

    /// How many fields the class has.
    pub(crate) fn field_count(self) -> u8
        ensures { result ≡ count_at self.entry.bytes.now self.entry.at }
    {
        self.bytes[self.at + 2]
    }

    /// The code of field k.
    fn code(self, k: usize) -> u16
        requires { k < 8 }
        ensures { result ≡ code_at self.entry.bytes.now self.entry.at k }
    {
        word(self.bytes, self.at + 3 + 2 * k)
    }

    /// Whether field k is int or a class, or 0000 where the class, which has so many fields, has no such one.
    fn field_reads(self, classes: usize, count: usize, k: usize) -> bool
        requires { (k < 8) × (count ≡ count_at self.bytes.now self.at) }
        ensures { result ≡ field_readable self.entry.bytes.now classes self.entry.at k }
    {
        let code = self.code(k);
        if k < count {
            storable(classes, code)
        } else {
            code == 0
        }
    }
}

/// Whether each of the first n fields of the record at a place equals that of the record at `up`, and all others are as they
/// should be.
// Takes places and not records: two structs would pass through memory at each class, which took a tenth longer.
pub(crate) fn fields_agree(bytes: &[u8], classes: usize, at: usize, up: usize, n: usize) -> bool
    requires { (at + 19 ≤ length bytes.now) × (up + 19 ≤ length bytes.now) }
    ensures { result ≡ up_to 8 (field_agrees bytes.now classes at up n) }
{
    let record = ClassRecord { bytes, at };
    let parent = ClassRecord { bytes, at: up };
    let count = usize::from(record.field_count());
    // Two passes: with both tests in one, the compiled code goes to and fro between them at each field.
    (0..8).all(|k| k >= n || record.code(k) == parent.code(k))
        && (0..8).all(|k| k < n || record.field_reads(classes, count, k))
}
