ghost use Rattle.std.specs.Prelude.{◌≡◌, ℕ, ◌+◌, ◌*◌, ◌<◌, ◌≤◌, length};
ghost use Rattle.format.specs.Bytes.{first_failing};
ghost use Rattle.format.specs.Tests.{names_test, instruction_readable};

use crate::bytes::word;
use crate::classes::ClassTable;
use format::layout::Layout;
use opcodes::opcode::{Opcode, Sort};

/// The code of a unit, and where the parts lie that its instructions name.
#[derive(Clone, Copy)]
pub(crate) struct Code<'a> {
    pub(crate) bytes: &'a [u8],
    pub(crate) layout: Layout,
    ghost classes: { layout.classes.start + 19 * layout.classes.count ≤ length bytes.now },
    ghost code: { layout.code.start + 3 * layout.code.count ≤ length bytes.now },
}

impl<'a> Code<'a> {
    /// Whether there is what a number names, where it names a thing of this sort.
    fn names(self, sort: Sort, n: u16) -> bool
        ensures { result ≡ names_test self.entry.bytes.now self.entry.layout sort n }
    {
        let Code { bytes, layout } = self;
        let n = usize::from(n);
        match sort {
            Sort::Unused => n == 0,
            Sort::Number => true,
            Sort::Slot => n < layout.slots.count,
            Sort::Class => n < layout.classes.count,
            // Kept as a number that is taken apart here: the definition of what a number names speaks of the number.
            Sort::Field => {
                let span = layout.classes;
                n / 8 < span.count
                    && n % 8 < usize::from(ClassTable { bytes, span }.record(n / 8).field_count())
            }
            Sort::Target => n < layout.code.count,
        }
    }

    /// Whether instruction i is one of the fifteen, and its number names something.
    fn reads(self, i: usize) -> bool
        requires { i < self.layout.code.count }
        ensures { result ≡ instruction_readable self.entry.bytes.now self.entry.layout i }
    {
        let at = self.layout.code.start + 3 * i;
        match Opcode::try_from(self.bytes[at]) {
            Ok(opcode) => self.names(opcode.row().sort, word(self.bytes, at + 1)),
            Err(_) => false,
        }
    }

    /// The first instruction that breaks its rule.
    pub(crate) fn first_bad(self) -> Option<usize>
        ensures { result ≡ first_failing (instruction_readable self.entry.bytes.now self.entry.layout) 0 self.entry.layout.code.count }
    {
        (0..self.layout.code.count).find(|&i| !self.reads(i))
    }
}
