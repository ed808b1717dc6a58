ghost use Rattle.std.specs.Prelude.{◌≡◌, length};
ghost use Rattle.format.specs.Bytes.{AllBytes};
ghost use Rattle.format.specs.Reading.{contents as contents_of, reading};

use crate::code::Code;
use crate::framing::{Fields, framing, table};
use format::layout::Layout;
use format::refusal::ReadError;

impl<'a> Fields<'a> {
    /// Where the parts of the unit lie, if they keep the rules.
    fn contents(self) -> Result<Layout, ReadError>
        ensures { result ≡ contents_of self.entry.bytes.now self.entry.frame }
    {
        let Fields { bytes, frame } = self;
        let depth = self.head()?;
        let classes = self.classes()?;
        let slots = self.slots(classes.count)?;
        let code = table(frame.code, frame.end, 3, 1024).ok_or(ReadError::Code(0))?;
        let layout = Layout {
            depth,
            classes,
            slots,
            code,
        };
        match (Code { bytes, layout }).first_bad() {
            Some(instruction) => Err(ReadError::Code(instruction)),
            None => Ok(layout),
        }
    }
}

/// Where the parts of a unit lie in its bytes, or the first thing that is wrong with them.
pub fn layout(bytes: &[u8]) -> Result<Layout, ReadError>
    ensures outcome { result ≡ reading bytes.now }
    ensures bytes { AllBytes bytes.now }
{
    let frame = framing(bytes)?;
    Fields { bytes, frame }.contents()
}
