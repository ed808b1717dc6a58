ghost use Rattle.std.specs.Prelude.{◌≡◌, ℕ, ◌+◌, ◌*◌, ◌<◌, ◌≤◌, length, if◌then◌else◌, Some, None, Ok, Err};
ghost use Rattle.format.specs.declared.refusal.ReadError.TheVariants.{Framing, Head};
ghost use Rattle.format.specs.Bytes.{byte_at};
ghost use Rattle.format.specs.Reading.{framed_at, field_end, places_of, read_frame, Framed, guard, head_reads, sized, body_length, span as span_of};

use crate::bytes::word;
use format::layout::{Frame, Span};
use format::refusal::ReadError;

/// Bytes whose four fields lie one after another, and where.
#[derive(Clone, Copy)]
pub(crate) struct Fields<'a> {
    pub(crate) bytes: &'a [u8],
    pub(crate) frame: Frame,
    ghost framed: { Framed (length bytes.now) frame },
}

/// The place after the field with this tag that starts at a place.
fn after_field(bytes: &[u8], tag: u8, at: usize) -> Result<usize, ReadError>
    requires { at ≤ length bytes.now }
    ensures value { result ≡ guard (framed_at bytes.now tag at) (Framing at) (Ok (field_end bytes.now at)) }
    ensures within { elim result [ Ok end ↦ (at + 3 ≤ end) × (end ≤ length bytes.now) | Err _ ↦ Unit {0} ] }
{
    if bytes.len() - at < 3 || bytes[at] != tag {
        return Err(ReadError::Framing(at));
    }
    let end = at + 3 + usize::from(word(bytes, at + 1));
    if end > bytes.len() {
        return Err(ReadError::Framing(at));
    }
    Ok(end)
}

/// Where the four fields lie, with nothing before, between and after them.
pub(crate) fn framing(bytes: &[u8]) -> Result<Frame, ReadError>
    ensures value { result ≡ read_frame bytes.now (Ok (places_of bytes.now)) }
    ensures framed { elim result [ Ok f ↦ Framed (length bytes.now) f | Err _ ↦ Unit {0} ] }
{
    let classes = after_field(bytes, 1, 0)?;
    let slots = after_field(bytes, 2, classes)?;
    let code = after_field(bytes, 3, slots)?;
    let end = after_field(bytes, 4, code)?;
    if end != bytes.len() {
        return Err(ReadError::Framing(end));
    }
    Ok(Frame {
        classes,
        slots,
        code,
        end,
    })
}

/// The records of a field that starts at a place, where the next one starts at another.
pub(crate) fn table(at: usize, next: usize, width: usize, most: usize) -> Option<Span>
    requires { (at + 3 ≤ next) × (0 < width) }
    ensures { result ≡ (if sized width most (body_length at next) then Some (span_of width at next) else None) }
{
    let length = next - (at + 3);
    if length == 0 || length % width != 0 || length / width > most {
        return None;
    }
    Some(Span {
        start: at + 3,
        count: length / width,
    })
}

impl<'a> Fields<'a> {
    /// The depth that the head gives.
    pub(crate) fn head(self) -> Result<u8, ReadError>
        ensures { result ≡ guard (head_reads self.entry.bytes.now self.entry.frame) Head (Ok (byte_at self.entry.bytes.now 4)) }
    {
        let bytes = self.bytes;
        if self.frame.classes != 5 || bytes[3] != 1 || bytes[4] > 16 {
            return Err(ReadError::Head);
        }
        Ok(bytes[4])
    }
}
