ghost use Rattle.std.specs.Prelude.{◌≡◌, ◌<◌, ◌≤◌, length, is_ok, IfOk, IfErr};
ghost use Rattle.flow_theory.specs.Certificate.{entry_in, framed as framed_at, headed as headed_by};
ghost use Rattle.flow_theory.specs.declared.certificate.CertificateError.TheVariants.{Framing};
ghost use Rattle.unit.specs.Model.{parts_of};

use analysis::analysis::Analysis;
use flow_theory::certificate::{CertificateError, Entry};
use reader::bytes::word;
use unit::unit::Unit;

/// The tag of the field with the instruction count.
const COUNT: u8 = 0x11;

/// The tag of a field with an entry.
const ENTRY: u8 = 0x12;

/// Whether the field with the instruction count stands at the front.
fn headed(unit: &Unit<'_>, bytes: &[u8]) -> bool
    ensures { result ≡ headed_by (parts_of unit.now) bytes.now }
{
    bytes.len() >= 5
        && bytes[0] == COUNT
        && word(bytes, 1) == 2
        && word(bytes, 3) as usize == unit.code_len()
}

/// Whether a field with an entry stands whole at a place, with a number at least.
fn framed(bytes: &[u8], place: usize) -> bool
    requires { place < length bytes.now }
    ensures { result ≡ framed_at bytes.now place }
{
    if bytes.len() - place < 5 || bytes[place] != ENTRY {
        return false;
    }
    let size = word(bytes, place + 1) as usize;
    size >= 2 && size <= bytes.len() - place - 3
}

/// The fields of a certificate behind the one with the instruction count, one by one: each gives its entry, or what is wrong
/// with it. After a field that is wrong nothing is left.
#[derive(Drop)]
pub(crate) struct Fields<'a, A> {
    analysis: &'a A,
    unit: &'a Unit<'a>,
    bytes: &'a [u8],
    /// Where the next field starts.
    place: usize,
    /// The least number that its entry may have.
    least: usize,
}

impl<'a, A: Analysis> Fields<'a, A> {
    /// The fields of a certificate, if the one with the instruction count stands at its front.
    pub(crate) fn of(
        analysis: &'a A,
        unit: &'a Unit<'a>,
        bytes: &'a [u8],
    ) -> Result<Fields<'a, A>, CertificateError>
        ensures headed { is_ok result ≡ headed_by (parts_of unit.now) bytes.now }
        ensures refusal { IfErr result (λ error. error ≡ Framing 0) }
        ensures certificate { IfOk result (λ fields. (fields.analysis.now ≡ analysis.now) × ((fields.unit.now ≡ unit.now) × (fields.bytes.now ≡ bytes.now))) }
        ensures first { IfOk result (λ fields. (fields.place ≡ 5) × (fields.least ≡ 0)) }
    {
        if !headed(unit, bytes) {
            return Err(CertificateError::Framing { place: 0 });
        }
        Ok(Fields {
            analysis,
            unit,
            bytes,
            place: 5,
            least: 0,
        })
    }

    /// The entry in the field at a place.
    fn entry(&self) -> Result<Entry<A::State>, CertificateError>
        requires { self.now.place < length self.now.bytes.now }
        ensures number { IfOk result (λ entry. entry.at < 65536) }
        ensures value { result ≡ entry_in (parts_of self.now.unit.now) (A.Analysis.meaning self.now.analysis.now (parts_of self.now.unit.now)) self.now.bytes.now self.now.place self.now.least }
    {
        let place = self.place;
        if !framed(self.bytes, place) {
            return Err(CertificateError::Framing { place });
        }
        let size = word(self.bytes, place + 1) as usize;
        let at = word(self.bytes, place + 3) as usize;
        if at < self.least || at >= self.unit.code_len() {
            return Err(CertificateError::Number { place });
        }
        let (state, length) = self
            .analysis
            .read(self.unit, &self.bytes[place + 5..place + 3 + size])
            .map_err(|unreadable| CertificateError::State {
                place,
                layer: unreadable.layer,
            })?;
        if length == size - 2 {
            Ok(Entry { at, state })
        } else {
            Err(CertificateError::LeftOver { place })
        }
    }
}

impl<'a, A: Analysis> Iterator for Fields<'a, A> {
    type Item = Result<Entry<A::State>, CertificateError>;

    ghost use Rattle.std.specs.Prelude.{◌≡◌, ◌-◌, length};
    ghost use Rattle.std.specs.Iterator.{at_most};
    ghost use Rattle.flow.specs.Answers.{FieldRead};
    ghost use Rattle.unit.specs.Model.{parts_of};

    ghost next_gives = { λ s r t. FieldRead (parts_of s.unit.now) (A.Analysis.meaning s.analysis.now (parts_of s.unit.now)) s.bytes.now s.place s.least r t.place t.least × ((t.analysis.now ≡ s.analysis.now) × ((t.unit.now ≡ s.unit.now) × (t.bytes.now ≡ s.bytes.now))) };

    ghost remaining = { λ s. at_most (length s.bytes.now - s.place) };

    fn next(&mut self) -> Option<Result<Entry<A::State>, CertificateError>> {
        if self.place >= self.bytes.len() {
            return None;
        }
        let entry = self.entry();
        match &entry {
            Ok(entry) => {
                self.place += 3 + word(self.bytes, self.place + 1) as usize;
                self.least = entry.at + 1;
            }
            Err(_) => self.place = self.bytes.len(),
        }
        Some(entry)
    }
}
