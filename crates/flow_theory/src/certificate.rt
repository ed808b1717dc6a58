ghost use Rattle.flow_theory.specs.Refusals.{certificate_refusal};
ghost use Rattle.std.specs.Prelude.{◌≡◌};

use format::refusal::Refusal;

/// Why bytes are no certificate: the first field that is wrong, by the byte where it starts.
#[derive(Clone, Copy, Debug, PartialEq, Eq)]
pub enum CertificateError {
    /// The field does not stand whole, has another tag, is too short, or names another count of instructions.
    Framing { place: usize },
    /// The field's instruction number does not rise or is not in the code.
    Number { place: usize },
    /// The field's state can't be read by the analysis of this layer, which is kept as a number, as that of a fault is.
    State { place: usize, layer: u8 },
    /// Bytes are left over behind the field's state.
    LeftOver { place: usize },
}

impl From<CertificateError> for Refusal {
    ghost from_gives = { λ e r. r ≡ certificate_refusal e };

    /// The five numbers of a refused certificate.
    fn from(error: CertificateError) -> Refusal {
        let (number, place, layer) = match error {
            CertificateError::Framing { place } => (11, place, 0),
            CertificateError::Number { place } => (12, place, 0),
            CertificateError::State { place, layer } => (13, place, layer),
            CertificateError::LeftOver { place } => (13, place, 0),
        };
        Refusal {
            number,
            place,
            layer,
            ..Refusal::default()
        }
    }
}

/// An instruction's state in a certificate.
#[derive(Clone, Copy, Debug, PartialEq, Eq)]
pub struct Entry<S> {
    pub at: usize,
    pub state: S,
}
