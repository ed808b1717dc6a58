ghost use Rattle.std.specs.Prelude.{◌≡◌};
ghost use Rattle.flow_theory.specs.Refusals.{check_refusal};
ghost use Rattle.flow_theory.specs.declared.check.CheckError.TheVariants.{Certificate, Flow};

use crate::certificate::CertificateError;
use crate::flow::FlowFault;
use format::refusal::Refusal;

/// Why a certificate is not accepted.
#[derive(Clone, Copy, Debug, PartialEq, Eq)]
pub enum CheckError {
    /// The table or the marks are shorter than the code.
    Sizes,
    /// The bytes are no certificate of the unit.
    Certificate(CertificateError),
    /// The states do not flow as the certificate says.
    Flow(FlowFault),
}

impl From<CertificateError> for CheckError {
    ghost from_gives = { λ e r. r ≡ Certificate e };

    fn from(e: CertificateError) -> CheckError {
        CheckError::Certificate(e)
    }
}

impl From<FlowFault> for CheckError {
    ghost from_gives = { λ f r. r ≡ Flow f };

    fn from(f: FlowFault) -> CheckError {
        CheckError::Flow(f)
    }
}

impl From<CheckError> for Refusal {
    ghost from_gives = { λ e r. r ≡ check_refusal e };

    /// The five numbers of a refused check.
    fn from(error: CheckError) -> Refusal {
        match error {
            CheckError::Sizes => Refusal {
                number: 6,
                ..Refusal::default()
            },
            CheckError::Certificate(error) => Refusal::from(error),
            CheckError::Flow(fault) => Refusal::from(fault),
        }
    }
}
