ghost use Rattle.std.specs.Prelude.{◌≡◌, length, replicate, None};
ghost use Rattle.flow.specs.Answers.{EntriesRead};
ghost use Rattle.flow.specs.Tables.{listed};
ghost use Rattle.flow_theory.specs.Certificate.{entries_in};
ghost use Rattle.unit.specs.Model.{parts_of};

use crate::fields::Fields;
use crate::tables::Entries;
use analysis::analysis::Analysis;
use flow_theory::certificate::CertificateError;
use unit::unit::Unit;

/// Reads the entries of a certificate, where none is entered yet.
#[tactic(auto, using(crate::proofs::Gathering::gathered_none))]
pub(crate) fn read_entries<A: Analysis>(
    analysis: &A,
    unit: &Unit<'_>,
    bytes: &[u8],
    entries: &mut Entries<'_, A::State>,
) -> Result<(), CertificateError>
    requires { entries.old ≡ replicate (length (parts_of unit.now).code) None }
    ensures { EntriesRead (entries_in (parts_of unit.now) (A.Analysis.meaning analysis.now (parts_of unit.now)) bytes.now) result (listed entries.new) }
{
    let fields = Fields::of(analysis, unit, bytes)?;
    for entry in fields {
        entries.enter(entry?);
    }
    Ok(())
}
