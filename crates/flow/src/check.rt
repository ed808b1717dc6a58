ghost use Rattle.std.specs.Prelude.{◌≡◌, length};
ghost use Rattle.flow_theory.specs.Checking.{YesIsSafe, verdict};
ghost use Rattle.flow.specs.Tables.{cleared, outcome};
ghost use Rattle.unit.specs.Model.{parts_of};

use crate::entries::read_entries;
use crate::tables::{Entries, fill};
use crate::walk::Walk;
use analysis::analysis::Analysis;
use flow_theory::check::CheckError;
use unit::unit::Unit;

/// Reads a certificate's entries into a table of as many places as there are instructions, and walks over the code with them.
fn judge<A: Analysis>(
    analysis: &A,
    unit: &Unit<'_>,
    certificate: &[u8],
    table: &mut [A::State],
    marks: &mut [u8],
) -> Result<(), CheckError>
    requires { (length table.old ≡ length (parts_of unit.now).code) × (length marks.old ≡ length (parts_of unit.now).code) }
    ensures { result ≡ verdict (parts_of unit.now) (A.Analysis.meaning analysis.now (parts_of unit.now)) certificate.now }
{
    let mut entries = Entries::empty(table, marks);
    read_entries(analysis, unit, certificate, &mut entries)?;
    let walk = Walk {
        analysis,
        unit,
        entries: &entries,
    };
    walk.run()?;
    Ok(())
}

/// Checks a certificate of a unit under an analysis, in one walk over the code. It works in a table and marks that the caller
/// lends, and leaves the start state and mark 0 at the code's places.
// The table and the marks are kept as two slices: a rule of the project, fixed memory that the caller lends.
pub fn check<A: Analysis>(
    analysis: &A,
    unit: &Unit<'_>,
    certificate: &[u8],
    table: &mut [A::State],
    marks: &mut [u8],
) -> Result<(), CheckError>
    ensures outcome { result ≡ outcome (parts_of unit.now) (A.Analysis.meaning analysis.now (parts_of unit.now)) (length table.old) (length marks.old) certificate.now }
    ensures table { table.new ≡ cleared (length (parts_of unit.now).code) (length table.old) (length marks.old) (A.Analysis.meaning analysis.now (parts_of unit.now)).start table.old }
    ensures marks { marks.new ≡ cleared (length (parts_of unit.now).code) (length table.old) (length marks.old) 0 marks.old }
    ensures safe { YesIsSafe (parts_of unit.now) (A.Analysis.meaning analysis.now (parts_of unit.now)) result }
{
    unit.keeps_rules();
    let count = unit.code_len();
    if table.len() < count || marks.len() < count {
        return Err(CheckError::Sizes);
    }
    let table = &mut table[..count];
    let marks = &mut marks[..count];
    let verdict = judge(analysis, unit, certificate, table, marks);
    fill(table, analysis.start(unit));
    marks.fill(0);
    verdict
}
