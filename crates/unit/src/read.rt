ghost use Rattle.unit.specs.Model.{parts_of};
ghost use Rattle.unit.specs.Outcome.{Outcome, Means};

use crate::unit::Unit;
use format::refusal::ReadError;
use reader::layout::layout;

/// Reads the unit that bytes hold into the caller's place. Where they hold none, the place stays as it was.
pub fn read<'a>(bytes: &'a [u8], into: &mut Unit<'a>) -> Result<(), ReadError>
    ensures outcome { Outcome bytes.entry into.old into.new result }
    ensures means { Means bytes.now (parts_of into.new) result }
{
    let layout = layout(bytes)?;
    *into = Unit { bytes, layout };
    Ok(())
}
