ghost use Rattle.std.specs.Prelude.{◌≡◌};
ghost use Rattle.rows_theory.specs.Writing.{row_byte, row_read};

use analysis_theory::fault::Unreadable;

/// The layer of this analysis.
pub const LAYER: u8 = 3;

/// What is known of the row before an instruction.
#[derive(Clone, Copy, Debug, PartialEq, Eq, Hash)]
pub enum RowState {
    /// No row is held.
    Empty,
    /// A row is held.
    Held,
    /// Perhaps a row is held, perhaps none.
    Perhaps,
}

/// The byte that a state is written as.
impl From<RowState> for u8 {
    ghost from_gives = { λ state r. r ≡ row_byte state };

    fn from(state: RowState) -> u8 {
        match state {
            RowState::Empty => 0,
            RowState::Held => 1,
            RowState::Perhaps => 2,
        }
    }
}

/// The state that a byte is the writing of, if it is one's.
impl TryFrom<u8> for RowState {
    type Error = Unreadable;

    ghost try_from_gives = { λ byte r. r ≡ row_read byte };

    fn try_from(byte: u8) -> Result<RowState, Unreadable> {
        match byte {
            0 => Ok(RowState::Empty),
            1 => Ok(RowState::Held),
            2 => Ok(RowState::Perhaps),
            _ => Err(Unreadable { layer: LAYER }),
        }
    }
}
