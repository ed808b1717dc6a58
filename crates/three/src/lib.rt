//! The three analyses that a board rests on, as one: types paired with the pair of slots and rows.
#![tactic(auto)]

use analysis::pair::Pair;
use rows::rows::Rows;
use slots::slots::Slots;
use types::types::Types;

pub type Three = Pair<Types, Pair<Slots, Rows>>;

/// The three.
pub fn three() -> Three {
    Pair {
        left: Types,
        right: Pair {
            left: Slots,
            right: Rows,
        },
    }
}
