// An automaton that stands in a lent table.

ghost use Rattle.rows.specs.Machine.{Valid};

use super::{Machine, Table};

// A machine and the table that has its matrices: sizes are within bounds, and no row has a bit that is no state.
#[derive(Clone, Copy)]
pub struct Source<'a> {
    pub table: &'a Table,
    pub machine: Machine,
    ghost valid: { Valid table.now machine },
}
