// A lent record read into a machine and a table.
ghost use Rattle.std.specs.Prelude.{◌≡◌, ◌<◌, length};
ghost use Rattle.rows.specs.Table.{size as table_size};
ghost use Rattle.record.specs.Record.{states_of, letters_of};
ghost use Rattle.record.specs.Held.{HeldUpTo, Holds};

use record::Record;
use rows::{Machine, Table};

// The rows of letter l, into block l.
fn read_block(lent: Record, l: usize, t: &mut Table)
    requires { (l < letters_of lent.bytes.now) × HeldUpTo lent.bytes.now t.old l 0 }
    ensures { HeldUpTo lent.entry.bytes.now t.new l (states_of lent.entry.bytes.now) }
{
    let n = lent.states();
    for i in 0..n {
        rows::store(t, l, i, lent.row(l, i));
    }
}

// A record read: its rows into a lent table, the rest into a machine.
pub fn read(lent: Record, t: &mut Table) -> Machine
    requires { length t.old ≡ table_size }
    ensures { Holds lent.entry.bytes.now t.new result }
{
    let letters = lent.letters();
    for l in 0..letters {
        read_block(lent, l, t);
    }
    let initial = lent.initial();
    let finals = lent.finals();
    Machine {
        states: lent.states(),
        letters,
        initial,
        finals,
    }
}
