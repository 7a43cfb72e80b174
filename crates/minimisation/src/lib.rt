// The minimal automaton: a basis of the columns that words reach, the automaton folded onto its pivots, and one reduction of that.
#![tactic(auto)]

ghost use Rattle.std.specs.Prelude.{◌≡◌, length};
ghost use Rattle.rows.specs.Row.{mask};
ghost use Rattle.rows.specs.Table.{size};
ghost use Rattle.rows.specs.Machine.{automaton_in, Valid};
ghost use Rattle.basis.specs.Basis.{basis_size};
ghost use Rattle.minimisation.specs.Minimises.{MinimisesUpTo};

use basis::Basis;
use rows::{Machine, Source, Table};

// The minimal automaton of t and m, its rows in c; of one with more than `most` states only their number. The table t is left with the
// folded automaton, and the basis b is for work.
pub fn minimise(t: &mut Table, m: Machine, b: &mut Basis, c: &mut Table, most: usize) -> Machine
    requires { Valid t.old m × (length b.old ≡ basis_size) × (length c.old ≡ size) }
    ensures { (result.letters ≡ m.letters) × MinimisesUpTo m.letters (automaton_in t.old m) c.new most result.states (mask result.initial) (mask result.finals) }
{
    transpose::transposed(t, m.letters, m.states, c);
    let mirror = Source {
        table: c,
        machine: Machine {
            states: m.states,
            letters: m.letters,
            initial: m.finals,
            finals: m.initial,
        },
    };
    let s = observation::explore(mirror, b);
    let g = folding::fold(b, s.pivots, t, m, c);
    let folded = Source {
        table: t,
        machine: g,
    };
    reduction::reduce(folded, b, c, most)
}
