// The common end of the operations: from an automaton in a table to the minimal record of its words, or refusal 11 or 12.
#![tactic(auto)]

ghost use Rattle.std.specs.Prelude.{◌≡◌, length};
ghost use Rattle.rows.specs.Table.{size};
ghost use Rattle.rows.specs.Machine.{automaton_in, Valid};
ghost use Rattle.record.specs.Outcome.{answer_in, buffer_in};
ghost use Rattle.results.specs.Results.{result_of};

use record::{Refusal, Rule};
use rows::{Machine, Table};

const MAX_STATES: usize = 32;

// The minimal record of the automaton of t and m, or refusal 11 or 12. The table t is left with the folded automaton, and the table c is for
// work.
pub fn finish(t: &mut Table, m: Machine, c: &mut Table, out: &mut [u8]) -> Result<usize, Refusal>
    requires { Valid t.old m × (length c.old ≡ size) }
    ensures answer { result ≡ answer_in (result_of m.letters (automaton_in t.old m)) out.old }
    ensures buffer { out.new ≡ buffer_in (result_of m.letters (automaton_in t.old m)) out.old }
{
    let mut b = [0u64; 192];
    let g = minimisation::minimise(t, m, &mut b, c, MAX_STATES);
    let d = g.states;
    if MAX_STATES < d {
        return Err(Rule::Dimension.of(0, d));
    }
    codec::write(c, g, out)
}
