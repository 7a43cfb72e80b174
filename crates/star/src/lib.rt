// The star of a record: the automaton with one state more that begins again wherever a word of the record ends, and the minimal record of
// its words.
#![tactic(auto)]

ghost use Rattle.std.specs.Prelude.{◌≡◌, ◌+◌, ◌^◌, ◌≤◌, ◌<◌, length};
ghost use Rattle.automata.specs.Cuts.{star};
ghost use Rattle.rows.specs.Row.{width, mask};
ghost use Rattle.rows.specs.Table.{blocks, at};
ghost use Rattle.rows.specs.Machine.{Valid};
ghost use Rattle.direct_sum.specs.Filled.{Filled, Changed};
ghost use Rattle.record.specs.Outcome.{answer_in, buffer_in};
ghost use Rattle.results.specs.Built.{held_words, Built};
ghost use Rattle.star.specs.Star.{star_outcome, GivesStar};
ghost use Rattle.star.specs.Renewed.{renewed, star_rows};

use record::{Record, Refusal, Rule};
use rows::{Machine, Row, Table};

// The rows of letter l: where one of the n states is final, by the column f, its row gains r, which is the row of the new state n.
fn renew_block(t: &mut Table, l: usize, n: usize, f: Row, r: Row)
    requires { (l < blocks) × (n < width) }
    ensures { Changed l (n + 1) (renewed n (mask f) (mask r) (at t.old l)) t.old t.new }
{
    for k in 0..n {
        let x = rows::load(t, l, k);
        let b = rows::has(f, k);
        let y = rows::when(b, r);
        let z = rows::xor(x, y);
        rows::store(t, l, k, z);
    }
    rows::store(t, l, n, r);
}

// The same of each of a letters, with the row that the letter reaches from the initial row i.
fn renew_rows(t: &mut Table, a: usize, n: usize, i: Row, f: Row)
    requires { (a ≤ blocks) × (n < width) × (mask i < 2 ^ n) }
    ensures { Filled a (n + 1) (star_rows (at t.old) n (mask i) (mask f)) t.new }
{
    for l in 0..a {
        let r = rows::times(t, l, i);
        renew_block(t, l, n, f, r);
    }
}

// The automaton of t and g, and one state more, the only initial one, and final; its rows in t.
fn repeat(t: &mut Table, g: Machine) -> Machine
    requires { Valid t.old g × (g.states < width) }
    ensures { Built g.letters (star (held_words t.old g)) t.new result }
{
    let n = g.states;
    let a = g.letters;
    let i = g.initial;
    let f = g.finals;
    renew_rows(t, a, n, i, f);
    let new = rows::unit(n);
    let finals = rows::xor(f, new);
    Machine {
        states: n + 1,
        letters: a,
        initial: new,
        finals,
    }
}

// Writes the minimal record of the words that have an odd number of cuts into words of the record; the empty word has one, into none. A
// record that accepts the empty word is refused. `claims`: row 14 comes exactly where a well-formed record accepts the empty word; where it
// does not, as for operations::sum.
pub fn star(bytes: &[u8], out: &mut [u8]) -> Result<usize, Refusal>
    ensures answer { result ≡ answer_in (star_outcome bytes.now) out.old }
    ensures buffer { out.new ≡ buffer_in (star_outcome bytes.now) out.old }
    ensures claims { GivesStar bytes.now out.new result }
{
    let lent = Record::check_as(bytes, 1)?;
    let mut s = [0u64; 512];
    let g = codec::lent::read(lent, &mut s);
    if rows::parity(g.initial, g.finals) {
        return Err(Rule::EmptyWord.of(1, 0));
    }
    let m = repeat(&mut s, g);
    let mut u = [0u64; 512];
    results::finish(&mut s, m, &mut u, out)
}
