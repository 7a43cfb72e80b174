// Sum, product, complement and mirror: from records to the minimal record of the result.
#![tactic(auto)]

ghost use Rattle.std.specs.Prelude.{◌≡◌, not, List, reverse, ℕ, ◌+◌, ◌≤◌, ◌<◌, length};
ghost use Rattle.std.proofs.Common.{ap, ap₂};
ghost use Rattle.automata.specs.Xor.{◌⊕◌};
ghost use Rattle.automata.specs.Automaton.{Automaton, accepts};
ghost use Rattle.automata.specs.Language.{Language, Same, symmetric_difference, complement, reversal};
ghost use Rattle.automata.specs.Cuts.{concatenation};
ghost use Rattle.automata.specs.Operations.{sum_of, complement_of, mirror_of, concatenation_of};
ghost use Rattle.automata.proofs.Shortlex.{over_reverse};
ghost use Rattle.automata.proofs.Operations.{accepts_sum, accepts_complement, accepts_mirror};
ghost use Rattle.automata.proofs.Concatenation.{concatenation_same};
ghost use Rattle.automata.proofs.ConcatenationOf.{accepts_concatenation};
ghost use Rattle.rows.specs.Row.{width, mask};
ghost use Rattle.rows.specs.Table.{blocks, size};
ghost use Rattle.rows.specs.Machine.{Valid};
ghost use Rattle.direct_sum.specs.Filled.{Filled};
ghost use Rattle.record.specs.Record.{letters_of, language_of};
ghost use Rattle.record.specs.Outcome.{answer_in, buffer_in};
ghost use Rattle.operands.specs.Meant.{as_meant};
ghost use Rattle.results.specs.Built.{held_words, Built};
ghost use Rattle.operations.specs.Operations.{sum_outcome, product_outcome, binary_outcome, unary_outcome, complement_outcome, mirror_outcome, Sums, GivesProduct, Combines, Operates, Complements, Mirrors};

use operands::BLANK;
use record::{Pair, Record, Refusal};
use rows::{Machine, Row, Table};

// An operation on two records, by the words of the result and by an automaton for them with the states of both. Sum and product share the
// checks, the limit and the writing.
pub trait Binary {
    ghost words: { Language → Language → Language };

    ghost make: { Automaton → Automaton → Automaton };

    // The automaton of two automata over the same letters, its rows in t.
    fn join(t: &mut Table, g: Machine, u: &Table, h: Machine) -> Machine
        requires { Valid t.old g × Valid u.now h × (h.letters ≡ g.letters) × (g.states < width) × (g.states + h.states ≤ width) }
        ensures { Built g.letters (words (held_words t.old g) (held_words u.now h)) t.new result };

    // The operation asks for the words over the letters alone.
    ghost same: { (a : ℕ) (K M L N : Language) → Same a K M → Same a L N → Same a (words K L) (words M N) };

    ghost accepted: { (A B : Automaton) (w : List ℕ) → accepts (make A B) w ≡ words (accepts A) (accepts B) w };
}

// An operation on one record, likewise.
pub trait Unary {
    ghost words: { Language → Language };

    ghost make: { Automaton → Automaton };

    // The automaton of an automaton, its rows in t.
    fn build(t: &mut Table, g: Machine) -> Machine
        requires { Valid t.old g × (g.states < width) }
        ensures { Built g.letters (words (held_words t.old g)) t.new result };

    ghost same: { (a : ℕ) (L K : Language) → Same a L K → Same a (words L) (words K) };

    ghost accepted: { (A : Automaton) (w : List ℕ) → accepts (make A) w ≡ words (accepts A) w };
}

// Two automata over the same letters side by side, the rows in t.
fn add(t: &mut Table, g: Machine, u: &Table, h: Machine) -> Machine
    requires { Valid t.old g × Valid u.now h × (h.letters ≡ g.letters) × (g.states < width) × (g.states + h.states ≤ width) }
    ensures { Built g.letters (symmetric_difference (held_words t.old g) (held_words u.now h)) t.new result }
{
    let n = g.states;
    let k = h.states;
    let a = g.letters;
    direct_sum::join(t, u, a, n, k);
    let i = rows::moved(h.initial, n);
    let f = rows::moved(h.finals, n);
    let initial = rows::xor(g.initial, i);
    let finals = rows::xor(g.finals, f);
    Machine {
        states: n + k,
        letters: a,
        initial,
        finals,
    }
}

// The automaton of one state that accepts every word over a letters, its rows in t.
fn all_words(t: &mut Table, a: usize, one: Row)
    requires { (a ≤ blocks) × (mask one ≡ 1) × (length t.old ≡ size) }
    ensures { Filled a 1 (λ l i. 1) t.new }
{
    for l in 0..a {
        rows::store(t, l, 0, one);
    }
}

#[derive(Clone, Copy)]
pub struct SymmetricDifference;

impl Binary for SymmetricDifference {
    ghost words = { symmetric_difference };

    ghost make = { sum_of };

    ghost same = { λ a K M L N h g w ow. ap₂ ◌⊕◌ (h w ow) (g w ow) };

    ghost accepted = { accepts_sum };

    fn join(t: &mut Table, g: Machine, u: &Table, h: Machine) -> Machine {
        add(t, g, u, h)
    }
}

#[derive(Clone, Copy)]
pub struct Concatenation;

impl Binary for Concatenation {
    ghost words = { concatenation };

    ghost make = { concatenation_of };

    ghost same = { concatenation_same };

    ghost accepted = { accepts_concatenation };

    fn join(t: &mut Table, g: Machine, u: &Table, h: Machine) -> Machine {
        concatenation::concatenate(t, g, u, h)
    }
}

#[derive(Clone, Copy)]
pub struct Complementation;

impl Unary for Complementation {
    ghost words = { complement };

    ghost make = { complement_of };

    ghost same = { λ a L K h w ow. ap not (h w ow) };

    ghost accepted = { accepts_complement };

    // Beside the automaton of every word.
    fn build(t: &mut Table, g: Machine) -> Machine {
        let mut u = [0u64; 512];
        let a = g.letters;
        let one = rows::unit(0);
        all_words(&mut u, a, one);
        let h = Machine {
            states: 1,
            letters: a,
            initial: one,
            finals: one,
        };
        add(t, g, &u, h)
    }
}

#[derive(Clone, Copy)]
pub struct Reversal;

impl Unary for Reversal {
    ghost words = { reversal };

    ghost make = { mirror_of };

    ghost same = { λ a L K h w ow. h (reverse w) (over_reverse a w ow) };

    ghost accepted = { accepts_mirror };

    // The rows transposed, the initial and the final states exchanged.
    fn build(t: &mut Table, g: Machine) -> Machine {
        transpose::transpose(t, g.letters, g.states);
        Machine {
            states: g.states,
            letters: g.letters,
            initial: g.finals,
            finals: g.initial,
        }
    }
}

// The automaton of an operation on two records over the same letters, its rows in s. The table u is for work.
fn join_records<O: Binary>(pair: Pair, s: &mut Table, u: &mut Table) -> Machine
    requires { (length s.old ≡ size) × (length u.old ≡ size) }
    ensures { Built (letters_of pair.entry.first.bytes.now) (O.words (language_of pair.entry.first.bytes.now) (language_of pair.entry.second.bytes.now)) s.new result × (length u.new ≡ size) }
{
    let g = codec::lent::read(pair.first, s);
    let h = codec::lent::read(pair.second, u);
    O::join(s, g, u, h)
}

// An operation on two records, the second of which may be a blank.
fn combine<O: Binary>(first: &[u8], second: &[u8], out: &mut [u8]) -> Result<usize, Refusal>
    ensures answer { result ≡ answer_in (as_meant (binary_outcome O.make) first.now second.now) out.old }
    ensures buffer { out.new ≡ buffer_in (as_meant (binary_outcome O.make) first.now second.now) out.old }
    ensures claims { as_meant (Combines O.words) first.now second.now out.new result }
{
    let mut room = [0; BLANK];
    let right = operands::meant(first, second, &mut room);
    let pair = operands::lent::check_pair(first, right)?;
    let mut s = [0u64; 512];
    let mut u = [0u64; 512];
    let m = join_records::<O>(pair, &mut s, &mut u);
    results::finish(&mut s, m, &mut u, out)
}

// Writes the minimal record of the words that just one of two records accepts; a second record of 0 bytes is a blank, the machine with no
// states over the first one's letters. `claims`, of every service below: where it is granted, the bytes written are the minimal record of
// the result, with all that MinimalRecord (record/specs/Claims) says of it; refusal 11 comes exactly where the operands pass and the
// dimension of the result is over 32, its place the dimension.
#[tactic(auto, unfolding(crate::specs::Operations::sum_outcome))]
pub fn sum(first: &[u8], second: &[u8], out: &mut [u8]) -> Result<usize, Refusal>
    ensures answer { result ≡ answer_in (as_meant sum_outcome first.now second.now) out.old }
    ensures buffer { out.new ≡ buffer_in (as_meant sum_outcome first.now second.now) out.old }
    ensures claims { as_meant Sums first.now second.now out.new result }
{
    combine::<SymmetricDifference>(first, second, out)
}

// Writes the minimal record of the words that have an odd number of cuts into a word of the first record and then a word of the second; a
// second record of 0 bytes is a blank.
#[tactic(auto, unfolding(crate::specs::Operations::product_outcome))]
pub fn product(first: &[u8], second: &[u8], out: &mut [u8]) -> Result<usize, Refusal>
    ensures answer { result ≡ answer_in (as_meant product_outcome first.now second.now) out.old }
    ensures buffer { out.new ≡ buffer_in (as_meant product_outcome first.now second.now) out.old }
    ensures claims { as_meant GivesProduct first.now second.now out.new result }
{
    combine::<Concatenation>(first, second, out)
}

// An operation on one record.
fn operate<O: Unary>(bytes: &[u8], out: &mut [u8]) -> Result<usize, Refusal>
    ensures answer { result ≡ answer_in (unary_outcome O.make bytes.now) out.old }
    ensures buffer { out.new ≡ buffer_in (unary_outcome O.make bytes.now) out.old }
    ensures claims { Operates O.words bytes.now out.new result }
{
    let lent = Record::check_as(bytes, 1)?;
    let mut s = [0u64; 512];
    let g = codec::lent::read(lent, &mut s);
    let m = O::build(&mut s, g);
    let mut u = [0u64; 512];
    results::finish(&mut s, m, &mut u, out)
}

// Writes the minimal record of the words over the record's letters that it does not accept.
pub fn complement(bytes: &[u8], out: &mut [u8]) -> Result<usize, Refusal>
    ensures answer { result ≡ answer_in (complement_outcome bytes.now) out.old }
    ensures buffer { out.new ≡ buffer_in (complement_outcome bytes.now) out.old }
    ensures claims { Complements bytes.now out.new result }
{
    operate::<Complementation>(bytes, out)
}

// Writes the minimal record of the reversed words.
pub fn mirror(bytes: &[u8], out: &mut [u8]) -> Result<usize, Refusal>
    ensures answer { result ≡ answer_in (mirror_outcome bytes.now) out.old }
    ensures buffer { out.new ≡ buffer_in (mirror_outcome bytes.now) out.old }
    ensures claims { Mirrors bytes.now out.new result }
{
    operate::<Reversal>(bytes, out)
}
