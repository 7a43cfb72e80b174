// Two well-formed records over one letter: the first word that just one accepts. There is one word of each length, and one of fewer letters
// than both have states tells two languages apart, if any does; so the row of each length is tried in turn. Where a row is an xor of those
// before it, so are all that follow, and none of them is accepted.
#![tactic(auto)]

ghost use Rattle.std.specs.Prelude.{◌≡◌, ◌+◌, ◌-◌, ◌^◌, ◌≤◌, ◌<◌, length};
ghost use Rattle.rows.specs.Row.{width, mask};
ghost use Rattle.record.specs.Record.{WellFormed};
ghost use Rattle.verdict.specs.Judged.{JudgedOf, Undecided};
ghost use Rattle.unary.specs.Powers.{Gives, Powers, Trying, TriedIn};

use lookup::Lookup;
use rows::{Machine, Row};
use std::ops::ControlFlow;
use trail::Trail;
use verdict::Apart;

// How many states of both records together are few.
const FEW: usize = 8;

// How many states of both records together, and how many letters of a word, are too few for a table of the matrix to pay.
const SMALL: usize = 12;

const SHORT: usize = 3;

// Whether a table pays: there are enough states, and the row y has many bits. This decides how products are made, not what they are.
fn table_pays(first: &[u8], n: usize, y: Row) -> bool
    requires { WellFormed first.now × (mask y < 2 ^ width) }
{
    if n <= SMALL {
        return false;
    }
    !pair_products::are_single(record::size(first[5]), y)
}

// The row of the longest word tried, and the pivots of the basis of the rows before it.
#[derive(Clone, Copy)]
struct Tried {
    row: Row,
    pivots: Row,
}

// What trying one length after another comes to: it breaks off with the answer, or goes on from the longest word tried.
type Lengths = ControlFlow<Option<Apart>, Tried>;

// From the word of h letters, whose row is t's, on to that of `last` letters, in a lent basis; `times` gives the product of a row.
fn try_lengths<F: Fn(Row) -> Row>(
    first: &[u8],
    second: &[u8],
    m: Machine,
    g: Row,
    e: &mut [u64],
    w: &mut Trail,
    mut t: Tried,
    h: usize,
    last: usize,
    times: F,
) -> Lengths
    requires { (m.letters ≡ 1) × (m.states ≤ length e.old) × (h ≤ last) × (last < m.states) × Undecided first.now second.now m g w.old × Trying first.now second.now w.old h (mask t.row) (mask t.pivots) e.old × Gives (F.pre times) (F.post times) first.now second.now }
    ensures { TriedIn first.now second.now w.new last e.new result }
{
    for k in h..last {
        let p = triangular::insert(e, t.pivots, t.row);
        if p == t.pivots {
            return ControlFlow::Break(None);
        }
        let y = times(t.row);
        trail::link(w, k + 1, k, 0);
        if rows::parity(y, m.finals) {
            return ControlFlow::Break(Some(verdict::parted(k + 1, g, y)));
        }
        t = Tried { row: y, pivots: p };
    }
    ControlFlow::Continue(t)
}

// From the word of h letters on to the longest, each product by a table: two loops over the bits of a row, which end where no processor
// foresees it, are then one of as many turns each time.
fn try_tabled(
    first: &[u8],
    second: &[u8],
    m: Machine,
    g: Row,
    e: &mut [u64],
    w: &mut Trail,
    t: Tried,
    h: usize,
) -> Lengths
    requires { (m.letters ≡ 1) × (m.states ≤ length e.old) × (h + 1 < m.states) × Undecided first.now second.now m g w.old × Trying first.now second.now w.old h (mask t.row) (mask t.pivots) e.old }
    ensures { TriedIn first.now second.now w.new (m.states - 1) e.new result }
{
    let mut tab = Lookup::empty();
    pair_lookup::fill(first, second, 0, &mut tab);
    try_lengths(first, second, m, g, e, w, t, h, m.states - 1, |y| {
        tab.times(y)
    })
}

// From the word of one letter, whose row is z, on to the longest, in a lent basis.
fn try_powers(
    first: &[u8],
    second: &[u8],
    m: Machine,
    g: Row,
    e: &mut [u64],
    w: &mut Trail,
    z: Row,
) -> Lengths
    requires { (1 < m.states) × (m.letters ≡ 1) × (m.states ≤ length e.old) × Undecided first.now second.now m g w.old × Powers first.now second.now w.old 1 (mask z) }
    ensures { TriedIn first.now second.now w.new (m.states - 1) e.new result }
{
    let pivots = triangular::insert(e, rows::none(), m.initial);
    let start = Tried {
        row: z,
        pivots: pivots,
    };
    let last = m.states - 1;
    let short = SHORT.min(last);
    let times = |y| pair_products::times_pair(first, second, 0, y);
    let t = try_lengths(first, second, m, g, e, w, start, 1, short, times)?;
    if short < last && table_pays(first, m.states, t.row) {
        return try_tabled(first, second, m, g, e, w, t, short);
    }
    try_lengths(first, second, m, g, e, w, t, short, last, times)
}

// The same in a basis of its own, for as many states as it has room: for few, less is to be cleared. Where the longest word was tried, both
// accept the same words.
fn powers_in<const ROOM: usize>(
    first: &[u8],
    second: &[u8],
    m: Machine,
    g: Row,
    w: &mut Trail,
    z: Row,
) -> Option<Apart>
    requires { (1 < m.states) × (m.states ≤ ROOM) × (ROOM ≤ width) × (m.letters ≡ 1) × Undecided first.now second.now m g w.old × Powers first.now second.now w.old 1 (mask z) }
    ensures { JudgedOf first.now second.now w.new result }
{
    let mut e = [0u64; ROOM];
    match try_powers(first, second, m, g, &mut e, w, z) {
        ControlFlow::Continue(_) => None,
        ControlFlow::Break(answer) => answer,
    }
}

// The first word of one letter or more that just one accepts. Nothing is cleared for a pair that one letter tells apart.
pub fn first_power(first: &[u8], second: &[u8], m: Machine, g: Row, w: &mut Trail) -> Option<Apart>
    requires { (1 < m.states) × (m.letters ≡ 1) × Undecided first.now second.now m g w.old }
    ensures { JudgedOf first.now second.now w.new result }
{
    let i = m.initial;
    let z = pair_products::times_pair(first, second, 0, i);
    trail::link(w, 1, 0, 0);
    if rows::parity(z, m.finals) {
        return Some(verdict::parted(1, g, z));
    }
    if z == i {
        return None;
    }
    if FEW < m.states {
        return powers_in::<64>(first, second, m, g, w, z);
    }
    powers_in::<8>(first, second, m, g, w, z)
}
