// The search for the first accepted row of two records side by side: what it has come to, where it starts, and its one step.
#![tactic(auto)]

ghost use Rattle.std.specs.Prelude.{◌≡◌, ◌+◌, ◌^◌, ◌≤◌, ◌<◌};
ghost use Rattle.rows.specs.Row.{width, mask};
ghost use Rattle.rows.specs.Product.{product};
ghost use Rattle.basis.specs.Basis.{cell, Room};
ghost use Rattle.hunt.specs.Both.{beside_of, Paired};
ghost use Rattle.hunt.specs.Hunt.{Started, HuntingIn, HuntedIn};

use elimination::Size;
use rows::{Machine, Row};
use std::ops::ControlFlow;
use trail::Trail;

// The first accepted row, and its number among the rows found.
#[derive(Clone, Copy)]
pub struct Found {
    pub number: usize,
    pub row: Row,
}

// What the search for an accepted row has come to: it goes on from the rows found so far, none of them accepted, or breaks off at the first
// accepted row.
pub type Hunt = ControlFlow<Found, Size>;

// Row k by letter l, whose product is y; a new row that the final column accepts ends the search.
pub fn try_pair(
    first: &[u8],
    second: &[u8],
    m: Machine,
    b: &mut [u64],
    stride: usize,
    w: &mut Trail,
    y: Row,
    s: Size,
    k: usize,
    l: usize,
) -> Hunt
    requires { Paired first.now second.now m × HuntingIn stride first.now second.now m b.old w.old s k l × (k < s.count) × (l < m.letters) × (mask y ≡ product m.states (cell stride b.old 1 k) (beside_of first.now second.now l)) }
    ensures { HuntedIn stride first.now second.now m b.new w.new s.count k (l + 1) result × (cell stride b.new 1 k ≡ cell stride b.old 1 k) }
{
    // Most products of a sparse machine have no bits, and are an xor of no rows.
    if rows::is_none(y) {
        return ControlFlow::Continue(s);
    }
    let d = s.count;
    let f = m.finals;
    let left = elimination::left_of(b, stride, s, y);
    if rows::is_none(left) {
        return ControlFlow::Continue(s);
    }
    trail::link(w, d, k, l);
    // The search ends here: an accepted row need not be added to the basis.
    if rows::parity(y, f) {
        return ControlFlow::Break(Found { number: d, row: y });
    }
    ControlFlow::Continue(elimination::extend(b, stride, m.states, s, left, y))
}

// The initial row is the first row found, unless it has no bits.
pub fn start(b: &mut [u64], stride: usize, m: Machine) -> Size
    requires { (m.states ≤ width) × (m.states ≤ stride) × (mask m.initial < 2 ^ m.states) × Room stride b.old }
    ensures { Started stride m.states (mask m.initial) b.old b.new result.count (mask result.pivots) (mask result.used) }
{
    let none = rows::none();
    let i = m.initial;
    elimination::insert(
        b,
        stride,
        m.states,
        Size {
            count: 0,
            pivots: none,
            used: none,
        },
        i,
    )
}
