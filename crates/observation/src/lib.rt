// Which rows of an automaton words tell apart: the search for a basis of the rows that words reach. Over the mirror of an automaton these
// are the columns that words reach.
#![tactic(auto)]

ghost use Rattle.std.specs.Prelude.{◌≡◌, true, ◌^◌, ◌≤◌, ◌<◌};
ghost use Rattle.automata.specs.Mask.{bit_of};
ghost use Rattle.rows.specs.Row.{width, mask};
ghost use Rattle.observation.specs.Explore.{FoundBy, ExpandedBy, ExploredBy};

use basis::{Basis, WIDEST};
use elimination::Size;
use rows::{Row, Source};

// Row k of the basis by every letter. Over one letter there is no line.
// The loop is that of reduction's `expand`: with the step as a closure, what holds between two letters would have to be said of it.
fn explore_row(x: Source, b: &mut Basis, s: Size, k: usize) -> Size
    requires { FoundBy x b.old s × (k < s.count) }
    ensures { ExpandedBy x.entry b.old s.count k b.new result }
{
    if x.machine.letters == 1 {
        let row = basis::get(b, WIDEST, 1, k);
        let z = rows::times(x.table, 0, row);
        return elimination::insert(b, WIDEST, x.machine.states, s, z);
    }
    let y = reduction::multiply(x.table, x.machine.letters, b, k);
    let mut r = s;
    for l in 0..x.machine.letters {
        let z = kernels::pick(&y, l);
        r = elimination::insert(b, WIDEST, x.machine.states, r, z);
    }
    r
}

// From how many letters on the row found last comes next. Over fewer it finds no basis sooner.
const MANY: usize = 4;

// Which of the rows that are not tried yet comes next, d rows being found: the first of them; over many letters the one found last, if it
// is not tried, as longer words tell more apart.
fn next(todo: Row, d: usize, a: usize) -> usize
    requires { (0 < mask todo) × (mask todo < 2 ^ d) × (d ≤ width) }
    ensures { (result < d) × (bit_of (mask todo) result ≡ true) }
{
    let first = rows::lowest(todo);
    if a < MANY {
        return first;
    }
    if rows::has(todo, d - 1) {
        return d - 1;
    }
    first
}

// Every row by every letter, in any order. As many rows as there are states span every row, so that no product is needed then.
fn explore_rows(x: Source, b: &mut Basis, s: Size) -> Size
    requires { FoundBy x b.old s }
    ensures { ExploredBy x.entry b.new result }
{
    let n = x.machine.states;
    let a = x.machine.letters;
    let mut r = s;
    let mut done = rows::none();
    // Rows are found on the way, and any of those left may be next: the loop goes over no range.
    while r.count < n {
        let todo = rows::xor(rows::below(r.count), done);
        if rows::is_none(todo) {
            return r;
        }
        let k = next(todo, r.count, a);
        r = explore_row(x, b, r, k);
        done = rows::or(done, rows::unit(k));
    }
    r
}

// A basis of the rows that words reach, left in b.
pub fn explore(x: Source, b: &mut Basis) -> Size
    ensures { ExploredBy x.entry b.new result }
{
    let s = elimination::insert(
        b,
        WIDEST,
        x.machine.states,
        Size::empty(),
        x.machine.initial,
    );
    explore_rows(x, b, s)
}
