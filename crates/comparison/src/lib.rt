// The comparison of two well-formed records over the same letters: the first row that just one accepts, and which.
#![tactic(auto)]

ghost use Rattle.std.specs.Prelude.{◌≡◌, ◌/◌, ◌≤◌, length};
ghost use Rattle.basis.specs.Basis.{parts, basis_size, Room};
ghost use Rattle.trail.specs.Trail.{trail_size};
ghost use Rattle.record.specs.Claims.{Operands};
ghost use Rattle.verdict.specs.Judged.{JudgedOf, Undecided};

use record::FINAL_AT;
use rows::{Machine, Row};
use std::ops::ControlFlow;
use trail::Trail;
use verdict::Apart;

// How many states of both records together are few, or some more: the strides of the bases for them, each a third of its room. What is to be
// cleared is then in proportion to the work.
const FEW: usize = 8;

const SOME: usize = 16;

// Two records of at most two states together: a word of at most one letter tells their languages apart, if any does.
fn first_letter(first: &[u8], second: &[u8], m: Machine, g: Row, w: &mut Trail) -> Option<Apart>
    requires { (m.states ≤ 2) × Undecided first.now second.now m g w.old }
    ensures { JudgedOf first.now second.now w.new result }
{
    let a = m.letters;
    let i = m.initial;
    let f = m.finals;
    for l in 0..a {
        let z = pair_products::times_pair(first, second, l, i);
        if rows::parity(z, f) {
            trail::link(w, 1, 0, l);
            return Some(verdict::parted(1, g, z));
        }
    }
    None
}

// The search over both side by side for the first row that just one accepts, in a lent basis.
fn first_row(
    first: &[u8],
    second: &[u8],
    m: Machine,
    g: Row,
    b: &mut [u64],
    stride: usize,
    w: &mut Trail,
) -> Option<Apart>
    requires { (m.states ≤ stride) × Room stride b.old × Undecided first.now second.now m g w.old }
    ensures { JudgedOf first.now second.now w.new result }
{
    match search::first_accepted(first, second, m, b, stride, w) {
        ControlFlow::Continue(_) => None,
        ControlFlow::Break(found) => Some(verdict::parted(found.number, g, found.row)),
    }
}

// The same in a basis of its own, whose stride is a third of its room.
fn search_in<const ROOM: usize>(
    first: &[u8],
    second: &[u8],
    m: Machine,
    g: Row,
    w: &mut Trail,
) -> Option<Apart>
    requires { (m.states ≤ ROOM / parts) × (ROOM ≤ basis_size) × Undecided first.now second.now m g w.old }
    ensures { JudgedOf first.now second.now w.new result }
{
    let mut b = [0u64; ROOM];
    first_row(first, second, m, g, &mut b, ROOM / 3, w)
}

// The first word of one letter or more that just one accepts, by the shortest way for so many states and letters.
fn first_longer(first: &[u8], second: &[u8], m: Machine, g: Row, w: &mut Trail) -> Option<Apart>
    requires { Undecided first.now second.now m g w.old }
    ensures { JudgedOf first.now second.now w.new result }
{
    if m.states <= 2 {
        return first_letter(first, second, m, g, w);
    }
    if m.letters == 1 {
        return unary::first_power(first, second, m, g, w);
    }
    if SOME < m.states {
        return search_in::<192>(first, second, m, g, w);
    }
    if FEW < m.states {
        return search_in::<48>(first, second, m, g, w);
    }
    search_in::<24>(first, second, m, g, w)
}

// Compares the words of two well-formed records over the same letters; w is left with the words of the rows found.
pub fn compare(first: &[u8], second: &[u8], w: &mut Trail) -> Option<Apart>
    requires { Operands first.now second.now × (length w.old ≡ trail_size) }
    ensures { JudgedOf first.now second.now w.new result }
{
    let m = verdict::paired(first, second);
    let i = m.initial;
    let g = record::field_at(first, FINAL_AT);
    // Nothing is cleared for a pair that the empty word tells apart.
    if rows::parity(i, m.finals) {
        return Some(verdict::parted(0, g, i));
    }
    // Nor for two that accept no word, as no state is initial, or none is final.
    if rows::is_none(i) {
        return None;
    }
    if rows::is_none(m.finals) {
        return None;
    }
    first_longer(first, second, m, g, w)
}
