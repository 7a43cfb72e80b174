// The search for the first accepted row of two well-formed records side by side, straight from their bytes.
#![tactic(auto)]

ghost use Rattle.std.specs.Prelude.{◌≡◌, true, false, List, ℕ, ◌+◌, ◌*◌, ◌/◌, ◌^◌, ◌≤◌, ◌<◌, length};
ghost use Rattle.std.specs.Int.Bits.{bit_xor};
ghost use Rattle.rows.specs.Row.{width, mask, mask_at};
ghost use Rattle.rows.specs.Table.{blocks};
ghost use Rattle.rows.specs.Product.{product};
ghost use Rattle.basis.specs.Basis.{cell, Room};
ghost use Rattle.lookup.specs.Lookup.{Tabled, Kept};
ghost use Rattle.trail.specs.declared.Step.{Step};
ghost use Rattle.trail.specs.Trail.{trail_size};
ghost use Rattle.record.specs.Record.{states_of};
ghost use Rattle.products.specs.Lines.{Single};
ghost use Rattle.hunt.specs.Both.{beside_of, Paired};
ghost use Rattle.hunt.specs.Hunt.{shared, HuntingIn, HuntedIn, EndedIn};
ghost use Rattle.search.specs.Turn.{Gives, TurnedIn};

use elimination::Size;
use hunt::{Found, Hunt};
use lookup::Lookup;
use rows::{Machine, Row};
use std::ops::ControlFlow;
use trail::Trail;

// Row k by every letter in turn; `times` gives its product by a letter.
fn try_each<F: Fn(usize) -> Row>(
    first: &[u8],
    second: &[u8],
    m: Machine,
    b: &mut [u64],
    stride: usize,
    w: &mut Trail,
    s: Size,
    k: usize,
    times: F,
) -> Hunt
    requires { Paired first.now second.now m × HuntingIn stride first.now second.now m b.old w.old s k 0 × (k < s.count) × Gives (F.pre times) (F.post times) m.letters m.states (cell stride b.old 1 k) (beside_of first.now second.now) }
    ensures { HuntedIn stride first.now second.now m b.new w.new s.count (k + 1) 0 result }
{
    let mut r = s;
    for l in 0..m.letters {
        let y = times(l);
        r = hunt::try_pair(first, second, m, b, stride, w, y, r, k, l)?;
    }
    ControlFlow::Continue(r)
}

// The same for row k, which is x, the products in a line.
fn try_line(
    first: &[u8],
    second: &[u8],
    m: Machine,
    b: &mut [u64],
    stride: usize,
    w: &mut Trail,
    s: Size,
    k: usize,
    x: Row,
) -> Hunt
    requires { Paired first.now second.now m × HuntingIn stride first.now second.now m b.old w.old s k 0 × (k < s.count) × (mask x ≡ cell stride b.old 1 k) }
    ensures { HuntedIn stride first.now second.now m b.new w.new s.count (k + 1) 0 result }
{
    let mut y = [0u64; 8];
    pair_products::times_both(first, second, x, &mut y);
    try_each(first, second, m, b, stride, w, s, k, |l| {
        kernels::pick(&y, l)
    })
}

// The same over N letters, the products made in one pass.
#[tactic(auto, unfolding(rows::specs::Row::mask_at))]
fn try_few<const N: usize>(
    first: &[u8],
    second: &[u8],
    m: Machine,
    b: &mut [u64],
    stride: usize,
    w: &mut Trail,
    s: Size,
    k: usize,
    x: Row,
) -> Hunt
    requires { Paired first.now second.now m × HuntingIn stride first.now second.now m b.old w.old s k 0 × (k < s.count) × (mask x ≡ cell stride b.old 1 k) × (m.letters ≡ N) × (N ≤ blocks) }
    ensures { HuntedIn stride first.now second.now m b.new w.new s.count (k + 1) 0 result }
{
    let y: [Row; N] = pair_products::times_each_both(first, second, 0, x);
    try_each(
        first,
        second,
        m,
        b,
        stride,
        w,
        s,
        k,
        |l| -> Row
            requires { (l < N) × (N ≤ blocks) × (length y ≡ N) }
            ensures { mask result ≡ mask_at y l }
        { y[l] },
    )
}

// The same over three letters or more.
fn try_letters(
    first: &[u8],
    second: &[u8],
    m: Machine,
    b: &mut [u64],
    stride: usize,
    w: &mut Trail,
    s: Size,
    k: usize,
    x: Row,
) -> Hunt
    requires { Paired first.now second.now m × HuntingIn stride first.now second.now m b.old w.old s k 0 × (k < s.count) × (mask x ≡ cell stride b.old 1 k) }
    ensures { HuntedIn stride first.now second.now m b.new w.new s.count (k + 1) 0 result }
{
    if m.letters == 3 {
        return try_few::<3>(first, second, m, b, stride, w, s, k, x);
    }
    try_line(first, second, m, b, stride, w, s, k, x)
}

// The same for a row whose halves have at most one bit each, n the states of the first record: a product is then two rows read.
fn try_single(
    first: &[u8],
    second: &[u8],
    m: Machine,
    b: &mut [u64],
    stride: usize,
    w: &mut Trail,
    s: Size,
    k: usize,
    x: Row,
    n: usize,
) -> Hunt
    requires { Paired first.now second.now m × HuntingIn stride first.now second.now m b.old w.old s k 0 × (k < s.count) × (mask x ≡ cell stride b.old 1 k) × (n ≡ states_of first.now) × Single (mask x / 2 ^ n) × Single (bit_xor (mask x) (mask x / 2 ^ n * 2 ^ n)) }
    ensures { HuntedIn stride first.now second.now m b.new w.new s.count (k + 1) 0 result }
{
    let j = record::size(second[5]);
    try_each(first, second, m, b, stride, w, s, k, |l| {
        pair_products::times_singles(first, second, n, j, l, x)
    })
}

// Whether the table keeps the products of the row x by every letter.
fn are_kept(first: &[u8], second: &[u8], m: Machine, x: Row, tab: &Lookup) -> bool
    requires { Paired first.now second.now m × (mask x < 2 ^ m.states) }
    ensures { result ≡ true → (M : ℕ → ℕ) → Tabled tab.now.groups M tab.now.entries → (l : ℕ) → l < m.letters → Kept tab.now.groups M (product m.states (mask x) (beside_of first.now second.now l)) }
{
    let a = m.letters;
    let mut y = [0u64; 8];
    pair_products::times_both(first, second, x, &mut y);
    tab.keeps(&y, a)
}

// From row k on, the first row that has a product which is no xor of rows found; or the end of the rows. The basis is only read, so that
// one table of it serves them all.
fn pass_rows(
    first: &[u8],
    second: &[u8],
    m: Machine,
    b: &[u64],
    stride: usize,
    s: Size,
    k: usize,
) -> usize
    requires { Paired first.now second.now m × ((w : List Step) × HuntingIn stride first.now second.now m b.now w s k 0) × (k ≤ s.count) × (width ≤ stride) }
    ensures { ((w : List Step) → HuntingIn stride first.now second.now m b.now w s k 0 → HuntingIn stride first.now second.now m b.now w s result 0) × (k ≤ result) × (result ≤ s.count) }
{
    let mut tab = Lookup::empty();
    tab.fill(b, stride, 0, s.pivots);
    for j in k..s.count {
        let x = basis::get(b, stride, 1, j);
        if !are_kept(first, second, m, x, &tab) {
            return j;
        }
    }
    s.count
}

// The rows found so far, and the row that is next.
#[derive(Clone, Copy)]
struct Turn {
    size: Size,
    next: usize,
}

// Row k, which is x and has many bits, by every letter. Where it finds nothing new, so will most rows after it, and in a wide basis a
// table of it pays.
fn try_many(
    first: &[u8],
    second: &[u8],
    m: Machine,
    b: &mut [u64],
    stride: usize,
    w: &mut Trail,
    s: Size,
    k: usize,
    x: Row,
) -> ControlFlow<Found, Turn>
    requires { Paired first.now second.now m × HuntingIn stride first.now second.now m b.old w.old s k 0 × (k < s.count) × (mask x ≡ cell stride b.old 1 k) }
    ensures { TurnedIn stride first.now second.now m b.new w.new k result }
{
    let r = try_letters(first, second, m, b, stride, w, s, k, x)?;
    let next = if stride < basis::WIDEST || s.count < r.count {
        k + 1
    } else {
        pass_rows(first, second, m, b, stride, r, k + 1)
    };
    ControlFlow::Continue(Turn {
        size: r,
        next: next,
    })
}

// Row k by every letter, by the shortest way for so many letters, and for its bits, with the rows that are passed over after it.
fn try_row(
    first: &[u8],
    second: &[u8],
    m: Machine,
    b: &mut [u64],
    stride: usize,
    w: &mut Trail,
    s: Size,
    k: usize,
) -> ControlFlow<Found, Turn>
    requires { Paired first.now second.now m × HuntingIn stride first.now second.now m b.old w.old s k 0 × (k < s.count) }
    ensures { TurnedIn stride first.now second.now m b.new w.new k result }
{
    let x = basis::get(b, stride, 1, k);
    if m.letters == 2 {
        let r = try_few::<2>(first, second, m, b, stride, w, s, k, x)?;
        return ControlFlow::Continue(Turn {
            size: r,
            next: k + 1,
        });
    }
    let n = record::size(first[5]);
    if pair_products::are_single(n, x) {
        let r = try_single(first, second, m, b, stride, w, s, k, x, n)?;
        return ControlFlow::Continue(Turn {
            size: r,
            next: k + 1,
        });
    }
    try_many(first, second, m, b, stride, w, s, k, x)
}

// Every row by every letter, until a row is accepted. No range: there are more rows to try as rows are found, and some are passed over.
fn try_rows(
    first: &[u8],
    second: &[u8],
    m: Machine,
    b: &mut [u64],
    stride: usize,
    w: &mut Trail,
    s: Size,
) -> Hunt
    requires { Paired first.now second.now m × HuntingIn stride first.now second.now m b.old w.old s 0 0 }
    ensures { EndedIn stride first.now second.now m b.new w.new result }
{
    let mut r = s;
    let mut k: usize = 0;
    while k < r.count {
        let t = try_row(first, second, m, b, stride, w, r, k)?;
        r = t.size;
        k = t.next;
    }
    ControlFlow::Continue(r)
}

// The first accepted row of the two side by side, in shortlex order of the words that lead to the rows; the initial row is not accepted.
pub fn first_accepted(
    first: &[u8],
    second: &[u8],
    m: Machine,
    b: &mut [u64],
    stride: usize,
    w: &mut Trail,
) -> Hunt
    requires { Paired first.now second.now m × (m.states ≤ stride) × Room stride b.old × (length w.old ≡ trail_size) × (shared m.states (mask m.initial) (mask m.finals) ≡ false) }
    ensures { EndedIn stride first.now second.now m b.new w.new result }
{
    let s = hunt::start(b, stride, m);
    try_rows(first, second, m, b, stride, w, s)
}
