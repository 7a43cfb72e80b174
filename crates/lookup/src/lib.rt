// A row times a matrix by tables of four rows each, the method of the Four Russians: no branch depends on the bits of the row.
#![tactic(auto, unfolding(rows::specs::Row::mask))]

ghost use Rattle.std.specs.Prelude.{◌≡◌, true, ℕ, ◌+◌, ◌*◌, ◌^◌, ◌≤◌, ◌<◌, length, get_or};
ghost use Rattle.rows.specs.Row.{width, mask};
ghost use Rattle.rows.specs.Table.{blocks};
ghost use Rattle.rows.specs.Product.{product};
ghost use Rattle.basis.specs.Basis.{parts, cell, Room};
ghost use Rattle.lookup.specs.Lookup.{groups, lookup_size, chosen, Gives, Tabled, Kept, Doubled, Grouped};

use kernels::Line;
use rows::Row;

// The groups of 16 entries of a matrix: entry v of group g stands at g * 16 + v. The first `groups` are filled.
#[derive(Clone, Copy)]
pub struct Lookup {
    pub entries: [u64; 256],
    pub groups: usize,
    pub ghost few: { groups * 4 ≤ width },
}

// After h entries from `at` on, each of them with x added.
fn double(tab: &mut [u64; 256], at: usize, h: usize, x: Row)
    requires { (at + h + h ≤ lookup_size) × (length tab.old ≡ lookup_size) }
    ensures { Doubled at h h (mask x) tab.old tab.new }
{
    for v in 0..h {
        tab[at + h + v] = tab[at + v] ^ x.bits;
    }
}

// Group g: its first entry takes no row, and each of its four rows doubles what stands there. row(i) is row i of the matrix.
pub fn put_group<F: Fn(usize) -> Row>(tab: &mut [u64; 256], g: usize, row: &F)
    requires { (g < groups) × (length tab.old ≡ lookup_size) × ((i : ℕ) → i < 4 → F.pre row.now (g * 4 + i)) }
    ensures { (length tab.new ≡ lookup_size) × ((M : ℕ → ℕ) → Gives (F.post row.now) M → Grouped g M tab.old tab.new) }
{
    tab[g * 16] = 0;
    for i in 0..4 {
        double(tab, g * 16, 1 << i, row(g * 4 + i));
    }
}

// Row j of block l where p has bit j, else no bits.
fn chosen(b: &[u64], stride: usize, l: usize, p: Row, j: usize) -> Row
    requires { Room stride b.now × (width ≤ stride) × (l < parts) × (j < width) }
    ensures { mask result ≡ chosen (mask p) (cell stride b.now l) j }
{
    let o = rows::has(p, j);
    let x = basis::get(b, stride, l, j);
    rows::when(o, x)
}

impl Lookup {
    // The table of a matrix of no row.
    pub fn empty() -> Lookup
        ensures { result.groups ≡ 0 }
    {
        Lookup {
            entries: [0; 256],
            groups: 0,
        }
    }

    // The table of k fours of rows: row(i) is row i.
    pub fn fill_rows<F: Fn(usize) -> Row>(&mut self, k: usize, row: F)
        requires { (k ≤ groups) × ((i : ℕ) → i < k * 4 → F.pre row i) }
        ensures { (self.new.groups ≡ k) × ((M : ℕ → ℕ) → Gives (F.post row) M → Tabled k M self.new.entries) }
    {
        for g in 0..k {
            put_group(&mut self.entries, g, &row);
        }
        self.groups = k;
    }

    // The table of the rows of block l at the bits of p.
    pub fn fill(&mut self, b: &[u64], stride: usize, l: usize, p: Row)
        requires { Room stride b.now × (width ≤ stride) × (l < parts) }
        ensures { (mask p < 2 ^ (self.new.groups * 4)) × Tabled self.new.groups (chosen (mask p) (cell stride b.now l)) self.new.entries }
    {
        let k = (rows::span(p) + 3) / 4;
        self.fill_rows(k, |j| chosen(b, stride, l, p, j));
    }

    // The row x times the matrix.
    pub fn times(&self, x: Row) -> Row
        ensures { (M : ℕ → ℕ) → Tabled self.now.groups M self.now.entries → mask result ≡ product (self.now.groups * 4) (mask x) M }
    {
        let mut z = x.bits;
        let mut y: u64 = 0;
        for g in 0..self.groups {
            y ^= self.entries[g * 16 + (z & 15) as usize];
            z >>= 4;
        }
        Row { bits: y }
    }

    // Whether each of the first a rows of a line is its own product with the matrix. Where this is a reduced basis, these are the rows
    // that its rows make.
    pub fn keeps(&self, s: &Line, a: usize) -> bool
        requires { a ≤ blocks }
        ensures { result ≡ true → (M : ℕ → ℕ) → Tabled self.now.groups M self.now.entries → (l : ℕ) → l < a → Kept self.now.groups M (get_or s.now l 0) }
    {
        for l in 0..a {
            let y = kernels::pick(s, l);
            if self.times(y) != y {
                return false;
            }
        }
        true
    }
}
