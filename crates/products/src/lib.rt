// Products of a row with the matrices of a well-formed record, taken from the record's bytes.
#![tactic(auto)]

ghost use Rattle.std.specs.Prelude.{◌≡◌, true, ℕ, ◌+◌, ◌^◌, ◌≤◌, ◌<◌, length};
ghost use Rattle.rows.specs.Row.{mask, mask_at};
ghost use Rattle.rows.specs.Table.{blocks};
ghost use Rattle.rows.specs.Product.{product};
ghost use Rattle.record.specs.Record.{states_of, letters_of, row_at, WellFormed};
ghost use Rattle.products.specs.Lines.{Upto, Letters, Single};

use kernels::Line;
use record::{ROW_BYTES, ROWS_AT};
use rows::Row;

// The row of letter l and state i of a record of n states.
pub fn row_at(bytes: &[u8], n: usize, l: usize, i: usize) -> Row
    requires { WellFormed bytes.now × (n ≡ states_of bytes.now) × (l < letters_of bytes.now) × (i < n) }
    ensures { mask result ≡ row_at bytes.now l i }
{
    record::field_at(bytes, ROWS_AT + ROW_BYTES * (l * n + i))
}

// The row x times the matrices of N letters from l on, in one pass over the bits of x.
pub fn times_each<const N: usize>(bytes: &[u8], l: usize, x: Row) -> [Row; N]
    requires { WellFormed bytes.now × (l + N ≤ letters_of bytes.now) × (mask x < 2 ^ states_of bytes.now) }
    ensures { (k : ℕ) → k < N → mask_at result k ≡ product (states_of bytes.now) (mask x) (row_at bytes.now (l + k)) }
{
    let n = record::size(bytes[5]);
    rows::times_each(
        x,
        |k, i| -> Row
            requires { WellFormed bytes.now × (n ≡ states_of bytes.now) × (l + k < letters_of bytes.now) × (i < n) }
            ensures { mask result ≡ row_at bytes.entry.now (l + k) i }
        { row_at(bytes, n, l + k, i) },
    )
}

// The row x times the matrix of letter l.
pub fn times_one(bytes: &[u8], l: usize, x: Row) -> Row
    requires { WellFormed bytes.now × (l < letters_of bytes.now) × (mask x < 2 ^ states_of bytes.now) }
    ensures { mask result ≡ product (states_of bytes.now) (mask x) (row_at bytes.now l) }
{
    let [y]: [Row; 1] = times_each(bytes, l, x);
    y
}

// Whether x has at most one bit.
pub fn is_single(x: Row) -> bool
    ensures { result ≡ true → Single (mask x) }
{
    if rows::is_none(x) {
        return true;
    }
    rows::is_none(rows::clear_lowest(x))
}

// The row x, of at most one bit, times the matrix of letter l: a row of it, or none. The record has n states.
pub fn times_single(bytes: &[u8], n: usize, l: usize, x: Row) -> Row
    requires { WellFormed bytes.now × (n ≡ states_of bytes.now) × (l < letters_of bytes.now) × (mask x < 2 ^ states_of bytes.now) × Single (mask x) }
    ensures { mask result ≡ product (states_of bytes.now) (mask x) (row_at bytes.now l) }
{
    if rows::is_none(x) {
        return x;
    }
    row_at(bytes, n, l, rows::lowest(x))
}

// Writes the products of N letters from l on.
fn put_letters<const N: usize>(bytes: &[u8], l: usize, x: Row, s: &mut Line)
    requires { WellFormed bytes.now × (l + N ≤ letters_of bytes.now) × (mask x < 2 ^ states_of bytes.now) × Upto l (row_at bytes.now) (states_of bytes.now) (mask x) s.old }
    ensures { Upto (l + N) (row_at bytes.now) (states_of bytes.now) (mask x) s.new }
{
    let y: [Row; N] = times_each(bytes, l, x);
    kernels::put_all(s, l, y);
}

// Writes the products of the letters from l on, of which there are at most three.
fn put_rest(bytes: &[u8], l: usize, x: Row, s: &mut Line)
    requires { WellFormed bytes.now × (letters_of bytes.now ≤ l + 3) × (l ≤ letters_of bytes.now) × (mask x < 2 ^ states_of bytes.now) × Upto l (row_at bytes.now) (states_of bytes.now) (mask x) s.old }
    ensures { Letters bytes.now (mask x) s.new }
{
    match record::size(bytes[6]) - l {
        1 => kernels::put(s, l, times_one(bytes, l, x)),
        2 => put_letters::<2>(bytes, l, x, s),
        3 => put_letters::<3>(bytes, l, x, s),
        _ => {}
    }
}

// The row x times the matrix of every letter, into a line.
pub fn times_all(bytes: &[u8], x: Row, s: &mut Line)
    requires { WellFormed bytes.now × (mask x < 2 ^ states_of bytes.now) × (length s.old ≡ blocks) }
    ensures { Letters bytes.now (mask x) s.new }
{
    let a = record::size(bytes[6]);
    if a < 4 {
        put_rest(bytes, 0, x, s);
        return;
    }
    put_letters::<4>(bytes, 0, x, s);
    if a < 8 {
        put_rest(bytes, 4, x, s);
        return;
    }
    put_letters::<4>(bytes, 4, x, s);
}
