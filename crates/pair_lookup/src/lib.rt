// The matrix of a letter of two well-formed records side by side, as a lookup table of its rows.
#![tactic(auto)]

ghost use Rattle.std.specs.Prelude.{◌≡◌, ◌+◌, ◌*◌, ◌≤◌, ◌<◌};
ghost use Rattle.rows.specs.Row.{mask};
ghost use Rattle.record.specs.Record.{states_of, letters_of, WellFormed};
ghost use Rattle.lookup.specs.Lookup.{Tabled};
ghost use Rattle.pair_lookup.specs.Rows.{row_beside};

use lookup::Lookup;
use rows::Row;

// Row i of letter l of two records of n and k states side by side; no bits where there is no such state.
fn row_beside(first: &[u8], second: &[u8], n: usize, k: usize, l: usize, i: usize) -> Row
    requires { WellFormed first.now × WellFormed second.now × (letters_of second.now ≡ letters_of first.now) × (l < letters_of first.now) × (n ≡ states_of first.now) × (k ≡ states_of second.now) }
    ensures { mask result ≡ row_beside first.now second.now l i }
{
    if i < n {
        return products::row_at(first, n, l, i);
    }
    if i < n + k {
        return rows::moved(products::row_at(second, k, l, i - n), n);
    }
    rows::none()
}

// The table of letter l.
pub fn fill(first: &[u8], second: &[u8], l: usize, tab: &mut Lookup)
    requires { WellFormed first.now × WellFormed second.now × (letters_of second.now ≡ letters_of first.now) × (l < letters_of first.now) }
    ensures { (states_of first.now + states_of second.now ≤ tab.new.groups * 4) × Tabled tab.new.groups (row_beside first.now second.now l) tab.new.entries }
{
    let n = record::size(first[5]);
    let k = record::size(second[5]);
    let h = (n + k + 3) / 4;
    tab.fill_rows(
        h,
        |i| -> Row
            requires { WellFormed first.now × WellFormed second.now × (letters_of second.now ≡ letters_of first.now) × (l < letters_of first.now) × (n ≡ states_of first.now) × (k ≡ states_of second.now) }
            ensures { mask result ≡ row_beside first.entry.now second.entry.now l i }
        { row_beside(first, second, n, k, l, i) },
    );
}
