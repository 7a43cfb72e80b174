// The test of a word against a record.
#![tactic(auto)]

ghost use Rattle.std.specs.Prelude.{◌≡◌, cond, ℕ, ◌^◌, ◌≤◌, ◌<◌, ltb};
ghost use Rattle.rows.specs.Row.{mask};
ghost use Rattle.rows.specs.Table.{blocks, at};
ghost use Rattle.rows.specs.Product.{product};
ghost use Rattle.rows.specs.Machine.{Valid};
ghost use Rattle.testing.specs.Testing.{test_of, Tests, Reached};

use record::Refusal;
use rows::{Machine, Row, Table};

// The row x times the matrix of letter l: none where the letter is not one of the a that there are.
fn step(t: &Table, a: usize, l: usize, x: Row) -> Row
    requires { a ≤ blocks }
    ensures { (n : ℕ) → mask x < 2 ^ n → mask result ≡ cond (ltb l a) (product n (mask x) (at t.now l)) 0 }
{
    let nowhere = rows::none();
    if a <= l {
        return nowhere;
    }
    rows::times(t, l, x)
}

// The row that the machine reaches along a word: the initial row, one letter after another. Once no state is reached the reading ends, since
// no letter leads back.
fn follow(t: &Table, m: Machine, word: &[u8]) -> Row
    requires { Valid t.now m }
    ensures { Reached t.now m word.now result }
{
    let a = m.letters;
    let mut x = m.initial;
    for &letter in word {
        let l = usize::from(letter);
        if rows::is_none(x) {
            return x;
        }
        x = step(t, a, l, x);
    }
    x
}

// Whether a record accepts a word. A word with a letter outside the record's alphabet is not accepted.
// `claims`: it is accepted exactly where the record is well formed, every letter is below a, and the path count is odd.
pub fn test(bytes: &[u8], word: &[u8]) -> Result<bool, Refusal>
    ensures answer { result ≡ test_of bytes.now word.now }
    ensures claims { Tests bytes.now word.now result }
{
    record::check_as(bytes, 1)?;
    let mut t = [0u64; 512];
    let m = codec::read(bytes, &mut t);
    let x = follow(&t, m, word);
    Ok(rows::parity(x, m.finals))
}
