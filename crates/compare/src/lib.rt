// The comparison of two records: from bytes to the first word that just one accepts.
#![tactic(auto)]

ghost use Rattle.std.specs.Prelude.{◌≡◌, Ok, length};
ghost use Rattle.record.specs.Outcome.{buffer_in};
ghost use Rattle.operands.specs.Meant.{as_meant};
ghost use Rattle.operands.specs.Operands.{pair_of};
ghost use Rattle.compare.specs.Compare.{compare_outcome, compare_answer, Compares};

use operands::BLANK;
use record::{Refusal, Rule};
pub use verdict::Side;

// What two records differ in: the letters of the first word that just one accepts, and the one that accepts it.
#[derive(Clone, Copy, PartialEq, Eq)]
pub struct Difference {
    pub length: usize,
    pub side: Side,
}

// The answer for two well-formed records over the same letters; the word goes to the buffer.
fn settle(first: &[u8], second: &[u8], word: &mut [u8]) -> Result<Option<Difference>, Refusal>
    requires { pair_of first.now second.now ≡ Ok tt }
    ensures answer { result ≡ compare_answer first.now second.now (length word.old) }
    ensures buffer { word.new ≡ buffer_in (compare_outcome first.now second.now) word.old }
{
    let mut w = trail::empty();
    let v = comparison::compare(&*first, &*second, &mut w);
    let Some(apart) = v else {
        return Ok(None);
    };
    let a = record::size(first[6]);
    let n = trail::depth(&w, a, apart.row);
    if word.len() < n {
        return Err(Rule::NoRoom.of(0, n));
    }
    trail::trace(&w, a, apart.row, n, word);
    Ok(Some(Difference {
        length: n,
        side: apart.side,
    }))
}

// Compares two records and writes the first word that just one accepts; a second record of 0 bytes is a blank, the machine with no states
// over the first one's letters. `claims`: for two well-formed records over the same letters, None comes exactly when every word over the
// letters, of any length, is accepted by both or by neither. Otherwise the word is the first such word in shortlex order, the side named
// accepts it, and it has at most 63 letters and fewer than the two dimensions added. Refusal 12 comes exactly where the languages differ
// and the buffer is shorter than that word, its place the word's length.
pub fn compare(first: &[u8], second: &[u8], word: &mut [u8]) -> Result<Option<Difference>, Refusal>
    ensures answer { result ≡ as_meant compare_answer first.now second.now (length word.old) }
    ensures buffer { word.new ≡ buffer_in (as_meant compare_outcome first.now second.now) word.old }
    ensures claims { as_meant Compares first.now second.now word.old word.new result }
{
    let mut room = [0; BLANK];
    let right = operands::meant(first, second, &mut room);
    // Borrowed anew, a slice is handed on as a pointer and a length; as it came it would be copied whole, right after it was stored in two.
    operands::check_pair(&*first, &*right)?;
    settle(&*first, &*right, word)
}
