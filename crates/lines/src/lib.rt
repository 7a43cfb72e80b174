// The lines of a marking, and a line given into a lent buffer.
#![tactic(auto)]

ghost use Rattle.std.specs.Prelude.{◌≡◌, ◌+◌, ◌≤◌, ◌<◌, length};
ghost use Rattle.automata.specs.Word.{Over};
ghost use Rattle.record.specs.Outcome.{fit, answer_of, buffer_of};
ghost use Rattle.lines.specs.Lines.{opening, refused_line, dim_line, differ_line, accepted_by, longest};

use record::{Refusal, Rule};
use text::Line;
use verdict::Side;

// A line into a lent buffer, or refusal 12.
#[tactic(auto, using(record::proofs::Outcome::fit_short, record::proofs::Outcome::fit_done))]
pub fn give<const N: usize>(line: &Line<N>, out: &mut [u8]) -> Result<usize, Refusal>
    ensures answer { result ≡ answer_of (fit (length out.old) line.now) }
    ensures buffer { out.new ≡ buffer_of (fit (length out.old) line.now) out.old }
    ensures room { length line.now ≤ N }
{
    let bytes = line.bytes();
    let n = bytes.len();
    if out.len() < n {
        return Err(Rule::NoRoom.of(0, n));
    }
    out[..n].copy_from_slice(bytes);
    Ok(n)
}

// How the line of a record starts: its index, words, and a number.
#[tactic(auto, using(text::proofs::Decimal::decimal_length), unfolding(crate::specs::Lines::opening))]
fn begin<const N: usize>(index: usize, words: &[u8], n: usize) -> Line<N>
    requires { 40 + length words.now ≤ N }
    ensures text { result ≡ opening index words.now n }
    ensures len { length result ≤ 40 + length words.now }
{
    let mut line = Line::new();
    line.push_number(index);
    line.push(words);
    line.push_number(n);
    line
}

// A refusal's line.
#[tactic(auto, using(text::proofs::Decimal::decimal_length, std::proofs::Common::append_assoc), unfolding(crate::specs::Lines::refused_line))]
pub fn refused_line<const N: usize>(index: usize, number: usize, place: usize) -> Line<N>
    requires { longest ≤ N }
    ensures { result ≡ refused_line index number place }
{
    let mut line = begin(index, b" refused ", number);
    line.push(b" ");
    line.push_number(place);
    line.push(b"\n");
    line
}

// A line that says no more than a dimension.
#[tactic(auto, unfolding(crate::specs::Lines::dim_line))]
pub fn dim_line<const N: usize>(index: usize, words: &[u8], d: usize) -> Line<N>
    requires { 41 + length words.now ≤ N }
    ensures { result ≡ dim_line index words.now d }
{
    let mut line = begin(index, words, d);
    line.push(b"\n");
    line
}

// Which record accepts the word, and the end of the line.
fn accepted_by(side: Side) -> &'static [u8]
    ensures text { result.now ≡ accepted_by side }
    ensures len { length result.now ≤ 20 }
{
    match side {
        Side::First => b" accepted-by key\n",
        Side::Second => b" accepted-by answer\n",
    }
}

// The line of an answer whose words are not the key's.
#[tactic(auto, using(crate::proofs::Building::word_short, std::proofs::Common::append_assoc), unfolding(crate::specs::Lines::differ_line))]
pub fn differ_line<const N: usize>(index: usize, d: usize, word: &[u8], side: Side) -> Line<N>
    requires { Over 10 word.now × (length word.now < 64) × (longest ≤ N) }
    ensures { result ≡ differ_line index d word.now side }
{
    let mut line = begin(index, b" differ dim ", d);
    line.push(b" word ");
    line.push_word(word);
    line.push(accepted_by(side));
    line
}
