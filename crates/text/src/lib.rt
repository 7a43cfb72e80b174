// Texts put together of one run of bytes after another: in a lent line, where each writer answers the position after what it wrote, and over
// these writers in a `Line` with room of its own.
#![tactic(auto)]

ghost use Rattle.std.specs.Prelude.{◌≡◌, ◌+◌, ◌≤◌, [], ◌++◌, length};
ghost use Rattle.std.proofs.lemmas.List.Edits.{sets};
ghost use Rattle.automata.specs.Word.{Over};
ghost use Rattle.text.specs.Text.{decimal, word_text};

use itoa::Buffer;
use std::marker::Model;

// A run of bytes as it is.
#[tactic(auto, using(crate::proofs::Runs::run_stored))]
pub fn put(line: &mut [u8], at: usize, run: &[u8]) -> usize
    requires { at + length run.now ≤ length line.old }
    ensures { (result ≡ at + length run.now) × (line.new ≡ sets line.old at run.now) }
{
    let end = at + run.len();
    line[at..end].copy_from_slice(run);
    end
}

// A number in decimal figures.
#[tactic(auto, using(crate::proofs::Decimal::decimal_printed))]
pub fn put_number(line: &mut [u8], at: usize, n: usize) -> usize
    requires { at + length (decimal n) ≤ length line.old }
    ensures { (result ≡ at + length (decimal n)) × (line.new ≡ sets line.old at (decimal n)) }
{
    let mut figures = Buffer::new();
    put(line, at, figures.format(n).as_bytes())
}

// A word in digits, one a letter; `-` for the empty word.
#[tactic(auto, using(automata::proofs::Shortlex::over_at, crate::proofs::Words::digit_stored), unfolding(crate::specs::Text::word_text))]
pub fn put_word(line: &mut [u8], at: usize, word: &[u8]) -> usize
    requires { Over 10 word.now × (at + length (word_text word.now) ≤ length line.old) }
    ensures { (result ≡ at + length (word_text word.now)) × (line.new ≡ sets line.old at (word_text word.now)) }
{
    if word.is_empty() {
        return put(line, at, b"-");
    }
    let mut end = at;
    for letter in word {
        end = put(line, end, &[b'0' + *letter]);
    }
    end
}

// A line as the bytes that were put into it, with room for N.
#[derive(Drop)]
pub struct Line<const N: usize> {
    bytes: [u8; N],
    len: usize,
}

impl<const N: usize> Model for Line<N> {
    ghost use Rattle.std.specs.Prelude.{ℕ, List, take, ◌≤◌};

    ghost Value = { List ℕ };

    ghost view = { λ l. take l.len l.bytes };

    ghost invariant = { λ l. l.len ≤ N };
}

impl<const N: usize> Line<N> {
    // A line of no bytes.
    pub fn new() -> Line<N>
        ensures { result ≡ [] }
    {
        Line {
            bytes: [0; N],
            len: 0,
        }
    }

    // The bytes put into it so far.
    pub fn bytes(&self) -> &[u8]
        ensures value { result.now ≡ self.now }
        ensures fits { length self.now ≤ N }
    {
        &self.bytes[..self.len]
    }

    // A run of bytes as it is.
    #[tactic(auto, using(crate::proofs::Runs::run_ends))]
    pub fn push(&mut self, run: &[u8])
        requires { length self.old + length run.now ≤ N }
        ensures text { self.new ≡ self.old ++ run.now }
        ensures len { length self.new ≡ length self.old + length run.now }
    {
        self.len = put(&mut self.bytes, self.len, run);
    }

    // A number in decimal figures.
    #[tactic(auto, using(crate::proofs::Runs::run_ends))]
    pub fn push_number(&mut self, n: usize)
        requires { length self.old + length (decimal n) ≤ N }
        ensures text { self.new ≡ self.old ++ decimal n }
        ensures len { length self.new ≡ length self.old + length (decimal n) }
    {
        self.len = put_number(&mut self.bytes, self.len, n);
    }

    // A word in digits, one a letter; `-` for the empty word.
    #[tactic(auto, using(crate::proofs::Runs::run_ends))]
    pub fn push_word(&mut self, word: &[u8])
        requires { Over 10 word.now × (length self.old + length (word_text word.now) ≤ N) }
        ensures text { self.new ≡ self.old ++ word_text word.now }
        ensures len { length self.new ≡ length self.old + length (word_text word.now) }
    {
        self.len = put_word(&mut self.bytes, self.len, word);
    }
}
