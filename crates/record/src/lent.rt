// Well-formed records that are lent: one, and two over the same letters. What is built from bytes has passed the record check.
ghost use Rattle.std.specs.Prelude.{◌≡◌, ◌+◌, ◌*◌, ◌<◌, ◌≤◌, MatchResult, Err};
ghost use Rattle.rows.specs.Row.{mask};
ghost use Rattle.record.specs.Bytes.{number};
ghost use Rattle.record.specs.Record.{max_states, max_letters, row_bytes, initial_at, final_at, states_of, letters_of, row_at, check_of, WellFormed};
ghost use Rattle.record.specs.Rules.{refusal_of};
ghost use Rattle.std.proofs.Props.{props};

use super::{FINAL_AT, Fault, INITIAL_AT, ROW_BYTES, ROWS_AT, Refusal};
use rows::Row;

// The bytes of a well-formed record.
#[derive(Clone, Copy)]
pub struct Record<'a> {
    pub bytes: &'a [u8],
    pub ghost well_formed: { WellFormed bytes.now } by { Prim.hlevel props },
}

impl<'a> Record<'a> {
    // The record in some bytes, where these pass the record check.
    pub fn of(bytes: &'a [u8]) -> Result<Record<'a>, Fault>
        ensures { MatchResult result (λ r. r.bytes.now ≡ bytes.now) (λ f. check_of bytes.now ≡ Err f) }
    {
        super::check(bytes)?;
        Ok(Record { bytes })
    }

    // The same for a service: which is 1 or 2.
    pub fn check_as(bytes: &'a [u8], which: usize) -> Result<Record<'a>, Refusal>
        ensures { MatchResult result (λ r. r.bytes.now ≡ bytes.now) (λ r. Err r ≡ refusal_of (check_of bytes.now) which) }
    {
        super::check_as(bytes, which)?;
        Ok(Record { bytes })
    }

    // The number of states.
    pub fn states(self) -> usize
        ensures value { result ≡ states_of self.entry.bytes.now }
        ensures bound { result ≤ max_states }
    {
        usize::from(self.bytes[5])
    }

    // The number of letters.
    pub fn letters(self) -> usize
        ensures value { result ≡ letters_of self.entry.bytes.now }
        ensures bound { (0 < result) × (result ≤ max_letters) }
    {
        usize::from(self.bytes[6])
    }

    // The initial states.
    pub fn initial(self) -> Row
        ensures { mask result ≡ number row_bytes self.entry.bytes.now initial_at }
    {
        super::field_at(self.bytes, INITIAL_AT)
    }

    // The final states.
    pub fn finals(self) -> Row
        ensures { mask result ≡ number row_bytes self.entry.bytes.now final_at }
    {
        super::field_at(self.bytes, FINAL_AT)
    }

    // The row of letter l and state i.
    pub fn row(self, l: usize, i: usize) -> Row
        requires { (l < letters_of self.bytes.now) × (i < states_of self.bytes.now) }
        ensures { mask result ≡ row_at self.entry.bytes.now l i }
    {
        let n = self.states();
        super::field_at(self.bytes, ROWS_AT + ROW_BYTES * (l * n + i))
    }
}

// Two well-formed records over the same letters.
#[derive(Clone, Copy)]
pub struct Pair<'a> {
    pub first: Record<'a>,
    pub second: Record<'a>,
    pub ghost alike: { letters_of second.bytes.now ≡ letters_of first.bytes.now },
}

impl<'a> Pair<'a> {
    // The number of states of both together.
    pub fn states(self) -> usize
        ensures value { result ≡ states_of self.entry.first.bytes.now + states_of self.entry.second.bytes.now }
        ensures bound { result ≤ 2 * max_states }
    {
        self.first.states() + self.second.states()
    }

    // The number of letters of each.
    pub fn letters(self) -> usize
        ensures value { result ≡ letters_of self.entry.first.bytes.now }
        ensures bound { (0 < result) × (result ≤ max_letters) }
    {
        self.first.letters()
    }
}
