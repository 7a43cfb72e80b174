// The record: its check, refusals 1 to 7.
#![tactic(auto)]

ghost use Rattle.std.specs.Prelude.{◌≡◌, ℕ, ◌+◌, ◌*◌, ◌%◌, ◌≤◌, ◌<◌, ◌^◌, length};
ghost use Rattle.rows.specs.Row.{mask};
ghost use Rattle.record.specs.Bytes.{number};
ghost use Rattle.record.specs.Record.{max_states, max_letters, row_bytes, header, initial_at, rows_at, states_of, letters_of, length_of, front_of, need_of, stray_from, check_of, WellFormed, head_of, encode};
ghost use Rattle.record.specs.Rules.{number_of, fault, refusal, refusal_of};

mod lent;

pub use lent::{Pair, Record};
use rows::Row;

pub const VERSION: usize = 1;

const MAX_STATES: usize = 32;

const MAX_LETTERS: usize = 8;

pub const ROW_BYTES: usize = 4;

const HEADER: usize = 7;

pub const INITIAL_AT: usize = HEADER;

pub const FINAL_AT: usize = HEADER + ROW_BYTES;

pub const ROWS_AT: usize = HEADER + 2 * ROW_BYTES;

// The rows of the refusal table, by their published numbers; 9 has none.
#[derive(Clone, Copy, PartialEq, Eq)]
pub enum Rule {
    TooShort = 1,
    WrongMark,
    WrongVersion,
    States,
    Letters,
    WrongLength,
    StrayBit,
    UnlikeLetters,
    Product = 10,
    Dimension,
    NoRoom,
    NoEntry,
    EmptyWord,
}

// A refusal of the record check: the row whose condition is met, and where in the record.
#[derive(Clone, Copy, PartialEq, Eq)]
pub struct Fault {
    pub rule: Rule,
    pub place: usize,
}

// A refusal of a service: a fault of its record 1 or 2, or with record 0 one of none.
#[derive(Clone, Copy, PartialEq, Eq)]
pub struct Refusal {
    pub rule: Rule,
    pub record: usize,
    pub place: usize,
}

impl Rule {
    // The published number.
    pub fn number(self) -> usize
        ensures { result ≡ number_of self }
    {
        self as usize
    }

    // The row's condition, met at a place of the record that is checked.
    pub fn at(self, place: usize) -> Fault
        ensures { result ≡ fault self place }
    {
        Fault { rule: self, place }
    }

    // The row's condition, met by one of a service's records, or by none.
    pub fn of(self, record: usize, place: usize) -> Refusal
        ensures { result ≡ refusal self «record» place }
    {
        Refusal {
            rule: self,
            record,
            place,
        }
    }
}

// A byte as a size, an index or a letter.
pub fn size(x: u8) -> usize
    ensures { (result ≡ x) × (result < 256) }
{
    x as usize
}

// The row in the four bytes from offset p.
pub fn field_at(bytes: &[u8], p: usize) -> Row
    requires { p + row_bytes ≤ length bytes.now }
    ensures { mask result ≡ number row_bytes bytes.now p }
{
    let x = u32::from_le_bytes([bytes[p], bytes[p + 1], bytes[p + 2], bytes[p + 3]]);
    Row::from(u64::from(x))
}

// Rows 1 to 5 of the refusal table, for a record that may have bytes after it.
pub fn check_front(bytes: &[u8]) -> Result<(), Fault>
    ensures { result ≡ front_of bytes.now }
{
    let len = bytes.len();
    if len < HEADER {
        return Err(Rule::TooShort.at(len));
    }
    if bytes[0] != 0x4E {
        return Err(Rule::WrongMark.at(0));
    }
    if bytes[1] != 0x58 {
        return Err(Rule::WrongMark.at(1));
    }
    if bytes[2] != 0x41 {
        return Err(Rule::WrongMark.at(2));
    }
    if usize::from(bytes[3]) + 256 * usize::from(bytes[4]) != VERSION {
        return Err(Rule::WrongVersion.at(3));
    }
    if MAX_STATES < usize::from(bytes[5]) {
        return Err(Rule::States.at(5));
    }
    let a = usize::from(bytes[6]);
    if a == 0 {
        return Err(Rule::Letters.at(6));
    }
    if MAX_LETTERS < a {
        return Err(Rule::Letters.at(6));
    }
    Ok(())
}

// The length that n states and a letters need.
pub fn length_of(n: usize, a: usize) -> usize
    requires { (n ≤ max_states) × (a ≤ max_letters) }
    ensures { result ≡ length_of n a }
{
    ROWS_AT + ROW_BYTES * (a * n)
}

// The length that the sizes of a record that passes rows 1 to 5 need.
pub fn need(bytes: &[u8]) -> usize
    requires { front_of bytes.now ≡ Ok tt }
    ensures { result ≡ need_of bytes.now }
{
    length_of(usize::from(bytes[5]), usize::from(bytes[6]))
}

// The bits of k fields together: I, F and the rows.
fn all_fields(bytes: &[u8], k: usize) -> Row
    requires { initial_at + row_bytes * k ≤ length bytes.now }
    ensures { (i : ℕ) → i < k → number row_bytes bytes.now (initial_at + row_bytes * i) ≤ mask result }
{
    let end = INITIAL_AT + ROW_BYTES * k;
    let mut y = rows::none();
    let mut p = INITIAL_AT;
    // No range, for speed: by `step_by` the check took up to 1.17 of this, measured (docs/DESIGN-PASS.md).
    while p < end {
        y = rows::or(y, field_at(bytes, p));
        p += ROW_BYTES;
    }
    y
}

// Row 7 over k fields, one after another.
fn find_stray(bytes: &[u8], n: usize, k: usize) -> Result<(), Fault>
    requires { (n ≤ max_states) × (initial_at + row_bytes * k ≤ length bytes.now) }
    ensures { result ≡ stray_from row_bytes n bytes.now k initial_at }
{
    let end = INITIAL_AT + ROW_BYTES * k;
    let mut place = INITIAL_AT;
    // No range here either, for speed: by `step_by` small records that are refused in their last row took 1.21 to 1.27 of this.
    while place < end {
        if !rows::within(field_at(bytes, place), n) {
            return Err(Rule::StrayBit.at(place));
        }
        place += ROW_BYTES;
    }
    Ok(())
}

// Row 7 over k fields. That all pass is told at once; where the first that does not stands, by a search.
fn check_fields(bytes: &[u8], n: usize, k: usize) -> Result<(), Fault>
    requires { (n ≤ max_states) × (initial_at + row_bytes * k ≤ length bytes.now) }
    ensures { result ≡ stray_from row_bytes n bytes.now k initial_at }
{
    if rows::within(all_fields(bytes, k), n) {
        return Ok(());
    }
    find_stray(bytes, n, k)
}

// The record check.
pub fn check(bytes: &[u8]) -> Result<(), Fault>
    ensures { result ≡ check_of bytes.now }
{
    check_front(bytes)?;
    let whole = need(bytes);
    if bytes.len() != whole {
        return Err(Rule::WrongLength.at(whole));
    }
    let n = usize::from(bytes[5]);
    let a = usize::from(bytes[6]);
    check_fields(bytes, n, 2 + a * n)
}

// The record check, for a service: record is 1 or 2.
pub fn check_as(bytes: &[u8], record: usize) -> Result<(), Refusal>
    ensures { result ≡ refusal_of (check_of bytes.now) «record» }
{
    match check(bytes) {
        Ok(()) => Ok(()),
        Err(fault) => Err(fault.rule.of(record, fault.place)),
    }
}
