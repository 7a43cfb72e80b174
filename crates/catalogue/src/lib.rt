// The catalogue of minimal records by number.
#![tactic(auto)]

ghost use Rattle.std.specs.Prelude.{◌≡◌, ◌<◌, ◌≤◌, length};
ghost use Rattle.rows.specs.Table.{size as table_size};
ghost use Rattle.record.specs.Record.{states_of, letters_of};
ghost use Rattle.record.specs.Outcome.{answer_in, buffer_in};
ghost use Rattle.record.specs.Held.{HeldUpTo, Holds};
ghost use Rattle.catalogue.specs.Entries.{last, record_of, catalogue_of, GivesEntry};
ghost use Rattle.catalogue.specs.Told.{Tells};

use record::{Refusal, Rule};
use rows::{Machine, Table};

// The last number.
const LAST: usize = 5;

// A minimal automaton; its matrix rows in record order, as many as letters times states.
#[derive(Clone, Copy)]
struct Entry {
    states: usize,
    letters: usize,
    initial: u64,
    finals: u64,
    rows: &'static [u64],
}

// No word, all words, the empty word only, words ending in 1, language X, lengths that leave 0, 1, 2 or 4 on division by 7.
// For speed no constant, which each use would build anew.
static ENTRIES: [Entry; 6] = [
    Entry {
        states: 0,
        letters: 2,
        initial: 0,
        finals: 0,
        rows: &[],
    },
    Entry {
        states: 1,
        letters: 2,
        initial: 1,
        finals: 1,
        rows: &[1, 1],
    },
    Entry {
        states: 1,
        letters: 2,
        initial: 1,
        finals: 1,
        rows: &[0, 0],
    },
    Entry {
        states: 2,
        letters: 2,
        initial: 1,
        finals: 2,
        rows: &[1, 1, 2, 2],
    },
    Entry {
        states: 2,
        letters: 2,
        initial: 1,
        finals: 3,
        rows: &[2, 3, 1, 1],
    },
    Entry {
        states: 3,
        letters: 1,
        initial: 1,
        finals: 7,
        rows: &[2, 4, 5],
    },
];

impl Entry {
    // Entry j.
    fn of(j: usize) -> Entry
        requires { j ≤ last }
        ensures { Tells result (record_of j) }
    {
        ENTRIES[j]
    }
}

// The rows of letter l, into block l.
fn load_block(j: usize, l: usize, t: &mut Table)
    requires { (j ≤ last) × (l < letters_of (record_of j)) × HeldUpTo (record_of j) t.old l 0 }
    ensures { HeldUpTo (record_of j) t.new l (states_of (record_of j)) }
{
    let e = Entry::of(j);
    let n = e.states;
    for i in 0..n {
        rows::store(t, l, i, rows::from_u64(e.rows[l * n + i]));
    }
}

// Entry j: its rows into a lent table, the rest into a machine.
fn load(j: usize, t: &mut Table) -> Machine
    requires { (j ≤ last) × (length t.old ≡ table_size) }
    ensures { Holds (record_of j) t.new result }
{
    let e = Entry::of(j);
    for l in 0..e.letters {
        load_block(j, l, t);
    }
    Machine {
        states: e.states,
        letters: e.letters,
        initial: rows::from_u64(e.initial),
        finals: rows::from_u64(e.finals),
    }
}

// The record of an entry into a lent buffer, or refusal 13 or 12. `claims`: what is written is the minimal record of the entry's words.
pub fn give(number: usize, out: &mut [u8]) -> Result<usize, Refusal>
    ensures answer { result ≡ answer_in (catalogue_of number) out.old }
    ensures buffer { out.new ≡ buffer_in (catalogue_of number) out.old }
    ensures claims { GivesEntry number out.new result }
{
    if LAST < number {
        return Err(Rule::NoEntry.of(0, number));
    }
    let mut t = [0u64; 512];
    let m = load(number, &mut t);
    codec::write(&t, m, out)
}
