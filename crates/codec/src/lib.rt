// A record read into a machine and a table, and written from them.
#![tactic(auto)]

ghost use Rattle.std.specs.Prelude.{◌≡◌, [], ◌∷◌, ◌+◌, ◌*◌, ◌%◌, ◌≤◌, ◌<◌, ◌^◌, length};
ghost use Rattle.std.proofs.lemmas.List.Edits.{sets};
ghost use Rattle.automata.specs.WordList.{join_below};
ghost use Rattle.automata.specs.Fields.{rows_of};
ghost use Rattle.rows.specs.Row.{mask};
ghost use Rattle.rows.specs.Table.{at};
ghost use Rattle.rows.specs.Table.{size as table_size};
ghost use Rattle.rows.specs.Machine.{automaton_in, Valid};
ghost use Rattle.record.specs.Bytes.{bytes_of, all_bytes};
ghost use Rattle.record.specs.Record.{max_states, max_letters, row_bytes, header, rows_at, states_of, letters_of, length_of, WellFormed, head_of, encode};
ghost use Rattle.record.specs.Outcome.{fit, answer_of, buffer_of, rewrite_of};
ghost use Rattle.record.specs.Held.{HeldUpTo, Holds};

pub mod lent;

use record::{FINAL_AT, INITIAL_AT, ROW_BYTES, ROWS_AT, Record, Refusal, Rule, VERSION};
use rows::{Machine, Row, Table};

// The same for the bytes of a well-formed record.
pub fn read(bytes: &[u8], t: &mut Table) -> Machine
    requires { WellFormed bytes.now × (length t.old ≡ table_size) }
    ensures { Holds bytes.now t.new result }
{
    lent::read(Record { bytes }, t)
}

// The low four bytes of a row, at offset p.
fn put_field(buf: &mut [u8], p: usize, x: Row)
    requires { p + row_bytes ≤ length buf.old }
    ensures { buf.new ≡ sets buf.old p (bytes_of row_bytes (mask x)) }
{
    let bytes = u64::from(x).to_le_bytes();
    buf[p..p + ROW_BYTES].copy_from_slice(&bytes[..ROW_BYTES]);
}

// Mark, version, n and a.
fn put_head(buf: &mut [u8], n: usize, a: usize)
    requires { (header ≤ length buf.old) × (n ≤ max_states) × (a ≤ max_letters) }
    ensures { buf.new ≡ sets buf.old 0 (head_of n a) }
{
    buf[0] = 0x4E;
    buf[1] = 0x58;
    buf[2] = 0x41;
    buf[3] = VERSION as u8;
    buf[4] = 0;
    buf[5] = n as u8;
    buf[6] = a as u8;
}

// The rows of letter l, to their place in the record.
fn put_block(t: &Table, m: Machine, l: usize, buf: &mut [u8])
    requires { Valid t.now m × (m.states ≤ max_states) × (l < m.letters) × (length_of m.states m.letters ≤ length buf.old) }
    ensures { buf.new ≡ sets buf.old (rows_at + row_bytes * (l * m.states)) (all_bytes row_bytes (join_below m.states (λ i. at t.now l i ∷ []))) }
{
    let n = m.states;
    let first = l * n;
    for i in 0..n {
        put_field(buf, ROWS_AT + ROW_BYTES * (first + i), rows::load(t, l, i));
    }
}

// The rows of every letter.
fn put_rows(t: &Table, m: Machine, buf: &mut [u8])
    requires { Valid t.now m × (m.states ≤ max_states) × (length_of m.states m.letters ≤ length buf.old) }
    ensures { buf.new ≡ sets buf.old rows_at (all_bytes row_bytes (rows_of m.letters m.states (at t.now))) }
{
    for l in 0..m.letters {
        put_block(t, m, l, buf);
    }
}

// The record of an automaton of at most 32 states into a lent buffer, or refusal 12.
pub fn write(t: &Table, m: Machine, buf: &mut [u8]) -> Result<usize, Refusal>
    requires { Valid t.now m × (m.states ≤ max_states) }
    ensures answer { result ≡ answer_of (fit (length buf.old) (encode m.letters (automaton_in t.now m))) }
    ensures buffer { buf.new ≡ buffer_of (fit (length buf.old) (encode m.letters (automaton_in t.now m))) buf.old }
{
    let n = m.states;
    let a = m.letters;
    let whole = record::length_of(n, a);
    if buf.len() < whole {
        return Err(Rule::NoRoom.of(0, whole));
    }
    put_head(buf, n, a);
    put_field(buf, INITIAL_AT, m.initial);
    put_field(buf, FINAL_AT, m.finals);
    put_rows(t, m, buf);
    Ok(whole)
}

// A record read and written afresh.
pub fn rewrite(bytes: &[u8], buf: &mut [u8]) -> Result<usize, Refusal>
    ensures answer { result ≡ answer_of (rewrite_of bytes.now (length buf.old)) }
    ensures buffer { buf.new ≡ buffer_of (rewrite_of bytes.now (length buf.old)) buf.old }
{
    let lent = Record::check_as(bytes, 1)?;
    let mut t = [0u64; 512];
    let m = lent::read(lent, &mut t);
    write(&t, m, buf)
}
