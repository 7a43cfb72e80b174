// The minimal record of a record: from bytes to bytes.
#![tactic(auto)]

ghost use Rattle.std.specs.Prelude.{◌≡◌, length};
ghost use Rattle.rows.specs.Table.{size};
ghost use Rattle.record.specs.Record.{WellFormed};
ghost use Rattle.record.specs.Outcome.{buffer_in};
ghost use Rattle.minimal.specs.Minimal.{minimal_outcome, minimal_answer, MinimalIn, GivesMinimal};

use record::Refusal;
use rows::{Machine, Table};

// What the minimal service wrote: how many bytes, and the dimension of their language.
#[derive(Clone, Copy, PartialEq, Eq)]
pub struct Minimised {
    pub length: usize,
    pub dimension: usize,
}

// The minimal automaton of a well-formed record, its rows in out.
pub fn minimal_form(bytes: &[u8], out: &mut Table) -> Machine
    requires { WellFormed bytes.now × (length out.old ≡ size) }
    ensures { MinimalIn bytes.now out.new result }
{
    let mut b = [0u64; 192];
    let mut t = [0u64; 512];
    let m = codec::read(bytes, &mut t);
    minimisation::minimise(&mut t, m, &mut b, out, m.states)
}

// Writes the minimal record of a record, and answers the dimension of its language. `claims`: where it is granted, the bytes written are the
// minimal record of the record's words, with all that MinimalRecord (record/specs/Claims) says of it, and it has as many states as the
// dimension returned.
pub fn minimal(bytes: &[u8], out: &mut [u8]) -> Result<Minimised, Refusal>
    ensures answer { result ≡ minimal_answer bytes.now (length out.old) }
    ensures buffer { out.new ≡ buffer_in (minimal_outcome bytes.now) out.old }
    ensures claims { GivesMinimal bytes.now out.new result }
{
    record::check_as(bytes, 1)?;
    let mut s = [0u64; 512];
    let m = minimal_form(bytes, &mut s);
    let dimension = m.states;
    let length = codec::write(&s, m, out)?;
    Ok(Minimised { length, dimension })
}
