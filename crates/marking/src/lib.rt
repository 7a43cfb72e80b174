// Marking a script: the line of each of its records, and the marking service.
#![tactic(auto)]

ghost use Rattle.std.specs.Prelude.{◌≡◌, [], ◌∷◌, ◌≤◌, ◌<◌, length};
ghost use Rattle.record.specs.Record.{WellFormed};
ghost use Rattle.record.specs.Outcome.{fit, answer_of, buffer_of, answer_in, buffer_in};
ghost use Rattle.script.specs.Script.{part_at};
ghost use Rattle.lines.specs.Lines.{longest};
ghost use Rattle.marking.specs.Marking.{dimension_in, fault_line, key_record_line, answer_line, record_line, part_line, line_at, mark_line, mark_outcome};
ghost use Rattle.marking.specs.Told.{Marks, SaysRefused};

use record::{Fault, Refusal};
use text::Line;

const MAX_SCRIPT: usize = 65536;

// The bytes that a line has room for: no line has more.
const LONGEST: usize = 160;

// The dimension of a well-formed record's language.
fn dimension(bytes: &[u8]) -> usize
    requires { WellFormed bytes.now }
    ensures { result ≡ dimension_in bytes.now }
{
    let mut s = [0u64; 512];
    let m = minimal::minimal_form(bytes, &mut s);
    m.states
}

// The line of a record that is refused, as that of an index.
fn fault_line(index: usize, fault: Fault) -> Line<LONGEST>
    ensures { result ≡ fault_line index fault }
{
    lines::refused_line(index, fault.rule.number(), fault.place)
}

// The line of the key.
#[tactic(auto, unfolding(crate::specs::Marking::key_record_line))]
fn key_line(key: &[u8]) -> Line<LONGEST>
    ensures { result ≡ key_record_line key.now }
{
    match record::check(key) {
        Ok(()) => {
            let d = dimension(key);
            lines::dim_line(0, b" key dim ", d)
        }
        Err(fault) => fault_line(0, fault),
    }
}

// The line of an answer: the verdict of the comparison with the key, and the answer's own dimension. An answer of a script has bytes, so it
// is no blank.
fn answer_line(index: usize, key: &[u8], answer: &[u8]) -> Line<LONGEST>
    requires { 0 < length answer.now }
    ensures { result ≡ answer_line index key.now answer.now }
{
    let mut word = [0u8; 64];
    match compare::compare(key, answer, &mut word) {
        Ok(None) => {
            let d = dimension(answer);
            lines::dim_line(index, b" same dim ", d)
        }
        Ok(Some(found)) => {
            let own = dimension(answer);
            lines::differ_line(index, own, &word[..found.length], found.side)
        }
        Err(refusal) => fault_line(index, refusal.rule.at(refusal.place)),
    }
}

// The line of a record that stands whole, as that of an index: the key has index 0.
#[tactic(auto, unfolding(crate::specs::Marking::record_line, crate::specs::Marking::key_of))]
fn record_line(script: &[u8], index: usize, bytes: &[u8]) -> Line<LONGEST>
    requires { 0 < length bytes.now }
    ensures { result ≡ record_line script.now index bytes.now }
{
    if index == 0 {
        return key_line(bytes);
    }
    let end = walk::key_end(script);
    answer_line(index, &script[..end], bytes)
}

// The line of what stands at a position, as the record of an index: none with 0 bytes left.
fn part_line(script: &[u8], index: usize, at: usize) -> Line<LONGEST>
    ensures { result ≡ part_line script.now index (part_at script.now at) }
{
    match script::part_at(script, at) {
        Some(Ok(whole)) => record_line(script, index, &script[whole.start..whole.next]),
        Some(Err(fault)) => fault_line(index, fault),
        None => Line::new(),
    }
}

// The same, but one line in place of all for a script that is too long.
#[tactic(auto, unfolding(crate::specs::Marking::line_at))]
fn script_line(script: &[u8], index: usize, at: usize) -> Line<LONGEST>
    ensures { result ≡ line_at script.now index at }
{
    if MAX_SCRIPT < script.len() {
        let mut line = Line::new();
        if index == 0 {
            line.push(b"too long\n");
        }
        return line;
    }
    part_line(script, index, at)
}

// Writes the line of what stands at a position, as the record of an index: what a walk through a script calls, with `walk::past`.
pub fn line_at(script: &[u8], index: usize, at: usize, out: &mut [u8]) -> Result<usize, Refusal>
    ensures answer { result ≡ answer_of (fit (length out.old) (line_at script.now index at)) }
    ensures buffer { out.new ≡ buffer_of (fit (length out.old) (line_at script.now index at)) out.old }
    ensures room { length (line_at script.now index at) ≤ longest }
{
    let line = script_line(script, index, at);
    lines::give(&line, out)
}

// The marking service: writes the line of the record of an index, or no bytes where marking ends before it; it refuses only with 12.
// `room`: a buffer of 160 bytes holds every line.
// `claims`: for each record of a script that is not too long, the line tells of all its words what 01 asks. The key's line has the
// dimension of its language. An answer's line says `same` exactly when the key accepts the same words; otherwise its word is the
// first in shortlex order that just one of the two accepts, the one named accepts it, and the dimension is the answer's own.
// `refusals`: a line says `refused` only with these numbers.
pub fn mark(script: &[u8], index: usize, out: &mut [u8]) -> Result<usize, Refusal>
    ensures answer { result ≡ answer_in (mark_outcome script.now index) out.old }
    ensures buffer { out.new ≡ buffer_in (mark_outcome script.now index) out.old }
    ensures room { length (mark_line script.now index) ≤ longest }
    ensures claims { Marks script.now index out.new result }
    ensures refusals { SaysRefused (1 ∷ 2 ∷ 3 ∷ 4 ∷ 5 ∷ 6 ∷ 7 ∷ 8 ∷ []) out.new result }
{
    let at = walk::place(script, index);
    line_at(script, index, at, out)
}
