// The reader of a script: records end to end in a lent slice, given out one after another.
#![tactic(auto)]

ghost use Rattle.std.specs.Prelude.{◌≡◌, ◌≤◌, length, drop, Some};
ghost use Rattle.script.specs.Script.{part_of, part_at, Advances, part_of_index, WhereWhole, Within};

use record::{Fault, Rule};

// A whole record of a script: where it starts, and where the next one does.
#[derive(Clone, Copy, PartialEq, Eq)]
pub struct Whole {
    pub start: usize,
    pub next: usize,
}

// What stands at a position of a script: a whole record or a refusal 1 to 6; nothing where the script ends.
pub type Part = Option<Result<Whole, Fault>>;

// What stands at a position short of the script's end.
#[tactic(auto, unfolding(crate::specs::Script::part_of))]
fn whole_at(script: &[u8], at: usize) -> Result<Whole, Fault>
    requires { at ≤ length script.now }
    ensures value { result ≡ part_of (drop at script.now) at }
    ensures within { WhereWhole (Some result) (Within script.now) }
{
    let left = &script[at..];
    record::check_front(left)?;
    let need = record::need(left);
    if left.len() < need {
        return Err(Rule::WrongLength.at(need));
    }
    Ok(Whole {
        start: at,
        next: at + need,
    })
}

// The cursor: what stands at a position of a script.
#[tactic(auto, unfolding(crate::specs::Script::part_at))]
pub fn part_at(script: &[u8], at: usize) -> Part
    ensures value { result ≡ part_at script.now at }
    ensures within { WhereWhole result (Within script.now) }
{
    if script.len() <= at {
        return None;
    }
    Some(whole_at(script, at))
}

// The reader: a lent script and how far it has been read.
#[derive(Drop)]
pub struct Script<'a> {
    pub bytes: &'a [u8],
    pub at: usize,
}

impl<'a> Script<'a> {
    // A reader of a script from a position on.
    pub fn resume(bytes: &'a [u8], at: usize) -> Script<'a>
        ensures { (result.bytes ≡ bytes.entry) × (result.at ≡ at) }
    {
        Script { bytes, at }
    }

    // Gives out what stands where the reader is, and moves the reader past it: past a record, else it stays.
    pub fn next(&mut self) -> Part
        ensures { Advances self.old result self.new }
    {
        let part = part_at(self.bytes, self.at);
        if let Some(Ok(whole)) = part {
            self.at = whole.next;
        }
        part
    }
}

// What the reader of a script gives out at its call of an index. A reader that has given out no whole record stays, so it is not asked
// again.
#[tactic(auto, unfolding(crate::specs::Script::read_to))]
pub fn part_of_index(script: &[u8], index: usize) -> Part
    ensures { result ≡ part_of_index script.now index }
{
    let mut reader = Script::resume(script, 0);
    for _call in 0..index {
        let part = reader.next();
        match part {
            Some(Ok(_)) => {}
            Some(Err(_)) => return part,
            None => return part,
        }
    }
    reader.next()
}
