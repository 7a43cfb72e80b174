// The walk through a script: where marking goes on after a record, and where the record of an index stands.
#![tactic(auto)]

ghost use Rattle.std.specs.Prelude.{◌≡◌, ◌≤◌, length};
ghost use Rattle.script.specs.Script.{part_at, after_part};
ghost use Rattle.walk.specs.Walk.{past_of, place_of};

// Where a script's first record ends; 0 where none stands whole.
pub fn key_end(script: &[u8]) -> usize
    ensures { (result ≡ after_part (part_at script.now 0) 0) × (result ≤ length script.now) }
{
    match script::part_at(script, 0) {
        Some(Ok(whole)) => whole.next,
        Some(Err(_)) => 0,
        None => 0,
    }
}

// Where marking goes on after what stands at a position, as the record of an index: past a record, but the script's end after a
// refusal 1 to 6 or any refusal of the key.
#[tactic(auto, unfolding(crate::specs::Walk::past_of))]
pub fn past(script: &[u8], index: usize, at: usize) -> usize
    ensures { result ≡ past_of script.now index at }
{
    let end = script.len();
    let whole = match script::part_at(script, at) {
        Some(Ok(whole)) => whole,
        Some(Err(_)) => return end,
        None => return end,
    };
    if index != 0 {
        return whole.next;
    }
    match record::check(&script[whole.start..whole.next]) {
        Ok(()) => whole.next,
        Err(_) => end,
    }
}

// Where the record of an index stands; the script's end where marking ends before it. Past the key it is where the reader of the script
// stands after as many records.
pub fn place(script: &[u8], index: usize) -> usize
    ensures { result ≡ place_of script.now index }
{
    if index == 0 {
        return 0;
    }
    let first = past(script, 0, 0);
    if first == script.len() {
        return first;
    }
    match script::part_of_index(script, index - 1) {
        Some(Ok(whole)) => whole.next,
        Some(Err(_)) => script.len(),
        None => script.len(),
    }
}
