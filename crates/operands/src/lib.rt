// The two records that a service is called with: what the second stands for, and the checks of both.
#![tactic(auto)]

ghost use Rattle.std.specs.Prelude.{◌≡◌};
ghost use Rattle.record.specs.Record.{letters_of};
ghost use Rattle.operands.specs.Meant.{blank_of, meant_over};
ghost use Rattle.operands.specs.Operands.{pair_of};

pub mod lent;

use record::{ROWS_AT, Refusal, VERSION};

// The bytes of a record with no states: it ends where its rows would start.
pub const BLANK: usize = ROWS_AT;

// The byte of a record that has the number of its letters; 0 where the record ends before it.
fn letters(bytes: &[u8]) -> u8
    ensures { result ≡ letters_of bytes.now }
{
    if bytes.len() <= 6 {
        return 0;
    }
    bytes[6]
}

// The record that a second one of 0 bytes stands for: no states, over the first one's letters. It is written whatever the first record is,
// since the check of the first comes before all else.
pub fn blank(first: &[u8], out: &mut [u8; BLANK])
    ensures { out.new ≡ blank_of (letters_of first.now) }
{
    let a = letters(first);
    let v = VERSION as u8;
    *out = [0x4E, 0x58, 0x41, v, 0, 0, a, 0, 0, 0, 0, 0, 0, 0, 0];
}

// The record that the second one stands for: itself, or for 0 bytes the blank, which is written to the room lent for it.
pub fn meant<'a>(first: &[u8], second: &'a [u8], room: &'a mut [u8; BLANK]) -> &'a [u8]
    ensures { result.now ≡ meant_over (letters_of first.now) second.now }
{
    if second.is_empty() {
        blank(first, room);
        return room;
    }
    second
}

// The same, where the bytes are all that is needed of both.
pub fn check_pair(first: &[u8], second: &[u8]) -> Result<(), Refusal>
    ensures { result ≡ pair_of first.now second.now }
{
    lent::check_pair(first, second)?;
    Ok(())
}
