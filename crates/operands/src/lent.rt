// The checks of two records that a service is called with, which give both as a pair.
ghost use Rattle.std.specs.Prelude.{◌≡◌, MatchResult, Err};
ghost use Rattle.operands.specs.Operands.{pair_of};

use record::{Pair, Record, Refusal, Rule};

// Rows 1 to 7 of the first record, then of the second, then row 8.
pub fn check_pair<'a>(first: &'a [u8], second: &'a [u8]) -> Result<Pair<'a>, Refusal>
    ensures { MatchResult result (λ p. (p.first.bytes.now ≡ first.now) × (p.second.bytes.now ≡ second.now)) (λ r. Err r ≡ pair_of first.now second.now) }
{
    let left = Record::check_as(first, 1)?;
    let right = Record::check_as(second, 2)?;
    if left.letters() != right.letters() {
        return Err(Rule::UnlikeLetters.of(2, 6));
    }
    Ok(Pair {
        first: left,
        second: right,
    })
}
