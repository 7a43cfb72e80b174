// The starred samples and the case of the star through the services: each function asks a service for a sample, and promises what the
// sample says.
#![tactic(auto)]

ghost use Rattle.std.specs.Prelude.{◌≡◌, false, [], ◌∷◌, ◌<◌, ◌≤◌, length, Ok, Err, Some};
ghost use Rattle.automata.specs.Word.{Over};
ghost use Rattle.record.specs.Rules.{refusal};
ghost use Rattle.record.specs.Outcome.{fit, buffer_of};
ghost use Rattle.testing.specs.Testing.{test_of};
ghost use Rattle.minimal.specs.Minimal.{minimised};
ghost use Rattle.compare.specs.Compare.{differs};
ghost use Rattle.catalogue.specs.Words.{language_x};
ghost use Rattle.catalogue.specs.Entries.{record_of};
ghost use Rattle.samples.specs.Table.{x12, x, no_states, one_state, two_paths, star_sum, first_one, nonempty, empty_or_zero};
ghost use Rattle.samples.specs.Answers.{verdict, Wrote, WroteMinimal};

use compare::Difference;
use minimal::Minimised;
use record::{Refusal, Rule};
use verdict::Side;

// The four states of document 004's X 12.
const X12: [u8; 47] =
    *b"NXA\x01\x00\x04\x02\x01\x00\x00\x00\x03\x00\x00\x00\x02\x00\x00\x00\x04\x00\x00\x00\x01\x00\x00\x00\x08\x00\x00\x00\x01\x00\x00\x00\x01\x00\x00\x00\x08\x00\x00\x00\x08\x00\x00\x00";

// Every word over two letters.
const ALL: [u8; 23] =
    *b"NXA\x01\x00\x01\x02\x01\x00\x00\x00\x01\x00\x00\x00\x01\x00\x00\x00\x01\x00\x00\x00";

// No states, over two letters.
const NOTHING: [u8; 15] = *b"NXA\x01\x00\x00\x02\x00\x00\x00\x00\x00\x00\x00\x00";

// One letter, n = 2, I = F = 3, rows 1, 2.
const TWO_PATHS: [u8; 23] =
    *b"NXA\x01\x00\x02\x01\x03\x00\x00\x00\x03\x00\x00\x00\x01\x00\x00\x00\x02\x00\x00\x00";

// 0* and 1* over two letters.
const ZERO_STAR: [u8; 23] =
    *b"NXA\x01\x00\x01\x02\x01\x00\x00\x00\x01\x00\x00\x00\x01\x00\x00\x00\x00\x00\x00\x00";

const ONE_STAR: [u8; 23] =
    *b"NXA\x01\x00\x01\x02\x01\x00\x00\x00\x01\x00\x00\x00\x00\x00\x00\x00\x01\x00\x00\x00";

// The cycle of seven states over one letter.
const CYCLE: [u8; 43] =
    *b"NXA\x01\x00\x07\x01\x01\x00\x00\x00\x17\x00\x00\x00\x02\x00\x00\x00\x04\x00\x00\x00\x08\x00\x00\x00\x10\x00\x00\x00\x20\x00\x00\x00\x40\x00\x00\x00\x01\x00\x00\x00";

// The words that end in 1, over two letters.
const ENDING: [u8; 31] =
    *b"NXA\x01\x00\x02\x02\x01\x00\x00\x00\x02\x00\x00\x00\x01\x00\x00\x00\x01\x00\x00\x00\x02\x00\x00\x00\x02\x00\x00\x00";

// All nonempty words over one letter.
const NONEMPTY: [u8; 23] =
    *b"NXA\x01\x00\x02\x01\x01\x00\x00\x00\x02\x00\x00\x00\x02\x00\x00\x00\x02\x00\x00\x00";

// 1. The words of X, of any length.
pub fn test_x(word: &[u8]) -> Result<bool, Refusal>
    ensures answer { result ≡ test_of x12 word.now }
    ensures words { Over 2 word.now → result ≡ verdict (language_x word.now) }
{
    testing::test(&X12, word)
}

// 2. X 12's machine has minimal record n = 2, I = 1, F = 3, rows 2, 3, 1, 1: 31 bytes.
pub fn minimal_of_x(out: &mut [u8]) -> Result<Minimised, Refusal>
    ensures bytes { WroteMinimal x 2 out.old result out.new }
    ensures length { 31 ≤ length out.old → result ≡ Ok (minimised 31 2) }
{
    minimal::minimal(&X12, out)
}

// 3. X against all words: 00.
pub fn x_against_all(word: &mut [u8]) -> Result<Option<Difference>, Refusal>
    ensures answer { 2 ≤ length word.old → result ≡ Ok (Some (differs 2 Side.Second)) }
    ensures withheld { length word.old < 2 → result ≡ Err (refusal Rule.NoRoom 0 2) }
    ensures buffer { word.new ≡ buffer_of (fit (length word.old) (0 ∷ 0 ∷ [])) word.old }
{
    compare::compare(&X12, &ALL, word)
}

// 4. n = 0: dimension 0; its complement: 1.
pub fn minimal_of_nothing(out: &mut [u8]) -> Result<Minimised, Refusal>
    ensures { WroteMinimal (no_states 2) 0 out.old result out.new }
{
    minimal::minimal(&NOTHING, out)
}

pub fn complement_of_nothing(out: &mut [u8]) -> Result<usize, Refusal>
    ensures { Wrote (one_state 2) out.old result out.new }
{
    operations::complement(&NOTHING, out)
}

// 5. One letter, n = 2, I = F = 3, rows 1, 2: nothing accepted, dimension 0.
pub fn test_two_paths(word: &[u8]) -> Result<bool, Refusal>
    ensures answer { result ≡ test_of two_paths word.now }
    ensures words { Over 1 word.now → result ≡ Ok false }
{
    testing::test(&TWO_PATHS, word)
}

pub fn minimal_of_two_paths(out: &mut [u8]) -> Result<Minimised, Refusal>
    ensures { WroteMinimal (no_states 1) 0 out.old result out.new }
{
    minimal::minimal(&TWO_PATHS, out)
}

// 6. Sum of 0* and 1*: dimension 2. Their meet: the empty word only, 1.
pub fn sum_of_stars(out: &mut [u8]) -> Result<usize, Refusal>
    ensures { Wrote star_sum out.old result out.new }
{
    operations::sum(&ZERO_STAR, &ONE_STAR, out)
}

pub fn meet_of_stars(out: &mut [u8]) -> Result<usize, Refusal>
    ensures { Wrote (record_of 2) out.old result out.new }
{
    intersection::meet(&ZERO_STAR, &ONE_STAR, out)
}

// 7. The 7-state cycle for catalogue 5: dimension 3.
pub fn minimal_of_cycle(out: &mut [u8]) -> Result<Minimised, Refusal>
    ensures { WroteMinimal (record_of 5) 3 out.old result out.new }
{
    minimal::minimal(&CYCLE, out)
}

// 8. Words ending in 1, mirrored: words beginning with 1, dimension 2.
pub fn mirror_of_ending(out: &mut [u8]) -> Result<usize, Refusal>
    ensures { Wrote first_one out.old result out.new }
{
    operations::mirror(&ENDING, out)
}

// 02, Note 2. All nonempty words over one letter, dimension 2, have as star the empty word and 0, dimension 2.
pub fn minimal_of_nonempty(out: &mut [u8]) -> Result<Minimised, Refusal>
    ensures { WroteMinimal nonempty 2 out.old result out.new }
{
    minimal::minimal(&NONEMPTY, out)
}

pub fn star_of_nonempty(out: &mut [u8]) -> Result<usize, Refusal>
    ensures { Wrote empty_or_zero out.old result out.new }
{
    star::star(&NONEMPTY, out)
}
