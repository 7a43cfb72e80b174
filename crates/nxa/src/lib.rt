// The C interface: one export for each service. Each takes numbers and byte slices and replies with five numbers. `numbers`, of each: all
// that the reply's number can be, 0 first, then the refusals in the order of the checks.
#![tactic(auto)]

ghost use Rattle.std.specs.Prelude.{◌≡◌, [], ◌∷◌, ◌≤◌, length};
ghost use Rattle.record.specs.Record.{check_of, WellFormed};
ghost use Rattle.record.specs.Outcome.{answer_in, buffer_in, rewrite_of};
ghost use Rattle.operands.specs.Meant.{as_meant};
ghost use Rattle.testing.specs.Testing.{test_of, Tests};
ghost use Rattle.minimal.specs.Minimal.{minimal_outcome, minimal_answer, GivesMinimal};
ghost use Rattle.compare.specs.Compare.{compare_outcome, compare_answer, Compares};
ghost use Rattle.operations.specs.Operations.{sum_outcome, product_outcome, complement_outcome, mirror_outcome, Sums, GivesProduct, Complements, Mirrors};
ghost use Rattle.intersection.specs.Meet.{meet_outcome, Meets};
ghost use Rattle.star.specs.Star.{star_outcome, GivesStar};
ghost use Rattle.lines.specs.Lines.{longest};
ghost use Rattle.marking.specs.Marking.{mark_line, mark_outcome};
ghost use Rattle.marking.specs.Told.{Marks, SaysRefused};
ghost use Rattle.catalogue.specs.Entries.{catalogue_of, GivesEntry};
ghost use Rattle.replies.specs.Reply.{of_checked, of_written, of_tested, of_minimised, of_compared, NumberIn, written_in, tested_in, minimised_in, compared_in};

use replies::Reply;

// Checks a record. Number 0 comes exactly where it is well formed.
#[unsafe(no_mangle)]
pub extern "C" fn nxa_check(record: &[u8]) -> Reply
    ensures reply { result ≡ of_checked (check_of «record».now) }
    ensures numbers { NumberIn (0 ∷ 1 ∷ 2 ∷ 3 ∷ 4 ∷ 5 ∷ 6 ∷ 7 ∷ []) result }
    ensures granted { (result.number ≡ 0 → WellFormed «record».now) × (WellFormed «record».now → result.number ≡ 0) }
{
    Reply::from(record::check(record))
}

// Reads a record into its fields and writes it afresh.
#[unsafe(no_mangle)]
pub extern "C" fn nxa_rewrite(record: &[u8], out: &mut [u8]) -> Reply
    ensures reply { result ≡ of_written (answer_in (rewrite_of «record».now) out.old) }
    ensures numbers { NumberIn (0 ∷ 1 ∷ 2 ∷ 3 ∷ 4 ∷ 5 ∷ 6 ∷ 7 ∷ 12 ∷ []) result }
    ensures buffer { out.new ≡ buffer_in (rewrite_of «record».now) out.old }
{
    Reply::from(codec::rewrite(record, out))
}

// Tests a word. Value 1: the record accepts it. `claims`: number 0 and value 1 come exactly where the record is well formed, every letter of
// the word is below a, and the path count is odd; a word with a letter outside the alphabet, wherever it comes, is not accepted.
#[unsafe(no_mangle)]
pub extern "C" fn nxa_test(record: &[u8], word: &[u8]) -> Reply
    ensures reply { result ≡ of_tested (test_of «record».now word.now) }
    ensures numbers { NumberIn (0 ∷ 1 ∷ 2 ∷ 3 ∷ 4 ∷ 5 ∷ 6 ∷ 7 ∷ []) result }
    ensures claims { Tests «record».now word.now (tested_in result) }
{
    Reply::from(testing::test(record, word))
}

// Writes the minimal record of a record. `claims`: where number is 0, the first `length` bytes of the buffer are the minimal record of the
// record's words, with all that MinimalRecord (record/specs/Claims) says of it, and it has `value` states.
#[unsafe(no_mangle)]
pub extern "C" fn nxa_minimal(record: &[u8], out: &mut [u8]) -> Reply
    ensures reply { result ≡ of_minimised (minimal_answer «record».now (length out.old)) }
    ensures numbers { NumberIn (0 ∷ 1 ∷ 2 ∷ 3 ∷ 4 ∷ 5 ∷ 6 ∷ 7 ∷ 12 ∷ []) result }
    ensures buffer { out.new ≡ buffer_in (minimal_outcome «record».now) out.old }
    ensures claims { GivesMinimal «record».now out.new (minimised_in result) }
{
    Reply::from(minimal::minimal(record, out))
}

// Compares two records and writes the first word that just one accepts. Of two records, here and below, a second one of 0 bytes is a blank,
// the machine with no states over the first one's letters (`as_meant`). `claims`, for two well-formed records over the same letters: number 0
// and value 0 come exactly when every word over the letters, of any length, is accepted by both or by neither. Otherwise, where number is
// 0, the first `length` bytes of the buffer are the first such word in shortlex order, the record that `value` names accepts it, and it has
// at most 63 letters and fewer than the two dimensions added. Refusal 12 comes exactly where the languages differ and the buffer is shorter
// than that word, its place the word's length.
#[unsafe(no_mangle)]
pub extern "C" fn nxa_compare(first: &[u8], second: &[u8], word: &mut [u8]) -> Reply
    ensures reply { result ≡ of_compared (as_meant compare_answer first.now second.now (length word.old)) }
    ensures numbers { NumberIn (0 ∷ 1 ∷ 2 ∷ 3 ∷ 4 ∷ 5 ∷ 6 ∷ 7 ∷ 8 ∷ 12 ∷ []) result }
    ensures buffer { word.new ≡ buffer_in (as_meant compare_outcome first.now second.now) word.old }
    ensures claims { as_meant Compares first.now second.now word.old word.new (compared_in result) }
{
    Reply::from(compare::compare(first, second, word))
}

// Writes the minimal record of the words that just one of two records accepts. `claims`, of every operation: where number is 0, the first
// `length` bytes of the buffer are the minimal record of the result, with all that MinimalRecord (record/specs/Claims) says of it; refusal
// 11 comes exactly where the operands pass and the dimension of the result is over 32, its place the dimension.
#[unsafe(no_mangle)]
pub extern "C" fn nxa_sum(first: &[u8], second: &[u8], out: &mut [u8]) -> Reply
    ensures reply { result ≡ of_written (answer_in (as_meant sum_outcome first.now second.now) out.old) }
    ensures numbers { NumberIn (0 ∷ 1 ∷ 2 ∷ 3 ∷ 4 ∷ 5 ∷ 6 ∷ 7 ∷ 8 ∷ 11 ∷ 12 ∷ []) result }
    ensures buffer { out.new ≡ buffer_in (as_meant sum_outcome first.now second.now) out.old }
    ensures claims { as_meant Sums first.now second.now out.new (written_in result) }
{
    Reply::from(operations::sum(first, second, out))
}

// Writes the minimal record of the words that both records accept. `claims`: as for the sum; besides, refusal 10 comes exactly where the
// records pass and the product of their dimensions is over 64, its place the product, and refusal 11 only where that product is not.
#[unsafe(no_mangle)]
pub extern "C" fn nxa_meet(first: &[u8], second: &[u8], out: &mut [u8]) -> Reply
    ensures reply { result ≡ of_written (answer_in (as_meant meet_outcome first.now second.now) out.old) }
    ensures numbers { NumberIn (0 ∷ 1 ∷ 2 ∷ 3 ∷ 4 ∷ 5 ∷ 6 ∷ 7 ∷ 8 ∷ 10 ∷ 11 ∷ 12 ∷ []) result }
    ensures buffer { out.new ≡ buffer_in (as_meant meet_outcome first.now second.now) out.old }
    ensures claims { as_meant Meets first.now second.now out.new (written_in result) }
{
    Reply::from(intersection::meet(first, second, out))
}

// Writes the minimal record of the words that have an odd number of cuts into a word of the first record and then a word of the second.
// `claims`: as for the sum.
#[unsafe(no_mangle)]
pub extern "C" fn nxa_product(first: &[u8], second: &[u8], out: &mut [u8]) -> Reply
    ensures reply { result ≡ of_written (answer_in (as_meant product_outcome first.now second.now) out.old) }
    ensures numbers { NumberIn (0 ∷ 1 ∷ 2 ∷ 3 ∷ 4 ∷ 5 ∷ 6 ∷ 7 ∷ 8 ∷ 11 ∷ 12 ∷ []) result }
    ensures buffer { out.new ≡ buffer_in (as_meant product_outcome first.now second.now) out.old }
    ensures claims { as_meant GivesProduct first.now second.now out.new (written_in result) }
{
    Reply::from(operations::product(first, second, out))
}

// Writes the minimal record of the words over the record's letters that it does not accept.
#[unsafe(no_mangle)]
pub extern "C" fn nxa_complement(record: &[u8], out: &mut [u8]) -> Reply
    ensures reply { result ≡ of_written (answer_in (complement_outcome «record».now) out.old) }
    ensures numbers { NumberIn (0 ∷ 1 ∷ 2 ∷ 3 ∷ 4 ∷ 5 ∷ 6 ∷ 7 ∷ 11 ∷ 12 ∷ []) result }
    ensures buffer { out.new ≡ buffer_in (complement_outcome «record».now) out.old }
    ensures claims { Complements «record».now out.new (written_in result) }
{
    Reply::from(operations::complement(record, out))
}

// Writes the minimal record of the reversed words.
#[unsafe(no_mangle)]
pub extern "C" fn nxa_mirror(record: &[u8], out: &mut [u8]) -> Reply
    ensures reply { result ≡ of_written (answer_in (mirror_outcome «record».now) out.old) }
    ensures numbers { NumberIn (0 ∷ 1 ∷ 2 ∷ 3 ∷ 4 ∷ 5 ∷ 6 ∷ 7 ∷ 12 ∷ []) result }
    ensures buffer { out.new ≡ buffer_in (mirror_outcome «record».now) out.old }
    ensures claims { Mirrors «record».now out.new (written_in result) }
{
    Reply::from(operations::mirror(record, out))
}

// Writes the minimal record of the words that have an odd number of cuts into words of the record; the empty word has one, into none.
// `claims`: refusal 14 comes exactly where a well-formed record accepts the empty word; where it does not, as for the sum.
#[unsafe(no_mangle)]
pub extern "C" fn nxa_star(record: &[u8], out: &mut [u8]) -> Reply
    ensures reply { result ≡ of_written (answer_in (star_outcome «record».now) out.old) }
    ensures numbers { NumberIn (0 ∷ 1 ∷ 2 ∷ 3 ∷ 4 ∷ 5 ∷ 6 ∷ 7 ∷ 14 ∷ 11 ∷ 12 ∷ []) result }
    ensures buffer { out.new ≡ buffer_in (star_outcome «record».now) out.old }
    ensures claims { GivesStar «record».now out.new (written_in result) }
{
    Reply::from(star::star(record, out))
}

// Gives out a record of the catalogue by its number. `claims`: where the reply's number is 0, the first `length` bytes of the buffer are the
// minimal record of the entry's words.
#[unsafe(no_mangle)]
pub extern "C" fn nxa_catalogue(number: usize, out: &mut [u8]) -> Reply
    ensures reply { result ≡ of_written (answer_in (catalogue_of number) out.old) }
    ensures numbers { NumberIn (0 ∷ 13 ∷ 12 ∷ []) result }
    ensures buffer { out.new ≡ buffer_in (catalogue_of number) out.old }
    ensures claims { GivesEntry number out.new (written_in result) }
{
    Reply::from(catalogue::give(number, out))
}

// Writes the line of a script's record by its index, or no bytes where marking ends before it, as it does at once for a script of 0 bytes;
// it refuses only with 12.
// `room`: 160 bytes are enough for every line.
// `claims`: where number is 0, the first `length` bytes of the buffer tell of all words what 01 asks. The key's line has the dimension of
// its language. An answer's line says `same` exactly when the key accepts the same words; otherwise its word is the first in shortlex
// order that just one of the two accepts, the one named accepts it, and the dimension is the answer's own.
// `refusals`: a line says `refused` only with these numbers.
#[unsafe(no_mangle)]
pub extern "C" fn nxa_mark(script: &[u8], index: usize, out: &mut [u8]) -> Reply
    ensures reply { result ≡ of_written (answer_in (mark_outcome script.now index) out.old) }
    ensures numbers { NumberIn (0 ∷ 12 ∷ []) result }
    ensures buffer { out.new ≡ buffer_in (mark_outcome script.now index) out.old }
    ensures room { length (mark_line script.now index) ≤ longest }
    ensures claims { Marks script.now index out.new (written_in result) }
    ensures refusals { SaysRefused (1 ∷ 2 ∷ 3 ∷ 4 ∷ 5 ∷ 6 ∷ 7 ∷ 8 ∷ []) out.new (written_in result) }
{
    Reply::from(marking::mark(script, index, out))
}
