// Runs the samples without a star, the sample of each row of the refusal table, blanks, products and stars, and letters outside the
// alphabet through the services: a line for each.
// What must come out is in the file `stdout`, as the scope has it.
#![tactic(auto)]

mod ask;
mod make;
mod show;

use make::{head, power};
use std::io;

// Language X, n = 2 over two letters: 31 bytes.
const X: [u8; 31] =
    *b"NXA\x01\x00\x02\x02\x01\x00\x00\x00\x03\x00\x00\x00\x02\x00\x00\x00\x03\x00\x00\x00\x01\x00\x00\x00\x01\x00\x00\x00";

// No word, over one letter and over two.
const NOTHING: [u8; 15] = *b"NXA\x01\x00\x00\x01\x00\x00\x00\x00\x00\x00\x00\x00";

const NOTHING_OF_TWO: [u8; 15] = *b"NXA\x01\x00\x00\x02\x00\x00\x00\x00\x00\x00\x00\x00";

// Over one letter: every word, the words of an even number of letters, all nonempty words, the empty word only.
const ALL: [u8; 19] = *b"NXA\x01\x00\x01\x01\x01\x00\x00\x00\x01\x00\x00\x00\x01\x00\x00\x00";

const EVEN: [u8; 23] =
    *b"NXA\x01\x00\x02\x01\x01\x00\x00\x00\x01\x00\x00\x00\x02\x00\x00\x00\x01\x00\x00\x00";

const NONEMPTY: [u8; 23] =
    *b"NXA\x01\x00\x02\x01\x01\x00\x00\x00\x02\x00\x00\x00\x02\x00\x00\x00\x02\x00\x00\x00";

const EMPTY: [u8; 19] = *b"NXA\x01\x00\x01\x01\x01\x00\x00\x00\x01\x00\x00\x00\x00\x00\x00\x00";

// The empty word only, over two letters.
const EMPTY_OF_TWO: [u8; 23] =
    *b"NXA\x01\x00\x01\x02\x01\x00\x00\x00\x01\x00\x00\x00\x00\x00\x00\x00\x00\x00\x00\x00";

// 9. Only 0^31, one letter: dimension 32, against nothing the word has 31 letters; its complement is refused 11, place 33.
fn sample_9(rt: &impl Print) -> io::Result<()> {
    let mut only = [0u8; 143];
    let mut out = [0u8; 143];
    power(&mut only, 1, 31, 15);
    ask::minimal(rt, "9: minimal ", &only, &mut out)?;
    ask::compare(rt, "9: against nothing ", &only, &NOTHING)?;
    ask::complement(rt, "9: complement ", &only)
}

// Asks for the check of a record of n states over a letters with no bit set.
fn ask_size(rt: &impl Print, name: &str, bytes: &mut [u8], n: u8, a: u8) -> io::Result<()> {
    head(bytes, n, a);
    ask::rewrite(rt, name, bytes)
}

// 10. n = 32 passes, 33 is 4; a = 8 passes, 9 is 5.
fn sample_10(rt: &impl Print) -> io::Result<()> {
    let mut b = [0u8; 143];
    ask_size(rt, "10: n = 32 ", &mut b, 32, 1)?;
    let mut c = [0u8; 147];
    ask_size(rt, "10: n = 33 ", &mut c, 33, 1)?;
    let mut d = [0u8; 1039];
    ask_size(rt, "10: n = 32, a = 8 ", &mut d, 32, 8)?;
    let mut e = [0u8; 51];
    ask_size(rt, "10: a = 9 ", &mut e, 1, 9)
}

// 10. Only 0^7 met with only 0^7 has product 64 and passes.
fn sample_10_meet(rt: &impl Print) -> io::Result<()> {
    let mut seven = [0u8; 47];
    power(&mut seven, 1, 7, 15);
    ask::meet(rt, "10: only 0^7 met with itself ", &seven, &seven)
}

// A record that rows 1 to 7 refuse: by itself, and as the second of two.
fn refuse(rt: &impl Print, row: &str, bytes: &[u8]) -> io::Result<()> {
    ask::rewrite(rt, row, bytes)?;
    ask::compare(rt, row, &X, bytes)
}

// The samples of rows 1 to 7. A second record of 0 bytes is a blank, and row 1 needs a byte there.
fn rows_1_to_3(rt: &impl Print) -> io::Result<()> {
    ask::rewrite(rt, "row 1: ", b"")?;
    ask::compare(rt, "row 1: ", b"", b"")?;
    ask::compare(rt, "row 1: ", &X, b"N")?;
    refuse(
        rt,
        "row 2: ",
        b"NXB\x01\x00\x00\x01\x00\x00\x00\x00\x00\x00\x00\x00",
    )?;
    refuse(
        rt,
        "row 3: ",
        b"NXA\x02\x00\x00\x01\x00\x00\x00\x00\x00\x00\x00\x00",
    )
}

fn rows_4_and_5(rt: &impl Print) -> io::Result<()> {
    let mut many = [0u8; 147];
    head(&mut many, 33, 1);
    refuse(rt, "row 4: ", &many)?;
    let mut wide = [0u8; 51];
    head(&mut wide, 1, 9);
    refuse(rt, "row 5: ", &wide)
}

fn rows_6_and_7(rt: &impl Print) -> io::Result<()> {
    refuse(
        rt,
        "row 6: ",
        b"NXA\x01\x00\x00\x01\x00\x00\x00\x00\x00\x00\x00\x00\x00",
    )?;
    refuse(
        rt,
        "row 7: ",
        b"NXA\x01\x00\x01\x01\x02\x00\x00\x00\x00\x00\x00\x00\x00\x00\x00\x00",
    )
}

// Row 8: a = 1 and a = 2.
fn row_8(rt: &impl Print) -> io::Result<()> {
    ask::sum(rt, "row 8: ", &NOTHING, &NOTHING_OF_TWO)
}

// What row 9 once refused, a = 2 and word 0 2, is not accepted; nor is, by the machine for all words over one letter, a word with another
// letter in front, in the middle or at the end.
fn foreign_letters(rt: &impl Print) -> io::Result<()> {
    ask::test(rt, "foreign: X, word 02 ", &X, b"\x00\x02")?;
    ask::test(rt, "foreign: all words, word 00 ", &ALL, b"\x00\x00")?;
    ask::test(rt, "foreign: all words, word 100 ", &ALL, b"\x01\x00\x00")?;
    ask::test(rt, "foreign: all words, word 010 ", &ALL, b"\x00\x01\x00")?;
    ask::test(rt, "foreign: all words, word 001 ", &ALL, b"\x00\x00\x01")
}

// Row 10: only 0^8 with only 0^7.
fn row_10(rt: &impl Print) -> io::Result<()> {
    let mut seven = [0u8; 47];
    let mut eight = [0u8; 51];
    power(&mut seven, 1, 7, 15);
    power(&mut eight, 1, 8, 15);
    ask::meet(rt, "row 10: ", &eight, &seven)
}

// Row 11: sum of only 0^20 and only 1^20. The rows of letter 1 come after the 21 of letter 0.
fn row_11(rt: &impl Print) -> io::Result<()> {
    let mut zeros = [0u8; 183];
    let mut ones = [0u8; 183];
    power(&mut zeros, 2, 20, 15);
    power(&mut ones, 2, 20, 99);
    ask::sum(rt, "row 11: ", &zeros, &ones)
}

// Row 12: 30 bytes for a 31-byte record. Row 13: number 6. Row 14: the star of every word.
fn rows_12_to_14(rt: &impl Print) -> io::Result<()> {
    let mut out = [0u8; 30];
    ask::minimal(rt, "row 12: ", &X, &mut out)?;
    ask::catalogue(rt, "row 13: ", 6)?;
    ask::star(rt, "row 14: ", &ALL, &mut out)
}

// A blank against X, against no word, and against only 0^31 over one letter; the sum with a blank, and the meet.
fn blanks(rt: &impl Print) -> io::Result<()> {
    let mut only = [0u8; 143];
    power(&mut only, 1, 31, 15);
    ask::compare(rt, "blank: X ", &X, b"")?;
    ask::compare(rt, "blank: nothing ", &NOTHING, b"")?;
    ask::compare(rt, "blank: only 0^31 ", &only, b"")?;
    ask::sum(rt, "blank: sum with X ", &X, b"")?;
    ask::meet(rt, "blank: meet with only 0^31 ", &only, b"")
}

// The product with every word, where a word of k letters has k + 1 cuts; with the empty word only, the language itself; with no word, nothing.
fn products(rt: &impl Print) -> io::Result<()> {
    let mut two = [0u8; 23];
    let mut own = [0u8; 31];
    let mut none = [0u8; 15];
    ask::product(rt, "product: all words twice ", &ALL, &ALL, &mut two)?;
    ask::compare(rt, "product: against even lengths ", &two, &EVEN)?;
    ask::product(rt, "product: X, empty word ", &X, &EMPTY_OF_TWO, &mut own)?;
    ask::compare(rt, "product: against X ", &own, &X)?;
    ask::product(rt, "product: X, nothing ", &X, &NOTHING_OF_TWO, &mut none)?;
    ask::product(rt, "product: X, blank ", &X, b"", &mut none)
}

// Only 0^15 and then only 0^16 is only 0^31 and passes; only 0^16 twice has dimension 33.
fn products_of_powers(rt: &impl Print) -> io::Result<()> {
    let mut fifteen = [0u8; 79];
    let mut sixteen = [0u8; 83];
    let mut all = [0u8; 143];
    let mut out = [0u8; 143];
    power(&mut fifteen, 1, 15, 15);
    power(&mut sixteen, 1, 16, 15);
    power(&mut all, 1, 31, 15);
    ask::product(rt, "product: 0^15, 0^16 ", &fifteen, &sixteen, &mut out)?;
    ask::compare(rt, "product: against 0^31 ", &out, &all)?;
    ask::product(rt, "product: 0^16 twice ", &sixteen, &sixteen, &mut out)
}

// The star of no word, the empty word only; of all nonempty words; of the lengths that leave 31 on division by 32, which has dimension 33.
fn stars(rt: &impl Print) -> io::Result<()> {
    let mut one = [0u8; 19];
    let mut two = [0u8; 23];
    let mut cycle = [0u8; 143];
    let mut out = [0u8; 143];
    ask::star(rt, "star: nothing ", &NOTHING, &mut one)?;
    ask::compare(rt, "star: against the empty word ", &one, &EMPTY)?;
    ask::star(rt, "star: nonempty words ", &NONEMPTY, &mut two)?;
    ask::test(rt, "star: word 0 ", &two, b"\x00")?;
    ask::test(rt, "star: word 00 ", &two, b"\x00\x00")?;
    power(&mut cycle, 1, 31, 15);
    cycle[139] = 1;
    ask::star(rt, "star: 31 letters of every 32 ", &cycle, &mut out)
}

fn main(rt: HostRuntime) -> io::Result<()> {
    sample_9(&rt)?;
    sample_10(&rt)?;
    sample_10_meet(&rt)?;
    rows_1_to_3(&rt)?;
    rows_4_and_5(&rt)?;
    rows_6_and_7(&rt)?;
    row_8(&rt)?;
    row_10(&rt)?;
    row_11(&rt)?;
    rows_12_to_14(&rt)?;
    blanks(&rt)?;
    products(&rt)?;
    products_of_powers(&rt)?;
    stars(&rt)?;
    foreign_letters(&rt)
}
