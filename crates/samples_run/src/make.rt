// Records byte by byte, in a buffer of zeros.
ghost use Rattle.std.specs.Prelude.{◌≤◌};

// One byte, where it lies within the buffer.
fn put(b: &mut [u8], at: usize, byte: u8) {
    if at < b.len() {
        b[at] = byte;
    }
}

// Mark, version, n and a.
pub fn head(b: &mut [u8], n: u8, a: u8) {
    put(b, 0, 0x4E);
    put(b, 1, 0x58);
    put(b, 2, 0x41);
    put(b, 3, 1);
    put(b, 5, n);
    put(b, 6, a);
}

// Bit j of the row at an offset.
fn set_bit(b: &mut [u8], at: usize, j: usize)
    requires at_bound { at ≤ 4096 }
    requires j_bound { j ≤ 32 }
{
    put(b, at + j / 8, 1 << (j % 8));
}

// The machine that accepts a letter repeated k times, and no other word: k + 1 states in a row. The letter's rows start at `first`.
pub fn power(b: &mut [u8], a: u8, k: u8, first: usize)
    requires k_bound { k ≤ 31 }
    requires first_bound { first ≤ 1039 }
{
    head(b, k + 1, a);
    set_bit(b, 7, 0);
    let last = k as usize;
    set_bit(b, 11, last);
    for i in 0..last {
        set_bit(b, first + 4 * i, i + 1);
    }
}
