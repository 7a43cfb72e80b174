// Where the rows of a search came from: a lent trail with a step for each row, and the word of a row along it.
#![tactic(auto, unfolding(crate::specs::Trail::from_in, crate::specs::Trail::by_in, crate::specs::Trail::linked))]

ghost use Rattle.std.specs.Prelude.{◌≡◌, ◌++◌, ◌≤◌, ◌<◌, length, drop};
ghost use Rattle.rows.specs.Row.{width};
ghost use Rattle.rows.specs.Table.{blocks};
ghost use Rattle.trail.specs.Trail.{trail_size, linked, from_in, word_in, Traced};

// Where a row came from: an earlier row, and a letter.
#[derive(Clone, Copy, PartialEq, Eq)]
pub struct Step {
    pub from: u8,
    pub letter: u8,
}

// A step for each of `width` rows.
pub type Trail = [Step; 64];

// A trail of no rows yet.
pub fn empty() -> Trail
    ensures { length result ≡ trail_size }
{
    [Step { from: 0, letter: 0 }; 64]
}

// Row d came from row k by letter l.
pub fn link(w: &mut Trail, d: usize, k: usize, l: usize)
    requires { (d < width) × (k < width) × (l < blocks) }
    ensures { w.new ≡ linked w.old d k l }
{
    w[d] = Step {
        from: k as u8,
        letter: l as u8,
    };
}

// The row that row r came from.
fn from(w: &Trail, r: usize) -> usize
    requires { r < width }
    ensures { result ≡ from_in w.now r }
{
    usize::from(w[r].from)
}

// The length of the word of row k, over a letters.
pub fn depth(w: &Trail, a: usize, k: usize) -> usize
    requires { Traced a k w.now }
    ensures { (result ≡ length (word_in w.now k)) × (result ≤ k) }
{
    let mut n: usize = 0;
    let mut r = k;
    // No range: the rows follow a chain, each to the one it came from.
    while r != 0 {
        r = from(w, r);
        n += 1;
    }
    n
}

// Writes the word of row k, of n letters, one letter to a byte, from the start of the buffer.
pub fn trace(w: &Trail, a: usize, k: usize, n: usize, word: &mut [u8])
    requires { Traced a k w.now × (n ≡ length (word_in w.now k)) × (n ≤ length word.old) }
    ensures { word.new ≡ word_in w.now k ++ drop n word.old }
{
    let mut p = n;
    let mut r = k;
    // The same chain.
    while r != 0 {
        p -= 1;
        word[p] = w[r].letter;
        r = from(w, r);
    }
}
