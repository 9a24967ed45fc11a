// Blocks of rows: rows in lent words.
// In the source: the crate binar, whose bit matrices these stand for.
#![tactic(auto, unfolding(crate::specs::Words::rows_of_words, crate::specs::Words::words_for, crate::specs::Words::word_of))]

ghost use Rattle.std.specs.Prelude.{◌≡◌, min, length, get_or, set};
ghost use Rattle.binar.specs.Rows.{val, width};
ghost use Rattle.blocks.specs.Matrices.{units};
ghost use Rattle.blocks.specs.Words.{word_of, rows_in_lem, words_for, over};

use binar::{Row, WIDTH};

// The word that a row takes.
pub fn word(a: Row) -> u64
    ensures { result ≡ word_of (val a) }
{
    a.word()
}

// How many rows words that are lent for work hold.
pub fn rows_in(w: &[u64]) -> usize
    ensures { result ≡ length (rows_in_lem w.now) }
{
    w.len()
}

// Where row k of such words begins; their end where they hold fewer.
pub fn start(w: &[u64], k: usize) -> usize
    ensures { result ≡ min (words_for k) (length w.now) }
{
    k.min(w.len())
}

// Row i of such words; zero where they hold fewer.
pub fn row(w: &[u64], i: usize) -> Row
    ensures { val result ≡ get_or (rows_in_lem w.now) i 0 }
{
    match w.get(i) {
        Some(word) => Row::from(*word),
        None => Row::zero(),
    }
}

// Puts a row at i of such words, where they hold as many.
pub fn put(w: &mut [u64], i: usize, v: Row)
    ensures { rows_in_lem w.new ≡ set (rows_in_lem w.old) i (val v) }
{
    if i < w.len() {
        w[i] = v.word();
    }
}

// Puts the first k unit rows, as many as a row has columns, over the rows of such words from their start.
pub fn put_units(k: usize, w: &mut [u64])
    ensures { rows_in_lem w.new ≡ over (units (min k width)) (rows_in_lem w.old) }
{
    let count = k.min(WIDTH).min(rows_in(&w[..]));
    // by number: rows are put in lent words
    for i in 0..count {
        put(w, i, Row::unit(i));
    }
}
