// Matrices in lent words: a row times a matrix, the product of two, rows laid into words and put over others.
// In the source: the crate binar, `right_multiply` and `dot` of its bit matrices.
#![tactic(auto)]

ghost use Rattle.std.specs.Prelude.{◌≡◌, take};
ghost use Rattle.binar.specs.Rows.{val};
ghost use Rattle.blocks.specs.Matrices.{times as times_of, matmul};
ghost use Rattle.blocks.specs.Words.{laid, rows_in_lem, over};

use binar::Row;

// The sum of the rows of words lent for work that c has ones for.
pub fn times(c: Row, w: &[u64]) -> Row
    ensures { val result ≡ times_of (val c) (rows_in_lem w.now) }
{
    let mut s = Row::zero();
    let mut bits = c.low(blocks::rows_in(w));
    while !bits.is_zero() {
        let t = bits.lowest();
        s ^= blocks::row(w, t);
        bits ^= Row::unit(t);
    }
    s
}

// The product of such rows, each row of a times b, laid into lent words as rows of n qubits.
pub fn multiply(n: u64, a: &[u64], b: &[u64], out: &mut [u64])
    ensures { out.new ≡ laid n (matmul (rows_in_lem a.now) (rows_in_lem b.now)) out.old }
{
    let k = blocks::rows_in(a).min(out.len());
    // by number: how many words a row takes is known to blocks alone
    for i in 0..k {
        out[i] = blocks::word(times(blocks::row(a, i), b));
    }
}

// Lays such rows, as rows of n qubits, into lent words.
pub fn lay(n: u64, w: &[u64], out: &mut [u64])
    ensures { out.new ≡ laid n (rows_in_lem w.now) out.old }
{
    let k = blocks::rows_in(w).min(out.len());
    // by number: how many words a row takes is known to blocks alone
    for i in 0..k {
        out[i] = blocks::word(blocks::row(w, i));
    }
}

// Puts the first k of such rows over others from their start.
pub fn put_front(k: usize, w: &[u64], out: &mut [u64])
    ensures { rows_in_lem out.new ≡ over (take k (rows_in_lem w.now)) (rows_in_lem out.old) }
{
    let m = k.min(blocks::rows_in(w)).min(blocks::rows_in(out));
    // by number: rows are put in lent words
    for i in 0..m {
        blocks::put(out, i, blocks::row(w, i));
    }
}
