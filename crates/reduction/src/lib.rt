// Reduction by columns: rows with their transform, the rank and the pivots.
// In the source: transvection_exact.rs, `row_reduce_with_transform`.
#![tactic(auto)]

ghost use Rattle.std.specs.Prelude.{◌≡◌, true, false, ℕ, ◌≤◌, ◌<◌, get_or, take, drop, length, MatchOption};
ghost use mathlib.Core.List.{map, zip};
ghost use Rattle.binar.specs.Bits.{bit as bit_of};
ghost use Rattle.binar.specs.Rows.{val, width};
ghost use Rattle.blocks.specs.Matrices.{units, All};
ghost use Rattle.blocks.specs.Words.{rows_in_lem, over};
ghost use Rattle.symplectic.specs.Picks.{add_both};
ghost use Rattle.reduction.specs.Columns.{unreduced, rows as all_rows, column, columns, rank as rank_of, row_reduce_with_transform_lem, fitting};
ghost use Rattle.reduction.specs.Pivots.{FirstOnes, NoOtherOnes, Ascending};
ghost use Rattle.reduction.specs.inner.Sweeps.{halves, swapped, cleared, swept, ReducedIn};

use binar::{Row, WIDTH};

// The first row from p on that has column c.
fn first_with(a: &[u64], c: usize, p: usize) -> Option<usize>
    ensures { MatchOption result ((i : ℕ) → p ≤ i → i < length (rows_in_lem a.now) → bit_of c (get_or (rows_in_lem a.now) i 0) ≡ false)
        (λ j. (p ≤ j) × (j < length (rows_in_lem a.now)) × (bit_of c (get_or (rows_in_lem a.now) j 0) ≡ true)
        × ((i : ℕ) → p ≤ i → i < j → bit_of c (get_or (rows_in_lem a.now) i 0) ≡ false)) }
{
    (p..blocks::rows_in(a)).find(|i| blocks::row(a, *i).bit(c))
}

// Exchanges rows i and j.
fn exchange(w: &mut [u64], i: usize, j: usize)
    ensures { rows_in_lem w.new ≡ swapped 0 i j (rows_in_lem w.old) }
{
    let x = blocks::row(w, i);
    let y = blocks::row(w, j);
    blocks::put(w, i, y);
    blocks::put(w, j, x);
}

// Adds v to every row that has column c, and w to the same rows of the transform.
fn clear(c: usize, v: Row, w: Row, a: &mut [u64], t: &mut [u64])
    requires { length (rows_in_lem a.old) ≡ length (rows_in_lem t.old) }
    ensures { zip (rows_in_lem a.new) (rows_in_lem t.new) ≡ cleared c (val v, val w) (zip (rows_in_lem a.old) (rows_in_lem t.old)) }
{
    // the lesser of two equal counts, so that neither is asked in the loop
    let k = blocks::rows_in(a).min(blocks::rows_in(t));
    for i in 0..k {
        let x = blocks::row(a, i);
        let has = x.bit(c);
        blocks::put(a, i, x.added(v, has));
        blocks::put(t, i, blocks::row(t, i).added(w, has));
    }
}

// Clears column c from every row but row p by adding that row, and the transform goes along.
fn sweep(c: usize, p: usize, a: &mut [u64], t: &mut [u64])
    requires { length (rows_in_lem a.old) ≡ length (rows_in_lem t.old) }
    ensures { zip (rows_in_lem a.new) (rows_in_lem t.new) ≡ swept c p (zip (rows_in_lem a.old) (rows_in_lem t.old)) }
{
    let v = blocks::row(a, p);
    let w = blocks::row(t, p);
    clear(c, v, w, a, t);
    blocks::put(a, p, v);
    blocks::put(t, p, w);
}

// Column c: the first row from p on that has it is exchanged up, then cleared from every other row. Answers where the pivot row is next.
fn by_column(c: usize, p: usize, a: &mut [u64], t: &mut [u64], pivots: &mut [usize]) -> usize
    requires { (length (rows_in_lem a.old) ≡ length (rows_in_lem t.old)) × (p ≤ length (rows_in_lem a.old)) × (length (rows_in_lem a.old) ≤ length pivots.old) }
    ensures { (p ≤ result) × (result ≤ length (rows_in_lem a.old)) × (drop result pivots.new ≡ drop result pivots.old)
        × (halves result (take result pivots.new) (zip (rows_in_lem a.new) (rows_in_lem t.new))
        ≡ column (0, 0) add_both c (λ x. bit_of c x.0) (halves p (take p pivots.old) (zip (rows_in_lem a.old) (rows_in_lem t.old)))) }
{
    let Some(j) = first_with(a, c, p) else {
        return p;
    };
    exchange(a, p, j);
    exchange(t, p, j);
    sweep(c, p, a, t);
    pivots[p] = c;
    p + 1
}

// The first m columns, one after the other; answers the rank.
fn by_columns(m: usize, a: &mut [u64], t: &mut [u64], pivots: &mut [usize]) -> usize
    requires { (length (rows_in_lem a.old) ≡ length (rows_in_lem t.old)) × (length (rows_in_lem a.old) ≤ length pivots.old) }
    ensures { (result ≤ length (rows_in_lem a.old)) × (drop result pivots.new ≡ drop result pivots.old)
        × (halves result (take result pivots.new) (zip (rows_in_lem a.new) (rows_in_lem t.new))
        ≡ columns (0, 0) add_both (λ c x. bit_of c x.0) m 0 (unreduced (zip (rows_in_lem a.old) (rows_in_lem t.old)))) }
{
    let k = blocks::rows_in(a);
    let mut p: usize = 0;
    // by number: columns have numbers alone
    for c in 0..m {
        // every row has its pivot: no later column changes anything
        if p == k {
            return p;
        }
        p = by_column(c, p, a, t, pivots);
    }
    p
}

// Reduces the rows of a by their first m columns, with the transform in t; answers the rank. Numbers behind the pivots stay as they were.
fn reduce(m: usize, a: &mut [u64], t: &mut [u64], pivots: &mut [usize]) -> usize
    requires { (length (rows_in_lem a.old) ≡ length (rows_in_lem t.old)) × (length (rows_in_lem a.old) ≤ length pivots.old) × (length (rows_in_lem a.old) ≤ width) }
    ensures { ReducedIn m (rows_in_lem a.old) result (rows_in_lem a.new) (rows_in_lem t.new) (take result pivots.new)
        × (drop result pivots.new ≡ drop result pivots.old) }
{
    blocks::put_units(blocks::rows_in(t), t);
    by_columns(m, a, t, pivots)
}

// The rows of a reduced in place by their first m columns, with the transform in t and the pivots in `pivots`; answers the rank.
// As many rows as all three have, at most as many as a row has columns.
pub fn row_reduce_with_transform(
    m: usize,
    a: &mut [u64],
    t: &mut [u64],
    pivots: &mut [usize],
) -> usize
    ensures ranked { result ≡ rank_of m (fitting (rows_in_lem a.old) (rows_in_lem t.old) pivots.old) }
    ensures reduced { rows_in_lem a.new
        ≡ over (map (λ x. x.0) (all_rows (row_reduce_with_transform_lem m (fitting (rows_in_lem a.old) (rows_in_lem t.old) pivots.old)))) (rows_in_lem a.old) }
    ensures transformed { rows_in_lem t.new
        ≡ over (map (λ x. x.1) (all_rows (row_reduce_with_transform_lem m (fitting (rows_in_lem a.old) (rows_in_lem t.old) pivots.old)))) (rows_in_lem t.old) }
    ensures pivoted { pivots.new ≡ over (row_reduce_with_transform_lem m (fitting (rows_in_lem a.old) (rows_in_lem t.old) pivots.old)).pivots pivots.old }
    ensures first_ones { FirstOnes result (take result pivots.new) (take (length (fitting (rows_in_lem a.old) (rows_in_lem t.old) pivots.old)) (rows_in_lem a.new)) }
    ensures no_other_ones { NoOtherOnes result (take result pivots.new) (take (length (fitting (rows_in_lem a.old) (rows_in_lem t.old) pivots.old)) (rows_in_lem a.new)) }
    ensures ascending { Ascending result (take result pivots.new) }
    ensures within { All (λ p. p < m) (take result pivots.new) }
{
    let both = blocks::rows_in(a).min(blocks::rows_in(t));
    let k = WIDTH.min(pivots.len().min(both));
    let to = blocks::start(a, k);
    let until = blocks::start(t, k);
    reduce(m, &mut a[..to], &mut t[..until], pivots)
}
