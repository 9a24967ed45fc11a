// Vectors of n qubits: the pairing, turns, the identity, the symplectic test.
// In the source: transvection_exact.rs, `transvection_matrix`, `symplectic_dual`, `right_multiply_transvection`.
#![tactic(auto)]

ghost use Rattle.std.specs.Prelude.{◌≡◌, ◌+◌, ◌<◌, ◌≤◌, length, get_or};
ghost use mathlib.Core.Bool.{beq};
ghost use Rattle.std.specs.List.{list_all, range_with_len};
ghost use Rattle.binar.specs.Bits.{◌⊕◌, select, bit, dot};
ghost use Rattle.binar.specs.Rows.{val};
ghost use Rattle.blocks.specs.Matrices.{units};
ghost use Rattle.blocks.specs.Words.{rows_of_words, rows_in_lem, over};
ghost use Rattle.symplectic.specs.Turns.{followed as followed_of, symplectic};
ghost use Rattle.symplectic.specs.inner.Vectors.{swap_halves_lem, pairs_below};
ghost use Rattle.symplectic.specs.Sizes.{max_qubits, capped as capped_of};

use binar::Row;

// The most qubits of an action, the most rows, and the most vectors of a list that is as short as any: one more than a row has columns.
pub const MAX_QUBITS: u64 = 32;

pub const MOST_ROWS: usize = 64;

pub const MOST_VECTORS: usize = 65;

// n, and the most qubits where n is above that.
#[tactic(auto, unfolding(crate::specs::Sizes::capped))]
pub fn capped(n: u64) -> usize
    ensures { result ≡ capped_of n }
{
    n.min(MAX_QUBITS) as usize
}

// A vector with its halves exchanged: its dot with a vector is their pairing.
fn swap_halves(n: usize, v: Row) -> Row
    requires { n ≤ max_qubits }
    ensures { val result ≡ swap_halves_lem n (val v) }
{
    let x = v.low(n);
    let z = v.shift_down(n).low(n);
    x.shift_up(n) ^ z
}

// The turn of v, on u; s is v with its halves exchanged.
fn turned(u: Row, v: Row, s: Row) -> Row
    ensures { val result ≡ val u ⊕ select 0 (dot (val u) (val s)) (val v) }
{
    if u.dot(s) { u ^ v } else { u }
}

// Each row of words lent for work followed by the turn of v, on n qubits.
pub fn follow(n: u64, w: &mut [u64], v: Row)
    ensures { rows_in_lem w.new ≡ followed_of (capped_of n) (rows_in_lem w.old) (val v) }
{
    let s = swap_halves(capped(n), v);
    let count = blocks::rows_in(&w[..]);
    // by number: rows are put in lent words
    for i in 0..count {
        let u = blocks::row(&w[..], i);
        blocks::put(w, i, turned(u, v, s));
    }
}

// The identity on n qubits put into words lent for work, as far as they reach.
pub fn put_identity(n: u64, w: &mut [u64])
    ensures { rows_in_lem w.new ≡ over (units (capped_of n + capped_of n)) (rows_in_lem w.old) }
{
    let k = capped(n);
    blocks::put_units(k + k, w)
}

// Whether the dot of s and each of the first i rows that lent words hold is the bit of e in its place.
fn dots_as(words: &[u64], i: usize, s: Row, e: Row) -> bool
    requires { i ≤ length words.now }
    ensures { result ≡ list_all (λ j. beq (dot (get_or words.now j 0) (val s)) (bit j (val e))) (range_with_len 0 i) }
{
    (0..i).all(|j| Row::from(words[j]).dot(s) == e.bit(j))
}

// Whether row i of those that lent words hold pairs with each row before it as its basis vector does with theirs.
fn pairs_as_basis(n: u64, words: &[u64], i: usize) -> bool
    requires { (i < capped_of n + capped_of n) × (i < length words.now) }
    ensures { result ≡ pairs_below (capped_of n) (rows_of_words n words.now) i i }
{
    let k = capped(n);
    let s = swap_halves(k, Row::from(words[i]));
    let e = swap_halves(k, Row::unit(i));
    dots_as(words, i, s, e)
}

// Whether each of the first rows that lent words hold pairs with those before it as its basis vector does with theirs.
fn rows_pair(n: u64, words: &[u64], count: usize) -> bool
    requires { (count ≤ capped_of n + capped_of n) × (count ≤ length words.now) }
    ensures { result ≡ list_all (λ i. pairs_below (capped_of n) (rows_of_words n words.now) i i) (range_with_len 0 count) }
{
    (0..count).all(|i| pairs_as_basis(n, words, i))
}

// Whether the rows that lent words hold, of which the first 2n count, pair as the basis does. Pairs are tested one way round: the
// pairing is symmetric, and 0 of a vector with itself.
pub fn is_symplectic(n: u64, words: &[u64]) -> bool
    ensures { result ≡ symplectic (capped_of n) (rows_of_words n words.now) }
{
    let k = capped(n);
    let count = words.len().min(k + k);
    rows_pair(n, words, count)
}
