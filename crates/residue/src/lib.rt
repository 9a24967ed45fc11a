// I + F, the residue of an action, its basis and core.
// In the source: transvection_exact.rs, `residue_matrix`, `residue_core`.
#![tactic(auto)]

ghost use Rattle.std.specs.Prelude.{◌≡◌, List, ◌++◌, ℕ, ◌+◌, ◌≤◌, ◌<◌, get_or, take, drop, length};
ghost use Rattle.binar.specs.Rows.{val, width};
ghost use Rattle.blocks.specs.Matrices.{dots as dots_of};
ghost use Rattle.blocks.specs.Words.{rows_in_lem, over};
ghost use Rattle.symplectic.specs.Sizes.{most_rows};
ghost use Rattle.actions.specs.Actions.{qubits, matrix};
ghost use Rattle.symplectic.specs.Turns.{identity_plus};
ghost use Rattle.residue.specs.Residue.{residue as residue_of, basis as basis_of, core as core_of, times_transposed};

use actions::Action;
use binar::{Row, WIDTH};
use symplectic::MOST_ROWS;

// Which of m rows stands at i once the first k stand behind the others.
fn rotated(i: usize, k: usize, m: usize) -> usize
    requires { (i < m) × (k ≤ m) × (m ≤ most_rows) }
    ensures { (result < m) × ((l : List ℕ) → length l ≡ m → get_or (drop k l ++ take k l) i 0 ≡ get_or l result 0) }
{
    let rest = m - k;
    if i < rest { i + k } else { i - rest }
}

// Puts the rows of I + F from row k on, then the first k, over lent rows.
fn put_plus(a: Action, k: usize, w: &mut [u64])
    requires { k ≤ qubits a + qubits a }
    ensures { rows_in_lem w.new
        ≡ over (drop k (identity_plus (qubits a) (matrix a)) ++ take k (identity_plus (qubits a) (matrix a))) (rows_in_lem w.old) }
{
    let n = symplectic::capped(a.n);
    let m = n + n;
    let count = m.min(blocks::rows_in(w));
    // by number: rows are put in lent words
    for i in 0..count {
        let j = rotated(i, k, m);
        blocks::put(w, i, a.rows[j] ^ Row::unit(j));
    }
}

// I + F put over lent rows.
pub fn put_identity_plus(a: Action, w: &mut [u64])
    ensures { rows_in_lem w.new ≡ over (identity_plus (qubits a) (matrix a)) (rows_in_lem w.old) }
{
    put_plus(a, 0, w)
}

// I + F with the upper and lower n rows exchanged, put over lent rows.
pub fn residue(a: Action, w: &mut [u64])
    ensures { rows_in_lem w.new ≡ over (residue_of (qubits a) (matrix a)) (rows_in_lem w.old) }
{
    put_plus(a, symplectic::capped(a.n), w)
}

// The row whose column i is the dot of v and row i of the first k: v times these transposed.
fn dots(v: Row, w: &[u64], k: usize) -> Row
    requires { (k ≤ width) × (k ≤ length (rows_in_lem w.now)) }
    ensures { val result ≡ dots_of (take k (rows_in_lem w.now)) (val v) }
{
    // the bounds of k once more, so that none is asked in the loop
    let m = k.min(WIDTH).min(blocks::rows_in(w));
    let mut s = Row::zero();
    // by number: column i is for row i
    for i in 0..m {
        s = s.added(Row::unit(i), v.dot(blocks::row(w, i)));
    }
    s
}

// Puts the first k rows times the first k of the transform transposed over lent ones.
fn put_core(k: usize, rows: &[u64], transform: &[u64], out: &mut [u64])
    requires { (k ≤ width) × (k ≤ length (rows_in_lem rows.now)) × (k ≤ length (rows_in_lem transform.now)) }
    ensures { rows_in_lem out.new
        ≡ over (times_transposed (take k (rows_in_lem rows.now)) (take k (rows_in_lem transform.now))) (rows_in_lem out.old) }
{
    let m = k.min(blocks::rows_in(out));
    // by number: rows are put in lent words
    for i in 0..m {
        blocks::put(out, i, dots(blocks::row(rows, i), transform, k));
    }
}

// The residue reduced in the rows and the transform, then its basis and the core put over lent rows; answers the rank.
fn residue_core_in(
    a: Action,
    rows: &mut [u64],
    transform: &mut [u64],
    basis: &mut [u64],
    core: &mut [u64],
) -> usize
    requires { (length (rows_in_lem rows.old) ≡ qubits a + qubits a) × (length (rows_in_lem transform.old) ≡ qubits a + qubits a) }
    ensures ranked { result ≡ length (basis_of (qubits a) (matrix a)) }
    ensures based { rows_in_lem basis.new ≡ over (basis_of (qubits a) (matrix a)) (rows_in_lem basis.old) }
    ensures cored { rows_in_lem core.new ≡ over (core_of (qubits a) (matrix a)) (rows_in_lem core.old) }
{
    let mut pivots = [0; MOST_ROWS];
    let n = symplectic::capped(a.n);
    residue(a, rows);
    let r = reduction::row_reduce_with_transform(n + n, rows, transform, &mut pivots);
    matrices::put_front(r, rows, basis);
    put_core(r, rows, transform, core);
    r
}

// The basis of an action's residue and the core, put over lent rows from their start; answers the rank.
pub fn residue_core(a: Action, basis: &mut [u64], core: &mut [u64]) -> usize
    ensures ranked { result ≡ length (basis_of (qubits a) (matrix a)) }
    ensures based { rows_in_lem basis.new ≡ over (basis_of (qubits a) (matrix a)) (rows_in_lem basis.old) }
    ensures cored { rows_in_lem core.new ≡ over (core_of (qubits a) (matrix a)) (rows_in_lem core.old) }
{
    let mut rows = [0u64; MOST_ROWS];
    let mut transform = [0u64; MOST_ROWS];
    let n = symplectic::capped(a.n);
    let to = blocks::start(&rows, n + n);
    residue_core_in(a, &mut rows[..to], &mut transform[..to], basis, core)
}
