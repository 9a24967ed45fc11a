// Spaces in lent rows: a form tested, the sums of first rows, what a draw passes on.
// In the source: transvection_exact.rs, `is_alternating`, `SpanVectors`, `right_orthogonal_complement`.
#![tactic(auto)]

ghost use Rattle.std.specs.Prelude.{◌≡◌, ◌&&◌, true, false, ltb, ℕ, ◌+◌, ◌-◌, ◌<◌, map, take};
ghost use Rattle.binar.specs.Bits.{select, ◌⊕◌};
ghost use Rattle.binar.specs.Rows.{val};
ghost use Rattle.blocks.specs.Words.{rows_in_lem};
ghost use Rattle.triangular.specs.Spaces.{is_alternating_lem, symmetric_with};
ghost use Rattle.spaces.specs.Levels.{below, over_from, counted, form_in, summed, kept_or, shrunk as shrunk_of, passed_at, members_passed, gram_passed};

use binar::{Row, WIDTH};

// Whether the form of member i of a Gram matrix is symmetric with each member before it, and 0 with itself.
fn alternates(gram: &[u64], i: usize) -> bool
    ensures passes { result ≡ true → (symmetric_with (form_in (rows_in_lem gram.now)) i (below i) ≡ true) × (form_in (rows_in_lem gram.now) i i ≡ false) }
    ensures fails { result ≡ false → (d : ℕ) → i < d → is_alternating_lem (form_in (rows_in_lem gram.now)) (below d) ≡ false }
{
    let row = blocks::row(gram, i);
    for j in 0..i {
        if row.bit(j) != blocks::row(gram, j).bit(i) {
            return false;
        }
    }
    !row.bit(i)
}

// Whether a Gram matrix has d members and its form is alternating: each member is tested with those before it, then with itself.
pub fn is_alternating(gram: &[u64], d: usize) -> bool
    ensures { result ≡ (is_alternating_lem (form_in (rows_in_lem gram.now)) (below d) && ltb 0 d) }
{
    for member in 0..d {
        if !alternates(gram, member) {
            return false;
        }
    }
    0 < d
}

// Behind the first d rows, at i: the sum of rows 0 to i.
pub fn sums(w: &mut [u64], d: usize)
    ensures { rows_in_lem w.new ≡ summed (counted d) (rows_in_lem w.old) }
{
    if WIDTH < d {
        return;
    }
    let mut s = Row::zero();
    // by number: rows of one slice are read, and others put
    for i in 0..d {
        s ^= blocks::row(w, i);
        blocks::put(w, d + i, s);
    }
}

// The row x before the dropped one, else the row y behind it, m added where it is hit.
fn passed(x: Row, y: Row, m: Row, before: bool, hit: bool) -> Row
    ensures { val result ≡ kept_or before (val x) (val y ⊕ select 0 hit (val m)) }
{
    if before {
        return x;
    }
    y.added(m, hit)
}

// A Gram row once member j has been added to those of h and dropped: so are the columns.
fn shrunk(x: Row, h: Row, j: usize) -> Row
    ensures { val result ≡ shrunk_of j (val h) (val x) }
{
    let y = x.added(h, x.bit(j));
    let low = y.low(j);
    low ^ (y ^ low).shift_down(1)
}

// Of d rows, j is dropped and added to each later one of h; what is passed on is put behind the level, each row as `made` makes it. At
// n, r is h from column n on.
fn pass<F: Fn(Row) -> Row>(w: &mut [u64], d: usize, h: Row, j: usize, made: F)
    ghost f: { ℕ → ℕ }
    requires called { F.IsAlwaysCallable made }
    requires makes { (x : _) (y : _) → F.post made x y → val y ≡ f (val x) }
    ensures { rows_in_lem w.new ≡ over_from (counted d + counted d) (map (λ i. f (passed_at (val h) j (take (counted d) (rows_in_lem w.old)) i)) (below (counted d - 1))) (rows_in_lem w.old) }
{
    if WIDTH < d {
        return;
    }
    let m = blocks::row(w, j);
    let mut x = blocks::row(w, 0);
    let mut r = h;
    // by number: rows of one slice are read, and others put
    for n in 1..d {
        let i = n - 1;
        r = r.shift_down(1);
        let u = blocks::row(w, n);
        let v = passed(x, u, m, i < j, r.bit(0));
        blocks::put(w, d + d + i, made(v));
        x = u;
    }
}

// What a draw passes on of d members.
pub fn pass_members(basis: &mut [u64], d: usize, h: Row, j: usize)
    ensures { rows_in_lem basis.new ≡ members_passed (val h) j (counted d) (rows_in_lem basis.old) }
{
    pass(basis, d, h, j, |v| v);
}

// The same of their Gram rows, and of the columns of these.
pub fn pass_gram(gram: &mut [u64], d: usize, h: Row, j: usize)
    ensures { rows_in_lem gram.new ≡ gram_passed (val h) j (counted d) (rows_in_lem gram.old) }
{
    pass(gram, d, h, j, |v| shrunk(v, h, j));
}
