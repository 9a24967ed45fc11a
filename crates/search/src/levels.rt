// The levels of a search in lent rows: the first space, and the draws that are kept.
ghost use Rattle.std.specs.Prelude.{◌≡◌, ◌+◌, ◌≤◌, length, get_or, take, drop};
ghost use Rattle.binar.specs.Rows.{val, width};
ghost use Rattle.blocks.specs.Matrices.{times, units};
ghost use Rattle.blocks.specs.Words.{rows_in_lem, over};
ghost use Rattle.triangular.specs.Readings.{core_in};
ghost use Rattle.spaces.specs.Levels.{gram_of};
ghost use Rattle.search.specs.inner.Levels.{levels, found_in};

use binar::Row;

// The draw that the level of dimension d from row `at` on keeps.
fn draw_at(basis: &[u64], at: usize, d: usize) -> Row
    requires { at + d ≤ length (rows_in_lem basis.now) }
    ensures { val result ≡ times (get_or (drop at (rows_in_lem basis.now)) d 0) (take d (drop at (rows_in_lem basis.now))) }
{
    let from = blocks::start(basis, at);
    let to = blocks::start(basis, at + d);
    matrices::times(blocks::row(basis, at + d), &basis[from..to])
}

// The draws that a search has kept, one of each level, put over a lent list.
pub(crate) fn collected(basis: &[u64], k: usize, list: &mut [u64])
    requires { (k ≤ width) × (levels k ≤ length (rows_in_lem basis.now)) }
    ensures { rows_in_lem list.new ≡ over (found_in k (rows_in_lem basis.now)) (rows_in_lem list.old) }
{
    let n = k.min(blocks::rows_in(&list[..]));
    let mut at: usize = 0;
    // by number: rows are put in lent words
    for i in 0..n {
        let d = k - i;
        blocks::put(list, i, draw_at(basis, at, d));
        at = at + d + d;
    }
}

// The space of all rows with k columns: the unit rows, and for their Gram matrix the core.
pub(crate) fn begin(basis: &mut [u64], gram: &mut [u64], core: &[u64], k: usize)
    requires { (k ≤ width) × (k ≡ length (core_in core.now)) × (levels k ≤ length (rows_in_lem basis.old)) × (levels k ≤ length (rows_in_lem gram.old)) }
    ensures { (take k (rows_in_lem basis.new) ≡ units k) × (gram_of (core_in core.now) (units k) ≡ take k (rows_in_lem gram.new)) }
{
    blocks::put_units(k, basis);
    // by number: rows are put in lent words
    for i in 0..k {
        blocks::put(gram, i, blocks::row(core, i).low(k));
    }
}
