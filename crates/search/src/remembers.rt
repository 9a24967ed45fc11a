// What a search with a memory does to a space: its reduced basis is made, looked up and entered.
ghost use Rattle.std.specs.Prelude.{◌≡◌, List, ◌++◌, ℕ, ◌+◌, ◌≤◌, ◌<◌, length, take, drop};
ghost use Rattle.binar.specs.Rows.{width};
ghost use Rattle.blocks.specs.Words.{rows_in_lem};
ghost use Rattle.residue.specs.Residue.{form};
ghost use Rattle.triangular.specs.Spaces.{is_alternating_lem};
ghost use Rattle.triangular.specs.Memory.{Entry, entry_basis, holds};
ghost use Rattle.memory.specs.Entries.{entered, taken};
ghost use Rattle.memory.specs.inner.Kept.{Kept};
ghost use Rattle.spaces.specs.Levels.{gram_of};
ghost use Rattle.search.specs.inner.Asked.{Known};

use crate::Asked;
use binar::WIDTH;

// Behind the members, the members once more.
fn put_again(basis: &mut [u64], d: usize)
    requires { (d ≤ width) × (d + d ≤ length (rows_in_lem basis.old)) }
    ensures { (take d (rows_in_lem basis.new) ≡ take d (rows_in_lem basis.old)) × (take d (drop d (rows_in_lem basis.new)) ≡ take d (rows_in_lem basis.old)) }
{
    // by number: rows of one slice are read, and others put
    for i in 0..d {
        blocks::put(basis, d + i, blocks::row(basis, i));
    }
}

// Behind the members, their reduced basis. Of the Gram rows those behind them serve for the transform.
fn put_reduced(basis: &mut [u64], gram: &mut [u64], d: usize)
    requires { (d ≤ width) × (d + d ≤ length (rows_in_lem basis.old)) × (d + d ≤ length (rows_in_lem gram.old)) }
    ensures { (take d (rows_in_lem basis.new) ≡ take d (rows_in_lem basis.old)) × (take d (rows_in_lem gram.new) ≡ take d (rows_in_lem gram.old))
        × (take d (drop d (rows_in_lem basis.new)) ≡ entry_basis width (take d (rows_in_lem basis.old))) }
{
    put_again(basis, d);
    let mut pivots = [0; WIDTH];
    let b = blocks::start(&basis[..], d);
    let s = blocks::start(&gram[..], d);
    // as many rows are reduced as there is room for pivots
    reduction::row_reduce_with_transform(WIDTH, &mut basis[b..], &mut gram[s..], &mut pivots[..d]);
}

// Puts the reduced basis of a space behind its members, and asks whether the memory holds it, then whether it is alternating.
pub(crate) fn ask(
    basis: &mut [u64],
    gram: &mut [u64],
    memory: &[u64],
    d: usize,
    used: usize,
) -> Asked
    requires { (0 < d) × (d ≤ width) × (d + d ≤ length (rows_in_lem basis.old)) × (d + d ≤ length (rows_in_lem gram.old)) × (used ≤ length memory.now) }
    ensures { (take d (rows_in_lem basis.new) ≡ take d (rows_in_lem basis.old)) × (take d (rows_in_lem gram.new) ≡ take d (rows_in_lem gram.old))
        × (take d (drop d (rows_in_lem basis.new)) ≡ entry_basis width (take d (rows_in_lem basis.old)))
        × ((E : List ℕ) (M : List Entry) → gram_of E (take d (rows_in_lem basis.old)) ≡ take d (rows_in_lem gram.old) → Kept memory.now used M
        → Known result (holds d (entry_basis width (take d (rows_in_lem basis.old))) M) (is_alternating_lem (form E) (take d (rows_in_lem basis.old)))) }
{
    put_reduced(basis, gram, d);
    let b = blocks::start(&basis[..], d);
    let c = blocks::start(&basis[..], d + d);
    if memory::holds(&memory[..used], &basis[b..c]) {
        return Asked::Held;
    }
    if spaces::is_alternating(&gram[..], d) {
        return Asked::Alternating;
    }
    Asked::Open
}

// Enters a space that failed, by the reduced basis behind its members; answers how many words are then in use.
pub(crate) fn note(memory: &mut [u64], used: usize, basis: &[u64], d: usize) -> usize
    requires { (used ≤ length memory.old) × (d ≤ width) × (d + d ≤ length (rows_in_lem basis.now)) }
    ensures { (result ≡ used + taken (drop used memory.old)) × (memory.new ≡ take used memory.old ++ entered (take d (drop d (rows_in_lem basis.now))) (drop used memory.old)) }
{
    let b = blocks::start(basis, d);
    let c = blocks::start(basis, d + d);
    used + memory::enter(&mut memory[used..], &basis[b..c])
}
