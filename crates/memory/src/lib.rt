// A memory of spaces that failed, in lent words: whole entries, one behind the other.
// In document 02: item 6.
#![tactic(auto)]

ghost use Rattle.std.specs.Prelude.{◌≡◌, ◌/◌, length, take, replicate};
ghost use Rattle.binar.specs.Rows.{width};
ghost use Rattle.blocks.specs.Words.{laid, rows_in_lem};
ghost use Rattle.symplectic.specs.Matches.{same_rows};
ghost use Rattle.memory.specs.Entries.{room_in, held_in, entered, taken};

use binar::WIDTH;

// How many words an entry takes: its dimension, then as many rows as a row has columns.
pub const ENTRY: usize = 65;

// Whether the first rows of some words are those of a lent reduced basis. A look at a memory is mostly this.
fn begins(w: &[u64], basis: &[u64]) -> bool
    ensures { result ≡ same_rows (take (length (rows_in_lem basis.now)) (rows_in_lem w.now)) (rows_in_lem basis.now) }
{
    let d = blocks::rows_in(basis);
    d <= blocks::rows_in(w) && (0..d).all(|i| blocks::row(w, i) == blocks::row(basis, i))
}

// Whether one of the entries in lent words is the space with this reduced basis. Dimensions are compared first.
pub fn holds(memory: &[u64], basis: &[u64]) -> bool
    ensures { result ≡ held_in (room_in memory.now) (rows_in_lem basis.now) memory.now }
{
    let d = blocks::rows_in(basis) as u64;
    for entry in memory.chunks_exact(ENTRY) {
        if entry[0] == d && begins(&entry[1..], basis) {
            return true;
        }
    }
    false
}

// Lays the rows of a reduced basis into words, the rest zero.
fn lay(w: &mut [u64], basis: &[u64])
    ensures { w.new ≡ laid (width / 2) (rows_in_lem basis.now) (replicate (length w.old) 0) }
{
    w.fill(0);
    matrices::lay((WIDTH / 2) as u64, basis, w)
}

// Enters the space with this reduced basis at the start of lent words, if there is room for a whole entry; answers how many words it takes.
#[tactic(auto, using(crate::proofs::Kept::taken_none, crate::proofs::Kept::taken_some, crate::proofs::Kept::entered_none))]
pub fn enter(memory: &mut [u64], basis: &[u64]) -> usize
    ensures answered { result ≡ taken memory.old }
    ensures left { memory.new ≡ entered (rows_in_lem basis.now) memory.old }
{
    if memory.len() < ENTRY {
        return 0;
    }
    memory[0] = blocks::rows_in(basis) as u64;
    lay(&mut memory[1..ENTRY], basis);
    ENTRY
}
