// The search for a basis that makes the core triangular, draw by draw under a budget, with a memory of spaces that failed.
// In the source: transvection_exact.rs, `triangularize_subspace`, `congruence_triangularize`.
// A space stands in two lent slices: the members of its basis, and its Gram matrix, in row i the forms of member i with each member. In
// dimension d these are d rows of each; d more are for the sums of the first Gram rows, and behind the members for their reduced basis,
// then, where the space has a good basis, for the draw by its coefficients. Behind them stands, in the same way, the space that the draw
// passes on.
#![tactic(auto)]

mod levels; // levels.rt: the first space, and the draws that are kept
mod remembers; // remembers.rt: a space looked up and entered, by its reduced basis
mod words; // words.rt: a search in words of its own

ghost use Rattle.std.specs.Prelude.{◌≡◌, true, List, [], ℕ, ◌+◌, ◌-◌, ◌^◌, ◌≤◌, ◌<◌, length, take, drop};
ghost use Rattle.binar.specs.Bits.{dot};
ghost use Rattle.binar.specs.Rows.{val, width};
ghost use Rattle.blocks.specs.Matrices.{times};
ghost use Rattle.blocks.specs.Words.{rows_in_lem, over};
ghost use Rattle.residue.specs.Residue.{form};
ghost use Rattle.triangular.specs.declared.Ending.TheVariants.{Failed};
ghost use Rattle.triangular.specs.Spaces.{complement};
ghost use Rattle.triangular.specs.Search.{budgeted};
ghost use Rattle.triangular.specs.Memory.{Entry, draws_with, search_with, searched_core, known_within};
ghost use Rattle.triangular.specs.Readings.{core_in, verdict_of, basis_found};
ghost use Rattle.memory.specs.Entries.{memory_words, room_in};
ghost use Rattle.search.specs.inner.Levels.{levels, found_in};
ghost use Rattle.search.specs.inner.Reports.{Space, Carries, Grew, Reports};

use binar::{Row, WIDTH};
use memory::ENTRY;
use triangular::Ending;

// How a search ended, and how many draws have been taken by then.
#[derive(Clone, Copy, Debug, PartialEq, Eq)]
pub struct Ended {
    pub ending: Ending,
    pub looks: u64,
}

// The same, and how many words of the memory are in use.
#[derive(Clone, Copy, Debug, PartialEq, Eq)]
struct Step {
    ending: Ending,
    looks: u64,
    used: usize,
}

// What is known of a space before its first draw.
#[derive(Clone, Copy, Debug, PartialEq, Eq)]
enum Asked {
    Held,
    Alternating,
    Open,
}

// The search of what a draw passes on: g, the Gram rows of the draw, says which members it has form one with. Where no memory is lent,
// its members are passed on only if it is not alternating, which its Gram rows tell.
#[cycle(try_draw_try_draws_try_space)]
fn try_draw(
    basis: &mut [u64],
    gram: &mut [u64],
    memory: &mut [u64],
    d: usize,
    g: Row,
    used: usize,
    looks: u64,
    budget: u64,
) -> Step
    requires { (0 < d) × (d ≤ width) × (levels d ≤ length (rows_in_lem basis.old)) × (levels d ≤ length (rows_in_lem gram.old)) × (looks ≤ budget) × (used ≤ length memory.old) }
    ensures { (result.looks ≤ budget) × Grew memory.old used memory.new result.used
        × (take (d + d) (rows_in_lem basis.new) ≡ take (d + d) (rows_in_lem basis.old)) × (take (d + d) (rows_in_lem gram.new) ≡ take (d + d) (rows_in_lem gram.old))
        × ((E : List ℕ) (M : List Entry) (c : ℕ) → Space E d (rows_in_lem basis.old) (rows_in_lem gram.old) → Carries looks memory.old used M
        → val g ≡ times c (take d (rows_in_lem gram.old)) → dot c (val g) ≡ true
        → Reports budget (search_with (form E) width (room_in memory.old) (d - 1) (complement (form E (times c (take d (rows_in_lem basis.old)))) (take d (rows_in_lem basis.old))) looks M)
        result.ending result.looks (found_in (d - 1) (drop (d + d) (rows_in_lem basis.new))) memory.new result.used) }
{
    if d == 1 {
        return Step {
            ending: Ending::Found,
            looks,
            used,
        };
    }
    let j = g.lowest();
    spaces::pass_gram(gram, d, g, j);
    let s = blocks::start(&gram[..], d + d);
    let b = blocks::start(&basis[..], d + d);
    if ENTRY <= memory.len() {
        spaces::pass_members(basis, d, g, j);
        return try_space(
            &mut basis[b..],
            &mut gram[s..],
            memory,
            d - 1,
            used,
            looks,
            budget,
        );
    }
    if spaces::is_alternating(&gram[s..], d - 1) {
        return Step {
            ending: Ending::Failed,
            looks,
            used,
        };
    }
    spaces::pass_members(basis, d, g, j);
    try_draws(
        &mut basis[b..],
        &mut gram[s..],
        memory,
        d - 1,
        used,
        looks,
        budget,
    )
}

// The search of a space, with a memory.
#[cycle(try_draw_try_draws_try_space)]
fn try_space(
    basis: &mut [u64],
    gram: &mut [u64],
    memory: &mut [u64],
    d: usize,
    used: usize,
    looks: u64,
    budget: u64,
) -> Step
    requires { (0 < d) × (d ≤ width) × (levels d ≤ length (rows_in_lem basis.old)) × (levels d ≤ length (rows_in_lem gram.old)) × (looks ≤ budget) × (used ≤ length memory.old) }
    ensures { (result.looks ≤ budget) × Grew memory.old used memory.new result.used
        × ((E : List ℕ) (M : List Entry) → Space E d (rows_in_lem basis.old) (rows_in_lem gram.old) → Carries looks memory.old used M
        → Reports budget (search_with (form E) width (room_in memory.old) d (take d (rows_in_lem basis.old)) looks M)
        result.ending result.looks (found_in d (rows_in_lem basis.new)) memory.new result.used) }
{
    match remembers::ask(basis, gram, &memory[..], d, used) {
        Asked::Held => {
            return Step {
                ending: Ending::Failed,
                looks,
                used,
            };
        }
        Asked::Alternating => {
            return Step {
                ending: Ending::Failed,
                looks,
                used: remembers::note(memory, used, &basis[..], d),
            };
        }
        Asked::Open => {}
    }
    let o = try_draws(basis, gram, memory, d, used, looks, budget);
    if o.ending != Ending::Failed {
        return o;
    }
    Step {
        used: remembers::note(memory, o.used, &basis[..], d),
        ..o
    }
}

// The draws of a space: its vectors in the order of their coefficients c, the Gram rows of each from those of the one before it.
#[cycle(try_draw_try_draws_try_space)]
fn try_draws(
    basis: &mut [u64],
    gram: &mut [u64],
    memory: &mut [u64],
    d: usize,
    used: usize,
    looks: u64,
    budget: u64,
) -> Step
    requires { (0 < d) × (d ≤ width) × (levels d ≤ length (rows_in_lem basis.old)) × (levels d ≤ length (rows_in_lem gram.old)) × (looks ≤ budget) × (used ≤ length memory.old) }
    ensures { (result.looks ≤ budget) × Grew memory.old used memory.new result.used
        × (result.ending ≡ Failed → take (d + d) (rows_in_lem basis.new) ≡ take (d + d) (rows_in_lem basis.old))
        × ((E : List ℕ) (M : List Entry) → Space E d (rows_in_lem basis.old) (rows_in_lem gram.old) → Carries looks memory.old used M
        → Reports budget (draws_with (form E) width (room_in memory.old) (search_with (form E) width (room_in memory.old) (d - 1)) (take d (rows_in_lem basis.old)) (2 ^ d - 1) 1 looks M)
        result.ending result.looks (found_in d (rows_in_lem basis.new)) memory.new result.used) }
{
    spaces::sums(gram, d);
    let last = Row::low_ones(d);
    let mut c = Row::zero();
    let mut g = c;
    let mut spent = looks;
    let mut kept = used;
    while c < last {
        c = c.next();
        if spent == budget {
            return Step {
                ending: Ending::Spent,
                looks: spent,
                used: kept,
            };
        }
        spent += 1;
        g ^= blocks::row(gram, d + c.lowest());
        if c.dot(g) {
            let o = try_draw(basis, gram, memory, d, g, kept, spent, budget);
            match o.ending {
                Ending::Failed => {
                    spent = o.looks;
                    kept = o.used;
                }
                Ending::Found => {
                    blocks::put(basis, d, c);
                    return o;
                }
                Ending::Spent => {
                    return o;
                }
            }
        }
    }
    Step {
        ending: Ending::Failed,
        looks: spent,
        used: kept,
    }
}

// The search of all rows. Where no memory is lent, nothing is looked up.
fn try_all(basis: &mut [u64], gram: &mut [u64], memory: &mut [u64], k: usize, budget: u64) -> Step
    requires { (0 < k) × (k ≤ width) × (levels k ≤ length (rows_in_lem basis.old)) × (levels k ≤ length (rows_in_lem gram.old)) }
    ensures { Grew memory.old 0 memory.new result.used
        × ((E : List ℕ) → Space E k (rows_in_lem basis.old) (rows_in_lem gram.old)
        → Reports budget (search_with (form E) width (room_in memory.old) k (take k (rows_in_lem basis.old)) 0 [])
        result.ending result.looks (found_in k (rows_in_lem basis.new)) memory.new result.used) }
{
    if ENTRY <= memory.len() {
        return try_space(basis, gram, memory, k, 0, 0, budget);
    }
    if spaces::is_alternating(&gram[..], k) {
        return Step {
            ending: Ending::Failed,
            looks: 0,
            used: 0,
        };
    }
    try_draws(basis, gram, memory, k, 0, 0, budget)
}

// The search from there, in lent words; a basis that it finds is put over a lent list.
fn searched(
    basis: &mut [u64],
    gram: &mut [u64],
    core: &[u64],
    k: usize,
    budget: u64,
    memory: &mut [u64],
    list: &mut [u64],
) -> Ended
    requires { (k ≤ width) × (k ≡ length (core_in core.now)) × (levels k ≤ length (rows_in_lem basis.old)) × (levels k ≤ length (rows_in_lem gram.old)) }
    ensures answered { let v = budgeted budget (searched_core (core_in core.now) (room_in memory.old)).outcome in verdict_of result.ending result.looks (basis_found v) ≡ v }
    ensures left { rows_in_lem list.new ≡ over (basis_found (budgeted budget (searched_core (core_in core.now) (room_in memory.old)).outcome)) (rows_in_lem list.old) }
    ensures remembered { memory.new ≡ over (memory_words (known_within budget (searched_core (core_in core.now) (room_in memory.old)).memory)) memory.old }
{
    levels::begin(basis, gram, core, k);
    if k == 0 {
        return Ended {
            ending: Ending::Found,
            looks: 0,
        };
    }
    let o = try_all(basis, gram, memory, k, budget);
    if o.ending == Ending::Found {
        levels::collected(&basis[..], k, list);
    }
    Ended {
        ending: o.ending,
        looks: o.looks,
    }
}

// Looks for a basis that makes the core triangular, and puts what it finds over a lent list and the spaces that failed over a lent
// memory. Rows of the core past the columns of a row are left out.
pub fn congruence_triangularize(
    core: &[u64],
    budget: u64,
    memory: &mut [u64],
    list: &mut [u64],
) -> Ended
    ensures answered { let v = budgeted budget (searched_core (core_in core.now) (room_in memory.old)).outcome in verdict_of result.ending result.looks (basis_found v) ≡ v }
    ensures left { rows_in_lem list.new ≡ over (basis_found (budgeted budget (searched_core (core_in core.now) (room_in memory.old)).outcome)) (rows_in_lem list.old) }
    ensures remembered { memory.new ≡ over (memory_words (known_within budget (searched_core (core_in core.now) (room_in memory.old)).memory)) memory.old }
{
    let k = WIDTH.min(blocks::rows_in(core));
    if k <= 8 {
        return words::searched_in::<72>(core, k, budget, memory, list);
    }
    if k <= 16 {
        return words::searched_in::<272>(core, k, budget, memory, list);
    }
    if k <= 32 {
        return words::searched_in::<1056>(core, k, budget, memory, list);
    }
    words::searched_in::<4160>(core, k, budget, memory, list)
}
