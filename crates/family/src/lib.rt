// The bordered family of a core: members peeled while one is picked, then the simplex on the alternating rest.
// In the source: transvection_exact.rs, `bordered_family`, `symplectic_simplex`.
#![tactic(auto)]

ghost use Rattle.std.specs.Prelude.{◌≡◌, true, false, List, ℕ, ◌+◌, ◌-◌, ◌≤◌, ◌<◌, length, get_or, set, take, drop, MatchOption};
ghost use Rattle.binar.specs.Bits.{select, ◌⊕◌, dot};
ghost use Rattle.binar.specs.Rows.{width, val};
ghost use Rattle.blocks.specs.Matrices.{matmul, units};
ghost use Rattle.blocks.specs.Words.{rows_in_lem, over};
ghost use Rattle.symplectic.specs.Picks.{map_some, first_one_lem, uneven_with_lem, first_uneven_lem, pick as pick_of};
ghost use Rattle.residue.specs.Residue.{form};
ghost use Rattle.triangular.specs.Spaces.{complement};
ghost use Rattle.triangular.specs.Readings.{core_in};
ghost use Rattle.family.specs.Family.{symplectic_simplex_lem, bordered_family_lem, core_family, vectors, vectors_of};
ghost use Rattle.family.specs.inner.Parts.{if_made, beside_row, picked_of, members, Fits, others_of, pair_rest_lem, behind};

use binar::{Row, WIDTH};
use space::Space;
use symplectic::MOST_VECTORS;

mod space;

// A vector of a space beside its form row.
#[derive(Clone, Copy)]
struct Picked {
    member: Row,
    row: Row,
}

// Where the n-th member that is neither the first nor the j-th stands.
fn index_past_pair(n: usize, j: usize) -> usize
    requires { n + 2 < width }
    ensures { (n < result) × (result ≤ n + 2) × ((B : List ℕ) → 1 ≤ j → j < length B → get_or (others_of j B) n 0 ≡ get_or B result 0) }
{
    let i = n + 1;
    if i < j { i } else { i + 1 }
}

// y, and f and p with it where their bits are set.
fn cleared_of_pair(y: Row, f: Row, a: bool, p: Row, b: bool) -> Row
    ensures { val result ≡ val y ⊕ select 0 a (val f) ⊕ select 0 b (val p) }
{
    y.added(f, a).added(p, b)
}

// Puts the vectors p and f + p at n and behind it, each with s added.
fn put_pair(list: &mut [u64], n: usize, f: Row, p: Row, s: Row)
    requires { n < width }
    ensures { rows_in_lem list.new ≡ set (set (rows_in_lem list.old) n (val p ⊕ val s)) (n + 1) ((val f ⊕ val p) ⊕ val s) }
{
    blocks::put(list, n, p ^ s);
    blocks::put(list, n + 1, f ^ p ^ s);
}

impl Space {
    // Member i beside its form row.
    fn at(&self, i: usize) -> Picked
        ensures { (val result.member ≡ get_or (rows_in_lem self.now.basis) i 0) × (val result.row ≡ get_or (rows_in_lem self.now.forms) i 0) }
    {
        Picked {
            member: blocks::row(&self.basis, i),
            row: blocks::row(&self.forms, i),
        }
    }

    // The first member with form one with itself.
    fn first_one(&self) -> Option<Picked>
        ensures { (E : List ℕ) → Fits E self.now → picked_of result ≡ map_some (beside_row E) (first_one_lem ◌⊕◌ (form E) (members self.now)) }
    {
        for i in 0..self.d {
            let p = self.at(i);
            if p.row.dot(p.member) {
                return Some(p);
            }
        }
        None
    }

    // The sum of member i and the first behind it for which the two forms differ.
    fn uneven_with(&self, i: usize) -> Option<Picked>
        requires { i < self.now.d }
        ensures { (E : List ℕ) → Fits E self.now
            → picked_of result ≡ map_some (beside_row E) (uneven_with_lem ◌⊕◌ (form E) (get_or (members self.now) i 0) (drop (i + 1) (members self.now))) }
    {
        let b = self.at(i);
        for j in i + 1..self.d {
            let y = self.at(j);
            if b.row.dot(y.member) != y.row.dot(b.member) {
                let member = b.member ^ y.member;
                let row = b.row ^ y.row;
                return Some(Picked { member, row });
            }
        }
        None
    }

    // The sum of the first two members whose forms differ.
    fn first_uneven(&self) -> Option<Picked>
        ensures { (E : List ℕ) → Fits E self.now → picked_of result ≡ map_some (beside_row E) (first_uneven_lem ◌⊕◌ (form E) (members self.now)) }
    {
        for i in 0..self.d {
            if let Some(p) = self.uneven_with(i) {
                return Some(p);
            }
        }
        None
    }

    // The first member with form one with itself, else the sum of the first two members whose forms differ.
    fn pick(&self) -> Option<Picked>
        ensures { (E : List ℕ) → Fits E self.now → picked_of result ≡ map_some (beside_row E) (pick_of ◌⊕◌ (form E) (members self.now)) }
    {
        self.first_one().or_else(|| self.first_uneven())
    }

    // The first member from n on that f has a dot with.
    fn first_dot(&self, n: usize, f: Row) -> Option<usize>
        ensures { MatchOption result ((i : ℕ) → n ≤ i → i < self.now.d → dot (val f) (get_or (rows_in_lem self.now.basis) i 0) ≡ false)
            (λ j. (n ≤ j) × (j < self.now.d) × (dot (val f) (get_or (rows_in_lem self.now.basis) j 0) ≡ true)
            × ((i : ℕ) → n ≤ i → i < j → dot (val f) (get_or (rows_in_lem self.now.basis) i 0) ≡ false)) }
    {
        (n..self.d).find(|i| f.dot(blocks::row(&self.basis, *i)))
    }

    // Puts a vector and its form row at n.
    fn put(&mut self, n: usize, v: Picked)
        ensures { (rows_in_lem self.new.basis ≡ set (rows_in_lem self.old.basis) n (val v.member))
            × (rows_in_lem self.new.forms ≡ set (rows_in_lem self.old.forms) n (val v.row)) × (self.new.d ≡ self.old.d) }
    {
        blocks::put(&mut self.basis, n, v.member);
        blocks::put(&mut self.forms, n, v.row);
    }

    // Puts the unit rows, d of them, and beside them the rows of the core, which are their form rows.
    fn put_whole(&mut self, core: &[u64])
        requires { self.old.d ≤ length (rows_in_lem core.now) }
        ensures { (self.new.d ≡ self.old.d) × (members self.new ≡ units self.old.d) × (take self.old.d (rows_in_lem self.new.forms) ≡ take self.old.d (rows_in_lem core.now)) }
    {
        blocks::put_units(self.d, &mut self.basis);
        matrices::put_front(self.d, core, &mut self.forms);
    }

    // Member j, the first that f has a dot with, is dropped and added to each later one that f has a dot with. Those behind it move up by one.
    fn drop_member(&mut self, f: Row, j: usize)
        requires { (j < self.old.d) × ((i : ℕ) → i < j → dot (val f) (get_or (rows_in_lem self.old.basis) i 0) ≡ false)
            × (dot (val f) (get_or (rows_in_lem self.old.basis) j 0) ≡ true) }
        ensures { (self.new.d ≡ self.old.d - 1) × (members self.new ≡ complement (dot (val f)) (members self.old)) × ((E : List ℕ) → Fits E self.old → Fits E self.new) }
    {
        let m = self.at(j);
        let last = self.d - 1;
        // by number: rows of one slice are read, and others put
        for n in j..last {
            let y = self.at(n + 1);
            let hit = f.dot(y.member);
            let member = y.member.added(m.member, hit);
            let row = y.row.added(m.row, hit);
            self.put(n, Picked { member, row });
        }
        self.d = last;
    }

    // Puts member i, cleared of the pair f and p, at n, and its form row with it.
    fn put_cleared(&mut self, n: usize, i: usize, f: Picked, p: Picked)
        ensures { (rows_in_lem self.new.basis ≡ set (rows_in_lem self.old.basis) n (get_or (rows_in_lem self.old.basis) i 0
            ⊕ select 0 (dot (val p.row) (get_or (rows_in_lem self.old.basis) i 0)) (val f.member) ⊕ select 0 (dot (val f.row) (get_or (rows_in_lem self.old.basis) i 0)) (val p.member)))
            × (rows_in_lem self.new.forms ≡ set (rows_in_lem self.old.forms) n (get_or (rows_in_lem self.old.forms) i 0
            ⊕ select 0 (dot (val p.row) (get_or (rows_in_lem self.old.basis) i 0)) (val f.row) ⊕ select 0 (dot (val f.row) (get_or (rows_in_lem self.old.basis) i 0)) (val p.row)))
            × (self.new.d ≡ self.old.d) }
    {
        let y = self.at(i);
        let a = p.row.dot(y.member);
        let b = f.row.dot(y.member);
        let member = cleared_of_pair(y.member, f.member, a, p.member, b);
        let row = cleared_of_pair(y.row, f.row, a, p.row, b);
        self.put(n, Picked { member, row });
    }

    // The members that are neither the first nor its partner j are cleared of these two, and move to the start.
    fn pair_rest(&mut self, j: usize)
        requires { (1 ≤ j) × (j < self.old.d) }
        ensures { (self.new.d ≡ self.old.d - 2) × ((E : List ℕ) → Fits E self.old
            → (members self.new ≡ pair_rest_lem (form E) j (members self.old)) × Fits E self.new) }
    {
        let f = self.at(0);
        let p = self.at(j);
        let k = self.d - 2;
        // by number: rows of one slice are read, and others put
        for n in 0..k {
            let i = index_past_pair(n, j);
            self.put_cleared(n, i, f, p);
        }
        self.d = k;
    }

    // Puts the simplex of the space behind the first rows of a list, pair by pair; s, the sum of the first members so far, is added to each vector.
    // None where a member has no partner.
    fn symplectic_simplex(&mut self, list: &mut [u64], front: usize) -> Option<()>
        requires { (front + self.old.d ≤ width) × (front + self.old.d < length (rows_in_lem list.old)) }
        ensures { (E : List ℕ) → Fits E self.old → if_made result (take (front + self.old.d + 1) (rows_in_lem list.new))
            ≡ map_some (behind (take front (rows_in_lem list.old))) (symplectic_simplex_lem (form E) self.old.d (members self.old)) }
    {
        let mut n = front;
        let mut s = Row::zero();
        while 0 < self.d {
            let f = self.at(0);
            let j = self.first_dot(1, f.row)?;
            let p = self.at(j);
            put_pair(list, n, f.member, p.member, s);
            s = f.member ^ s;
            self.pair_rest(j);
            n += 2;
        }
        blocks::put(list, n, s);
        Some(())
    }

    // Peels while a vector is picked and a member is dropped for it. The vectors peeled are put into a list, and the simplex of the rest behind them.
    // None where there is no member to drop, or no simplex.
    fn peel(&mut self, list: &mut [u64]) -> Option<()>
        requires { self.old.d < length (rows_in_lem list.old) }
        ensures { (E : List ℕ) → Fits E self.old → if_made result (take (self.old.d + 1) (rows_in_lem list.new))
            ≡ map_some vectors (bordered_family_lem (form E) self.old.d (members self.old)) }
    {
        let mut peeled: usize = 0;
        while let Some(p) = self.pick() {
            let j = self.first_dot(0, p.row)?;
            self.drop_member(p.row, j);
            blocks::put(list, peeled, p.member);
            peeled += 1;
        }
        self.symplectic_simplex(list, peeled)
    }
}

// Puts the vectors of a core's family over a lent list, which stays as it was where there is none. Of a longer core the first WIDTH rows are taken.
pub fn bordered_family(core: &[u64], list: &mut [u64])
    ensures { rows_in_lem list.new ≡ over (vectors_of (core_family (core_in core.now))) (rows_in_lem list.old) }
{
    let d = WIDTH.min(blocks::rows_in(core));
    let mut space = Space {
        basis: [0u64; WIDTH],
        forms: [0u64; WIDTH],
        d,
    };
    let mut vectors = [0u64; MOST_VECTORS];
    space.put_whole(core);
    if space.peel(&mut vectors).is_some() {
        matrices::put_front(d + 1, &vectors, list);
    }
}
