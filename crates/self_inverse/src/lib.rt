// Self-inverse layers: a list of commuting turns, as short as any, without a search.
// Not in the source.
// The residue of such an action is a symmetric matrix M. A list of commuting turns plays the action where the vectors v, each as a column
// times itself as a row, add up to M. So rows are peeled off M while its diagonal has a one; what is left alternates, and pairs of rows
// are peeled off, for which the last vector makes way for three.
#![tactic(auto)]

ghost use Rattle.std.specs.Prelude.{◌≡◌, List, [], ◌∷◌, ◌++◌, true, ℕ, suc, ◌+◌, ◌^◌, ◌≤◌, ◌<◌, eqb, length, take};
ghost use Rattle.binar.specs.Rows.{val, width};
ghost use Rattle.blocks.specs.Matrices.{times, All};
ghost use Rattle.blocks.specs.Words.{rows_in_lem};
ghost use Rattle.std.specs.List.{list_all};
ghost use Rattle.symplectic.specs.Sizes.{most_vectors};
ghost use Rattle.actions.specs.Actions.{qubits, matrix};
ghost use Rattle.questions.specs.Replies.{Replays, Shortest};
ghost use Rattle.reduction.specs.Columns.{rank};
ghost use Rattle.residue.specs.Residue.{residue as residue_of};
ghost use Rattle.self_inverse.specs.SelfInverse.{is_self_inverse, self_inverse_reply};
ghost use Rattle.self_inverse.specs.Answers.{self_inverse_number, figures_of_lem};
ghost use Rattle.questions.specs.declared.ListingError.TheVariants.{Action};
ghost use Rattle.self_inverse.specs.declared.SelfInverseError.TheVariants.{Listing};
ghost use Rattle.self_inverse.specs.Promises.{chosen, Commuting, Counted, Seventeen};
ghost use Rattle.self_inverse.specs.inner.Peels.{plus_outer, three, with_pair, SymmetricSquare, Peelable, Level, OnDiagonal, Split, Sums, Grown, Paired, Decomposed};

use actions::Action;
use binar::Row;
use questions::{ActionError, ListingError, Refusal};
use std::marker::Model;
use symplectic::{MOST_ROWS, MOST_VECTORS};

// Why the call lists no vectors: what a call that lists without a search says, or that the action is not its own inverse.
#[derive(Clone, Copy, Debug, PartialEq, Eq, Hash)]
pub enum SelfInverseError {
    Listing(ListingError),
    NotSelfInverse,
}

impl From<ListingError> for SelfInverseError {
    ghost from_gives = { λ e s. s ≡ Listing e };

    fn from(listing: ListingError) -> SelfInverseError {
        SelfInverseError::Listing(listing)
    }
}

impl From<ActionError> for SelfInverseError {
    ghost from_gives = { λ e s. s ≡ Listing (Action e) };

    fn from(asked: ActionError) -> SelfInverseError {
        SelfInverseError::Listing(ListingError::Action(asked))
    }
}

impl Refusal for SelfInverseError {
    ghost number = { self_inverse_number };

    fn number(self) -> u64 {
        match self {
            SelfInverseError::Listing(e) => e.number(),
            SelfInverseError::NotSelfInverse => 17,
        }
    }
}

// A list of vectors: no more than one that is as short as any has.
#[derive(Drop)]
struct Vectors {
    words: [u64; MOST_VECTORS],
    count: usize,
}

// Contracts see its vectors.
impl Model for Vectors {
    ghost Value = { List ℕ };

    ghost view = { λ l. take l.count (rows_in_lem l.words) };

    ghost invariant = { λ l. (l.count ≤ most_vectors) × (most_vectors ≤ length (rows_in_lem l.words)) };
}

impl Vectors {
    fn new() -> Vectors
        ensures { result ≡ [] }
    {
        Vectors {
            words: [0; MOST_VECTORS],
            count: 0,
        }
    }

    fn len(&self) -> usize
        ensures { result ≡ length self.now }
    {
        self.count
    }

    fn as_slice(&self) -> &[u64]
        ensures { rows_in_lem result.now ≡ self.now }
    {
        &self.words[..blocks::start(&self.words, self.count)]
    }

    fn push(&mut self, v: Row)
        requires { length self.old < most_vectors }
        ensures { self.new ≡ self.old ++ (val v ∷ []) }
    {
        blocks::put(&mut self.words, self.count, v);
        self.count += 1;
    }

    // Puts p + f, p + s and p + f + s behind the vectors.
    fn put_three(&mut self, p: Row, f: Row, s: Row)
        requires { length self.old + 3 ≤ most_vectors }
        ensures { self.new ≡ self.old ++ three (val f) (val s) (val p) }
    {
        let pf = p ^ f;
        self.push(pf);
        self.push(p ^ s);
        self.push(pf ^ s);
    }

    // Puts three vectors in the place of the last one; where there is none, in that of the zero vector.
    fn put_pair(&mut self, f: Row, s: Row)
        requires { length (with_pair (val f) (val s) self.old) ≤ most_vectors }
        ensures { self.new ≡ with_pair (val f) (val s) self.old }
    {
        if self.count == 0 {
            return self.put_three(Row::zero(), f, s);
        }
        self.count -= 1;
        let p = blocks::row(&self.words, self.count);
        self.put_three(p, f, s);
    }
}

// Whether each row times all of them is zero.
fn squares_to_zero(rows: &[u64]) -> bool
    ensures { result ≡ list_all (λ v. eqb (times v (rows_in_lem rows.now)) 0) (rows_in_lem rows.now) }
{
    (0..blocks::rows_in(rows)).all(|i| matrices::times(blocks::row(rows, i), rows).is_zero())
}

// Whether F times F is the identity: whether I + F times itself is zero.
fn is_self_inverse(a: Action) -> bool
    requires { All (λ f. f < 2 ^ (qubits a + qubits a)) (matrix a) }
    ensures { result ≡ is_self_inverse (qubits a) (matrix a) }
{
    let mut rows = [0u64; MOST_ROWS];
    let n = symplectic::capped(a.n);
    let to = blocks::start(&rows, n + n);
    residue::put_identity_plus(a, &mut rows[..to]);
    squares_to_zero(&rows[..to])
}

// Adds v to each row whose column in u is one: u as a column times v as a row is added to the matrix.
fn add_outer(u: Row, v: Row, rows: &mut [u64])
    ensures { rows_in_lem rows.new ≡ plus_outer (val u) (val v) (rows_in_lem rows.old) }
{
    let m = blocks::rows_in(rows);
    // by number: rows are put in lent words
    for i in 0..m {
        let w = blocks::row(rows, i);
        blocks::put(rows, i, w.added(v, u.bit(i)));
    }
}

// The ones on the diagonal.
fn diagonal(rows: &[u64]) -> Row
    requires { length (rows_in_lem rows.now) ≤ width }
    ensures { OnDiagonal (rows_in_lem rows.now) (val result) }
{
    let m = blocks::rows_in(rows);
    let mut d = Row::zero();
    // by number: column i is for row i
    for i in 0..m {
        d = d.added(Row::unit(i), blocks::row(rows, i).bit(i));
    }
    d
}

// Peels rows off a symmetric matrix into an empty list while its diagonal has a one. Each changes the diagonal by itself.
fn peel(rows: &mut [u64], list: &mut Vectors)
    requires { Peelable (rows_in_lem rows.old) × (list.old ≡ []) }
    ensures square { length (rows_in_lem rows.new) ≡ length (rows_in_lem rows.old) }
    ensures left { SymmetricSquare (rows_in_lem rows.new) × Level (rows_in_lem rows.new) }
    ensures split { Split (rows_in_lem rows.old) list.new (rows_in_lem rows.new) }
    ensures short { length list.new + rank (length (rows_in_lem rows.old)) (rows_in_lem rows.new)
        ≤ rank (length (rows_in_lem rows.old)) (rows_in_lem rows.old) }
{
    let mut d = diagonal(rows);
    while !d.is_zero() {
        let v = blocks::row(rows, d.lowest());
        list.push(v);
        add_outer(v, v, rows);
        d ^= v;
    }
}

// Where row i of a symmetric matrix with zeros on its diagonal is not zero, peels it off with the row of its first one, and puts the pair
// into a list.
fn peel_pair(rows: &mut [u64], list: &mut Vectors, i: usize)
    requires { Peelable (rows_in_lem rows.old) × Level (rows_in_lem rows.old)
        × (length list.old + rank (length (rows_in_lem rows.old)) (rows_in_lem rows.old) ≤ suc (length (rows_in_lem rows.old))) }
    ensures { Paired i (rows_in_lem rows.old) (rows_in_lem rows.new) list.old list.new }
{
    let f = blocks::row(rows, i);
    if f.is_zero() {
        return;
    }
    let s = blocks::row(rows, f.lowest());
    add_outer(f, s, rows);
    add_outer(s, f, rows);
    list.put_pair(f, s);
}

// Peels pairs of rows off a symmetric matrix with zeros on its diagonal, until it is zero, and puts them into a list.
fn pair_off(rows: &mut [u64], list: &mut Vectors)
    requires { Peelable (rows_in_lem rows.old) × Level (rows_in_lem rows.old)
        × (length list.old + rank (length (rows_in_lem rows.old)) (rows_in_lem rows.old) ≤ length (rows_in_lem rows.old)) }
    ensures sums { (M : List ℕ) → Split M list.old (rows_in_lem rows.old) → Sums M list.new }
    ensures short { Grown (length list.old) (rank (length (rows_in_lem rows.old)) (rows_in_lem rows.old)) (length list.new) 0 }
{
    let m = blocks::rows_in(rows);
    // by number: rows are put in lent words
    for i in 0..m {
        peel_pair(rows, list, i);
    }
}

// Takes a symmetric matrix apart: vectors that add up to it, each as a column times itself as a row, are put into an empty list.
fn decompose(rows: &mut [u64], list: &mut Vectors)
    requires { Peelable (rows_in_lem rows.old) × (list.old ≡ []) }
    ensures { Decomposed (rows_in_lem rows.old) list.new }
{
    peel(rows, list);
    pair_off(rows, list);
}

// Puts the vectors of commuting turns that play a self-inverse action into an empty list.
fn commuting_turns(a: Action, list: &mut Vectors)
    requires { SymmetricSquare (residue_of (qubits a) (matrix a)) × (list.old ≡ []) }
    ensures { Decomposed (residue_of (qubits a) (matrix a)) list.new }
{
    let mut rows = [0u64; MOST_ROWS];
    let n = symplectic::capped(a.n);
    let to = blocks::start(&rows, n + n);
    residue::residue(a, &mut rows[..to]);
    decompose(&mut rows[..to], list);
}

// A list of turns whose vectors all pair to 0, as short as any, for an action that is its own inverse.
pub fn clifford_to_transvections_self_inverse(
    n: u64,
    rows: &[u64],
    out: &mut [u64],
) -> Result<u64, SelfInverseError>
    ensures answered { figures_of_lem result ≡ (self_inverse_reply n rows.now (chosen n out.new (figures_of_lem result)) out.old).figures }
    ensures left { out.new ≡ (self_inverse_reply n rows.now (chosen n out.new (figures_of_lem result)) out.old).words }
    ensures replays { Replays n rows.now out.new (figures_of_lem result) }
    ensures shortest { Shortest n rows.now (figures_of_lem result) }
    ensures commuting { Commuting n out.new (figures_of_lem result) }
    ensures counted { Counted n rows.now (figures_of_lem result) }
    ensures seventeen { Seventeen n rows.now out.old (figures_of_lem result) }
{
    questions::action_questions(n, rows)?;
    let wanted = n + n + 1;
    if out.len() < wanted as usize {
        return Err(ListingError::OutputTooShort.into());
    }
    let a = actions::from_words(n, rows);
    if !is_self_inverse(a) {
        return Err(SelfInverseError::NotSelfInverse);
    }
    let mut list = Vectors::new();
    commuting_turns(a, &mut list);
    matrices::lay(n, list.as_slice(), out);
    Ok(list.len() as u64)
}
