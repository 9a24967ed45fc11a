// The greedy list: turns that undo an action, each found in the matrix I + F, laid in reverse into lent words.
// In the source: transvection.rs, `clifford_to_transvections`, `symplectic_residue_matrix`, `next_transvection`.
#![tactic(auto)]

ghost use Rattle.std.specs.Prelude.{◌≡◌, reverse, ◌+◌, ◌*◌, ◌^◌, ◌≤◌, ◌<◌, length, take};
ghost use Rattle.binar.specs.Bits.{◌⊕◌};
ghost use Rattle.binar.specs.Rows.{width, val};
ghost use Rattle.blocks.specs.Words.{laid, rows_in_lem, over};
ghost use Rattle.symplectic.specs.Turns.{pairing, identity_plus};
ghost use Rattle.symplectic.specs.Sizes.{max_qubits};
ghost use Rattle.actions.specs.Actions.{qubits, matrix};
ghost use Rattle.questions.specs.Replies.{Replays};
ghost use Rattle.questions.specs.Answers.{figures_of_lem};
ghost use Rattle.transvection.specs.Greedy.{first_nonzero, next_transvection_lem, recorded, greedy_list, greedy_reply};
ghost use Rattle.transvection.specs.inner.Searches.{chosen, row_at, one_from, with_from, pair_from};

use actions::Action;
use binar::Row;
use questions::ListingError;

// How many turns a record has room for: 4n + 2 at the most qubits.
const RECORD_ROOM: usize = 130;

// The rows of an action F of n qubits, in lent words.
#[derive(Clone, Copy)]
struct Standing<'a> {
    n: usize,
    words: &'a [u64],
    ghost few: { n ≤ max_qubits },
    ghost all: { length (rows_in_lem words.now) ≡ n + n },
}

impl<'a> Standing<'a> {
    // Row i of I + F.
    fn plus(&self, i: usize) -> Row
        requires { i < self.now.n + self.now.n }
        ensures { val result ≡ row_at (rows_in_lem self.now.words.now) i }
    {
        blocks::row(&self.words, i) ^ Row::unit(i)
    }

    // A row's pairing with basis vector j: its bit in the other half.
    fn meets(&self, row: Row, j: usize) -> bool
        requires { j < self.now.n + self.now.n }
        ensures { result ≡ pairing self.now.n (val row) (2 ^ j) }
    {
        if j < self.n {
            row.bit(j + self.n)
        } else {
            row.bit(j - self.n)
        }
    }

    // The lowest row of I + F that pairs to 1 with its own basis vector.
    fn one_row(&self) -> Option<Row>
        ensures { chosen result ≡ one_from self.now.n (rows_in_lem self.now.words.now) 0 }
    {
        (0..self.n + self.n).find_map(|i| {
            let u = self.plus(i);
            self.meets(u, i).then_some(u)
        })
    }

    // The sum of row i and the first row j behind it where row i's pairing with basis vector j differs from row j's with basis vector i.
    fn pair_with(&self, i: usize) -> Option<Row>
        requires { i < self.now.n + self.now.n }
        ensures { chosen result ≡ with_from self.now.n (rows_in_lem self.now.words.now) i (i + 1) }
    {
        let u = self.plus(i);
        (i + 1..self.n + self.n).find_map(|j| {
            let v = self.plus(j);
            (self.meets(u, j) != self.meets(v, i)).then_some(u ^ v)
        })
    }

    // The sum of the first such pair.
    fn pair_of_rows(&self) -> Option<Row>
        ensures { chosen result ≡ pair_from self.now.n (rows_in_lem self.now.words.now) 0 }
    {
        (0..self.n + self.n).find_map(|i| self.pair_with(i))
    }

    // The lowest nonzero row of I + F.
    fn nonzero_row(&self) -> Option<Row>
        ensures { chosen result ≡ first_nonzero (identity_plus self.now.n (rows_in_lem self.now.words.now)) }
    {
        (0..self.n + self.n).find_map(|i| {
            let u = self.plus(i);
            (!u.is_zero()).then_some(u)
        })
    }

    // The vector that the greedy rule takes next.
    #[tactic(auto, using(crate::proofs::Searches::next_searches))]
    fn next_transvection(&self) -> Option<Row>
        ensures { chosen result ≡ next_transvection_lem self.now.n (rows_in_lem self.now.words.now) }
    {
        if let Some(row) = self.one_row() {
            return Some(row);
        }
        if let Some(sum) = self.pair_of_rows() {
            return Some(sum);
        }
        self.nonzero_row()
    }
}

// The turns that undo the action whose rows stand in lent words, put into others; how many they are. The rows follow the turns.
fn record_turns(n: u64, w: &mut [u64], kept: &mut [u64]) -> usize
    requires { (n ≤ max_qubits) × (length (rows_in_lem w.old) ≡ n + n) × (4 * n + 2 ≤ length (rows_in_lem kept.old)) }
    ensures { (result ≤ 4 * n + 2) × (take result (rows_in_lem kept.new) ≡ recorded n (4 * n + 2) (rows_in_lem w.old)) }
{
    let m = n as usize;
    let limit = m * 4 + 2;
    // by number: the place of a turn, and how many there are
    for i in 0..limit {
        let standing = Standing {
            n: m,
            words: &w[..],
        };
        let Some(v) = standing.next_transvection() else {
            return i;
        };
        symplectic::follow(n, w, v);
        blocks::put(kept, i, v);
    }
    limit
}

// The first turns of a record, of n qubits, laid into lent words, the last one first.
fn store_reversed(n: u64, kept: &[u64], count: usize, out: &mut [u64])
    requires { (count ≤ length (rows_in_lem kept.now)) × (count ≤ length out.old) }
    ensures { out.new ≡ laid n (reverse (take count (rows_in_lem kept.now))) out.old }
{
    // by number: how many words a row takes is known to blocks alone
    for k in 0..count {
        let u = blocks::row(kept, count - 1 - k);
        out[k] = blocks::word(u);
    }
}

// The rows of an action put over words for work.
fn load(a: Action, w: &mut [u64])
    requires { qubits a + qubits a ≤ length (rows_in_lem w.old) }
    ensures { rows_in_lem w.new ≡ over (matrix a) (rows_in_lem w.old) }
{
    let n = symplectic::capped(a.n);
    for (i, row) in a.rows[..n + n].iter().enumerate() {
        blocks::put(w, i, *row);
    }
}

// The greedy list of an action, laid into lent words; how many turns it has.
fn lay_list(a: Action, out: &mut [u64]) -> usize
    requires { 4 * qubits a + 2 ≤ length out.old }
    ensures { (result ≡ length (greedy_list (qubits a) (matrix a))) × (out.new ≡ laid (qubits a) (greedy_list (qubits a) (matrix a)) out.old) }
{
    let mut w = [0u64; symplectic::MOST_ROWS];
    let mut kept = [0u64; RECORD_ROOM];
    load(a, &mut w);
    let n = symplectic::capped(a.n);
    let to = blocks::start(&w, n + n);
    let count = record_turns(n as u64, &mut w[..to], &mut kept);
    store_reversed(n as u64, &kept, count, out);
    count
}

// A list of turns whose product is the lent action, at most four for each qubit.
pub fn clifford_to_transvections(n: u64, rows: &[u64], out: &mut [u64]) -> Result<u64, ListingError>
    ensures answered { figures_of_lem result ≡ (greedy_reply n rows.now out.old).figures }
    ensures left { out.new ≡ (greedy_reply n rows.now out.old).words }
    ensures replays { Replays n rows.now out.new (figures_of_lem result) }
    ensures few { (figures_of_lem result).count ≤ 4 * n }
{
    questions::action_questions(n, rows)?;
    let wanted = n * 4 + 2;
    if out.len() < wanted as usize {
        return Err(ListingError::OutputTooShort);
    }
    Ok(lay_list(actions::from_words(n, rows), out) as u64)
}
