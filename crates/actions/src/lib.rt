// Actions by value: a qubit count and rows, taken from lent words, laid into them, compared.
// In the source: transvection_exact.rs, `action_matrix`.
#![tactic(auto)]

ghost use Rattle.std.specs.Prelude.{◌≡◌, ◌+◌};
ghost use Rattle.blocks.specs.Words.{rows_of_words, laid, rows_in_lem};
ghost use Rattle.symplectic.specs.Sizes.{capped as capped_of};
ghost use Rattle.symplectic.specs.Matches.{same_rows};
ghost use Rattle.actions.specs.Actions.{qubits, matrix, padded};

use binar::Row;
use symplectic::MOST_ROWS;

// The qubit count and the rows: row k is the image of basis vector k.
#[derive(Clone, Copy)]
pub struct Action {
    pub n: u64,
    pub rows: [Row; MOST_ROWS],
}

// The action that words lent for work hold.
pub fn from_rows(n: u64, w: &[u64]) -> Action
    ensures { (qubits result ≡ capped_of n) × (matrix result ≡ padded (capped_of n + capped_of n) (rows_in_lem w.now)) }
{
    let mut rows = [Row::zero(); MOST_ROWS];
    // by number: how many words a row takes is known to blocks alone
    for i in 0..blocks::rows_in(w).min(MOST_ROWS) {
        rows[i] = blocks::row(w, i);
    }
    Action { n: n, rows: rows }
}

// The action that lent words hold.
pub fn from_words(n: u64, words: &[u64]) -> Action
    ensures { (qubits result ≡ capped_of n) × (matrix result ≡ padded (capped_of n + capped_of n) (rows_of_words n words.now)) }
{
    let mut rows = [Row::zero(); MOST_ROWS];
    // by number: a zip over iter_mut tells nothing of its elements
    for i in 0..words.len().min(MOST_ROWS) {
        rows[i] = Row::from(words[i]);
    }
    Action { n: n, rows: rows }
}

// The action's rows laid into lent words.
pub fn store(a: Action, out: &mut [u64])
    ensures { out.new ≡ laid (qubits a) (matrix a) out.old }
{
    let n = symplectic::capped(a.n);
    let count = (n + n).min(out.len());
    // by number: a zip over iter_mut tells nothing of its elements
    for i in 0..count {
        out[i] = blocks::word(a.rows[i]);
    }
}

// Whether two actions have the same rows.
pub fn same_rows(a: Action, b: Action) -> bool
    ensures { result ≡ same_rows (matrix a) (matrix b) }
{
    let n = symplectic::capped(a.n);
    symplectic::capped(b.n) == n && a.rows[..n + n] == b.rows[..n + n]
}
