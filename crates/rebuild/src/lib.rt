// The rebuild: the product of a lent list, laid into lent rows.
// Not in the source.
#![tactic(auto)]

ghost use Rattle.std.specs.Prelude.{◌≡◌, ◌+◌, length};
ghost use Rattle.blocks.specs.Words.{rows_of_words, rows_in_lem};
ghost use Rattle.symplectic.specs.Sizes.{capped};
ghost use Rattle.actions.specs.Actions.{qubits, matrix};
ghost use Rattle.symplectic.specs.Turns.{product};
ghost use Rattle.questions.specs.Replies.{Rebuilds};
ghost use Rattle.rebuild.specs.Rebuilds.{rebuild_reply};
ghost use Rattle.rebuild.specs.Answers.{rebuild_number, figures_of_lem};

use actions::Action;
use binar::Row;
use questions::Refusal;
use symplectic::MAX_QUBITS;

// Which question of a rebuild is answered no.
#[derive(Clone, Copy, Debug, PartialEq, Eq, Hash)]
pub enum RebuildError {
    TooManyQubits,
    WrongRowCount,
    VectorTooWide,
}

impl Refusal for RebuildError {
    ghost number = { rebuild_number };

    fn number(self) -> u64 {
        match self {
            RebuildError::TooManyQubits => 1,
            RebuildError::WrongRowCount => 2,
            RebuildError::VectorTooWide => 8,
        }
    }
}

// The product of the vectors that lent words hold, made in words lent for work.
fn product_in(n: u64, list: &[u64], w: &mut [u64]) -> Action
    requires { length (rows_in_lem w.old) ≡ capped n + capped n }
    ensures { (qubits result ≡ capped n) × (matrix result ≡ product (capped n) (rows_of_words n list.now)) }
{
    symplectic::put_identity(n, w);
    for v in list {
        symplectic::follow(n, w, Row::from(*v));
    }
    actions::from_rows(n, &w[..])
}

// The product of the vectors that lent words hold, however many they are.
pub fn product_of(n: u64, list: &[u64]) -> Action
    ensures { (qubits result ≡ capped n) × (matrix result ≡ product (capped n) (rows_of_words n list.now)) }
{
    let mut w = [0u64; symplectic::MOST_ROWS];
    let k = symplectic::capped(n);
    let to = blocks::start(&w, k + k);
    product_in(n, list, &mut w[..to])
}

// The product of the turns of a list, in exactly 2n lent rows: how many these are.
pub fn rebuild(n: u64, list: &[u64], out: &mut [u64]) -> Result<u64, RebuildError>
    ensures answered { figures_of_lem result ≡ (rebuild_reply n list.now out.old).figures }
    ensures left { out.new ≡ (rebuild_reply n list.now out.old).words }
    ensures replays { Rebuilds n (rows_of_words n list.now) out.new (figures_of_lem result) }
{
    if MAX_QUBITS < n {
        return Err(RebuildError::TooManyQubits);
    }
    let count = n + n;
    if out.len() != count as usize {
        return Err(RebuildError::WrongRowCount);
    }
    if !questions::words_fit(n, list) {
        return Err(RebuildError::VectorTooWide);
    }
    actions::store(product_of(n, list), out);
    Ok(count)
}
