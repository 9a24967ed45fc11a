// The fixed space: a basis of all vectors that an action leaves in place, laid into lent words.
// In the source: transvection.rs, `clifford_fixed_space`.
#![tactic(auto)]

ghost use Rattle.std.specs.Prelude.{◌≡◌, ◌≤◌, length, drop};
ghost use Rattle.binar.specs.Rows.{width};
ghost use Rattle.blocks.specs.Words.{rows_in_lem, laid as laid_of};
ghost use Rattle.actions.specs.Actions.{qubits, matrix};
ghost use Rattle.questions.specs.Answers.{figures_of_lem};
ghost use Rattle.fixed_space.specs.FixedSpace.{kernel as kernel_of, reduced_basis, fixed_space_lem, fixed_reply};
ghost use Rattle.fixed_space.specs.Promises.{InPlace, Complete, Reduced, Counted};

use actions::Action;
use questions::ListingError;
use symplectic::MOST_ROWS;

// A basis of all u with uM = 0, where the rows M are reduced in place: the rows of the transform beside those that became zero. Answers which is the first.
fn kernel(m: usize, rows: &mut [u64], transform: &mut [u64]) -> usize
    requires { (length (rows_in_lem rows.old) ≡ length (rows_in_lem transform.old)) × (length (rows_in_lem rows.old) ≤ width) }
    ensures { drop result (rows_in_lem transform.new) ≡ kernel_of m (rows_in_lem rows.old) }
{
    let mut pivots = [0; MOST_ROWS];
    reduction::row_reduce_with_transform(m, rows, transform, &mut pivots)
}

// Lays the reduced basis of what the rows span, as rows of n qubits, into lent words; answers how many. They are reduced in place, and nothing reads the transform.
fn lay_basis(n: u64, m: usize, rows: &mut [u64], transform: &mut [u64], out: &mut [u64]) -> usize
    requires { (length (rows_in_lem rows.old) ≤ length (rows_in_lem transform.old)) × (length (rows_in_lem rows.old) ≤ width) }
    ensures counted { result ≡ length (reduced_basis m (rows_in_lem rows.old)) }
    ensures laid { out.new ≡ laid_of n (reduced_basis m (rows_in_lem rows.old)) out.old }
{
    let mut pivots = [0; MOST_ROWS];
    let r = reduction::row_reduce_with_transform(m, rows, transform, &mut pivots);
    let to = blocks::start(rows, r);
    matrices::lay(n, &rows[..to], out);
    r
}

// Lays the reduced basis of all u with uM = 0, where the rows M are reduced in place, as rows of n qubits into lent words; answers how many.
fn lay_kernel(n: u64, m: usize, rows: &mut [u64], transform: &mut [u64], out: &mut [u64]) -> usize
    requires { (length (rows_in_lem rows.old) ≡ length (rows_in_lem transform.old)) × (length (rows_in_lem rows.old) ≤ width) }
    ensures counted { result ≡ length (reduced_basis m (kernel_of m (rows_in_lem rows.old))) }
    ensures laid { out.new ≡ laid_of n (reduced_basis m (kernel_of m (rows_in_lem rows.old))) out.old }
{
    let r = kernel(m, rows, transform);
    let from = blocks::start(transform, r);
    lay_basis(n, m, &mut transform[from..], rows, out)
}

// Lays the reduced basis of all v with vF = v into lent words; answers how many.
fn fixed_space(a: Action, out: &mut [u64]) -> usize
    ensures counted { result ≡ length (fixed_space_lem (qubits a) (matrix a)) }
    ensures laid { out.new ≡ laid_of (qubits a) (fixed_space_lem (qubits a) (matrix a)) out.old }
{
    let mut rows = [0u64; MOST_ROWS];
    let mut transform = [0u64; MOST_ROWS];
    let n = symplectic::capped(a.n);
    let m = n + n;
    let to = blocks::start(&rows, m);
    residue::put_identity_plus(a, &mut rows[..to]);
    lay_kernel(n as u64, m, &mut rows[..to], &mut transform[..to], out)
}

// The reduced basis, with ascending pivots, of all vectors that the lent action leaves in place.
pub fn clifford_fixed_space(n: u64, rows: &[u64], out: &mut [u64]) -> Result<u64, ListingError>
    ensures answered { figures_of_lem result ≡ (fixed_reply n rows.now out.old).figures }
    ensures left { out.new ≡ (fixed_reply n rows.now out.old).words }
    ensures in_place { InPlace n rows.now out.new (figures_of_lem result) }
    ensures complete { Complete n rows.now out.new (figures_of_lem result) }
    ensures reduced { Reduced n out.new (figures_of_lem result) }
    ensures dimension { Counted n rows.now (figures_of_lem result) }
{
    questions::action_questions(n, rows)?;
    let wanted = n + n;
    if out.len() < wanted as usize {
        return Err(ListingError::OutputTooShort);
    }
    Ok(fixed_space(actions::from_words(n, rows), out) as u64)
}
