// The calls, each with its figures, and whether these are a record's.
ghost use Rattle.std.specs.Prelude.{◌≡◌, ◌≤◌, ◌↔◌, IsTrue, length};
ghost use Rattle.replay.specs.inner.Records.{Alike};

use crate::kind::Kind;
use crate::{Case, LENT};
use questions::{Figures, Refusal, figures_of};
use records::words::{alike, lay};
use symplectic::MOST_VECTORS;

// The low bytes of some words.
fn bytes_of(words: &[u64]) -> [u8; LENT] {
    let mut bytes = [0u8; LENT];
    for (byte, word) in bytes.iter_mut().zip(words) {
        *byte = (*word % 256) as u8;
    }
    bytes
}

// The gate call with our six gates, on bytes that are lent as words.
fn gate_words(n: u64, words: &[u64], out: &mut [u64]) -> Figures
    requires { length words.now ≤ 320 }
{
    let bytes = bytes_of(words);
    let sheet = sheets::six_gates();
    figures_of(gates::gate_action(n, &sheet, &bytes[..words.len()], out))
}

// The choice between two lists: the part that comes back is laid into the output words, and the looks say which list it is.
fn shorter_words(c: &Case, lent: &[u64], out: &mut [u64]) -> Figures
    requires { length lent.now ≡ c.now.lent }
{
    let (rows, lists) = lent.split_at(c.rows);
    let (first, second) = lists.split_at(c.first);
    let chosen = shorter::chosen_of(shorter::choose(c.n, rows, first, second));
    let shorter = shorter::shorter_list(c.n, rows, first, second);
    lay(shorter.part, out);
    Figures {
        number: shorter::chosen_of(shorter.choice).number,
        count: shorter.part.len() as u64,
        looks: chosen.list,
    }
}

// The call for self-inverse actions. Which list it gives is its choice, so the list is multiplied out in its place, and the looks say how
// many turns it has.
fn self_inverse_words(n: u64, rows: &[u64], out: &mut [u64]) -> Figures {
    let count = match self_inverse::clifford_to_transvections_self_inverse(n, rows, out) {
        Ok(count) => count,
        Err(e) => return questions::nothing_listed(e.number()),
    };
    let mut list = [0u64; MOST_VECTORS];
    lay(out, &mut list);
    let listed = (count as usize).min(MOST_VECTORS);
    let lent = rows.len().min(out.len());
    let product = figures_of(rebuild::rebuild(n, &list[..listed], &mut out[..lent]));
    Figures {
        number: product.number,
        count: product.count,
        looks: count,
    }
}

// The figures of the call of a kind: the number of the refusal, the count, and the looks.
pub(crate) fn call(c: &Case, kind: Kind, lent: &[u64], out: &mut [u64]) -> Figures
    requires { length lent.now ≡ c.now.lent }
{
    match kind {
        Kind::Minimal => transvection_exact::figures_of(
            transvection_exact::clifford_to_transvections_minimal(c.n, lent, c.budget, out),
        ),
        Kind::Greedy => { figures_of(transvection::clifford_to_transvections(c.n, lent, out)) }
        Kind::Rebuild => figures_of(rebuild::rebuild(c.n, lent, out)),
        Kind::Gates => gate_words(c.n, lent, out),
        Kind::Fixed => figures_of(fixed_space::clifford_fixed_space(c.n, lent, out)),
        Kind::Shorter => shorter_words(c, lent, out),
        Kind::SelfInverse => self_inverse_words(c.n, lent, out),
    }
}

// Whether an answer is that of the record: its figures, and every word.
pub(crate) fn answered(c: &Case, a: Figures, want: &[u64], out: &[u64]) -> bool
    ensures { IsTrue result ↔ Alike c.now a × (want.now ≡ out.now) }
{
    let figures = [a.number, a.count, a.looks];
    alike([c.number, c.count as u64, c.looks], figures, want, out)
}
