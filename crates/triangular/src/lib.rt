// Nothing runs here: a space with a form, and the search for a basis that makes the form triangular. Its code is the crate search.
// In the source: transvection_exact.rs, `is_alternating`, `SpanVectors`, `right_orthogonal_complement`, `triangularize_subspace`.
#![tactic(auto)]

// How a search ends.
#[derive(Clone, Copy, Debug, PartialEq, Eq)]
pub enum Ending {
    Found,
    Failed,
    Spent,
}
