// The minimal list: as few turns as any list of the action has, laid into lent words.
// In the source: transvection_exact.rs, `minimal_decomposition`, `clifford_to_transvections_minimal`.
#![tactic(auto)]

ghost use Rattle.std.specs.Prelude.{◌≡◌, Ok};
ghost use Rattle.blocks.specs.Matrices.{matmul};
ghost use Rattle.blocks.specs.Words.{rows_in_lem, over};
ghost use Rattle.actions.specs.Actions.{qubits, matrix};
ghost use Rattle.questions.specs.Replies.{action_questions_lem, listed, Replays, Shortest};
ghost use Rattle.questions.specs.declared.ListingError.TheVariants.{Action};
ghost use Rattle.residue.specs.Residue.{basis as basis_of, core as core_of};
ghost use Rattle.triangular.specs.Search.{budgeted};
ghost use Rattle.triangular.specs.Memory.{known_within};
ghost use Rattle.memory.specs.Entries.{memory_words, room_in};
ghost use Rattle.transvection_exact.specs.Minimal.{searched_reply, minimal_reply, core_search_with, remembering_reply, memory_left};
ghost use Rattle.transvection_exact.specs.Answers.{minimal_number, looks_taken, figures_of_lem, Exact, ExactWith, AsWithout, EveryLayer, Plainly};
ghost use Rattle.transvection_exact.specs.declared.MinimalError.TheVariants.{Listing};

use actions::Action;
use questions::{ActionError, Figures, ListingError, Refusal};
use symplectic::{MOST_ROWS, MOST_VECTORS};
use triangular::Ending;

// A list that was laid: how many vectors it has, and how many looks its search took.
#[derive(Clone, Copy, Debug, PartialEq, Eq, Hash)]
pub struct Listed {
    pub count: u64,
    pub looks: u64,
}

// Why the call lists no vectors: what a call that lists without a search says, or that the search would look further than the budget.
#[derive(Clone, Copy, Debug, PartialEq, Eq, Hash)]
pub enum MinimalError {
    Listing(ListingError),
    Spent { looks: u64 },
}

impl From<ListingError> for MinimalError {
    ghost from_gives = { λ e m. m ≡ Listing e };

    fn from(listing: ListingError) -> MinimalError {
        MinimalError::Listing(listing)
    }
}

impl From<ActionError> for MinimalError {
    ghost from_gives = { λ e m. m ≡ Listing (Action e) };

    fn from(asked: ActionError) -> MinimalError {
        MinimalError::Listing(ListingError::Action(asked))
    }
}

impl Refusal for MinimalError {
    ghost number = { minimal_number };

    fn number(self) -> u64 {
        match self {
            MinimalError::Listing(e) => e.number(),
            MinimalError::Spent { .. } => 6,
        }
    }
}

impl MinimalError {
    // How many looks were taken.
    pub fn looks(self) -> u64
        ensures { result ≡ looks_taken self }
    {
        match self {
            MinimalError::Listing(_) => 0,
            MinimalError::Spent { looks } => looks,
        }
    }
}

// The number, the count and the looks that an answer stands for.
pub fn figures_of(r: Result<Listed, MinimalError>) -> Figures
    ensures { result ≡ figures_of_lem r }
{
    match r {
        Ok(listed) => Figures {
            number: 0,
            count: listed.count,
            looks: listed.looks,
        },
        Err(e) => Figures {
            number: e.number(),
            count: 0,
            looks: e.looks(),
        },
    }
}

// Vectors of the core times the basis, laid into lent words.
fn multiplied(n: u64, list: &[u64], basis: &[u64], looks: u64, out: &mut [u64]) -> Listed
    ensures answered { figures_of_lem (Ok result) ≡ (listed n (matmul (rows_in_lem list.now) (rows_in_lem basis.now)) looks out.old).figures }
    ensures left { out.new ≡ (listed n (matmul (rows_in_lem list.now) (rows_in_lem basis.now)) looks out.old).words }
{
    matrices::multiply(n, list, basis, out);
    Listed {
        count: blocks::rows_in(list) as u64,
        looks: looks,
    }
}

// Question 6, from the basis of the residue and the core: the list of the search, else the bordered list.
fn from_core(
    a: Action,
    basis: &[u64],
    core: &[u64],
    budget: u64,
    memory: &mut [u64],
    out: &mut [u64],
) -> Result<Listed, MinimalError>
    requires { (rows_in_lem basis.now ≡ basis_of (qubits a) (matrix a)) × (rows_in_lem core.now ≡ core_of (qubits a) (matrix a))
        × (action_questions_lem (qubits a) (matrix a) ≡ 0) }
    ensures answered { figures_of_lem result ≡ (searched_reply (qubits a) (matrix a) (budgeted budget (core_search_with (qubits a) (matrix a) (room_in memory.old)).outcome) out.old).figures }
    ensures left { out.new ≡ (searched_reply (qubits a) (matrix a) (budgeted budget (core_search_with (qubits a) (matrix a) (room_in memory.old)).outcome) out.old).words }
    ensures remembered { memory.new ≡ over (memory_words (known_within budget (core_search_with (qubits a) (matrix a) (room_in memory.old)).memory)) memory.old }
{
    let n = symplectic::capped(a.n) as u64;
    let mut list = [0u64; MOST_VECTORS];
    let o = search::congruence_triangularize(core, budget, memory, &mut list);
    let looks = o.looks;
    match o.ending {
        Ending::Spent => Err(MinimalError::Spent { looks }),
        Ending::Found => {
            let to = blocks::start(&list, blocks::rows_in(core));
            Ok(multiplied(n, &list[..to], basis, looks, out))
        }
        Ending::Failed => {
            family::bordered_family(core, &mut list);
            let to = blocks::start(&list, blocks::rows_in(core) + 1);
            Ok(multiplied(n, &list[..to], basis, looks, out))
        }
    }
}

// Question 6 of an action.
fn searched(
    a: Action,
    budget: u64,
    memory: &mut [u64],
    out: &mut [u64],
) -> Result<Listed, MinimalError>
    requires { action_questions_lem (qubits a) (matrix a) ≡ 0 }
    ensures answered { figures_of_lem result ≡ (searched_reply (qubits a) (matrix a) (budgeted budget (core_search_with (qubits a) (matrix a) (room_in memory.old)).outcome) out.old).figures }
    ensures left { out.new ≡ (searched_reply (qubits a) (matrix a) (budgeted budget (core_search_with (qubits a) (matrix a) (room_in memory.old)).outcome) out.old).words }
    ensures remembered { memory.new ≡ over (memory_words (known_within budget (core_search_with (qubits a) (matrix a) (room_in memory.old)).memory)) memory.old }
{
    let mut basis = [0u64; MOST_ROWS];
    let mut core = [0u64; MOST_ROWS];
    let r = residue::residue_core(a, &mut basis, &mut core);
    let b = blocks::start(&basis, r);
    let c = blocks::start(&core, r);
    from_core(a, &basis[..b], &core[..c], budget, memory, out)
}

// A list of turns whose product is the lent action, and no list of it is shorter. Spaces that the search finds to fail are entered into a
// lent memory, and not searched again.
pub fn clifford_to_transvections_minimal_remembering(
    n: u64,
    rows: &[u64],
    budget: u64,
    memory: &mut [u64],
    out: &mut [u64],
) -> Result<Listed, MinimalError>
    ensures answered { figures_of_lem result ≡ (remembering_reply n rows.now budget memory.old out.old).figures }
    ensures left { out.new ≡ (remembering_reply n rows.now budget memory.old out.old).words }
    ensures remembered { memory.new ≡ memory_left n rows.now budget memory.old out.old }
    ensures replays { Replays n rows.now out.new (figures_of_lem result) }
    ensures shortest { Shortest n rows.now (figures_of_lem result) }
    ensures exact { ExactWith (room_in memory.old) n rows.now budget out.old (figures_of_lem result) }
    ensures as_without { AsWithout (minimal_reply n rows.now budget out.old) out.new (figures_of_lem result) }
    ensures every_layer { EveryLayer n rows.now (figures_of_lem result) }
    ensures plainly { Plainly (minimal_reply n rows.now budget out.old) memory.old memory.new out.new (figures_of_lem result) }
{
    questions::action_questions(n, rows)?;
    let wanted = n * 2 + 1;
    if out.len() < wanted as usize {
        return Err(ListingError::OutputTooShort.into());
    }
    searched(actions::from_words(n, rows), budget, memory, out)
}

// The same with no memory lent: document 01's call.
pub fn clifford_to_transvections_minimal(
    n: u64,
    rows: &[u64],
    budget: u64,
    out: &mut [u64],
) -> Result<Listed, MinimalError>
    ensures answered { figures_of_lem result ≡ (minimal_reply n rows.now budget out.old).figures }
    ensures left { out.new ≡ (minimal_reply n rows.now budget out.old).words }
    ensures replays { Replays n rows.now out.new (figures_of_lem result) }
    ensures shortest { Shortest n rows.now (figures_of_lem result) }
    ensures exact { Exact n rows.now budget out.old (figures_of_lem result) }
    ensures every_layer { EveryLayer n rows.now (figures_of_lem result) }
{
    let mut none = [0u64; 0];
    clifford_to_transvections_minimal_remembering(n, rows, budget, &mut none, out)
}
