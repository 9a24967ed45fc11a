// The questions that calls share, and what calls answer.
// In the source there are none: its callers keep to what it wants.
#![tactic(auto)]

ghost use Rattle.std.specs.Prelude.{◌≡◌, ℕ, ◌+◌, ◌^◌, nat_lt};
ghost use Rattle.std.specs.List.{list_all};
ghost use Rattle.blocks.specs.Words.{rows_of_words};
ghost use Rattle.symplectic.specs.Sizes.{capped as capped_of};
ghost use Rattle.symplectic.specs.Matches.{fit_all};
ghost use Rattle.questions.specs.Replies.{action_questions_lem, nothing_listed_lem};
ghost use Rattle.questions.specs.Answers.{action_number, listing_number, number_of, asked, answer_figures, lent_number};
ghost use Rattle.questions.specs.declared.ListingError.TheVariants.{Action};

use binar::Row;
use symplectic::MAX_QUBITS;

// Which question about an action is answered no.
#[derive(Clone, Copy, Debug, PartialEq, Eq, Hash)]
pub enum ActionError {
    TooManyQubits,
    WrongRowCount,
    RowTooWide,
    NotSymplectic,
}

// Why a call that lists vectors without a search lists none.
#[derive(Clone, Copy, Debug, PartialEq, Eq, Hash)]
pub enum ListingError {
    Action(ActionError),
    OutputTooShort,
}

impl From<ActionError> for ListingError {
    ghost from_gives = { λ e l. l ≡ Action e };

    fn from(asked: ActionError) -> ListingError {
        ListingError::Action(asked)
    }
}

// A question that is answered no has a number.
pub trait Refusal {
    ghost number: { Self → ℕ };

    fn number(self) -> u64
        ensures { result ≡ number self };
}

impl Refusal for ActionError {
    ghost number = { action_number };

    fn number(self) -> u64 {
        match self {
            ActionError::TooManyQubits => 1,
            ActionError::WrongRowCount => 2,
            ActionError::RowTooWide => 3,
            ActionError::NotSymplectic => 4,
        }
    }
}

impl Refusal for ListingError {
    ghost number = { listing_number };

    fn number(self) -> u64 {
        match self {
            ListingError::Action(e) => e.number(),
            ListingError::OutputTooShort => 5,
        }
    }
}

// 0 where all questions were passed, else the number of the one that was answered no.
pub fn asked_number<E: Refusal>(r: Result<(), E>) -> u64
    ensures { result ≡ asked E.number r }
{
    match r {
        Ok(()) => 0,
        Err(e) => e.number(),
    }
}

// The figures of a call's answer, as C and the printout tell them: 0 or the number of the question that was answered no, how many
// vectors or rows it listed, and how many draws its search took.
#[derive(Clone, Copy, Debug, PartialEq, Eq, Hash)]
pub struct Figures {
    pub number: u64,
    pub count: u64,
    pub looks: u64,
}

// Whether the row of each word has only columns below m.
fn all_fit(words: &[u64], m: usize) -> bool
    ensures { result ≡ list_all (λ w. nat_lt w (2 ^ m)) words.now }
{
    words.iter().all(|w| Row::from(*w).fits(m))
}

// Whether each row that lent words hold has only columns below 2n.
pub fn words_fit(n: u64, words: &[u64]) -> bool
    ensures { result ≡ fit_all (capped_of n + capped_of n) (rows_of_words n words.now) }
{
    let k = symplectic::capped(n);
    let m = k + k;
    all_fit(words, m)
}

// Questions 1 to 4.
pub fn action_questions(n: u64, words: &[u64]) -> Result<(), ActionError>
    ensures { number_of result ≡ action_questions_lem n (rows_of_words n words.now) }
{
    if MAX_QUBITS < n {
        return Err(ActionError::TooManyQubits);
    }
    let m = n + n;
    if words.len() != m as usize {
        return Err(ActionError::WrongRowCount);
    }
    if !words_fit(n, words) {
        return Err(ActionError::RowTooWide);
    }
    if !symplectic::is_symplectic(n, words) {
        return Err(ActionError::NotSymplectic);
    }
    Ok(())
}

// The figures of a call that has listed nothing.
pub fn nothing_listed(number: u64) -> Figures
    ensures { result ≡ nothing_listed_lem number }
{
    Figures {
        number: number,
        count: 0,
        looks: 0,
    }
}

// The figures of an answer without a search.
pub fn figures_of<E: Refusal>(r: Result<u64, E>) -> Figures
    ensures { result ≡ answer_figures E.number r }
{
    match r {
        Ok(count) => Figures {
            number: 0,
            count: count,
            looks: 0,
        },
        Err(e) => nothing_listed(e.number()),
    }
}

// An answer's value put into a lent number; a refusal leaves it as it was.
pub fn tell(number: u64, value: u64, lent: &mut u64)
    ensures { lent.new ≡ lent_number number value lent.old }
{
    if number == 0 {
        *lent = value;
    }
}
