// The shorter of two lent lists whose product is a lent action.
// Not in the source.
#![tactic(auto)]

ghost use Rattle.std.specs.Prelude.{◌≡◌};
ghost use Rattle.blocks.specs.Words.{rows_of_words};
ghost use Rattle.symplectic.specs.Sizes.{capped};
ghost use Rattle.actions.specs.Actions.{matrix};
ghost use Rattle.symplectic.specs.Matches.{matches as matches_of};
ghost use Rattle.shorter.specs.Shorter.{shorter_of_lem, shorter_reply, part_of, place_of};
ghost use Rattle.shorter.specs.Answers.{shorter_number, chosen_of};
ghost use Rattle.shorter.specs.Promises.{Played, NeitherShorter, FirstAtEqual, Neither};
ghost use Rattle.shorter.specs.declared.ShorterError.TheVariants.{Action};

use actions::Action;
use questions::{ActionError, Refusal};

// Which list is played.
#[derive(Clone, Copy, Debug, PartialEq, Eq, Hash)]
pub enum Choice {
    First,
    Second,
}

// Why no list is played.
#[derive(Clone, Copy, Debug, PartialEq, Eq, Hash)]
pub enum ShorterError {
    Action(ActionError),
    NeitherMatches,
}

impl From<ActionError> for ShorterError {
    ghost from_gives = { λ e s. s ≡ Action e };

    fn from(asked: ActionError) -> ShorterError {
        ShorterError::Action(asked)
    }
}

impl Refusal for ShorterError {
    ghost number = { shorter_number };

    fn number(self) -> u64 {
        match self {
            ShorterError::Action(e) => e.number(),
            ShorterError::NeitherMatches => 14,
        }
    }
}

// 0 or the number of the question that was answered no, and which list is played: 1 for the first, 2 for the second, 0 on a refusal.
#[derive(Clone, Copy, Debug, PartialEq, Eq, Hash)]
pub struct Chosen {
    pub number: u64,
    pub list: u64,
}

// The number and the list that a choice stands for, as C tells them.
pub fn chosen_of(r: Result<Choice, ShorterError>) -> Chosen
    ensures { result ≡ chosen_of r }
{
    match r {
        Ok(Choice::First) => Chosen { number: 0, list: 1 },
        Ok(Choice::Second) => Chosen { number: 0, list: 2 },
        Err(e) => Chosen {
            number: e.number(),
            list: 0,
        },
    }
}

// Whether each vector of a lent list has only columns below 2n, and their product is the action.
fn matches(n: u64, a: Action, list: &[u64]) -> bool
    ensures { result ≡ matches_of (capped n) (matrix a) (rows_of_words n list.now) }
{
    questions::words_fit(n, list) && actions::same_rows(rebuild::product_of(n, list), a)
}

// The shorter of the lists that match the action. The one that is to be played if it matches is multiplied out first, and the other only
// where it does not.
fn shorter_of(n: u64, a: Action, first: &[u64], second: &[u64]) -> Result<Choice, ShorterError>
    ensures { chosen_of result ≡ shorter_of_lem (capped n) (matrix a) (rows_of_words n first.now) (rows_of_words n second.now) }
{
    let shorter = second.len() < first.len();
    if shorter && matches(n, a, second) {
        return Ok(Choice::Second);
    }
    if matches(n, a, first) {
        return Ok(Choice::First);
    }
    if !shorter && matches(n, a, second) {
        return Ok(Choice::Second);
    }
    Err(ShorterError::NeitherMatches)
}

// Which of two lent lists to play: the shorter one whose product is the lent action, the first at equal length.
pub fn choose(n: u64, rows: &[u64], first: &[u64], second: &[u64]) -> Result<Choice, ShorterError>
    ensures { chosen_of result ≡ shorter_reply n rows.now first.now second.now }
{
    questions::action_questions(n, rows)?;
    shorter_of(n, actions::from_words(n, rows), first, second)
}

// The list to play of two lent ones, and which it is: on a refusal an empty part of the first, and why.
#[derive(Clone, Copy, Debug, PartialEq, Eq, Hash)]
pub struct Shorter<'a> {
    pub part: &'a [u64],
    pub choice: Result<Choice, ShorterError>,
}

// The shorter of two lent lists whose product is the lent action: the lent list itself.
pub fn shorter_list<'a>(n: u64, rows: &[u64], first: &'a [u64], second: &'a [u64]) -> Shorter<'a>
    ensures part { result.part.now ≡ part_of (shorter_reply n rows.now first.now second.now).list first.now second.now }
    ensures place { result.part.ref_ptr ≡ place_of (shorter_reply n rows.now first.now second.now).list first.entry.ref_ptr second.entry.ref_ptr }
    ensures told { chosen_of result.choice ≡ shorter_reply n rows.now first.now second.now }
    ensures played { Played n rows.now first.now second.now result.part.now (chosen_of result.choice).number }
    ensures neither_shorter { NeitherShorter n rows.now first.now second.now result.part.now (chosen_of result.choice).number }
    ensures first_at_equal { FirstAtEqual n rows.now first.now second.now result.part.now (chosen_of result.choice).number }
    ensures neither { Neither n rows.now first.now second.now (chosen_of result.choice).number }
{
    let choice = choose(n, rows, first, second);
    match choice {
        Ok(Choice::First) => Shorter {
            part: first,
            choice,
        },
        Ok(Choice::Second) => Shorter {
            part: second,
            choice,
        },
        Err(e) => Shorter {
            part: &first[0..0],
            choice: Err(e),
        },
    }
}
