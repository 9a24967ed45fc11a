// The letters I, X, Y, Z of one qubit, and the commutation chart: what two of them pair to.
// Not in the source.
#![tactic(auto)]

ghost use Rattle.std.specs.Prelude.{◌≡◌};
ghost use Rattle.symplectic.specs.Turns.{pairing};
ghost use Rattle.letters.specs.Letters.{letter, vector, byte};

// A letter: a Pauli matrix without its sign.
#[derive(Clone, Copy, Debug, PartialEq, Eq, Hash)]
pub enum Letter {
    I,
    X,
    Y,
    Z,
}

// The commutation chart, true for 1: I pairs to 0 with all, equal letters to 0, two different letters other than I to 1.
#[tactic(auto, using(crate::proofs::Pairs::pairs_left, crate::proofs::Pairs::pairs_right, crate::proofs::Pairs::pairs_others))]
pub fn chart(a: Letter, b: Letter) -> bool
    ensures { result ≡ pairing 1 (vector a) (vector b) }
{
    match (a, b) {
        (Letter::I, _) | (_, Letter::I) => false,
        _ => a != b,
    }
}

// The letter of a qubit with bits x and z.
#[tactic(auto, unfolding(crate::specs::Letters::letter))]
pub fn of_bits(x: bool, z: bool) -> Letter
    ensures { result ≡ letter x z }
{
    match (x, z) {
        (false, false) => Letter::I,
        (true, false) => Letter::X,
        (true, true) => Letter::Y,
        (false, true) => Letter::Z,
    }
}

// A letter as it is printed.
impl From<Letter> for u8 {
    ghost from_gives = { λ l b. b ≡ byte l };

    fn from(l: Letter) -> u8 {
        match l {
            Letter::I => b'I',
            Letter::X => b'X',
            Letter::Y => b'Y',
            Letter::Z => b'Z',
        }
    }
}
