// Rows of bits: one word each, known above by their value alone.
// In the source: the crate binar, whose bit rows these stand for.
#![tactic(auto, unfolding(crate::specs::Rows::val))]

ghost use Rattle.std.specs.Prelude.{◌≡◌, ◌+◌, ◌-◌, ◌*◌, ◌/◌, ◌%◌, ◌^◌, ◌<◌, ◌==◌, bit_or, nat_lt};
ghost use Rattle.binar.specs.Bits.{◌⊕◌, select, bit as bit_of, dot as dot_of, weight as weight_of};
ghost use Rattle.binar.specs.Rows.{val, width, row_bound, unit as unit_of, lowest as lowest_of};

use std::ops::{BitOr, BitXor, BitXorAssign};

// How many columns a row has.
pub const WIDTH: usize = 64;

// Rows are equal where their values are, and in the order of their values.
#[derive(Clone, Copy, Debug, PartialEq, Eq, PartialOrd, Ord, Hash)]
pub struct Row {
    word: u64,
}

impl From<u64> for Row {
    ghost from_gives = { λ w r. val r ≡ w };

    fn from(w: u64) -> Row {
        Row { word: w }
    }
}

// The sum of two rows.
impl BitXor for Row {
    type Output = Row;

    ghost bitxor_gives = { λ a b r. val r ≡ val a ⊕ val b };

    fn bitxor(self, other: Row) -> Row {
        Row {
            word: self.word ^ other.word,
        }
    }
}

impl BitXorAssign for Row {
    ghost bitxor_assign_gives = { λ a b r. val r ≡ val a ⊕ val b };

    fn bitxor_assign(&mut self, other: Row) {
        self.word ^= other.word;
    }
}

// The columns in which either row has a one.
impl BitOr for Row {
    type Output = Row;

    ghost bitor_gives = { λ a b r. val r ≡ bit_or (val a) (val b) };

    fn bitor(self, other: Row) -> Row {
        Row {
            word: self.word | other.word,
        }
    }
}

fn power(k: usize) -> u64
    requires { k < width }
    ensures { result ≡ 2 ^ k }
{
    1u64 << k
}

impl Row {
    pub fn zero() -> Row
        ensures { val result ≡ 0 }
    {
        Row { word: 0 }
    }

    // Row k of the identity.
    pub fn unit(k: usize) -> Row
        ensures { val result ≡ unit_of k }
    {
        if k < WIDTH {
            Row { word: power(k) }
        } else {
            Row { word: 0 }
        }
    }

    // Ones in the columns below k.
    pub fn low_ones(k: usize) -> Row
        ensures { val result ≡ (2 ^ k - 1) % row_bound }
    {
        if k < WIDTH {
            Row { word: power(k) - 1 }
        } else {
            Row { word: u64::MAX }
        }
    }

    // The lowest 64 columns.
    pub fn word(self) -> u64
        ensures { result ≡ val self % 2 ^ 64 }
    {
        self.word
    }

    // This row, and the other added to it where the bit is set.
    pub fn added(self, other: Row, on: bool) -> Row
        ensures { val result ≡ val self ⊕ select 0 on (val other) }
    {
        if on { self ^ other } else { self }
    }

    pub fn is_zero(self) -> bool
        ensures { result ≡ (val self == 0) }
    {
        self.word == 0
    }

    pub fn bit(self, k: usize) -> bool
        ensures { result ≡ bit_of k (val self) }
    {
        let w = self.word;
        if k < WIDTH { (w >> k) % 2 == 1 } else { false }
    }

    // The parity of the ones that two rows share.
    pub fn dot(self, other: Row) -> bool
        ensures { result ≡ dot_of (val self) (val other) }
    {
        let w = self.word & other.word;
        w.count_ones() % 2 == 1
    }

    // The column of the lowest one.
    pub fn lowest(self) -> usize
        ensures { result ≡ lowest_of (val self) }
    {
        self.word.trailing_zeros() as usize
    }

    // Whether no column from m on has a one.
    pub fn fits(self, m: usize) -> bool
        ensures { result ≡ nat_lt (val self) (2 ^ m) }
    {
        let w = self.word;
        if m < WIDTH { w < power(m) } else { true }
    }

    // The columns below k.
    pub fn low(self, k: usize) -> Row
        ensures { val result ≡ val self % 2 ^ k }
    {
        let w = self.word;
        if k < WIDTH {
            Row { word: w % power(k) }
        } else {
            self
        }
    }

    // Each column k lower.
    pub fn shift_down(self, k: usize) -> Row
        ensures { val result ≡ val self / 2 ^ k }
    {
        let w = self.word;
        if k < WIDTH {
            Row { word: w >> k }
        } else {
            Row { word: 0 }
        }
    }

    // Each column k higher.
    pub fn shift_up(self, k: usize) -> Row
        ensures { val result ≡ val self * 2 ^ k % row_bound }
    {
        let w = self.word;
        if k < WIDTH {
            Row { word: w << k }
        } else {
            Row { word: 0 }
        }
    }

    // The row that follows in the order of values; the last one is followed by zero.
    pub fn next(self) -> Row
        ensures { val result ≡ (val self + 1) % row_bound }
    {
        Row {
            word: self.word.wrapping_add(1),
        }
    }

    // The count of ones.
    pub fn weight(self) -> u64
        ensures { result ≡ weight_of (val self) }
    {
        self.word.count_ones() as u64
    }
}
