// The kinds of calls.
use std::fmt;

// How many kinds there are.
pub(crate) const KINDS: usize = 7;

#[derive(Clone, Copy, Debug, PartialEq, Eq)]
pub(crate) enum Kind {
    Minimal,
    Greedy,
    Rebuild,
    Gates,
    Fixed,
    Shorter,
    SelfInverse,
}

#[derive(Clone, Copy, Debug, PartialEq, Eq)]
pub(crate) struct NoSuchKind;

impl Kind {
    // In the order of their numbers.
    pub(crate) const ALL: [Kind; KINDS] = [
        Kind::Minimal,
        Kind::Greedy,
        Kind::Rebuild,
        Kind::Gates,
        Kind::Fixed,
        Kind::Shorter,
        Kind::SelfInverse,
    ];
}

// The kind of a number, as the header has it.
impl TryFrom<u64> for Kind {
    type Error = NoSuchKind;

    fn try_from(number: u64) -> Result<Kind, NoSuchKind> {
        Kind::ALL.get(number as usize).copied().ok_or(NoSuchKind)
    }
}

impl fmt::Display for Kind {
    fn fmt<W: fmt::Write>(&self, f: &mut fmt::Formatter<W>) -> fmt::Result {
        f.write_str(match self {
            Kind::Minimal => "min",
            Kind::Greedy => "greedy",
            Kind::Rebuild => "rebuild",
            Kind::Gates => "gates",
            Kind::Fixed => "fixed",
            Kind::Shorter => "shorter",
            Kind::SelfInverse => "self-inverse",
        })
    }
}
