// Records counted by their kinds, and the counts printed.
ghost use Rattle.std.specs.Prelude.{◌≡◌, ◌<◌, IfSome, replicate, slice_get, slice_set, IsOk};
ghost use Rattle.records.specs.Scores.{one_more, counted_in};

use std::io::Print;
use std::{fmt, io};

// What the call of a record shows: its kind, and whether all that it answers and leaves is as the record has it.
#[derive(Clone, Copy)]
pub struct Verdict {
    pub kind: usize,
    pub agrees: bool,
}

// How many records of a kind agree and differ.
#[derive(Clone, Copy, Default, PartialEq, Eq)]
pub struct Counts {
    pub agree: u64,
    pub differ: u64,
}

impl Counts {
    // Counts a record that agrees, or differs.
    pub fn count(&mut self, agrees: bool)
        ensures { self.new ≡ counted_in self.old agrees }
    {
        if agrees {
            self.agree = self.agree.saturating_add(1);
        } else {
            self.differ = self.differ.saturating_add(1);
        }
    }
}

impl fmt::Display for Counts {
    fn fmt<W: fmt::Write>(&self, f: &mut fmt::Formatter<W>) -> fmt::Result {
        write!(f, "{} agree, {} differ", self.agree, self.differ)
    }
}

// The counts of each kind, and how many records were not read.
#[derive(Clone, Copy)]
pub struct Score<const KINDS: usize> {
    pub kinds: [Counts; KINDS],
    pub unread: u64,
}

impl<const KINDS: usize> Score<KINDS> {
    // Nothing counted.
    pub fn new() -> Score<KINDS>
        ensures kinds { result.kinds ≡ replicate KINDS (record { agree = 0; differ = 0 }) }
        ensures unread { result.unread ≡ 0 }
    {
        Score {
            kinds: [Counts::default(); KINDS],
            unread: 0,
        }
    }

    // Counts a record that was not read.
    pub fn one_unread(&mut self)
        ensures { self.new ≡ record { kinds = self.old.kinds; unread = one_more self.old.unread } }
    {
        self.unread = self.unread.saturating_add(1);
    }

    // Counts a record whose call was made.
    pub(crate) fn count(&mut self, v: Verdict)
        requires { v.kind < KINDS }
        ensures kinds { IfSome (slice_get self.old.kinds v.kind) (λ t. self.new.kinds ≡ slice_set self.old.kinds v.kind (counted_in t v.agrees)) }
        ensures unread { self.new.unread ≡ self.old.unread }
    {
        self.kinds[v.kind].count(v.agrees);
    }

    // Prints how many were not read, if any were not: where all were, nothing is printed, and nothing fails.
    pub fn print_unread(&self, rt: &impl Print) -> io::Result<()>
        ensures { self.now.unread ≡ 0 → IsOk result }
    {
        if self.unread == 0 {
            return Ok(());
        }
        println!(rt; "unread {}", self.unread)
    }
}
