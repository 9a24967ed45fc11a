// replay: reads reference answers, records, from standard input, makes the call of each, and counts the whole answers that agree.
// A record is a header of 36 bytes, little-endian, and two runs of words: what is lent, and what is listed. See tools/mkreplay.
// Not in the source.
#![tactic(auto)]

mod calls;
mod kind;

ghost use Rattle.std.specs.Prelude.{◌≡◌, ◌+◌, ◌*◌, ◌-◌, ◌≤◌, length};
ghost use Rattle.std.proofs.Common.{rules};
ghost use Rattle.records.proofs.Sizes.{runs_have_room};

use kind::{KINDS, Kind};
use numbers::number_at;
use records::Record;
use records::score::{Counts, Verdict};
use records::words::{FILL, words_of};
use std::io;

// How many words are lent at most, and how many output words.
const LENT: usize = 320;

const ROOM: usize = 1024;

// A record's header: the call, the size of a word in bytes, how many words are lent and listed, and the answer. Of a choice between two
// lists, rows and the first list are the lent words from the start, and the second list is the rest.
#[derive(Clone, Copy)]
struct Case {
    kind: Option<Kind>,
    size: usize,
    lent: usize,
    room: usize,
    number: u64,
    count: usize,
    n: u64,
    budget: u64,
    looks: u64,
    rows: usize,
    first: usize,
    ghost size_fits: { size ≤ 8 },
    ghost lent_fit: { lent ≤ 320 },
    ghost output_fits: { room ≤ 1024 },
    ghost list_fits: { count ≤ 160 },
    ghost rows_among: { rows ≤ lent },
    ghost first_among: { first ≤ lent - rows },
}

impl Record<KINDS> for Case {
    ghost HEAD = { 36 };

    const HEAD: usize = 36;

    ghost size = { λ c. (c.lent + c.count) * c.size };

    ghost head_has_room = { Prim.search rules };

    ghost has_room = { λ c. runs_have_room c.lent c.count c.size c.lent_fit c.list_fits c.size_fits };

    fn of_head(head: &[u8]) -> Option<Case> {
        let size = number_at(head, 0, 1, 1) as usize;
        let lent = number_at(head, 0, 2, 2) as usize;
        let room = number_at(head, 0, 4, 2) as usize;
        let count = number_at(head, 0, 7, 1) as usize;
        let rows = number_at(head, 0, 32, 2) as usize;
        let first = number_at(head, 0, 34, 2) as usize;
        if 8 < size || LENT < lent || ROOM < room || 160 < count {
            return None;
        }
        if lent < rows || lent - rows < first {
            return None;
        }
        Some(Case {
            kind: Kind::try_from(number_at(head, 0, 0, 1)).ok(),
            size,
            lent,
            room,
            number: number_at(head, 0, 6, 1),
            count,
            n: number_at(head, 0, 8, 8),
            budget: number_at(head, 0, 16, 8),
            looks: number_at(head, 0, 24, 8),
            rows,
            first,
        })
    }

    fn size(&self) -> usize {
        (self.lent + self.count) * self.size
    }

    fn verdict(&self, bytes: &[u8]) -> Option<Verdict> {
        let kind = self.kind?;
        Some(Verdict {
            kind: kind as usize,
            agrees: agrees(self, kind, bytes),
        })
    }
}

// Makes the call of a record and compares all that it answers and leaves, words past the count among them.
fn agrees(c: &Case, kind: Kind, bytes: &[u8]) -> bool
    requires { length bytes.now ≡ (c.now.lent + c.now.count) * c.now.size }
{
    let (lent, listed) = bytes.split_at(c.lent * c.size);
    let lent = words_of::<LENT>(lent, c.size, c.lent);
    let want = words_of::<ROOM>(listed, c.size, c.count);
    let mut out = [FILL; ROOM];
    let figures = calls::call(c, kind, &lent[..c.lent], &mut out[..c.room]);
    calls::answered(c, figures, &want, &out)
}

fn main(rt: HostRuntime) -> io::Result<()> {
    let score = records::read_all::<KINDS, Case, _>(&mut rt.stdin());
    for (kind, counts) in Kind::ALL.iter().zip(&score.kinds) {
        if *counts != Counts::default() {
            println!(rt; "{kind} {counts}")?;
        }
    }
    score.print_unread(&rt)
}
