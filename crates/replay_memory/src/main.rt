// replay_memory: reads reference answers of the minimal call with a lent memory, records, from standard input, makes the call of each, and
// counts the whole answers that agree, the memory that is left among them.
// A record is a header of 40 bytes, little-endian, and words: the rows, the list, and the entries of the memory. See tools/mkreplay.
// Not in the source.
#![tactic(auto)]

ghost use Rattle.std.specs.Prelude.{◌≡◌, ◌*◌, ◌-◌, ◌≤◌, ◌↔◌, IsTrue, length};
ghost use Rattle.std.proofs.Common.{rules};
ghost use Rattle.records.proofs.Sizes.{words_have_room};

use memory::ENTRY;
use numbers::number_at;
use questions::Figures;
use records::Record;
use records::score::Verdict;
use records::words::{FILL, alike, lay, words_of};
use std::io;

// How many words a record has room for, and how many are lent at most for the list and for the memory.
const WORDS: usize = 512;

const ROOM: usize = 128;

const MEMORY: usize = 6500;

// A record's header: the size of a word in bytes, how many words follow, how many of them are rows, how many behind those are listed, how
// many entries the rest is, how many words are lent for the list and for the memory, and the call and its answer.
#[derive(Clone, Copy)]
struct Case {
    size: usize,
    words: usize,
    rows: usize,
    count: usize,
    entries: usize,
    room: usize,
    memory: usize,
    number: u64,
    n: u64,
    budget: u64,
    looks: u64,
    ghost size_fits: { size ≤ 8 },
    ghost words_fit: { words ≤ 512 },
    ghost rows_among: { rows ≤ words },
    ghost list_among: { count ≤ words - rows },
    ghost entries_fit: { entries ≤ 100 },
    ghost output_fits: { room ≤ 128 },
    ghost memory_fits: { memory ≤ 6500 },
}

impl Record<1> for Case {
    ghost HEAD = { 40 };

    const HEAD: usize = 40;

    ghost size = { λ c. c.words * c.size };

    ghost head_has_room = { Prim.search rules };

    ghost has_room = { λ c. words_have_room c.words c.size c.words_fit c.size_fits };

    fn of_head(head: &[u8]) -> Option<Case> {
        let size = number_at(head, 0, 0, 1) as usize;
        let words = number_at(head, 0, 2, 2) as usize;
        let rows = number_at(head, 0, 4, 2) as usize;
        let count = number_at(head, 0, 6, 2) as usize;
        let entries = number_at(head, 0, 8, 2) as usize;
        let room = number_at(head, 0, 10, 2) as usize;
        let memory = number_at(head, 0, 12, 4) as usize;
        if 8 < size || WORDS < words || words < rows || words - rows < count {
            return None;
        }
        if 100 < entries || ROOM < room || MEMORY < memory {
            return None;
        }
        Some(Case {
            size,
            words,
            rows,
            count,
            entries,
            room,
            memory,
            number: number_at(head, 0, 1, 1),
            n: number_at(head, 0, 16, 8),
            budget: number_at(head, 0, 24, 8),
            looks: number_at(head, 0, 32, 8),
        })
    }

    fn size(&self) -> usize {
        self.words * self.size
    }

    fn verdict(&self, bytes: &[u8]) -> Option<Verdict> {
        let words = words_of::<WORDS>(bytes, self.size, self.words);
        Some(Verdict {
            kind: 0,
            agrees: agrees(self, &words[..self.words]),
        })
    }
}

// The output words that hold a list.
fn output_of(list: &[u64]) -> [u64; ROOM] {
    let mut out = [FILL; ROOM];
    lay(list, &mut out);
    out
}

// The memory that holds some entries, each a dimension and as many rows in the words, with zeros behind them in the memory.
fn memory_of(entries: usize, words: &[u64]) -> [u64; MEMORY]
    requires { entries ≤ 100 }
{
    let mut memory = [FILL; MEMORY];
    let mut left = words;
    for entry in memory[..ENTRY * entries].chunks_exact_mut(ENTRY) {
        let rows = left.first().map_or(0, |d| (*d).min(64) as usize);
        let (held, behind) = left.split_at(left.len().min(1 + rows));
        entry.fill(0);
        lay(held, entry);
        left = behind;
    }
    memory
}

// The figures of the call.
fn call(c: &Case, rows: &[u64], memory: &mut [u64], out: &mut [u64]) -> Figures {
    let a = transvection_exact::clifford_to_transvections_minimal_remembering(
        c.n, rows, c.budget, memory, out,
    );
    transvection_exact::figures_of(a)
}

// Whether an answer is that of the record: its figures, and every word of the list.
fn answered(c: &Case, a: Figures, want: &[u64], out: &[u64]) -> bool
    ensures { IsTrue result ↔ (a.number ≡ c.now.number) × (a.count ≡ c.now.count)
        × (a.looks ≡ c.now.looks) × (want.now ≡ out.now) }
{
    let figures = [a.number, a.count, a.looks];
    alike([c.number, c.count as u64, c.looks], figures, want, out)
}

// Makes the call of a record and compares all that it answers and leaves, words past the list and past the entries among them.
fn agrees(c: &Case, words: &[u64]) -> bool
    requires { length words.now ≡ c.now.words }
{
    let (rows, behind) = words.split_at(c.rows);
    let (list, entries) = behind.split_at(c.count);
    let want_memory = memory_of(c.entries, entries);
    let mut memory = [FILL; MEMORY];
    let mut out = [FILL; ROOM];
    let figures = call(c, rows, &mut memory[..c.memory], &mut out[..c.room]);
    answered(c, figures, &output_of(list), &out) && want_memory == memory
}

fn main(rt: HostRuntime) -> io::Result<()> {
    let score = records::read_all::<1, Case, _>(&mut rt.stdin());
    println!(rt; "memory {}", score.kinds[0])?;
    score.print_unread(&rt)
}
