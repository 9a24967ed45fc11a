// replay_sheets: reads reference answers of gate sheets and of sequences of their gates, records, from standard input, loads the sheet of each over
// our six gates, plays its sequence with the lent sheet and with the one in force, and counts the whole answers that agree.
// A record is a header of 24 bytes, little-endian, and then the sheet, the sequence, and the rows of its action. See tools/mkreplay.
// Not in the source.
#![tactic(auto)]

ghost use Rattle.std.specs.Prelude.{◌≡◌, ◌==◌, ◌+◌, ◌*◌, ◌≤◌, ◌↔◌, IsTrue, length, if◌then◌else◌};
ghost use Rattle.std.proofs.Common.{rules};
ghost use Rattle.records.proofs.Sizes.{bytes_have_room};

use numbers::number_at;
use questions::Figures;
use records::Record;
use records::score::Verdict;
use records::words::{FILL, alike, words_of};
use std::io;

// How many output words there are at most.
const ROOM: usize = 66;

// A record's header: how many bytes the sheet and the sequence take, how many rows follow, how many output words are lent, the qubit count,
// and the numbers that the load, the call with the lent sheet and the call with the sheet in force answer.
#[derive(Clone, Copy)]
struct Case {
    sheet: usize,
    gates: usize,
    count: usize,
    room: usize,
    n: u64,
    loaded: u64,
    lent: u64,
    in_force: u64,
    ghost sheet_fits: { sheet ≤ 2048 },
    ghost gates_fit: { gates ≤ 1024 },
    ghost rows_fit: { count ≤ 64 },
    ghost output_fits: { room ≤ 66 },
}

impl Record<1> for Case {
    ghost HEAD = { 24 };

    const HEAD: usize = 24;

    ghost size = { λ c. c.sheet + c.gates + 8 * c.count };

    ghost head_has_room = { Prim.search rules };

    ghost has_room = { λ c. bytes_have_room c.sheet c.gates c.count c.sheet_fits c.gates_fit c.rows_fit };

    fn of_head(head: &[u8]) -> Option<Case> {
        let sheet = number_at(head, 0, 0, 4) as usize;
        let gates = number_at(head, 0, 4, 4) as usize;
        let count = number_at(head, 0, 8, 2) as usize;
        let room = number_at(head, 0, 10, 2) as usize;
        if 2048 < sheet || 1024 < gates || 64 < count || ROOM < room {
            return None;
        }
        Some(Case {
            sheet,
            gates,
            count,
            room,
            loaded: number_at(head, 0, 12, 1),
            lent: number_at(head, 0, 13, 1),
            in_force: number_at(head, 0, 14, 1),
            n: number_at(head, 0, 16, 8),
        })
    }

    fn size(&self) -> usize {
        self.sheet + self.gates + 8 * self.count
    }

    fn verdict(&self, bytes: &[u8]) -> Option<Verdict> {
        Some(Verdict {
            kind: 0,
            agrees: agrees(self, bytes),
        })
    }
}

// The figures of a call of a sequence.
fn play(n: u64, sheet: &[u8], gates: &[u8], out: &mut [u64]) -> Figures {
    questions::figures_of(gates::gate_action(n, sheet, gates, out))
}

// How many rows an answer lists, by its number.
fn listed(count: usize, number: u64) -> usize
    ensures { result ≡ (if number == 0 then count else 0) }
{
    if number == 0 { count } else { 0 }
}

// Whether an answer is that of the record: its figures, with no looks, and every word.
fn answered(number: u64, count: usize, a: Figures, want: &[u64], out: &[u64]) -> bool
    ensures { IsTrue result ↔ (a.number ≡ number) × (a.count ≡ count) × (a.looks ≡ 0)
        × (want.now ≡ out.now) }
{
    let figures = [a.number, a.count, a.looks];
    alike([number, count as u64, 0], figures, want, out)
}

// Plays a sequence with a sheet and compares all that the call answers and leaves: a refusal leaves every word.
fn plays(c: &Case, number: u64, sheet: &[u8], gates: &[u8], rows: &[u8]) -> bool {
    let count = listed(c.count, number);
    let want = words_of::<ROOM>(rows, 8, count);
    let mut out = [FILL; ROOM];
    let figures = play(c.n, sheet, gates, &mut out[..c.room]);
    answered(number, count, figures, &want, &out)
}

// Loads the sheet of a record, and plays its sequence twice.
fn agrees(c: &Case, bytes: &[u8]) -> bool
    requires { length bytes.now ≡ c.now.sheet + c.now.gates + 8 * c.now.count }
{
    let (sheet, behind) = bytes.split_at(c.sheet);
    let (gates, rows) = behind.split_at(c.gates);
    let former = sheets::six_gates();
    let loaded = sheets::load_sheet(sheet, &former);
    questions::asked_number(loaded.asked) == c.loaded
        && plays(c, c.lent, sheet, gates, rows)
        && plays(c, c.in_force, loaded.in_force, gates, rows)
}

fn main(rt: HostRuntime) -> io::Result<()> {
    let score = records::read_all::<1, Case, _>(&mut rt.stdin());
    println!(rt; "sheets {}", score.kinds[0])?;
    score.print_unread(&rt)
}
