// The printout of a job file, page by page: the minimal list and the greedy list of each entry's action.
// Not in the source.
#![tactic(auto)]

ghost use Rattle.std.specs.Prelude.{◌≡◌, Ok, Some, [], ◌+◌, ◌*◌, ◌<◌, ◌≤◌, length, get_or, take};
ghost use Rattle.symplectic.specs.Sizes.{max_qubits, most_rows};
ghost use Rattle.questions.specs.Replies.{refused};
ghost use Rattle.gates.specs.Sequences.{table_reply};
ghost use Rattle.numbers.specs.Numbers.{part};
ghost use Rattle.job.specs.Files.{qubit_count_lem, entry_count_lem, entry, file_questions_lem};
ghost use Rattle.lines.specs.Lines.{line};
ghost use Rattle.lines.specs.Bytes.{line_room, bytes_of, name_bytes};
ghost use Rattle.printout.specs.Printout.{blank_words, list_words, words_of_bytes, entry_action, call_reply, entry_line, file_lines};
ghost use Rattle.printout.specs.Pages.{page_reply, Onward, answer_of};
ghost use Rattle.printout.specs.inner.Held.{entry_number, Held};
ghost use Rattle.printout.specs.declared.EntryError.TheVariants.{Gates};

use gates::GateActionError;
use job::{FileError, Kind};
use lines::{Line, Name};
use questions::{Figures, Refusal};
use symplectic::MOST_ROWS;
use transvection::clifford_to_transvections;
use transvection_exact::clifford_to_transvections_minimal;

// The most looks of the search.
const JOB_BUDGET: u64 = 1000000;

// How many words a list has room for: 4n + 2 at the most qubits.
const LIST_ROOM: usize = 130;

// How many lines stand in the lent bytes, and how many bytes they take.
#[derive(Clone, Copy, Debug, PartialEq, Eq, Hash)]
pub struct Page {
    pub count: u64,
    pub bytes: u64,
}

// Why the action of an entry is not known: both of its lines tell the refusal.
#[derive(Clone, Copy, Debug, PartialEq, Eq, Hash)]
enum EntryError {
    WrongRowCount,
    Gates(GateActionError),
}

impl From<GateActionError> for EntryError {
    ghost from_gives = { λ e r. r ≡ Gates e };

    fn from(e: GateActionError) -> EntryError {
        EntryError::Gates(e)
    }
}

impl Refusal for EntryError {
    ghost number = { entry_number };

    fn number(self) -> u64 {
        match self {
            EntryError::WrongRowCount => 2,
            EntryError::Gates(e) => e.number(),
        }
    }
}

// ---- the action of an entry

// The m words of the part that begins at `offset`.
fn action_rows(file: &[u8], offset: u64, m: u64) -> [u64; MOST_ROWS]
    requires { m ≤ most_rows }
    ensures { take m result ≡ words_of_bytes m (part file.now offset (8 * m)) }
{
    let mut rows: [u64; MOST_ROWS] = [0; MOST_ROWS];
    for (k, row) in rows[..m as usize].iter_mut().enumerate() {
        *row = job::word_at(file, offset, k as u64);
    }
    rows
}

// The action of a sequence of our six gates.
#[tactic(auto, using(crate::proofs::Lent::lent_length, crate::proofs::Holding::gates_refused, gates::proofs::SixGates::six_as_table))]
fn gate_rows(n: u64, bytes: &[u8]) -> Result<[u64; MOST_ROWS], EntryError>
    requires { n ≤ max_qubits }
    ensures { Held n (table_reply n bytes.now (blank_words (n + n))) result }
{
    let mut rows: [u64; MOST_ROWS] = [0; MOST_ROWS];
    let m = (n + n) as usize;
    let sheet = sheets::six_gates();
    gates::gate_action(n, &sheet, bytes, &mut rows[..m])?;
    Ok(rows)
}

// ---- the lines of an entry

// The line of a refusal before either call.
#[tactic(auto, using(lines::proofs::Fits::line_figures))]
fn refusal_line(n: u64, i: u64, which: Name, number: u64) -> Line
    requires { n ≤ max_qubits }
    ensures { bytes_of result ≡ line n i (name_bytes which) (refused number 0 []) }
{
    lines::entry_line(n, i, which, questions::nothing_listed(number), &[])
}

// The call that a name stands for: its figures, and its list in `out`.
fn call(which: Name, n: u64, rows: &[u64], out: &mut [u64]) -> Figures
    ensures answered { result ≡ (call_reply which n rows.now out.old).figures }
    ensures left { out.new ≡ (call_reply which n rows.now out.old).words }
{
    match which {
        Name::Min => {
            let answer = clifford_to_transvections_minimal(n, rows, JOB_BUDGET, out);
            transvection_exact::figures_of(answer)
        }
        Name::Greedy => {
            let answer = clifford_to_transvections(n, rows, out);
            questions::figures_of(answer)
        }
    }
}

// The line of the list of an action.
#[tactic(auto, using(crate::proofs::Lent::lent_length, crate::proofs::Lent::left_room, crate::proofs::Lent::left_count))]
fn answer_line(n: u64, i: u64, which: Name, rows: [u64; MOST_ROWS]) -> Line
    requires { n ≤ max_qubits }
    ensures { bytes_of result ≡ line n i (name_bytes which) (call_reply which n (take (n + n) rows) (list_words n)) }
{
    let mut out: [u64; LIST_ROOM] = [0; LIST_ROOM];
    let m = (n + n) as usize;
    let k = (4 * n + 2) as usize;
    let figures = call(which, n, &rows[..m], &mut out[..k]);
    lines::entry_line(n, i, which, figures, &out[..k])
}

// ---- the entries, lines and pages of a file

// A file that passes its questions, its count of qubits, and how many lines its printout has.
#[derive(Clone, Copy)]
struct Job<'a> {
    file: &'a [u8],
    n: u64,
    lines: u64,
    ghost passes: { file_questions_lem file.now ≡ 0 },
    ghost sized: { n ≡ qubit_count_lem file.now },
    ghost few: { n ≤ max_qubits },
    ghost counted: { lines ≡ 2 * entry_count_lem file.now },
}

impl<'a> Job<'a> {
    // The action of entry i. Another count of rows than 2n both calls refuse with 2.
    #[tactic(auto, using(crate::proofs::Holding::part_within, crate::proofs::Holding::rows_miscounted, crate::proofs::Holding::rows_given, crate::proofs::Holding::gates_made))]
    fn entry_rows(&self, i: u64) -> Result<[u64; MOST_ROWS], EntryError>
        requires { i < entry_count_lem self.now.file.now }
        ensures { Held self.now.n (entry_action self.now.file.now (entry self.now.file.now i)) result }
    {
        let e = job::entry_at(self.file, i);
        let offset = e.offset as u64;
        let count = e.count as u64;
        match e.part_kind() {
            Kind::Rows => {
                if count != self.n + self.n {
                    return Err(EntryError::WrongRowCount);
                }
                Ok(action_rows(self.file, offset, count))
            }
            Kind::Gates => {
                let from = offset as usize;
                let to = (offset + e.part_size()) as usize;
                gate_rows(self.n, &self.file[from..to])
            }
        }
    }

    // The line of a name, of entry i.
    #[tactic(auto, using(crate::proofs::Printing::line_passed, crate::proofs::Printing::line_refused))]
    fn line_of(&self, i: u64, which: Name) -> Line
        requires { i < entry_count_lem self.now.file.now }
        ensures { bytes_of result ≡ entry_line self.now.file.now i which }
    {
        match self.entry_rows(i) {
            Ok(rows) => answer_line(self.n, i, which, rows),
            Err(e) => refusal_line(self.n, i, which, e.number()),
        }
    }

    // Line k of the printout.
    #[tactic(auto, using(crate::proofs::Numbered::file_named))]
    fn line_at(&self, k: u64) -> Line
        requires { k < self.now.lines }
        ensures { bytes_of result ≡ get_or (file_lines self.now.file.now) k [] }
    {
        let i = k / 2;
        if k % 2 == 0 {
            self.line_of(i, Name::Min)
        } else {
            self.line_of(i, Name::Greedy)
        }
    }

    // The lines from `from` on, as many as `out` has room for.
    #[tactic(auto, using(crate::proofs::Numbered::file_lines_lem, crate::proofs::Filling::filled_none, crate::proofs::Filling::filled_last, crate::proofs::Filling::filled_full, crate::proofs::Paging::page_filled))]
    fn fill_page(&self, from: u64, out: &mut [u8]) -> Page
        requires { from < self.now.lines }
        ensures answered { answer_of (Ok (Some result)) ≡ (page_reply self.now.file.now from out.old).answer }
        ensures left { out.new ≡ (page_reply self.now.file.now from out.old).bytes }
        ensures onward { line_room ≤ length out.old → Onward (answer_of (Ok (Some result))) }
    {
        let mut used: usize = 0;
        for k in from..self.lines {
            let l = self.line_at(k);
            let size = l.len();
            if out.len() - used < size {
                return Page {
                    count: k - from,
                    bytes: used as u64,
                };
            }
            l.lay(&mut out[used..]);
            used += size;
        }
        Page {
            count: self.lines - from,
            bytes: used as u64,
        }
    }
}

// The lines of the printout from line `from` on, as many whole ones as `out` has room for, or none where there is no such line. Line 2i is
// the minimal list of entry i, line 2i + 1 its greedy list. A page with room for the longest line has a line, where one is left.
#[tactic(auto, using(crate::proofs::Numbered::file_lines_lem, crate::proofs::Paging::page_error, crate::proofs::Paging::page_past, job::proofs::Checks::passed_qubits))]
pub fn print_page(file: &[u8], from: u64, out: &mut [u8]) -> Result<Option<Page>, FileError>
    ensures answered { answer_of result ≡ (page_reply file.now from out.old).answer }
    ensures left { out.new ≡ (page_reply file.now from out.old).bytes }
    ensures onward { line_room ≤ length out.old → Onward (answer_of result) }
{
    job::file_questions(file)?;
    let job = Job {
        file,
        n: job::qubit_count(file),
        lines: 2 * job::entry_count(file),
    };
    if job.lines <= from {
        return Ok(None);
    }
    Ok(Some(job.fill_page(from, out)))
}
