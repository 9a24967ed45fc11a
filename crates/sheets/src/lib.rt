// Gate sheets, read from lent bytes: their lines, their questions, the sheet in force, and our six gates as a sheet.
// Not in the source.
#![tactic(auto)]

ghost use Rattle.std.specs.Prelude.{◌≡◌, true, take, drop};
ghost use Rattle.std.specs.List.{list_all, range_with_len};
ghost use Rattle.sheets.specs.Sheets.{gate_count_lem, line, gate_of, line_fits_lem, well_formed_lem, turn_fits_lem, gate_fits_lem, sheet_questions_lem, in_force, StaysSound};
ghost use Rattle.sheets.specs.Six.{six_gates_lem};
ghost use Rattle.sheets.specs.Answers.{sheet_number, number_of};

use binar::Row;
use questions::Refusal;

// The most gates of a sheet, the most turns of a gate, and the bytes of a gate's line.
const MOST_GATES: u8 = 64;

const MOST_TURNS: u8 = 6;

const LINE_SIZE: u64 = 4;

// Our six gates, H, S, root X, CX, CZ, SWAP, as a sheet: the count, six lines, and the turns in the same order.
pub const SIX_GATES: [u8; 37] = [
    6, 1, 1, 25, 0, 1, 1, 26, 0, 1, 1, 27, 0, 2, 3, 28, 0, 2, 3, 31, 0, 2, 3, 34, 0, 5, 4, 1, 4, 6,
    2, 4, 12, 8, 3, 15, 12,
];

// The line of a gate: how many qubits it reads, how many turns it has, and the offset of these from the sheet's start.
#[derive(Clone, Copy, Debug, PartialEq, Eq, Hash)]
pub struct SheetLine {
    pub qubits: u8,
    pub count: u8,
    pub offset: u16,
}

// Which question of a sheet is answered no.
#[derive(Clone, Copy, Debug, PartialEq, Eq, Hash)]
pub enum SheetError {
    Malformed,
    BadTurn,
}

impl Refusal for SheetError {
    ghost number = { sheet_number };

    fn number(self) -> u64 {
        match self {
            SheetError::Malformed => 15,
            SheetError::BadTurn => 16,
        }
    }
}

// Our six gates.
#[tactic(auto, unfolding(crate::specs::Six::six_gates_lem))]
pub fn six_gates() -> [u8; 37]
    ensures { result ≡ six_gates_lem }
{
    SIX_GATES
}

// ---- lines

// How many gates a sheet has. An empty one, 0.
#[tactic(auto, unfolding(crate::specs::Sheets::gate_count_lem))]
pub fn gate_count(sheet: &[u8]) -> u8
    ensures { result ≡ gate_count_lem sheet.now }
{
    numbers::number_at(sheet, 0, 0, 1) as u8
}

// The line of gate g. Past the end, all 0.
#[tactic(auto, unfolding(crate::specs::Sheets::line))]
pub fn line_at(sheet: &[u8], g: u8) -> SheetLine
    ensures { result ≡ line sheet.now g }
{
    let at = 1 + LINE_SIZE * (g as u64);
    let qubits = numbers::number_at(sheet, at, 0, 1) as u8;
    let count = numbers::number_at(sheet, at, 1, 1) as u8;
    let offset = numbers::number_at(sheet, at, 2, 2) as u16;
    SheetLine {
        qubits: qubits,
        count: count,
        offset: offset,
    }
}

// ---- questions

// Whether the counts of a line are in their ranges, and its turns within the sheet.
#[tactic(auto, unfolding(crate::specs::Sheets::line_fits_lem))]
fn line_fits(sheet: &[u8], l: SheetLine) -> bool
    ensures { result ≡ line_fits_lem sheet.now l }
{
    (1..=2).contains(&l.qubits)
        && l.count <= MOST_TURNS
        && l.offset as u64 + l.count as u64 <= sheet.len() as u64
}

// Whether every line fits.
fn lines_fit(sheet: &[u8]) -> bool
    ensures { result ≡ list_all (λ g. line_fits_lem sheet.now (line sheet.now g)) (range_with_len 0 (gate_count_lem sheet.now)) }
{
    (0..gate_count(sheet)).all(|g| line_fits(sheet, line_at(sheet, g)))
}

// Question 15.
#[tactic(auto, using(crate::proofs::Lines::well_formed_is), unfolding(crate::specs::Sheets::well_formed_lem))]
fn well_formed(sheet: &[u8]) -> bool
    ensures { result ≡ well_formed_lem sheet.now }
{
    let count = gate_count(sheet);
    (1..=MOST_GATES).contains(&count)
        && 1 + LINE_SIZE * (count as u64) <= sheet.len() as u64
        && lines_fit(sheet)
}

// Whether a turn is a code of four bits, not zero, and has a part on the second qubit only where the gate reads two.
#[tactic(auto, unfolding(crate::specs::Sheets::turn_fits_lem))]
fn turn_fits(qubits: u8, code: u8) -> bool
    ensures { result ≡ turn_fits_lem qubits code }
{
    let turn = Row::from(code as u64);
    (1..=15).contains(&code) && (qubits == 2 || !(turn.bit(1) || turn.bit(3)))
}

// Whether some bytes of a sheet, from a place on, are turns that fit a gate.
fn turns_fit(qubits: u8, sheet: &[u8], from: usize, count: usize) -> bool
    ensures { result ≡ list_all (turn_fits_lem qubits) (take count (drop from sheet.now)) }
{
    sheet
        .iter()
        .skip(from)
        .take(count)
        .all(|code| turn_fits(qubits, *code))
}

// Whether every turn of a line fits.
#[tactic(auto, using(crate::proofs::Lines::gate_fits_is))]
fn gate_fits(sheet: &[u8], l: SheetLine) -> bool
    ensures { result ≡ gate_fits_lem (gate_of sheet.now l) }
{
    turns_fit(l.qubits, sheet, l.offset as usize, l.count as usize)
}

// Question 16.
fn gates_fit(sheet: &[u8]) -> bool
    ensures { result ≡ list_all (λ g. gate_fits_lem (gate_of sheet.now (line sheet.now g))) (range_with_len 0 (gate_count_lem sheet.now)) }
{
    (0..gate_count(sheet)).all(|g| gate_fits(sheet, line_at(sheet, g)))
}

// Questions 15 and 16.
#[tactic(auto, using(crate::proofs::Lines::gates_by_index), unfolding(crate::specs::Sheets::sheet_questions_lem))]
pub fn sheet_questions(sheet: &[u8]) -> Result<(), SheetError>
    ensures { number_of result ≡ sheet_questions_lem sheet.now }
{
    if !well_formed(sheet) {
        return Err(SheetError::Malformed);
    }
    if !gates_fit(sheet) {
        return Err(SheetError::BadTurn);
    }
    Ok(())
}

// ---- the sheet in force

// The sheet in force, and what the questions of the lent one answered.
#[derive(Clone, Copy, Debug, PartialEq, Eq, Hash)]
pub struct Loaded<'a> {
    pub in_force: &'a [u8],
    pub asked: Result<(), SheetError>,
}

// The sheet in force from now on: the lent one itself if it passes, else the former one itself.
pub fn load_sheet<'a>(lent: &'a [u8], former: &'a [u8]) -> Loaded<'a>
    ensures part { result.in_force.now ≡ in_force (sheet_questions_lem lent.now) lent.now former.now }
    ensures place { result.in_force.ref_ptr ≡ in_force (sheet_questions_lem lent.now) lent.entry.ref_ptr former.entry.ref_ptr }
    ensures told { number_of result.asked ≡ sheet_questions_lem lent.now }
    ensures sound { StaysSound former.now result.in_force.now }
{
    match sheet_questions(lent) {
        Ok(()) => Loaded {
            in_force: lent,
            asked: Ok(()),
        },
        Err(e) => Loaded {
            in_force: former,
            asked: Err(e),
        },
    }
}
