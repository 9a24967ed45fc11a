// Gate sequences: the action of a sequence of gates, laid into lent rows.
// Not in the source.
#![tactic(auto)]

ghost use Rattle.std.specs.Prelude.{◌≡◌, true, map, ◌+◌, ◌<◌, ◌≤◌, length};
ghost use Rattle.binar.specs.Bits.{select, bit};
ghost use Rattle.binar.specs.Rows.{val, unit};
ghost use Rattle.numbers.specs.Numbers.{part};
ghost use Rattle.blocks.specs.Words.{rows_in_lem};
ghost use Rattle.blocks.specs.Matrices.{All};
ghost use Rattle.symplectic.specs.Turns.{followed_by};
ghost use Rattle.symplectic.specs.Sizes.{max_qubits};
ghost use Rattle.questions.specs.Replies.{Rebuilds};
ghost use Rattle.sheets.specs.Sheets.{gates_of, sheet_questions_lem};
ghost use Rattle.sheets.specs.inner.Seconds.{Second};
ghost use Rattle.gates.specs.Sequences.{turn_vector_lem, gate_questions, sequence_turns, gates_reply};
ghost use Rattle.gates.specs.Answers.{gate_number, gate_action_number, figures_of_lem};
ghost use Rattle.gates.specs.declared.GateActionError.TheVariants.{Sheet, Gate};
ghost use Rattle.gates.specs.inner.Readings.{number_of};

use binar::Row;
use questions::Refusal;
use sheets::{SheetError, SheetLine};
use symplectic::MAX_QUBITS;

// Which question of a gate is answered no.
#[derive(Clone, Copy, Debug, PartialEq, Eq, Hash)]
pub enum GateError {
    UnknownGate,
    QubitTooHigh,
    EqualQubits,
}

// Which question of a gate sequence is answered no.
#[derive(Clone, Copy, Debug, PartialEq, Eq, Hash)]
pub enum GateActionError {
    TooManyQubits,
    WrongRowCount,
    Sheet(SheetError),
    Gate(GateError),
}

impl From<SheetError> for GateActionError {
    ghost from_gives = { λ e s. s ≡ Sheet e };

    fn from(asked: SheetError) -> GateActionError {
        GateActionError::Sheet(asked)
    }
}

impl From<GateError> for GateActionError {
    ghost from_gives = { λ e g. g ≡ Gate e };

    fn from(asked: GateError) -> GateActionError {
        GateActionError::Gate(asked)
    }
}

impl Refusal for GateError {
    ghost number = { gate_number };

    fn number(self) -> u64 {
        match self {
            GateError::UnknownGate => 9,
            GateError::QubitTooHigh => 10,
            GateError::EqualQubits => 11,
        }
    }
}

impl Refusal for GateActionError {
    ghost number = { gate_action_number };

    fn number(self) -> u64 {
        match self {
            GateActionError::TooManyQubits => 1,
            GateActionError::WrongRowCount => 2,
            GateActionError::Sheet(e) => e.number(),
            GateActionError::Gate(e) => e.number(),
        }
    }
}

// Questions 9 to 11 of a gate that is on the sheet or not, and reads two qubits or one.
#[tactic(auto, unfolding(crate::specs::Sequences::gate_questions))]
fn question(n: u64, there: bool, two: bool, a: u8, b: u8) -> Result<(), GateError>
    ensures { number_of result ≡ gate_questions n there two a b }
{
    if !there {
        return Err(GateError::UnknownGate);
    }
    if n <= a as u64 {
        return Err(GateError::QubitTooHigh);
    }
    if !two {
        return Ok(());
    }
    if n <= b as u64 {
        return Err(GateError::QubitTooHigh);
    }
    if a == b {
        return Err(GateError::EqualQubits);
    }
    Ok(())
}

// The unit row of column k where the code has bit j, else the zero row.
fn unit_where(code: u8, j: usize, k: usize) -> Row
    ensures { val result ≡ select 0 (bit j code) (unit k) }
{
    if Row::from(code as u64).bit(j) {
        Row::unit(k)
    } else {
        Row::zero()
    }
}

// The vector of a turn on qubits a and b of n; b need be a qubit only where the code has a part on it.
fn turn_vector(n: usize, a: u8, b: u8, code: u8) -> Row
    requires { (n ≤ max_qubits) × (a < n) × (bit 1 code ≡ true → b < n) × (bit 3 code ≡ true → b < n) }
    ensures { val result ≡ turn_vector_lem n a b code }
{
    let p = a as usize;
    let q = b as usize;
    let x = unit_where(code, 0, p) ^ unit_where(code, 1, q);
    let y = x ^ unit_where(code, 2, n + p);
    y ^ unit_where(code, 3, n + q)
}

// Each row of words lent for work followed by the turns of a line of the sheet, on n qubits.
fn follow_gate(n: u64, w: &mut [u64], sheet: &[u8], l: SheetLine, a: u8, b: u8)
    requires { (n ≤ max_qubits) × (a < n) × (l.offset + l.count ≤ length sheet.now) × All (Second (b < n)) (part sheet.now l.offset l.count) }
    ensures { rows_in_lem w.new ≡ followed_by n (rows_in_lem w.old) (map (turn_vector_lem n a b) (part sheet.now l.offset l.count)) }
{
    let from = l.offset as usize;
    let to = from + l.count as usize;
    for code in &sheet[from..to] {
        symplectic::follow(n, w, turn_vector(n as usize, a, b, *code));
    }
}

// The action of the whole gates among the bytes, made in words lent for work and laid into lent rows, with a sheet that passes.
fn played(
    n: u64,
    sheet: &[u8],
    bytes: &[u8],
    w: &mut [u64],
    out: &mut [u64],
) -> Result<u64, GateActionError>
    requires { (n ≤ max_qubits) × (length (rows_in_lem w.old) ≡ n + n) × (length out.old ≡ n + n) × (sheet_questions_lem sheet.now ≡ 0) }
    ensures answered { figures_of_lem result ≡ (gates_reply n sheet.now bytes.now out.old).figures }
    ensures left { out.new ≡ (gates_reply n sheet.now bytes.now out.old).words }
    ensures replays { Rebuilds n (sequence_turns n (gates_of sheet.now) bytes.now) out.new (figures_of_lem result) }
{
    symplectic::put_identity(n, w);
    let known = sheets::gate_count(sheet);
    let (gates, _) = bytes.as_chunks::<3>();
    for gate in gates {
        let [g, a, b] = *gate;
        let l = sheets::line_at(sheet, g);
        question(n, g < known, l.qubits == 2, a, b)?;
        follow_gate(n, w, sheet, l, a, b);
    }
    actions::store(actions::from_rows(n, &w[..]), out);
    Ok(n + n)
}

// The action of the whole gates among the bytes, three bytes each, in exactly 2n lent rows, with the sheet in force: how many rows these are.
pub fn gate_action(
    n: u64,
    sheet: &[u8],
    bytes: &[u8],
    out: &mut [u64],
) -> Result<u64, GateActionError>
    ensures answered { figures_of_lem result ≡ (gates_reply n sheet.now bytes.now out.old).figures }
    ensures left { out.new ≡ (gates_reply n sheet.now bytes.now out.old).words }
    ensures replays { Rebuilds n (sequence_turns n (gates_of sheet.now) bytes.now) out.new (figures_of_lem result) }
{
    if MAX_QUBITS < n {
        return Err(GateActionError::TooManyQubits);
    }
    let count = n + n;
    let m = count as usize;
    if out.len() != m {
        return Err(GateActionError::WrongRowCount);
    }
    sheets::sheet_questions(sheet)?;
    let mut w = [0u64; symplectic::MOST_ROWS];
    let to = blocks::start(&w, m);
    played(n, sheet, bytes, &mut w[..to], out)
}
