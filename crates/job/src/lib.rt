// The job file, read from lent bytes: its numbers, its entries, and the questions of the whole file.
// Not in the source.
#![tactic(auto)]

ghost use Rattle.std.specs.Prelude.{◌≡◌, ◌+◌, ◌*◌, ◌<◌};
ghost use Rattle.numbers.specs.Numbers.{number};
ghost use Rattle.job.specs.Files.{qubit_count_lem, entry_count_lem, entry, part_size_lem, entry_passes_lem, entries_pass_lem, file_questions_lem};
ghost use Rattle.job.specs.Answers.{entry_of, kind_of, part_kind_lem, file_number, number_of};

use questions::Refusal;

// The most bytes of a file, those before its entries, and those of an entry.
const LONGEST_FILE: u64 = 65536;

const HEAD_SIZE: u64 = 4;

const ENTRY_SIZE: u64 = 8;

// The last index of an entry or of a word whose place, 8 times the index, fits 64 bits. No file reaches past it.
const LAST_INDEX: u64 = u64::MAX / ENTRY_SIZE;

// What an entry's part holds.
#[derive(Clone, Copy, Debug, PartialEq, Eq, Hash)]
pub enum Kind {
    Rows,
    Gates,
}

// The kind byte of an entry is neither.
#[derive(Clone, Copy, Debug, PartialEq, Eq, Hash)]
pub struct UnknownKind;

impl TryFrom<u8> for Kind {
    type Error = UnknownKind;

    ghost try_from_gives = { λ byte r. r ≡ kind_of byte };

    fn try_from(byte: u8) -> Result<Kind, UnknownKind> {
        match byte {
            0 => Ok(Kind::Rows),
            1 => Ok(Kind::Gates),
            _ => Err(UnknownKind),
        }
    }
}

// An entry of the file, in the file's sizes; its kind is the file's byte, which may name none.
#[derive(Clone, Copy, Debug, PartialEq, Eq, Hash)]
pub struct Item {
    pub kind: u8,
    pub zero_byte: u8,
    pub count: u16,
    pub offset: u32,
}

impl Item {
    // What its part is read as: gates also where its byte names no kind.
    pub fn part_kind(self) -> Kind
        ensures { result ≡ part_kind_lem self.kind }
    {
        Kind::try_from(self.kind).unwrap_or(Kind::Gates)
    }

    // The bytes of its part: 8 for a row, 3 for a gate.
    pub fn part_size(self) -> u64
        ensures { result ≡ part_size_lem (entry_of self) }
    {
        let count = self.count as u64;
        match self.part_kind() {
            Kind::Rows => 8 * count,
            Kind::Gates => 3 * count,
        }
    }
}

// Which question of the file is answered no.
#[derive(Clone, Copy, Debug, PartialEq, Eq, Hash)]
pub enum FileError {
    BadLength,
    TooManyQubits,
    BadEntry,
}

impl Refusal for FileError {
    ghost number = { file_number };

    fn number(self) -> u64 {
        match self {
            FileError::BadLength => 12,
            FileError::TooManyQubits => 1,
            FileError::BadEntry => 13,
        }
    }
}

// ---- numbers

#[tactic(auto, unfolding(crate::specs::Files::qubit_count_lem))]
pub fn qubit_count(file: &[u8]) -> u64
    ensures { result ≡ qubit_count_lem file.now }
{
    numbers::number_at(file, 0, 0, 2)
}

#[tactic(auto, unfolding(crate::specs::Files::entry_count_lem))]
pub fn entry_count(file: &[u8]) -> u64
    ensures { (result ≡ entry_count_lem file.now) × (result < 65536) }
{
    numbers::number_at(file, 2, 0, 2)
}

// Word k of the part that begins at `offset`. Past the end, 0.
pub fn word_at(file: &[u8], offset: u64, k: u64) -> u64
    ensures { result ≡ number file.now (offset + 8 * k) 8 }
{
    if LAST_INDEX < k {
        return 0;
    }
    numbers::number_at(file, offset, 8 * k, 8)
}

// ---- entries

// Entry i. Past the end, all 0.
pub fn entry_at(file: &[u8], i: u64) -> Item
    ensures { entry_of result ≡ entry file.now i }
{
    if LAST_INDEX < i {
        return Item {
            kind: 0,
            zero_byte: 0,
            count: 0,
            offset: 0,
        };
    }
    let at = ENTRY_SIZE * i;
    let kind = numbers::number_at(file, HEAD_SIZE, at, 1) as u8;
    let zero_byte = numbers::number_at(file, HEAD_SIZE, at + 1, 1) as u8;
    let count = numbers::number_at(file, HEAD_SIZE, at + 2, 2) as u16;
    let offset = numbers::number_at(file, HEAD_SIZE, at + 4, 4) as u32;
    Item {
        kind,
        zero_byte,
        count,
        offset,
    }
}

// ---- questions

// Whether entry i has a known kind, a zero byte, and its part within the file.
#[tactic(auto, using(crate::proofs::Entries::known_kind, crate::proofs::Entries::part_le), unfolding(crate::specs::Files::entry_passes_lem))]
fn entry_passes(file: &[u8], i: u64) -> bool
    ensures { result ≡ entry_passes_lem file.now (entry file.now i) }
{
    let length = file.len() as u64;
    let e = entry_at(file, i);
    let end = e.offset as u64 + e.part_size();
    Kind::try_from(e.kind).is_ok() && e.zero_byte == 0 && end <= length
}

fn entries_pass(file: &[u8], k: u64) -> bool
    ensures { result ≡ entries_pass_lem file.now k }
{
    (0..k).all(|i| entry_passes(file, i))
}

// Questions 12, 1 and 13.
pub fn file_questions(file: &[u8]) -> Result<(), FileError>
    ensures { number_of result ≡ file_questions_lem file.now }
{
    let length = file.len() as u64;
    if length < HEAD_SIZE {
        return Err(FileError::BadLength);
    }
    if LONGEST_FILE < length {
        return Err(FileError::BadLength);
    }
    let k = entry_count(file);
    if length < HEAD_SIZE + ENTRY_SIZE * k {
        return Err(FileError::BadLength);
    }
    if symplectic::MAX_QUBITS < qubit_count(file) {
        return Err(FileError::TooManyQubits);
    }
    if !entries_pass(file, k) {
        return Err(FileError::BadEntry);
    }
    Ok(())
}
