// A line of the printout. Each method writes behind the bytes that a line has.
// Not in the source.
#![tactic(auto)]

ghost use Rattle.std.specs.Prelude.{◌≡◌, [], ◌∷◌, ◌++◌, ◌+◌, ◌≤◌, length, take};
ghost use Rattle.binar.specs.Rows.{val};
ghost use Rattle.blocks.specs.Words.{rows_of_words};
ghost use Rattle.letters.specs.Letters.{spelling};
ghost use Rattle.lines.specs.Lines.{decimal as decimal_of, touched as touched_of, load as load_of, space, spelled as spelled_of, field as field_of, line as line_of, file_line_lem};
ghost use Rattle.lines.specs.Bytes.{line_room, bytes_of, laid_bytes, name_bytes};

use binar::Row;
use questions::Figures;

// How many bytes a line has room for: the longest greedy list fits. What does not fit is cut.
pub const LINE_ROOM: usize = 4608;

#[derive(Clone, Copy)]
pub struct Line {
    pub bytes: [u8; LINE_ROOM],
    pub count: usize,
}

#[derive(Clone, Copy, Debug, PartialEq, Eq, Hash)]
pub enum Name {
    Min,
    Greedy,
}

impl Line {
    #[tactic(auto, unfolding(crate::specs::Bytes::bytes_of))]
    fn new() -> Line
        ensures { bytes_of result ≡ [] }
    {
        Line {
            bytes: [0; LINE_ROOM],
            count: 0,
        }
    }

    #[tactic(auto, using(crate::proofs::Cuts::bytes_shown))]
    pub fn as_slice(&self) -> &[u8]
        ensures { result.now ≡ bytes_of self.now }
    {
        &self.bytes[..self.len()]
    }

    // How many bytes a line has.
    #[tactic(auto, using(crate::proofs::Cuts::bytes_length))]
    pub fn len(&self) -> usize
        ensures counted { result ≡ length (bytes_of self.now) }
        ensures within { length (bytes_of self.now) ≤ line_room }
    {
        self.count.min(LINE_ROOM)
    }

    // Lays a line from the start of lent bytes.
    pub fn lay(&self, out: &mut [u8])
        ensures { out.new ≡ laid_bytes (bytes_of self.now) out.old }
    {
        let text = self.as_slice();
        let k = text.len().min(out.len());
        out[..k].copy_from_slice(&text[..k]);
    }

    fn push(&mut self, b: u8)
        ensures { bytes_of self.new ≡ take line_room (bytes_of self.old ++ (b ∷ [])) }
    {
        if self.count < LINE_ROOM {
            self.bytes[self.count] = b;
            self.count += 1;
        }
    }

    fn append(&mut self, text: &[u8])
        ensures { bytes_of self.new ≡ take line_room (bytes_of self.old ++ text.now) }
    {
        let m = text.len().min(LINE_ROOM - self.len());
        for b in &text[..m] {
            self.push(*b);
        }
    }

    // A load may pass 64 bits.
    fn decimal(&mut self, v: u128)
        ensures { bytes_of self.new ≡ take line_room (bytes_of self.old ++ decimal_of v) }
    {
        let digit = b'0' + (v % 10) as u8;
        if v < 10 {
            self.push(digit);
            return;
        }
        self.decimal(v / 10);
        self.push(digit);
    }

    fn field(&mut self, v: u128)
        ensures { bytes_of self.new ≡ take line_room (bytes_of self.old ++ field_of v) }
    {
        self.push(b' ');
        self.decimal(v);
    }

    fn name(&mut self, which: Name)
        ensures { bytes_of self.new ≡ take line_room (bytes_of self.old ++ name_bytes which) }
    {
        match which {
            Name::Min => self.append(b"min"),
            Name::Greedy => self.append(b"greedy"),
        }
    }

    // The letters of a vector of n qubits.
    fn letters(&mut self, n: usize, v: Row)
        ensures { bytes_of self.new ≡ take line_room (bytes_of self.old ++ spelling n (val v)) }
    {
        let high = v.shift_down(n);
        let m = n.min(LINE_ROOM - self.len());
        // by number: a qubit has two bits of a row
        for q in 0..m {
            self.push(u8::from(letters::of_bits(v.bit(q), high.bit(q))));
        }
    }

    // Each vector of n qubits, after a space.
    fn spelled(&mut self, n: usize, words: &[u64])
        ensures { bytes_of self.new ≡ take line_room (bytes_of self.old ++ spelled_of n (rows_of_words n words.now)) }
    {
        for w in words {
            self.push(b' ');
            self.letters(n, Row::from(*w));
        }
    }

    // The entry number and the name.
    fn front(&mut self, i: u64, which: Name)
        ensures { bytes_of self.new ≡ take line_room (bytes_of self.old ++ (decimal_of i ++ (space ∷ name_bytes which))) }
    {
        self.decimal(u128::from(i));
        self.push(b' ');
        self.name(which);
    }

    // The refusal, the vector count, the load and the looks.
    fn numbers(&mut self, figures: Figures, load: u128)
        ensures { bytes_of self.new ≡ take line_room (bytes_of self.old ++ field_of figures.number ++ field_of figures.count ++ field_of load ++ field_of figures.looks) }
    {
        self.field(u128::from(figures.number));
        self.field(u128::from(figures.count));
        self.field(load);
        self.field(u128::from(figures.looks));
    }
}

// How many of its n qubits a vector touches: the ones of x OR z.
fn touched(n: usize, v: Row) -> u64
    ensures { result ≡ touched_of n (val v) }
{
    let either = v | v.shift_down(n);
    either.low(n).weight()
}

// The qubits that the vectors of n qubits touch, summed over them.
fn load(n: usize, words: &[u64]) -> u128
    ensures { result ≡ load_of n (rows_of_words n words.now) }
{
    let mut sum: u128 = 0;
    for w in words {
        sum += u128::from(touched(n, Row::from(*w)));
    }
    sum
}

// The line of entry i, of n qubits: the figures of a call's answer, and the words that it left.
pub fn entry_line(n: u64, i: u64, which: Name, figures: Figures, words: &[u64]) -> Line
    ensures { bytes_of result ≡ take line_room (line_of n i (name_bytes which) (record { figures = figures; words = words.now })) }
{
    let m = n as usize;
    let k = (figures.count as usize).min(words.len());
    let vs = &words[..k];
    let mut l = Line::new();
    l.front(i, which);
    l.numbers(figures, load(m, vs));
    l.spelled(m, vs);
    l.push(b'\n');
    l
}

// The one line of a refused file.
pub fn file_line(number: u64) -> Line
    ensures { bytes_of result ≡ file_line_lem number }
{
    let mut l = Line::new();
    l.append(b"file");
    l.field(u128::from(number));
    l.push(b'\n');
    l
}
