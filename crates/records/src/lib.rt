// What the programs that replay reference answers share: records read one by one, compared, and counted by their kinds.
// Not in the source.
#![tactic(auto)]

pub mod score;
pub mod words;

ghost use Rattle.std.specs.Prelude.{◌≡◌, ◌≤◌, ◌<◌, ◌+◌, ◌*◌, ℕ, length, IfSome, IsErrOf, IsOk, OnErr, ◌↔◌};
ghost use Rattle.reading.specs.Parts.{TakesUpTo};

use reading::read_full;
use score::{Score, Verdict};
use std::io::Read;

// How many bytes a header has room for, and what stands behind it.
const HEAD_ROOM: usize = 64;

const ROOM: usize = 4096;

// At most as many records are read.
const MOST: u64 = 100000;

// A record, as its header tells it.
pub trait Record<const KINDS: usize>: Copy {
    // How many bytes the header has.
    ghost HEAD: { ℕ };

    const HEAD: usize;

    // How many bytes stand behind the header.
    ghost size: { Self → ℕ };

    // The record of a header; none where it asks for too much room.
    fn of_head(head: &[u8]) -> Option<Self>
        requires { length head.now ≡ HEAD };

    fn size(&self) -> usize
        ensures { result ≡ size self.now };

    // Makes the call of the record and compares; none where no kind is known.
    fn verdict(&self, bytes: &[u8]) -> Option<Verdict>
        requires { length bytes.now ≡ size self.now }
        ensures { IfSome result (λ v. v.kind < KINDS) };

    ghost head_has_room: { HEAD ≤ 64 };

    ghost has_room: { (r : Self) → size r ≤ 4096 };
}

// Why no record comes next: the input ends before it, or it is cut short or asks for too much room.
#[derive(Clone, Copy)]
enum End {
    NoMore,
    CutShort,
}

// Whether all the bytes came that were asked for.
fn whole(got: usize, size: usize) -> Result<(), End>
    ensures { (IsErrOf result End.CutShort ↔ (got < size)) × (IsOk result ↔ (size ≤ got)) }
{
    if got < size {
        return Err(End::CutShort);
    }
    Ok(())
}

// Reads a record and counts it.
fn next_record<const KINDS: usize, R: Record<KINDS>, I: Read>(
    input: &mut I,
    score: &mut Score<KINDS>,
) -> Result<(), End>
    ensures part { TakesUpTo (I.remaining input.old) (I.remaining input.new) (64 + 4096) }
    ensures ended { OnErr result (score.new ≡ score.old) }
{
    let mut head = [0u8; HEAD_ROOM];
    let head = &mut head[..R::HEAD];
    let got = read_full(input, head);
    if got == 0 {
        return Err(End::NoMore);
    }
    whole(got, R::HEAD)?;
    let record = R::of_head(head).ok_or(End::CutShort)?;
    let size = record.size();
    let mut bytes = [0u8; ROOM];
    whole(read_full(input, &mut bytes[..size]), size)?;
    match record.verdict(&bytes[..size]) {
        Some(v) => score.count(v),
        None => score.one_unread(),
    }
    Ok(())
}

// Reads the records one by one and counts them, to the end of the input. A record that is cut short or asks for too much room is the last
// one and counts as not read; so does input whose end is not met by MOST records.
pub fn read_all<const KINDS: usize, R: Record<KINDS>, I: Read>(input: &mut I) -> Score<KINDS>
    ensures { TakesUpTo (I.remaining input.old) (I.remaining input.new) (100000 * (64 + 4096)) }
{
    let mut score = Score::<KINDS>::new();
    for _ in 0..MOST {
        match next_record::<KINDS, R, I>(input, &mut score) {
            Ok(()) => {}
            Err(End::NoMore) => return score,
            Err(End::CutShort) => break,
        }
    }
    score.one_unread();
    score
}
