// What the programs that print a job file share: the file read from an input, its printout written page by page, and what failed.
// Not in the source.
#![tactic(auto)]

ghost use Rattle.std.specs.Prelude.{◌≡◌, ◌≤◌, ◌<◌, ◌+◌, ℕ, List, [], length, take, IfOk, OnOk, IfSome};
ghost use Rattle.std.specs.Io.KnownBytes.{Consumes, IsAtEnd};
ghost use Rattle.job.specs.Files.{longest_file};
ghost use Rattle.printout.specs.Pages.{page_reply};
ghost use Rattle.reading.specs.Parts.{TakesUpTo};
ghost use Rattle.pages.specs.Counts.{Counted};

use questions::Refusal;
use reading::read_full;
use std::io;
use std::io::{Eprint, Print, Read};

// One byte past the longest file is enough for the questions to refuse what is longer.
pub const FILE_ROOM: usize = 65537;

// How many bytes a page has room for.
const PAGE_ROOM: usize = 65536;

// No file that passes has more lines than bytes.
const MOST_LINES: u64 = 65536;

pub fn file_room() -> [u8; FILE_ROOM]
    ensures { longest_file + 1 ≡ length result }
{
    [0u8; FILE_ROOM]
}

fn page_room() -> [u8; PAGE_ROOM]
    ensures { 65536 ≡ length result }
{
    [0u8; PAGE_ROOM]
}

// Writes the page that begins at line `from`, and answers how many lines it has; none where nothing more is to be written.
pub fn write_page(rt: &impl Print, file: &[u8], from: u64) -> io::Result<Option<u64>>
    ensures few { IfOk result (λ o. IfSome o (λ n. (0 < n) × (n ≤ longest_file))) }
    ensures counted { (out : List ℕ) → length out ≡ 65536 → Counted (page_reply file.now from out).answer result }
{
    let mut out = page_room();
    match printout::print_page(file, from, &mut out) {
        Ok(Some(page)) => {
            rt.write_all(&out[..page.bytes as usize])?;
            Ok(Some(page.count))
        }
        Ok(None) => Ok(None),
        // the one line of a refused file
        Err(refused) => {
            rt.write_all(lines::file_line(refused.number()).as_slice())?;
            Ok(None)
        }
    }
}

fn write_pages(rt: &impl Print, file: &[u8]) -> io::Result<()> {
    let mut from: u64 = 0;
    while from < MOST_LINES {
        match write_page(rt, file, from)? {
            Some(count) => from += count,
            None => break,
        }
    }
    Ok(())
}

// Answers an error unless the input has ended: a read that fails is not its end.
fn at_end<R: Read>(input: &mut R) -> io::Result<()>
    ensures end { OnOk result (IsAtEnd (R.remaining input.new)) }
    ensures kept { OnOk result (Consumes (R.remaining input.old) (R.remaining input.new) []) }
    ensures part { TakesUpTo (R.remaining input.old) (R.remaining input.new) 1 }
{
    let mut more = [0u8; 1];
    if input.read(&mut more)? != 0 {
        return Err(io::Error::other("more behind its end"));
    }
    Ok(())
}

// Reads a whole file, as far as there is room, and answers how many bytes it has.
fn read_file<R: Read>(input: &mut R, file: &mut [u8]) -> io::Result<usize>
    ensures within { IfOk result (λ n. n ≤ length file.new) }
    ensures bytes { IfOk result (λ n. Consumes (R.remaining input.old) (R.remaining input.new) (take n file.new)) }
    ensures whole { IfOk result (λ n. n < length file.new → IsAtEnd (R.remaining input.new)) }
    ensures part { TakesUpTo (R.remaining input.old) (R.remaining input.new) (length file.new) }
{
    let n = read_full(input, file);
    if n < file.len() {
        at_end(input)?;
    }
    Ok(n)
}

// Says on standard error what failed. Where that is not written either, nothing more is said.
fn fail(rt: &impl Eprint, stream: &str, e: io::Error) {
    let _ = eprintln!(rt; "turnlist: {stream}: {e}");
}

// Reads a job file and writes its printout, page by page; where that fails, says so on standard error.
pub fn print_file<R: Read>(rt: &(impl Print + Eprint), input: &mut R)
    ensures { TakesUpTo (R.remaining input.old) (R.remaining input.new) (longest_file + 1) }
{
    let mut file = file_room();
    match read_file(input, &mut file) {
        Ok(n) => {
            if let Err(e) = write_pages(rt, &file[..n]) {
                fail(rt, "standard output", e);
            }
        }
        Err(e) => fail(rt, "standard input", e),
    }
}
