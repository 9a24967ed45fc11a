// The printouts of a corpus of job files, one after the other. On standard input each file stands behind its length, 4 bytes little-endian
// (tools/mkjobs writes it); on standard output the printouts must be those of the reference model.
#![tactic(auto)]

ghost use Rattle.std.specs.Prelude.{◌≡◌, ◌+◌, min};
ghost use Rattle.job.specs.Files.{longest_file};

use pages::FILE_ROOM;
use reading::read_full;
use std::io;
use std::io::{Print, Read};

// As many bytes as a file buffer has room for, at most.
fn within(count: u64) -> usize
    ensures { result ≡ min count (longest_file + 1) }
{
    count.min(FILE_ROOM as u64) as usize
}

// Writes the next file's whole printout: those of the corpus have room in one page. False where there is none.
fn next_file(rt: &impl Print, input: &mut impl Read) -> io::Result<bool> {
    let mut head = [0u8; 4];
    if read_full(input, &mut head) < head.len() {
        return Ok(false);
    }
    let n = within(job::word_at(&head, 0, 0));
    let mut file = pages::file_room();
    read_full(input, &mut file[..n]);
    pages::write_page(rt, &file[..n], 0)?;
    Ok(true)
}

// Takes at most 1,000 files.
fn main(rt: HostRuntime) -> io::Result<()> {
    let mut input = rt.stdin();
    for _ in 0u64..1000 {
        if !next_file(&rt, &mut input)? {
            break;
        }
    }
    Ok(())
}
