// chart: writes the commutation chart to standard output: the letters, then for each letter a line with what it pairs to with each.
// Not in the source.
#![tactic(auto)]

ghost use Rattle.std.specs.Prelude.{◌≡◌, ◌+◌, slice_index};
ghost use Rattle.binar.specs.Bits.{digit as digit_of};
ghost use Rattle.chart.specs.inner.Chart.{line as line_of, heading as heading_of, row as row_of};

use letters::Letter;
use std::io;
use std::io::Print;

// How many bytes a line has: five columns, each with a byte behind it.
const LINE: usize = 10;

// The letters in the order of their columns, and of their lines.
const LETTERS: [Letter; 4] = [Letter::I, Letter::X, Letter::Y, Letter::Z];

// A bit as it is printed.
fn digit(b: bool) -> u8
    ensures { result ≡ 48 + digit_of b }
{
    if b { b'1' } else { b'0' }
}

// What stands in front, then the columns of I, X, Y and Z.
fn line(front: u8, columns: [u8; 4]) -> [u8; LINE]
    ensures { result ≡ line_of front (slice_index columns 0) (slice_index columns 1) (slice_index columns 2) (slice_index columns 3) }
{
    let [i, x, y, z] = columns;
    [front, b' ', i, b' ', x, b' ', y, b' ', z, b'\n']
}

// The letters, each over its column.
#[tactic(auto, unfolding(crate::specs::inner::Chart::heading))]
fn heading() -> [u8; LINE]
    ensures { result ≡ heading_of }
{
    line(b' ', LETTERS.map(u8::from))
}

// A letter, and what it pairs to with each.
#[tactic(auto, unfolding(crate::specs::inner::Chart::row))]
fn row(a: Letter) -> [u8; LINE]
    ensures { result ≡ row_of a }
{
    line(u8::from(a), LETTERS.map(|b| digit(letters::chart(a, b))))
}

fn write_chart(rt: &impl Print) -> io::Result<()> {
    rt.write_all(&heading())?;
    for a in LETTERS {
        rt.write_all(&row(a))?;
    }
    Ok(())
}

// Writes the chart; where that fails, says on standard error why.
fn main(rt: HostRuntime) -> io::Result<()> {
    if let Err(e) = write_chart(&rt) {
        eprintln!(rt; "chart: standard output: {e}")?;
    }
    Ok(())
}
