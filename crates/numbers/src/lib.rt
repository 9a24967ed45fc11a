// Numbers that stand in lent bytes, little-endian; bytes past the end are 0.
// Not in the source.
#![tactic(auto)]

ghost use Rattle.std.specs.Prelude.{◌≡◌, ◌+◌, ◌^◌, ◌<◌, ◌≤◌, min, get_or};
ghost use Rattle.numbers.specs.Numbers.{number};

// The byte i behind `from`. Past the end, 0.
pub fn byte_at(bytes: &[u8], from: u64, i: u64) -> u64
    ensures { (result ≡ get_or bytes.now (from + i) 0) × (result < 256) }
{
    let at = from.saturating_add(i) as usize;
    match bytes.get(at) {
        Some(b) => u64::from(*b),
        None => 0,
    }
}

// The number of at most 8 bytes from `from` on.
fn read(bytes: &[u8], from: u64, size: u64) -> u64
    requires { size ≤ 8 }
    ensures { (result ≡ number bytes.now from size) × (result < 256 ^ size) }
{
    let mut v: u64 = 0;
    for i in (0..size).rev() {
        let b = byte_at(bytes, from, i);
        v = b + 256 * v;
    }
    v
}

// The number of some bytes, the first 8 at most, that stand `skip` bytes behind `from`.
pub fn number_at(bytes: &[u8], from: u64, skip: u64, size: u64) -> u64
    ensures { (result ≡ number bytes.now (from + skip) (min size 8)) × (result < 256 ^ min size 8) }
{
    read(bytes, from.saturating_add(skip), size.min(8))
}
