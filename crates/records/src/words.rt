// Words read, laid and compared.
ghost use Rattle.std.specs.Prelude.{◌≡◌, ℕ, ◌≤◌, ◌<◌, ◌*◌, ◌++◌, true, length, take, drop, slice_index, min};
ghost use Rattle.numbers.specs.Numbers.{number};
ghost use Rattle.records.specs.Words.{fill};

use numbers::number_at;

// What each lent word holds before a call.
pub const FILL: u64 = 0xa5a5a5a5a5a5a5a5;

// The first words of some bytes, of at most 8 bytes each and as far as there is room, and FILL behind them.
pub fn words_of<const N: usize>(bytes: &[u8], size: usize, count: usize) -> [u64; N]
    ensures words { (i : ℕ) → i < min count N → slice_index result i ≡ number bytes.now (i * min size 8) (min size 8) }
    ensures behind { (i : ℕ) → min count N ≤ i → i < N → slice_index result i ≡ fill }
{
    let size = size.min(8);
    let count = count.min(N);
    let mut words = [FILL; N];
    for (i, word) in words[..count].iter_mut().enumerate() {
        *word = number_at(bytes, (i * size) as u64, 0, size as u64);
    }
    words
}

// Words laid from the start of others, as far as there is room.
pub fn lay(words: &[u64], out: &mut [u64])
    ensures { out.new ≡ take (length out.old) words.now ++ drop (length words.now) out.old }
{
    let n = words.len().min(out.len());
    out[..n].copy_from_slice(&words[..n]);
}

// Whether a call answers and leaves what its record has: the figures, and every word.
pub fn alike(want: [u64; 3], figures: [u64; 3], words: &[u64], out: &[u64]) -> bool
    ensures { (result ≡ true → (want ≡ figures) × (words.now ≡ out.now)) × ((want ≡ figures) × (words.now ≡ out.now) → result ≡ true) }
{
    want == figures && words == out
}
