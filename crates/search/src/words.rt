// A search in words of its own, of one of four sizes: for dimension 8, 16, 32 and 64. A small core clears few, and each size stands in
// a function of its own, so that a stack has room for one of them, not for all.
ghost use Rattle.std.specs.Prelude.{◌≡◌, ◌≤◌, length};
ghost use Rattle.binar.specs.Rows.{width};
ghost use Rattle.search.specs.inner.Levels.{levels};
ghost use Rattle.blocks.specs.Words.{rows_in_lem, over};
ghost use Rattle.triangular.specs.Search.{budgeted};
ghost use Rattle.triangular.specs.Memory.{searched_core, known_within};
ghost use Rattle.triangular.specs.Readings.{core_in, verdict_of, basis_found};
ghost use Rattle.memory.specs.Entries.{memory_words, room_in};

use crate::{Ended, searched};

// The search in N words for the members and N for their Gram matrices.
pub(crate) fn searched_in<const N: usize>(
    core: &[u64],
    k: usize,
    budget: u64,
    memory: &mut [u64],
    list: &mut [u64],
) -> Ended
    requires { (k ≤ width) × (k ≡ length (core_in core.now)) × (levels k ≤ N) × (N ≤ levels width) }
    ensures answered { let v = budgeted budget (searched_core (core_in core.now) (room_in memory.old)).outcome in verdict_of result.ending result.looks (basis_found v) ≡ v }
    ensures left { rows_in_lem list.new ≡ over (basis_found (budgeted budget (searched_core (core_in core.now) (room_in memory.old)).outcome)) (rows_in_lem list.old) }
    ensures remembered { memory.new ≡ over (memory_words (known_within budget (searched_core (core_in core.now) (room_in memory.old)).memory)) memory.old }
{
    let mut basis = [0u64; N];
    let mut gram = [0u64; N];
    searched(&mut basis, &mut gram, core, k, budget, memory, list)
}
