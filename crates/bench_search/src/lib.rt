// The search by C's conventions, for the bench driver.
#![tactic(auto)]

ghost use Rattle.std.specs.Prelude.{◌≡◌};
ghost use Rattle.blocks.specs.Words.{over};
ghost use Rattle.triangular.specs.Readings.{core_in};
ghost use Rattle.triangular.specs.Search.{budgeted};
ghost use Rattle.triangular.specs.Memory.{searched_core, known_within};
ghost use Rattle.memory.specs.Entries.{memory_words, room_in};
ghost use Rattle.bench_search.specs.Looks.{looks_at};

use binar::WIDTH;

// The looks of the search on a core, whose rows are words; those past the columns of a row are left out. The spaces that failed are
// entered into a lent memory.
#[unsafe(no_mangle)]
pub extern "C" fn search_core(core: &[u64], budget: u64, memory: &mut [u64]) -> u64
    ensures answered { result ≡ looks_at (budgeted budget (searched_core (core_in core.now) (room_in memory.old)).outcome) }
    ensures remembered { memory.new ≡ over (memory_words (known_within budget (searched_core (core_in core.now) (room_in memory.old)).memory)) memory.old }
{
    let mut list = [0u64; WIDTH];
    let r = search::congruence_triangularize(core, budget, memory, &mut list);
    r.looks
}
