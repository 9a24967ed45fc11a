// The calls by C's conventions: each returns 0, or the number of the first question that is answered no, and then leaves every lent
// word as it was, but for a lent memory at 6. include/turnlist.h says the same to C.
// Not in the source.
#![tactic(auto)]

ghost use Rattle.std.specs.Prelude.{◌≡◌, ◌*◌, ◌≤◌};
ghost use Rattle.blocks.specs.Words.{rows_of_words};
ghost use Rattle.questions.specs.Replies.{Replays, Shortest, Rebuilds};
ghost use Rattle.rebuild.specs.Rebuilds.{rebuild_reply};
ghost use Rattle.shorter.specs.Shorter.{shorter_reply, part_of};
ghost use Rattle.shorter.specs.Promises.{Played, NeitherShorter, FirstAtEqual, Neither};
ghost use Rattle.fixed_space.specs.FixedSpace.{fixed_reply};
ghost use Rattle.fixed_space.specs.Promises.{InPlace, Complete, Reduced, Counted};
ghost use Rattle.self_inverse.specs.SelfInverse.{self_inverse_reply};
ghost use Rattle.self_inverse.specs.Promises.{chosen, Commuting, Counted as RankCounted, Seventeen};
ghost use Rattle.transvection.specs.Greedy.{greedy_reply};
ghost use Rattle.memory.specs.Entries.{room_in};
ghost use Rattle.transvection_exact.specs.Minimal.{minimal_reply, remembering_reply, memory_left};
ghost use Rattle.transvection_exact.specs.Answers.{Exact, ExactWith, AsWithout, EveryLayer};
ghost use Rattle.sheets.specs.Sheets.{gates_of, sheet_questions_lem};
ghost use Rattle.gates.specs.Sequences.{sequence_turns, gates_reply};
ghost use Rattle.questions.specs.Answers.{lent_number};
ghost use Rattle.cabi.specs.Lent.{read_figures, PlainlyLent};

// The minimal list of an action, and the looks of its search.
#[unsafe(no_mangle)]
pub extern "C" fn turnlist_minimal(
    n: u64,
    rows: &[u64],
    budget: u64,
    out: &mut [u64],
    count: &mut u64,
    looks: &mut u64,
) -> u64
    ensures answered { result ≡ (minimal_reply n rows.now budget out.old).figures.number }
    ensures left { out.new ≡ (minimal_reply n rows.now budget out.old).words }
    ensures counted { count.new ≡ lent_number result (minimal_reply n rows.now budget out.old).figures.count count.old }
    ensures drawn { looks.new ≡ lent_number result (minimal_reply n rows.now budget out.old).figures.looks looks.old }
    ensures replays { Replays n rows.now out.new (read_figures budget result count.new looks.new) }
    ensures shortest { Shortest n rows.now (read_figures budget result count.new looks.new) }
    ensures exact { Exact n rows.now budget out.old (read_figures budget result count.new looks.new) }
    ensures every_layer { EveryLayer n rows.now (read_figures budget result count.new looks.new) }
{
    let answer = transvection_exact::clifford_to_transvections_minimal(n, rows, budget, out);
    let least = transvection_exact::figures_of(answer);
    questions::tell(least.number, least.count, count);
    questions::tell(least.number, least.looks, looks);
    least.number
}

// The same with a lent memory of failed spaces.
#[unsafe(no_mangle)]
pub extern "C" fn turnlist_minimal_remembering(
    n: u64,
    rows: &[u64],
    budget: u64,
    memory: &mut [u64],
    out: &mut [u64],
    count: &mut u64,
    looks: &mut u64,
) -> u64
    ensures answered { result ≡ (remembering_reply n rows.now budget memory.old out.old).figures.number }
    ensures left { out.new ≡ (remembering_reply n rows.now budget memory.old out.old).words }
    ensures held { memory.new ≡ memory_left n rows.now budget memory.old out.old }
    ensures counted { count.new ≡ lent_number result (remembering_reply n rows.now budget memory.old out.old).figures.count count.old }
    ensures drawn { looks.new ≡ lent_number result (remembering_reply n rows.now budget memory.old out.old).figures.looks looks.old }
    ensures replays { Replays n rows.now out.new (read_figures budget result count.new looks.new) }
    ensures shortest { Shortest n rows.now (read_figures budget result count.new looks.new) }
    ensures exact { ExactWith (room_in memory.old) n rows.now budget out.old (read_figures budget result count.new looks.new) }
    ensures as_without { AsWithout (minimal_reply n rows.now budget out.old) out.new (read_figures budget result count.new looks.new) }
    ensures every_layer { EveryLayer n rows.now (read_figures budget result count.new looks.new) }
    ensures plainly { PlainlyLent (minimal_reply n rows.now budget out.old) memory.old memory.new out.new result count.old count.new looks.old looks.new }
{
    let answer = transvection_exact::clifford_to_transvections_minimal_remembering(
        n, rows, budget, memory, out,
    );
    let remembered = transvection_exact::figures_of(answer);
    questions::tell(remembered.number, remembered.count, count);
    questions::tell(remembered.number, remembered.looks, looks);
    remembered.number
}

// The greedy list of an action.
#[unsafe(no_mangle)]
pub extern "C" fn turnlist_greedy(n: u64, rows: &[u64], out: &mut [u64], count: &mut u64) -> u64
    ensures answered { result ≡ (greedy_reply n rows.now out.old).figures.number }
    ensures left { out.new ≡ (greedy_reply n rows.now out.old).words }
    ensures counted { count.new ≡ lent_number result (greedy_reply n rows.now out.old).figures.count count.old }
    ensures replays { Replays n rows.now out.new (read_figures 0 result count.new 0) }
    ensures few { (read_figures 0 result count.new 0).count ≤ 4 * n }
{
    let answer = transvection::clifford_to_transvections(n, rows, out);
    let greedy = questions::figures_of(answer);
    questions::tell(greedy.number, greedy.count, count);
    greedy.number
}

// The reduced basis of all vectors that an action leaves in place.
#[unsafe(no_mangle)]
pub extern "C" fn turnlist_fixed_space(
    n: u64,
    rows: &[u64],
    out: &mut [u64],
    count: &mut u64,
) -> u64
    ensures answered { result ≡ (fixed_reply n rows.now out.old).figures.number }
    ensures left { out.new ≡ (fixed_reply n rows.now out.old).words }
    ensures counted { count.new ≡ lent_number result (fixed_reply n rows.now out.old).figures.count count.old }
    ensures in_place { InPlace n rows.now out.new (read_figures 0 result count.new 0) }
    ensures complete { Complete n rows.now out.new (read_figures 0 result count.new 0) }
    ensures reduced { Reduced n out.new (read_figures 0 result count.new 0) }
    ensures dimension { Counted n rows.now (read_figures 0 result count.new 0) }
{
    let answer = fixed_space::clifford_fixed_space(n, rows, out);
    let fixed = questions::figures_of(answer);
    questions::tell(fixed.number, fixed.count, count);
    fixed.number
}

// A list of turns whose vectors all pair to 0, as short as any, for an action that is its own inverse.
#[unsafe(no_mangle)]
pub extern "C" fn turnlist_self_inverse(
    n: u64,
    rows: &[u64],
    out: &mut [u64],
    count: &mut u64,
) -> u64
    ensures answered { result ≡ (self_inverse_reply n rows.now (chosen n out.new (read_figures 0 result count.new 0)) out.old).figures.number }
    ensures left { out.new ≡ (self_inverse_reply n rows.now (chosen n out.new (read_figures 0 result count.new 0)) out.old).words }
    ensures counted { count.new ≡ lent_number result (self_inverse_reply n rows.now (chosen n out.new (read_figures 0 result count.new 0)) out.old).figures.count count.old }
    ensures replays { Replays n rows.now out.new (read_figures 0 result count.new 0) }
    ensures shortest { Shortest n rows.now (read_figures 0 result count.new 0) }
    ensures commuting { Commuting n out.new (read_figures 0 result count.new 0) }
    ensures ranked { RankCounted n rows.now (read_figures 0 result count.new 0) }
    ensures seventeen { Seventeen n rows.now out.old (read_figures 0 result count.new 0) }
{
    let answer = self_inverse::clifford_to_transvections_self_inverse(n, rows, out);
    let listed = questions::figures_of(answer);
    questions::tell(listed.number, listed.count, count);
    listed.number
}

// The product of a list.
#[unsafe(no_mangle)]
pub extern "C" fn turnlist_rebuild(n: u64, vectors: &[u64], out: &mut [u64], count: &mut u64) -> u64
    ensures answered { result ≡ (rebuild_reply n vectors.now out.old).figures.number }
    ensures left { out.new ≡ (rebuild_reply n vectors.now out.old).words }
    ensures counted { count.new ≡ lent_number result (rebuild_reply n vectors.now out.old).figures.count count.old }
    ensures replays { Rebuilds n (rows_of_words n vectors.now) out.new (read_figures 0 result count.new 0) }
{
    let answer = rebuild::rebuild(n, vectors, out);
    let product = questions::figures_of(answer);
    questions::tell(product.number, product.count, count);
    product.number
}

// Which of two lists to play, the shorter one whose product is an action: 1 for the first, 2 for the second.
#[unsafe(no_mangle)]
pub extern "C" fn turnlist_shorter(
    n: u64,
    rows: &[u64],
    first: &[u64],
    second: &[u64],
    chosen: &mut u64,
) -> u64
    ensures answered { result ≡ (shorter_reply n rows.now first.now second.now).number }
    ensures told { chosen.new ≡ lent_number result (shorter_reply n rows.now first.now second.now).list chosen.old }
    ensures played { Played n rows.now first.now second.now (part_of chosen.new first.now second.now) result }
    ensures neither_shorter { NeitherShorter n rows.now first.now second.now (part_of chosen.new first.now second.now) result }
    ensures first_at_equal { FirstAtEqual n rows.now first.now second.now (part_of chosen.new first.now second.now) result }
    ensures neither { Neither n rows.now first.now second.now result }
{
    let answer = shorter::choose(n, rows, first, second);
    let shorter = shorter::chosen_of(answer);
    questions::tell(shorter.number, shorter.list, chosen);
    shorter.number
}

// The questions of a gate sheet: 0 where it passes and may be put in force.
#[unsafe(no_mangle)]
pub extern "C" fn turnlist_sheet(sheet: &[u8]) -> u64
    ensures { result ≡ sheet_questions_lem sheet.now }
{
    questions::asked_number(sheets::sheet_questions(sheet))
}

// The action of a gate sequence, three bytes a gate, with the sheet in force.
#[unsafe(no_mangle)]
pub extern "C" fn turnlist_gates(
    n: u64,
    sheet: &[u8],
    gates: &[u8],
    out: &mut [u64],
    count: &mut u64,
) -> u64
    ensures answered { result ≡ (gates_reply n sheet.now gates.now out.old).figures.number }
    ensures left { out.new ≡ (gates_reply n sheet.now gates.now out.old).words }
    ensures counted { count.new ≡ lent_number result (gates_reply n sheet.now gates.now out.old).figures.count count.old }
    ensures replays { Rebuilds n (sequence_turns n (gates_of sheet.now) gates.now) out.new (read_figures 0 result count.new 0) }
{
    let answer = gates::gate_action(n, sheet, gates, out);
    let action = questions::figures_of(answer);
    questions::tell(action.number, action.count, count);
    action.number
}
