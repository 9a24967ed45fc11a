// A space beside the rows of a form.
// Not in the source.
#![tactic(auto)]

ghost use Rattle.std.specs.Prelude.{◌≤◌, length};
ghost use Rattle.binar.specs.Rows.{width};
ghost use Rattle.blocks.specs.Words.{rows_in_lem};

use binar::WIDTH;

// The first d rows of `basis` are the members of a space, those of `forms` their form rows: each member times the core.
#[derive(Drop)]
pub struct Space {
    pub basis: [u64; WIDTH],
    pub forms: [u64; WIDTH],
    pub d: usize,
    ghost narrow: { d ≤ width },
    ghost within: { d ≤ length (rows_in_lem basis) },
    ghost beside: { d ≤ length (rows_in_lem forms) },
}
