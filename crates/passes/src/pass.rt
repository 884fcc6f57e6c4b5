// A pass over a level.
ghost use Rattle.std.specs.Prelude.{◌≤◌};

use crate::Level;

// A pass over a level that has m rows of its high bands, which are no fewer than the low ones: the low band leads, or the high one. That a level has
// low rows stands in the clauses, since `into_ring` takes a pass of none where it is asked for none.
#[derive(Clone, Copy)]
pub struct Pass {
    pub g: Level,
    pub m: usize,
    // A truth of the table's line. It picks a row or a slot of the ring, in a line each of `near`, `high` and `put`: an enum or a trait would choose there too.
    pub leads: bool,
    pub ghost covered: { g.h ≤ m },
}
