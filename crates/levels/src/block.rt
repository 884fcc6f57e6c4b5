// A block of the work slice.
ghost use Rattle.std.proofs.Props.{props};
ghost use Rattle.passes.specs.Plan.{Fits};
ghost use Rattle.levels.specs.Fitted.{tall-prop};

use passes::Plan;

// The plan of a tile and where one of its blocks starts, whose places can be counted. Two facts stand in clauses: how long a slice is, since it is lent
// for one call, and that the slots hold all records, since `Stage::level` takes a block of fewer slots too.
#[derive(Clone, Copy)]
pub struct Block {
    pub z: Plan,
    pub at: usize,
    pub ghost fits: { Fits z at } by { Prim.hlevel (props, tall-prop) },
}
