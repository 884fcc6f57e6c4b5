// The coefficients of a tile from its planes, in the work slice: document 01, 'Recovery'. Levels are undone in its last quarter, the scratch.
#![tactic(auto)]

ghost use Rattle.std.specs.Prelude.{◌≡◌, false, cond, ℕ, ◌+◌, ◌*◌, ◌/◌, ◌^◌, ◌≤◌, ◌<◌, length, take};
ghost use Rattle.lists.specs.Lists.{put_at};
ghost use Rattle.format.specs.Lifting.{Shape};
ghost use Rattle.format.specs.Refusals.{each};
ghost use Rattle.refusals.specs.Number.{code_of};
ghost use Rattle.format.specs.Writing.{numbers_refusal};
ghost use Rattle.undoing.specs.Down.{detail_at, Within, RowsApart, lead_of};
ghost use Rattle.format.specs.Sizes.{green, l1, plane_rows};
ghost use Rattle.format.specs.Recovery.{read_plane, l_of};
ghost use Rattle.format.specs.Tile.{slice};
ghost use Rattle.passes.specs.Plan.{unit_of, Fits};
ghost use Rattle.levels.specs.Bands.{level_of};
ghost use Rattle.recovery.specs.Recovered.{Ready, row_refused, Front, scratch_at, ll_place, step_in, to_in, undoing_of, From, IndexRows, LevelBack, StepsBack, IndexBack, Back, ColourBack, DetailsBack, Room, Recovered};

use fields::rows_of;
use levels::{Block, Stage};
use passes::{GROUP_2, GROUP_3, Plan};
use refusals::Refusal;
use returning::{Undone, bands_back, base_back, check_row};
use undoing::{Level, Spaced, averages, detail_at, details};

// The units of a block, the packets of groups 0 to 3 of an index, or of group 4's; and where the scratch starts behind three of them.
const INDEX: usize = 64;

const SCRATCH: usize = 192;

// A level to be undone: h low rows and m high ones, of c columns, into rows from `to` on, each t behind the one before it; and the numbers from a
// to b, which are cleared for its bands.
#[derive(Clone, Copy)]
struct Undoing {
    c: usize,
    h: usize,
    m: usize,
    // A truth of the table's line, which picks where lows and highs start: an enum would choose there too.
    leads: bool,
    t: usize,
    to: usize,
    a: usize,
    b: usize,
}

impl Undoing {
    // That of a level of block b: level 3 into the scratch from its start on, the others behind the rows that they come from.
    fn of_level(s: Stage, b: Block, from: usize) -> Undoing
        requires { (b.z.slots ≡ b.z.n + 1) × (to_in b.z (level_of s) from < 2 ^ 63) }
        ensures { result ≡ undoing_of b.z b.at (level_of s) from }
    {
        let Block { z, at } = b;
        let u = z.unit();
        let g = s.level(b);
        let (leads, t, to, a, b) = match s {
            Stage::First => (z.guarded, 2 * z.w, from + 2 * g.c, at + u, at + GROUP_2 * u),
            Stage::Second => (
                z.guarded,
                z.w,
                from + 2 * g.c,
                at + GROUP_2 * u,
                at + GROUP_3 * u,
            ),
            Stage::Third => (
                false,
                z.w / 2,
                SCRATCH * u,
                at + GROUP_3 * u,
                at + INDEX * u,
            ),
        };
        Undoing {
            c: g.c,
            h: g.h,
            m: s.steps(z),
            leads,
            t,
            to,
            a,
            b,
        }
    }

    // From rows from `from` on, which are t apart too. Where its bands stand.
    fn undo(self, work: &mut [i32], from: usize) -> Undone
        requires within { Within from self.t (2 * self.c) (self.h + self.m) (length work.old) × Within self.to self.t (2 * self.c) (self.h + self.m) (length work.old) × RowsApart from self.t self.to self.t (2 * self.c) (self.h + self.m) }
        requires shape { (1 ≤ self.c) × (2 * self.c ≤ self.t) × (1 ≤ self.h) × Shape (lead_of self.leads) self.h self.m }
        requires order { (self.a ≤ self.b) × (self.b ≤ self.to) × (self.b ≤ length work.old) × (self.to + self.t < 2 ^ 63) }
        ensures { Ready (lead_of self.leads) self.h self.m self.c from self.t self.to self.t self.a self.b work.old work.new result }
    {
        let (t, to) = (self.t, self.to);
        let level = Level {
            from: Spaced {
                start: from,
                step: t,
            },
            to: Spaced { start: to, step: t },
            c: self.c,
            h: self.h,
            m: self.m,
            leads: self.leads,
        };
        level.undo(work);
        work[self.a..self.b].fill(0);
        let (low, high) = if self.leads {
            (to + t, to)
        } else {
            (to, to + t)
        };
        Undone {
            low,
            high,
            stride: 2 * t,
        }
    }
}

// A level of block b, from the rows of what came out of it. Where its ll stands, and what refuses its bands.
// That block and scratch lie in the work slice is a clause (`Front`), and so is, below, how long a plane is: they are lent for one call.
fn level_back(
    work: &mut [i32],
    s: Stage,
    b: Block,
    from: usize,
    odd: bool,
) -> (usize, Result<(), Refusal>)
    requires { Front b.z b.at (length work.old) × From b.z (level_of s) from }
    ensures { (result.0 ≡ ll_place b.z (level_of s)) × LevelBack b.z b.at (level_of s) odd from (step_in b.z (level_of s)) work.old work.new (code_of result.1) }
{
    let g = Undoing::of_level(s, b, from);
    let rows = g.undo(work, from);
    let checked = bands_back(work, s, b, rows, odd);
    (rows.low, checked)
}

// Band 0, from ll of level 1 where it stands.
fn steps_back(work: &mut [i32], b: Block, from: usize) -> Result<(), Refusal>
    requires { Front b.z b.at (length work.old) × (from ≡ ll_place b.z l1) }
    ensures { StepsBack b.z b.at work.old work.new (code_of result) }
{
    let end = b.at + b.z.unit();
    work[b.at..end].fill(0);
    base_back(work, b, from, 4 * b.z.w)
}

// All levels of block b, from the rows of what came out of them.
fn index_back(work: &mut [i32], b: Block, from: usize, odd: bool) -> Result<(), Refusal>
    requires { Front b.z b.at (length work.old) × (from + 64 * unit_of b.z ≤ scratch_at b.z) }
    ensures { IndexBack b.z b.at odd from work.old work.new (code_of result) }
{
    let (ll_3, three) = level_back(work, Stage::Third, b, from, odd);
    let (ll_2, two) = level_back(work, Stage::Second, b, ll_3, false);
    let (ll_1, one) = level_back(work, Stage::First, b, ll_2, false);
    let steps = steps_back(work, b, ll_1);
    three.and(two).and(one).and(steps)
}

// Refuses rows of c numbers, `count` of them, from `from` on, with a gap of rows behind the first e, in which a number is too large.
fn check_rows(
    work: &[i32],
    from: usize,
    e: usize,
    gap: usize,
    c: usize,
    count: usize,
) -> Result<(), Refusal>
    requires { (1 ≤ c) × ((y : ℕ) → y < count → from + detail_at e gap y * c + c ≤ length work.now) }
    ensures { code_of result ≡ each (row_refused work.now from e gap c) count }
{
    for y in 0..count {
        let a = from + detail_at(e, gap, y) * c;
        check_row(&work[a..a + c])?;
    }
    Ok(())
}

// Green's averages, one row behind the other in red's block, through details in the scratch. Plan and slices go side by side, as the two are lent for
// one call.
fn average_rows(work: &mut [i32], z: Plan, plane: &[i32])
    requires { Front z 0 (length work.old) × (plane_rows z.guarded z.n * z.w ≤ length plane.now) }
    ensures index_rows { IndexRows z (64 * unit_of z) (l_of (plane_rows z.guarded z.n) (z.w / 2) (read_plane z.w plane.now)) work.new }
    ensures same_length { length work.new ≡ length work.old }
{
    let u = z.unit();
    let c = z.w / 2;
    let rows = rows_of(z.n, z.guarded);
    details(work, plane, SCRATCH * u, 0, 0, c, rows);
    averages(work, plane, SCRATCH * u, INDEX * u, c, rows);
}

// Green's coefficients of groups 0 to 3.
fn green_back(work: &mut [i32], z: Plan, plane: &[i32]) -> Result<(), Refusal>
    requires { Front z 0 (length work.old) × (plane_rows z.guarded z.n * z.w ≤ length plane.now) }
    ensures back { Back z 0 green (l_of (plane_rows z.guarded z.n) (z.w / 2) (read_plane z.w plane.now)) work.new (code_of result) }
    ensures same_length { length work.new ≡ length work.old }
{
    let u = z.unit();
    average_rows(work, z, plane);
    index_back(work, Block { z, at: 0 }, INDEX * u, false)
}

// The first n numbers of a plane, to `to`: one by one, since `copy_from_slice` would have the library for C call `memmove`.
fn copy(work: &mut [i32], to: usize, plane: &[i32], n: usize)
    requires { (n ≤ length plane.now) × (to + n ≤ length work.old) }
    ensures { work.new ≡ put_at work.old to (take n plane.now) }
{
    for k in 0..n {
        work[to + k] = plane[k];
    }
}

// Red's coefficients, or blue's, in block b.
fn colour_back(work: &mut [i32], b: Block, plane: &[i32]) -> Result<(), Refusal>
    requires { Front b.z b.at (length work.old) × (plane_rows b.z.guarded b.z.n * (b.z.w / 2) ≤ length plane.now) }
    ensures { ColourBack b.z b.at plane.now work.old work.new (code_of result) }
{
    let Block { z, at } = b;
    let n = rows_of(z.n, z.guarded) * (z.w / 2);
    copy(work, at, plane, n);
    index_back(work, b, at, true)
}

// How many rows of group 4's packet the final green uses first, and how many behind them it skips: two numbers, by a truth of the document.
fn kept(guarded: bool) -> (usize, usize)
    ensures { (result.0 ≡ cond guarded 2 4) × (result.1 ≡ cond guarded 6 4) }
{
    if guarded { (2, 6) } else { (4, 4) }
}

// Green's details in group 4's packet.
fn details_back(work: &mut [i32], z: Plan, plane: &[i32]) -> Result<(), Refusal>
    requires { Front z 0 (length work.old) × Fits z (scratch_at z) × (plane_rows z.guarded z.n * z.w ≤ length plane.now) }
    ensures { DetailsBack z plane.now work.old work.new (code_of result) }
{
    let u = z.unit();
    let at = SCRATCH * u;
    let end = at + INDEX * u;
    let c = z.w / 2;
    let rows = rows_of(z.n, z.guarded);
    let (e, gap) = kept(z.guarded);
    work[at..end].fill(0);
    details(work, plane, at, e, gap, c, rows);
    check_rows(work, at, e, gap, c, rows)
}

// The coefficients of three planes, which go side by side as C lends them: green's block, red's, blue's, then group 4. Refuses a number out of range.
pub fn recover(
    work: &mut [i32],
    z: Plan,
    full: &[i32],
    red: &[i32],
    blue: &[i32],
) -> Result<(), Refusal>
    requires { Room z (length work.old) (length full.now) (length red.now) (length blue.now) }
    ensures value { code_of result ≡ numbers_refusal z.guarded z.n z.w (slice full.now red.now blue.now) }
    ensures recovered { Recovered z (slice full.now red.now blue.now) work.new }
    ensures same_length { length work.new ≡ length work.old }
{
    let n = INDEX * z.unit();
    let second = Block { z, at: n };
    let third = Block { z, at: 2 * n };
    let a = green_back(work, z, full);
    let b = colour_back(work, second, red);
    let c = colour_back(work, third, blue);
    let d = details_back(work, z, full);
    a.and(b).and(c).and(d)
}
