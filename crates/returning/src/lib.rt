// Rows of recovered bands go back to their places in the packets of the work slice: E undone, band 0 as steps. A number out of range is refused on the way.
// Document 01, 'Recovery'.
#![tactic(auto)]

ghost use Rattle.std.specs.Prelude.{◌≡◌, false, MatchOption, ℕ, ◌+◌, ◌*◌, ◌≤◌, ◌<◌, length};
ghost use Rattle.lists.specs.Lists.{part, put_at};
ghost use Rattle.lifting.specs.Lift.{at};
ghost use Rattle.format.specs.Refusals.{each};
ghost use Rattle.refusals.specs.Number.{code_of};
ghost use Rattle.format.specs.Table.{height, E, hh, source, is_edge};
ghost use Rattle.format.specs.Writing.{too_large, too_far};
ghost use Rattle.levels.specs.Bands.{level_of};
ghost use Rattle.levels.specs.Steps.{steps};
ghost use Rattle.returning.specs.Return.{value_back, steps_of, steps_refusal, edge_row_at, some_source, row_back, row_refusal, Movable, Returnable, band_laid, band_refused, steps_laid, steps_refused, no_edges, hl_laid, level_refused, AllReturnable, Held, Beside, BandsReturned, BaseBeside, BaseReturned};

use levels::{Block, Stage};
use passes::{Band, Level};
use refusals::Refusal;
use wrap32::{edge_detail, sign16, wrapping_sub};

// Refuses z above 524,287 in magnitude.
pub fn check_size(z: i32) -> Result<(), Refusal>
    ensures { code_of result ≡ too_large z }
{
    if z.unsigned_abs() > 524287 {
        Err(Refusal::NumberOutOfRange)
    } else {
        Ok(())
    }
}

// Refuses a row in which a number is too large.
pub fn check_row(row: &[i32]) -> Result<(), Refusal>
    ensures { code_of result ≡ each (λ x. too_large (at row.now x)) (length row.now) }
{
    for z in row {
        check_size(*z)?;
    }
    Ok(())
}

// The v that E takes to e, if there is one.
fn edge_back(e: i32, odd: bool) -> Option<i32>
    ensures { result ≡ value_back odd e }
{
    let v = e / 2;
    if v != -1073741824 && edge_detail(v, odd) == e {
        Some(v)
    } else {
        None
    }
}

// Refuses what is no value of E, and what is too large.
fn check_edge(v: Option<i32>) -> Result<(), Refusal>
    ensures { MatchOption v (code_of result ≡ 25) (λ z. code_of result ≡ too_large z) }
{
    let z = v.ok_or(Refusal::NumberOutOfRange)?;
    check_size(z)
}

// A row with E undone: 0 where a number is no value of E, which is refused, and so is what is too large.
fn undo_edges(row: &mut [i32], odd: bool) -> Result<(), Refusal>
    ensures { (row.new ≡ row_back odd (E 0 0) (length row.old) row.old) × (code_of result ≡ row_refusal odd (E 0 0) (length row.old) row.old) }
{
    let mut checked = Ok(());
    for z in row.iter_mut() {
        let v = edge_back(*z, odd);
        checked = checked.and(check_edge(v));
        *z = v.unwrap_or(0);
    }
    checked
}

// Refuses d outside signed 16 bits.
fn check_step(d: i32) -> Result<(), Refusal>
    ensures { code_of result ≡ too_far d }
{
    if sign16(d) == d {
        Ok(())
    } else {
        Err(Refusal::NumberOutOfRange)
    }
}

// The steps along a row: each number less the one before, from 0. Refuses one outside signed 16 bits.
fn undo_sums(row: &mut [i32]) -> Result<(), Refusal>
    ensures { (row.new ≡ steps_of (length row.old) row.old) × (code_of result ≡ steps_refusal (length row.old) row.old) }
{
    let mut checked = Ok(());
    let mut last: i32 = 0;
    for z in row.iter_mut() {
        let d = wrapping_sub(*z, last);
        checked = checked.and(check_step(d));
        last = *z;
        *z = sign16(d);
    }
    checked
}

// The edge rows of a band, those below `first` and from `last` on, and E's mode.
#[derive(Clone, Copy)]
pub struct Edges {
    pub first: usize,
    pub last: usize,
    pub odd: bool,
}

impl Edges {
    // Those of a level's hh, which has m rows.
    fn of_level(s: Stage, b: Block, m: usize, odd: bool) -> Edges
        requires { m ≡ steps b.z.guarded b.z.n (level_of s) }
        ensures { ((y : ℕ) → y < m → edge_row_at result y ≡ is_edge (source b.z.guarded (level_of s) (height b.z.guarded b.z.n (level_of s)) hh y)) × (result.odd ≡ odd) }
    {
        let plain = usize::from(!b.z.guarded);
        let (first, last) = match s {
            Stage::First => (0, m),
            Stage::Second => (1, m - plain),
            Stage::Third => (1 + plain, m - 1 - plain),
        };
        Edges { first, last, odd }
    }

    // None of `count` rows.
    fn none(self, count: usize) -> Edges
        ensures { result ≡ no_edges count self }
    {
        Edges {
            first: 0,
            last: count,
            odd: self.odd,
        }
    }

    // Row y of a band as it goes back: an edge row with E undone.
    fn undo(self, row: &mut [i32], y: usize) -> Result<(), Refusal>
        ensures { (row.new ≡ row_back self.odd (some_source (edge_row_at self y)) (length row.old) row.old) × (code_of result ≡ row_refusal self.odd (some_source (edge_row_at self y)) (length row.old) row.old) }
    {
        if self.first <= y && y < self.last {
            check_row(row)
        } else {
            undo_edges(row, self.odd)
        }
    }
}

// Rows of c numbers, `count` of them, the first at `from` and then one every t numbers.
#[derive(Clone, Copy)]
struct Rows {
    c: usize,
    from: usize,
    t: usize,
    count: usize,
}

impl Rows {
    // Row y, copied to `to`.
    fn copy(self, work: &mut [i32], y: usize, to: usize)
        requires { (self.from + y * self.t + self.c ≤ length work.old) × (to + self.c ≤ length work.old) }
        ensures { work.new ≡ put_at work.old to (part work.old (self.from + y * self.t) self.c) }
    {
        let a = self.from + y * self.t;
        work.copy_within(a..a + self.c, to);
    }
}

// The rows of a band to their places.
fn band_back(work: &mut [i32], b: Band, r: Rows, e: Edges) -> Result<(), Refusal>
    requires { Returnable b r.c r.from r.t r.count (length work.old) }
    ensures { (work.new ≡ band_laid b r.c r.from r.t r.count e work.old) × (code_of result ≡ band_refused r.c r.from r.t r.count e work.old) }
{
    let mut checked = Ok(());
    for y in 0..r.count {
        let to = b.row(r.c, y);
        r.copy(work, y, to);
        let row = e.undo(&mut work[to..to + r.c], y);
        checked = checked.and(row);
    }
    checked
}

// Where the rows of a level undone stand: those of its lows from `low` on, those of its highs from `high` on, one every `stride` numbers, each
// of them c numbers of lo and c of hi.
#[derive(Clone, Copy)]
pub struct Undone {
    pub low: usize,
    pub high: usize,
    pub stride: usize,
}

// The bands of a level with m high rows to their places: hh, whose edge rows are e's, then lh, then hl.
fn level_back(work: &mut [i32], g: Level, m: usize, u: Undone, e: Edges) -> Result<(), Refusal>
    requires { AllReturnable g m u (length work.old) }
    ensures { (work.new ≡ hl_laid g m u e work.old) × (code_of result ≡ level_refused g m u e work.old) }
{
    let c = g.c;
    let h = g.h;
    let lh = Rows {
        c,
        from: u.high,
        t: u.stride,
        count: m,
    };
    let hh = Rows {
        from: u.high + c,
        ..lh
    };
    let hl = Rows {
        from: u.low + c,
        count: h,
        ..lh
    };
    let a = band_back(work, g.hh, hh, e);
    let b = band_back(work, g.lh, lh, e.none(m));
    let d = band_back(work, g.hl, hl, e.none(h));
    a.and(b).and(d)
}

// The bands of a level to its packet, in block b.
pub fn bands_back(work: &mut [i32], s: Stage, b: Block, u: Undone, odd: bool) -> Result<(), Refusal>
    requires { Held b.z b.at (length work.old) × Beside b.z b.at (level_of s) u (length work.old) }
    ensures { BandsReturned b.z b.at (level_of s) odd u work.old work.new (code_of result) }
{
    let g = s.level(b);
    let m = s.steps(b.z);
    let e = Edges::of_level(s, b, m, odd);
    level_back(work, g, m, u, e)
}

// The steps along rows, to rows one behind the other from `to` on.
fn steps_back(work: &mut [i32], r: Rows, to: usize) -> Result<(), Refusal>
    requires { Movable (λ y. to + y * r.c) r.c r.from r.t r.count (length work.old) }
    ensures { (work.new ≡ steps_laid r.c r.from r.t to r.count work.old) × (code_of result ≡ steps_refused r.c r.from r.t r.count work.old) }
{
    let mut checked = Ok(());
    for y in 0..r.count {
        let b = to + y * r.c;
        r.copy(work, y, b);
        let row = undo_sums(&mut work[b..b + r.c]);
        checked = checked.and(row);
    }
    checked
}

// Level 1's ll, whose rows stand one every t numbers from `from` on, to group 0's packet in block b: as steps.
pub fn base_back(work: &mut [i32], b: Block, from: usize, t: usize) -> Result<(), Refusal>
    requires { Held b.z b.at (length work.old) × BaseBeside b.z b.at from t (length work.old) }
    ensures { BaseReturned b.z b.at from t work.old work.new (code_of result) }
{
    let Block { z, at } = b;
    let c = z.w / 16;
    let s = usize::from(z.guarded);
    let r = Rows {
        c,
        from,
        t,
        count: z.n - s,
    };
    steps_back(work, r, at + s * c)
}
