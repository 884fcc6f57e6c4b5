// The row kernels of synthesis undone, and the passes over rows that undo a level in the work slice. Document 01, 'Recovery'.
#![tactic(auto)]

ghost use Rattle.std.specs.Prelude.{◌≡◌, ℕ, ◌+◌, ◌-◌, ◌*◌, ◌^◌, ◌≤◌, ◌<◌, length, set, List, ℤ, pos, ◌+ℤ◌};
ghost use Rattle.std.specs.Int.{w32};
ghost use Rattle.std.proofs.Common.{SFits};
ghost use Rattle.wrap32.specs.Arithmetic.{wrapping};
ghost use Rattle.lists.specs.Lists.{Apart, Clear, part, put_at, tab, laid};
ghost use Rattle.format.specs.Lifting.{low_leads, highs_of, Shape};
ghost use Rattle.format.specs.Synthesis.{quarter};
ghost use Rattle.format.specs.Recovery.{d_of, l_of, read_plane};
ghost use Rattle.lifting.specs.Lift.{at, step_row};
ghost use Rattle.undoing.specs.Undo.{half_back, whole_back, quarter_back, lows_from, split_row, around_at, details_row, average_back, averages_row};
ghost use Rattle.undoing.specs.Down.{Within, RowsApart, lead_of, detail_at, DetailsStand, highs_done, Placed, place, row_place, low_place, high_place, rows_in, highs_down, lows_down, split_at, Ready, Staged, LevelUndone};

use lifting::Step;
use wrap32::{wrapping_add, wrapping_sub};

// Rows that stand one after the other: the first at `start`, each `step` behind the one before it.
#[derive(Clone, Copy)]
pub struct Spaced {
    pub start: usize,
    pub step: usize,
}

impl Spaced {
    // Where row r stands.
    fn row(self, r: usize) -> usize
        requires { place self r < 2 ^ 64 }
        ensures { result ≡ place self r }
    {
        self.start + r * self.step
    }
}

// A level that is undone: h lows and m highs by turns, in rows of 2 c numbers, which go from `from` to `to`. `leads` is true where the high band has
// the first row; it is a flag and no type parameter, since the levels' table gives it at run time, and one formula over it states each contract.
#[derive(Clone, Copy)]
pub struct Level {
    pub from: Spaced,
    pub to: Spaced,
    pub c: usize,
    pub h: usize,
    pub m: usize,
    pub leads: bool,
}

// h less half of (a + b).
#[tactic(auto, using(wrap32::proofs::Laws::stored), unfolding(crate::specs::Undo::half_back))]
fn half_back(h: i32, a: i32, b: i32) -> i32
    ensures { result ≡ half_back h a b }
{
    wrapping_sub(h, wrapping_add(a, b) >> 1)
}

// l plus a quarter of (p + c + 2).
#[tactic(auto, using(wrap32::proofs::Laws::stored), unfolding(crate::specs::Undo::quarter_back))]
fn quarter_back(l: i32, p: i32, c: i32) -> i32
    ensures { result ≡ quarter_back l p c }
{
    wrapping_add(l, wrapping_add(wrapping_add(p, c), 2) >> 2)
}

// A high less half of the lows on both sides of it.
struct Half;

impl Step for Half {
    ghost step = { half_back };

    fn step(x: i32, a: i32, b: i32) -> i32 {
        half_back(x, a, b)
    }
}

// A high where one neighbour is missing: the other itself is taken off.
struct Whole;

impl Step for Whole {
    ghost step = { whole_back };

    fn step(x: i32, a: i32, _b: i32) -> i32 {
        wrapping_sub(x, a)
    }
}

// A low plus a quarter of the highs on both sides of it and 2.
struct Quarter;

impl Step for Quarter {
    ghost step = { quarter_back };

    fn step(x: i32, a: i32, b: i32) -> i32 {
        quarter_back(x, a, b)
    }
}

// The row at `to` by a step from the rows at a and b. (`lifting::step_row` reads x in another slice; here it stands in the one that is written.)
fn undo_row<S: Step>(work: &mut [i32], to: usize, a: usize, b: usize, n: usize)
    requires in_bounds { (to + n ≤ length work.old) × (a + n ≤ length work.old) × (b + n ≤ length work.old) }
    requires clear { Clear to n a × Clear to n b }
    ensures { work.new ≡ put_at work.old to (step_row S.step n (part work.old to n) (part work.old a n) (part work.old b n)) }
{
    for x in 0..n {
        work[to + x] = S::step(work[to + x], work[a + x], work[b + x]);
    }
}

// High x of the row at `from`, from its evens x and `next`, to its place behind `to`. (Here and below, `from`, `to` and `c` are no struct: each clause
// bounds another sum of them, so that fields would make the clauses longer and save none.)
fn split_high(work: &mut [i32], from: usize, to: usize, x: usize, next: usize)
    requires { (from + 2 * x + 1 < length work.old) × (from + 2 * next < length work.old) × (to + x < length work.old) }
    ensures { work.new ≡ set work.old (to + x) (half_back (at work.old (from + 2 * x + 1)) (at work.old (from + 2 * x)) (at work.old (from + 2 * next))) }
{
    work[to + x] = half_back(
        work[from + 2 * x + 1],
        work[from + 2 * x],
        work[from + 2 * next],
    );
}

// The c highs of a row of 2 c at `from`, to `to`. The last stands apart, since a `min` in the loop takes 1.6 times as long.
fn split_highs(work: &mut [i32], from: usize, to: usize, c: usize)
    requires { (from + 2 * c ≤ length work.old) × (to + c ≤ length work.old) × Apart from (2 * c) to c }
    ensures { work.new ≡ put_at work.old to (tab c (highs_of low_leads c (at (part work.old from (2 * c))))) }
{
    if 0 < c {
        let end = c - 1;
        for x in 0..end {
            split_high(work, from, to, x, x + 1);
        }
        split_high(work, from, to, end, end);
    }
}

// Low x of the row at `from`, from its highs `last` and x, which stand at `high`, to its place behind `to`.
fn split_low(work: &mut [i32], from: usize, high: usize, to: usize, x: usize, last: usize)
    requires { (from + 2 * x < length work.old) × (high + last < length work.old) × (high + x < length work.old) × (to + x < length work.old) }
    ensures { work.new ≡ set work.old (to + x) (quarter_back (at work.old (from + 2 * x)) (at work.old (high + last)) (at work.old (high + x))) }
{
    work[to + x] = quarter_back(work[from + 2 * x], work[high + last], work[high + x]);
}

// Its c lows, where its highs stand at `high`. The first stands apart, since a `saturating_sub` in the loop takes 4 times as long.
fn split_lows(work: &mut [i32], from: usize, high: usize, to: usize, c: usize)
    requires in_bounds { (from + 2 * c ≤ length work.old) × (high + c ≤ length work.old) × (to + c ≤ length work.old) }
    requires apart { Apart from (2 * c) to c × Apart high c to c }
    ensures { work.new ≡ put_at work.old to (lows_from c (part work.old from (2 * c)) (part work.old high c)) }
{
    if 0 < c {
        split_low(work, from, high, to, 0, 0);
        for x in 1..c {
            split_low(work, from, high, to, x, x - 1);
        }
    }
}

// One row of 2 c at `from` undone: its c lows at `to`, its c highs behind them.
fn split_row(work: &mut [i32], from: usize, to: usize, c: usize)
    requires { (from + 2 * c ≤ length work.old) × (to + 2 * c ≤ length work.old) × Apart from (2 * c) to (2 * c) }
    ensures { work.new ≡ put_at work.old to (split_row c (part work.old from (2 * c))) }
{
    let high = to + c;
    split_highs(work, from, high, c);
    split_lows(work, from, high, to, c);
}

// That the rows stand in the work slice (`Placed`, `Ready`) is a clause of each method and no field: the level does not hold the slice, which is lent
// for one call, and if it did, each contract would have to say that the level itself is left as it was.
impl Level {
    // Row r by a step from rows i and j.
    fn step_row<S: Step>(self, work: &mut [i32], r: usize, i: usize, j: usize)
        requires { Placed self (length work.old) × (r < self.h + self.m) × (i < self.h + self.m) × (j < self.h + self.m) }
        ensures { work.new ≡ put_at work.old (row_place self r) (step_row S.step (2 * self.c) (rows_in self work.old r) (rows_in self work.old i) (rows_in self work.old j)) }
    {
        undo_row::<S>(
            work,
            self.to.row(r),
            self.to.row(i),
            self.to.row(j),
            2 * self.c,
        );
    }

    // High row y less what was added to it.
    fn undo_high(self, work: &mut [i32], y: usize)
        requires { Placed self (length work.old) × (y < self.m) }
        ensures { work.new ≡ put_at work.old (high_place self y) (highs_down (lead_of self.leads) self.h (2 * self.c) (rows_in self work.old) y) }
    {
        let k = 2 * y;
        if self.leads {
            if y == 0 {
                self.step_row::<Whole>(work, k, 1, 1);
            } else if y == self.h {
                self.step_row::<Whole>(work, k, k - 1, k - 1);
            } else {
                self.step_row::<Half>(work, k, k - 1, k + 1);
            }
        } else {
            self.step_row::<Half>(work, k + 1, k, 2 * (y + 1).min(self.h - 1));
        }
    }

    // Low row y plus what was taken off it, where the highs are undone.
    fn undo_low(self, work: &mut [i32], y: usize)
        requires { Placed self (length work.old) × (y < self.h) }
        ensures { work.new ≡ put_at work.old (low_place self y) (lows_down (lead_of self.leads) self.m (2 * self.c) (rows_in self work.old) y) }
    {
        let k = 2 * y;
        if self.leads {
            self.step_row::<Quarter>(work, k + 1, k, 2 * (y + 1).min(self.m - 1));
        } else if y == 0 {
            self.step_row::<Quarter>(work, k, 1, 1);
        } else {
            self.step_row::<Quarter>(work, k, k - 1, k + 1);
        }
    }

    // Row r split to its place.
    fn split_at(self, work: &mut [i32], r: usize)
        requires { Ready self (length work.old) × (r < self.h + self.m) }
        ensures { work.new ≡ put_at work.old (row_place self r) (split_at self work.old r) }
    {
        split_row(work, self.from.row(r), self.to.row(r), self.c);
    }

    // Rows 2 y and 2 y + 1 split. That y is a row stays a clause here and below, since each call has its own.
    fn split_pair(self, work: &mut [i32], y: usize)
        requires { Ready self (length work.old) × (y < self.h) }
        ensures { (l : List ℤ) (a b : ℕ) → a ≤ y → b ≤ y → Ready self (length l) → Staged self l (2 * y) a b work.old → Staged self l (2 * y + 2) a b work.new }
    {
        self.split_at(work, 2 * y);
        self.split_at(work, 2 * y + 1);
    }

    // The high undone whose lows stand once pair y is split: the pair's own if the high band leads, else the one before it.
    fn next_high(self, work: &mut [i32], y: usize)
        requires { Ready self (length work.old) × (y < self.h) }
        ensures { (l : List ℤ) → Ready self (length l) → Staged self l (2 * y + 2) (highs_done (lead_of self.leads) y) (y - 1) work.old → Staged self l (2 * y + 2) (highs_done (lead_of self.leads) (y + 1)) (y - 1) work.new }
    {
        if self.leads {
            self.undo_high(work, y);
        } else if 0 < y {
            self.undo_high(work, y - 1);
        }
    }

    // Then low y - 1.
    fn next_low(self, work: &mut [i32], y: usize)
        requires { Ready self (length work.old) × (y < self.h) }
        ensures { (l : List ℤ) → Ready self (length l) → Staged self l (2 * y + 2) (highs_done (lead_of self.leads) (y + 1)) (y - 1) work.old → Staged self l (2 * y + 2) (highs_done (lead_of self.leads) (y + 1)) y work.new }
    {
        if 0 < y {
            self.undo_low(work, y - 1);
        }
    }

    // The last high: of as many as lows with the low band leading, or one more than the lows, which is split first.
    fn last_high(self, work: &mut [i32])
        requires { Ready self (length work.old) }
        ensures { (l : List ℤ) → Ready self (length l) → Staged self l (2 * self.h) (highs_done (lead_of self.leads) self.h) (self.h - 1) work.old → Staged self l (self.h + self.m) self.m (self.h - 1) work.new }
    {
        if self.leads {
            if self.h < self.m {
                self.split_at(work, 2 * self.h);
                self.undo_high(work, self.h);
            }
        } else {
            self.undo_high(work, self.h - 1);
        }
    }

    // From the rows of `from`: along the rows to `to`, then down the columns there. In the rows of the lows stand then c of ll and c of hl, in those
    // of the highs c of lh and c of hh.
    pub fn undo(self, work: &mut [i32])
        requires within { Within self.from.start self.from.step (2 * self.c) (self.h + self.m) (length work.old) × Within self.to.start self.to.step (2 * self.c) (self.h + self.m) (length work.old) × RowsApart self.from.start self.from.step self.to.start self.to.step (2 * self.c) (self.h + self.m) }
        requires shape { (1 ≤ self.c) × (2 * self.c ≤ self.to.step) × (1 ≤ self.h) × Shape (lead_of self.leads) self.h self.m }
        ensures { LevelUndone (lead_of self.leads) self.h self.m self.c self.from.start self.from.step self.to.start self.to.step work.old work.new }
    {
        for y in 0..self.h {
            self.split_pair(work, y);
            self.next_high(work, y);
            self.next_low(work, y);
        }
        self.last_high(work);
        self.undo_low(work, self.h - 1);
    }
}

// A quarter of the sum of four, added in document 01's order; `green` adds in pairs.
#[tactic(auto, using(wrap32::proofs::Laws::stored))]
fn quarter_of(a: i32, b: i32, c: i32, d: i32) -> i32
    ensures { result ≡ quarter wrapping a b c d }
{
    wrapping_add(wrapping_add(wrapping_add(a, b), c), d) >> 2
}

// What even column x of green has from the odd ones around it, in its own row and the next.
fn around_at(row: &[i32], next: &[i32], x: usize) -> i32
    requires { (2 * x + 1 < length row.now) × (2 * x + 1 < length next.now) }
    ensures { result ≡ around_at row.now next.now x }
{
    if x == 0 {
        return wrapping_add(row[1], next[1]) >> 1;
    }
    let k = 2 * x;
    quarter_of(row[k - 1], next[k - 1], row[k + 1], next[k + 1])
}

// The details of a row of green, from it and the next.
fn details_row(out: &mut [i32], row: &[i32], next: &[i32])
    requires { (2 * length out.old ≤ length row.now) × (2 * length out.old ≤ length next.now) }
    ensures { out.new ≡ details_row (length out.old) row.now next.now }
{
    for (x, d) in out.iter_mut().enumerate() {
        *d = wrapping_sub(row[2 * x], around_at(row, next, x));
    }
}

// Which row of the details' place row y has: with a gap of rows behind the first e.
pub fn detail_at(e: usize, gap: usize, y: usize) -> usize
    requires { detail_at e gap y < 2 ^ 64 }
    ensures { result ≡ detail_at e gap y }
{
    if y < e { y } else { y + gap }
}

// The details of a plane of `count` rows of 2 c, row after row from `at` on, with a gap of rows behind the first e.
pub fn details(
    work: &mut [i32],
    plane: &[i32],
    at: usize,
    e: usize,
    gap: usize,
    c: usize,
    count: usize,
)
    requires { (1 ≤ c) × (count * (2 * c) ≤ length plane.now) × ((y : ℕ) → y < count → at + detail_at e gap y * c + c ≤ length work.old) }
    ensures { work.new ≡ laid (λ y. at + detail_at e gap y * c) (λ y. tab c (d_of count (read_plane (2 * c) plane.now) y)) work.old count }
{
    for y in 0..count {
        let to = at + detail_at(e, gap, y) * c;
        let row = y * (2 * c);
        let next = (y + 1).min(count - 1) * (2 * c);
        details_row(
            &mut work[to..to + c],
            &plane[row..row + 2 * c],
            &plane[next..next + 2 * c],
        );
    }
}

// o plus half of g, rounded up.
#[tactic(auto, using(crate::proofs::UndoLaws::stored_sum), unfolding(crate::specs::Undo::average_back))]
fn average_back(o: i32, g: i32) -> i32
    requires { SFits w32 (g +ℤ pos 1) }
    ensures { result ≡ average_back o g }
{
    wrapping_add(o, wrapping_add(g, 1) >> 1)
}

// Average x of a row of green, from columns x and `next` of the details at `prev` and `cur`, to its place behind `to`.
fn average_at(
    work: &mut [i32],
    row: &[i32],
    to: usize,
    prev: usize,
    cur: usize,
    x: usize,
    next: usize,
)
    requires { (2 * x + 1 < length row.now) × (to + x < length work.old) × (prev + x < length work.old) × (cur + x < length work.old) × (prev + next < length work.old) × (cur + next < length work.old) }
    ensures { work.new ≡ set work.old (to + x) (average_back (at row.now (2 * x + 1)) (quarter wrapping (at work.old (prev + x)) (at work.old (cur + x)) (at work.old (prev + next)) (at work.old (cur + next)))) }
{
    let g = quarter_of(
        work[prev + x],
        work[cur + x],
        work[prev + next],
        work[cur + next],
    );
    work[to + x] = average_back(row[2 * x + 1], g);
}

// The averages of a row of green to `to`, from the details at `prev` and `cur`. The last stands apart, since a `min` in the loop takes 3.7 times as
// long in rows of 128 and more.
fn averages_row(work: &mut [i32], row: &[i32], to: usize, prev: usize, cur: usize, c: usize)
    requires in_bounds { (2 * c ≤ length row.now) × (to + c ≤ length work.old) × (prev + c ≤ length work.old) × (cur + c ≤ length work.old) }
    requires apart { Apart prev c to c × Apart cur c to c }
    ensures { work.new ≡ put_at work.old to (averages_row c row.now (part work.old prev c) (part work.old cur c)) }
{
    if 0 < c {
        let end = c - 1;
        for x in 0..end {
            average_at(work, row, to, prev, cur, x, x + 1);
        }
        average_at(work, row, to, prev, cur, end, end);
    }
}

// The averages of a plane of `count` rows of 2 c, row after row from `to` on, from its details, which stand row after row from `from` on.
pub fn averages(work: &mut [i32], plane: &[i32], from: usize, to: usize, c: usize, count: usize)
    requires { (count * (2 * c) ≤ length plane.now) × (from + count * c ≤ length work.old) × (to + count * c ≤ length work.old) × Apart from (count * c) to (count * c) }
    ensures { DetailsStand count c plane.now work.old from → work.new ≡ laid (λ y. to + y * c) (λ y. tab c (l_of count c (read_plane (2 * c) plane.now) y)) work.old count }
{
    for y in 0..count {
        let row = y * (2 * c);
        let prev = from + y.saturating_sub(1) * c;
        averages_row(
            work,
            &plane[row..row + 2 * c],
            to + y * c,
            prev,
            from + y * c,
            c,
        );
    }
}
