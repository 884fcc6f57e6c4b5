// Rows of a level, lifted down the columns into a ring of rows [lo | hi], and along themselves out of it.
#![tactic(auto)]

ghost use Rattle.std.specs.Prelude.{◌≡◌, ◌++◌, ◌+◌, ◌*◌, ◌≤◌, length};
ghost use Rattle.lists.specs.Lists.{part, put_at};
ghost use Rattle.lifting.specs.Lift.{low_row, step_row};
ghost use Rattle.ring.specs.Ring.{LowsIn, HighsIn, low_pair, step_pair, high_pair, end_pair, along_row};

use lifting::{Beside, Between, Low, Step, lift_row, step_row};

// Where a row of the low bands ll and hl stands in the work slice, and one of the high bands lh and hh.
#[derive(Clone, Copy)]
pub struct Rows {
    pub ll: usize,
    pub hl: usize,
    pub lh: usize,
    pub hh: usize,
}

// A row of low results at `to`, from the low row and the high rows on both sides of it. Each function has work, ring and c as they are lent:
// a struct of them would hold both loans, and the pass writes to work between two calls.
fn low_half(
    work: &[i32],
    ring: &mut [i32],
    c: usize,
    low: usize,
    prev: usize,
    cur: usize,
    to: usize,
)
    requires { (to + c ≤ length ring.old) × (low + c ≤ length work.now) × (prev + c ≤ length work.now) × (cur + c ≤ length work.now) }
    ensures { ring.new ≡ put_at ring.old to (low_row c (part work.now low c) (part work.now prev c) (part work.now cur c)) }
{
    step_row::<Low>(
        &mut ring[to..to + c],
        &work[low..low + c],
        &work[prev..prev + c],
        &work[cur..cur + c],
    );
}

// A row of high results at `to`, from a high row of work and the ring's rows at a and b, before it.
fn step_half<S: Step>(
    work: &[i32],
    ring: &mut [i32],
    c: usize,
    high: usize,
    a: usize,
    b: usize,
    to: usize,
)
    requires { (to + c ≤ length ring.old) × (a + c ≤ to) × (b + c ≤ to) × (high + c ≤ length work.now) }
    ensures { ring.new ≡ put_at ring.old to (step_row S.step c (part work.now high c) (part ring.old a c) (part ring.old b c)) }
{
    let (before, after) = ring.split_at_mut(to);
    step_row::<S>(
        &mut after[..c],
        &work[high..high + c],
        &before[a..a + c],
        &before[b..b + c],
    );
}

// Low results of lo and of hi at `to`, from the low bands' row in cur and the high bands' rows in prev and cur.
pub fn low_pair(work: &[i32], ring: &mut [i32], c: usize, prev: Rows, cur: Rows, to: usize)
    requires { (to + 2 * c ≤ length ring.old) × LowsIn c (length work.now) cur × HighsIn c (length work.now) prev × HighsIn c (length work.now) cur }
    ensures { ring.new ≡ put_at ring.old to (low_pair c work.now prev cur) }
{
    low_half(work, ring, c, cur.ll, prev.lh, cur.lh, to);
    low_half(work, ring, c, cur.hl, prev.hh, cur.hh, to + c);
}

// High results of lo and of hi at `to`, from the high bands' row and the ring's rows at a and b.
fn step_pair<S: Step>(
    work: &[i32],
    ring: &mut [i32],
    c: usize,
    cur: Rows,
    a: usize,
    b: usize,
    to: usize,
)
    requires { (to + 2 * c ≤ length ring.old) × (a + 2 * c ≤ to) × (b + 2 * c ≤ to) × HighsIn c (length work.now) cur }
    ensures { ring.new ≡ put_at ring.old to (step_pair S.step c work.now cur ring.old a b) }
{
    step_half::<S>(work, ring, c, cur.lh, a, b, to);
    step_half::<S>(work, ring, c, cur.hh, a + c, b + c, to + c);
}

// Between the rows at a and b.
pub fn high_pair(work: &[i32], ring: &mut [i32], c: usize, cur: Rows, a: usize, b: usize, to: usize)
    requires { (to + 2 * c ≤ length ring.old) × (a + 2 * c ≤ to) × (b + 2 * c ≤ to) × HighsIn c (length work.now) cur }
    ensures { ring.new ≡ put_at ring.old to (high_pair c work.now cur ring.old a b) }
{
    step_pair::<Between>(work, ring, c, cur, a, b, to);
}

// Beside the row at a alone.
pub fn end_pair(work: &[i32], ring: &mut [i32], c: usize, cur: Rows, a: usize, to: usize)
    requires { (to + 2 * c ≤ length ring.old) × (a + 2 * c ≤ to) × HighsIn c (length work.now) cur }
    ensures { ring.new ≡ put_at ring.old to (end_pair c work.now cur ring.old a) }
{
    step_pair::<Beside>(work, ring, c, cur, a, a, to);
}

// The ring's row at `from`, along itself into out.
fn across(out: &mut [i32], ring: &[i32], from: usize, c: usize)
    requires { (length out.old ≡ 2 * c) × (from + 2 * c ≤ length ring.now) }
    ensures { out.new ≡ along_row c ring.now from }
{
    let mid = from + c;
    let end = mid + c;
    lift_row(out, &ring[from..mid], &ring[mid..end]);
}

// The same into out from o on.
pub fn emit(out: &mut [i32], o: usize, ring: &[i32], from: usize, c: usize)
    requires { (o + 2 * c ≤ length out.old) × (from + 2 * c ≤ length ring.now) }
    ensures { out.new ≡ put_at out.old o (along_row c ring.now from) }
{
    across(&mut out[o..o + 2 * c], ring, from, c);
}

// The ring's rows at a and b, one after the other.
pub fn emit_two(out: &mut [i32], o: usize, ring: &[i32], a: usize, b: usize, c: usize)
    requires { (o + 4 * c ≤ length out.old) × (a + 2 * c ≤ length ring.now) × (b + 2 * c ≤ length ring.now) }
    ensures { out.new ≡ put_at out.old o (along_row c ring.now a ++ along_row c ring.now b) }
{
    emit(out, o, ring, a, c);
    emit(out, o + 2 * c, ring, b, c);
}
