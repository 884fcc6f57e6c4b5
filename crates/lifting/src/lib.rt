// The row kernels of synthesis: 5/3 lifting, E and running sums over rows of i32. Document 01, 'Synthesis'.
#![tactic(auto)]

ghost use Rattle.std.specs.Prelude.{◌≡◌, ◌+◌, ◌*◌, ◌≤◌, length, ℤ};
ghost use Rattle.lists.specs.Lists.{part, put_at, Clear};
ghost use Rattle.lifting.specs.Lift.{low_step, high_step, end_step, step_row, high_row, end_row, lift_row, edge_row, sum_row};

use wrap32::{edge_detail, sign16, wrapping_add, wrapping_sub};

// l less a quarter of (p + c + 2).
#[tactic(auto, using(wrap32::proofs::Laws::stored), unfolding(crate::specs::Lift::low_step))]
fn low_step(l: i32, p: i32, c: i32) -> i32
    ensures { result ≡ low_step l p c }
{
    wrapping_sub(l, wrapping_add(wrapping_add(p, c), 2) >> 2)
}

// h plus half of (a + b).
#[tactic(auto, using(wrap32::proofs::Laws::stored), unfolding(crate::specs::Lift::high_step))]
fn high_step(h: i32, a: i32, b: i32) -> i32
    ensures { result ≡ high_step h a b }
{
    wrapping_add(h, wrapping_add(a, b) >> 1)
}

// What a row kernel makes of x, from the numbers at its place in two other rows. Each kernel names the three, as an operator its arguments.
pub trait Step {
    ghost step: { ℤ → ℤ → ℤ → ℤ };

    fn step(x: i32, a: i32, b: i32) -> i32
        ensures { result ≡ step x a b };
}

// A low result between two rows of high ones.
pub struct Low;

impl Step for Low {
    ghost step = { low_step };

    fn step(x: i32, a: i32, b: i32) -> i32 {
        low_step(x, a, b)
    }
}

// A high result between two rows of low ones.
pub struct Between;

impl Step for Between {
    ghost step = { high_step };

    fn step(x: i32, a: i32, b: i32) -> i32 {
        high_step(x, a, b)
    }
}

// A high result beside one row only: its number is added.
pub struct Beside;

impl Step for Beside {
    ghost step = { end_step };

    fn step(x: i32, a: i32, _b: i32) -> i32 {
        wrapping_add(x, a)
    }
}

// A row of results by a step, from three rows.
pub fn step_row<S: Step>(dst: &mut [i32], row: &[i32], a: &[i32], b: &[i32])
    requires { (length dst.old ≤ length row.now) × (length dst.old ≤ length a.now) × (length dst.old ≤ length b.now) }
    ensures { dst.new ≡ step_row S.step (length dst.old) row.now a.now b.now }
{
    for (x, d) in dst.iter_mut().enumerate() {
        *d = S::step(row[x], a[x], b[x]);
    }
}

// The results of a row by a step, at `to`, with the rows at a and b of the slice that is written.
fn step_in<S: Step>(ring: &mut [i32], row: &[i32], to: usize, a: usize, b: usize)
    requires in_bounds { (to + length row.now ≤ length ring.old) × (a + length row.now ≤ length ring.old) × (b + length row.now ≤ length ring.old) }
    requires clear { Clear to (length row.now) a × Clear to (length row.now) b }
    ensures { ring.new ≡ put_at ring.old to (step_row S.step (length row.now) row.now (part ring.old a (length row.now)) (part ring.old b (length row.now))) }
{
    for x in 0..row.len() {
        ring[to + x] = S::step(row[x], ring[a + x], ring[b + x]);
    }
}

// High results at `to`, between the rows at a and b of the same slice.
pub fn odd_row(ring: &mut [i32], high: &[i32], to: usize, a: usize, b: usize)
    requires in_bounds { (to + length high.now ≤ length ring.old) × (a + length high.now ≤ length ring.old) × (b + length high.now ≤ length ring.old) }
    requires clear { Clear to (length high.now) a × Clear to (length high.now) b }
    ensures { ring.new ≡ put_at ring.old to (high_row (length high.now) high.now (part ring.old a (length high.now)) (part ring.old b (length high.now))) }
{
    step_in::<Between>(ring, high, to, a, b);
}

// The same where one neighbour is missing: the other itself is added.
pub fn end_row(ring: &mut [i32], high: &[i32], to: usize, a: usize)
    requires { (to + length high.now ≤ length ring.old) × (a + length high.now ≤ length ring.old) × Clear to (length high.now) a }
    ensures { ring.new ≡ put_at ring.old to (end_row (length high.now) high.now (part ring.old a (length high.now))) }
{
    step_in::<Beside>(ring, high, to, a, a);
}

// One row lifted along itself: w lows and w highs give 2 w results.
pub fn lift_row(out: &mut [i32], low: &[i32], high: &[i32])
    requires { (length out.old ≡ 2 * length low.now) × (length high.now ≡ length low.now) }
    ensures { out.new ≡ lift_row (length low.now) low.now high.now }
{
    let w = low.len();
    if 0 < w {
        let last = w - 1;
        let mut cur = low_step(low[0], high[0], high[0]);
        for x in 0..last {
            let next = low_step(low[x + 1], high[x], high[x + 1]);
            out[2 * x] = cur;
            out[2 * x + 1] = high_step(high[x], cur, next);
            cur = next;
        }
        out[2 * last] = cur;
        out[2 * last + 1] = high_step(high[last], cur, cur);
    }
}

// E along a row.
pub fn edge_row(row: &mut [i32], odd: bool)
    ensures { row.new ≡ edge_row (length row.old) odd row.old }
{
    for x in row.iter_mut() {
        *x = edge_detail(*x, odd);
    }
}

// The running sum along a row, from 0, of the low 16 bits, read as signed.
pub fn integrate_row(row: &mut [i32])
    ensures { row.new ≡ sum_row (length row.old) row.old }
{
    let mut acc = 0;
    for x in row.iter_mut() {
        acc = wrapping_add(acc, sign16(*x));
        *x = acc;
    }
}
