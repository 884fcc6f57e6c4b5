// The bits of rows and records, as codes, and what takes them. Document 02, Job 2; document 01, 'Coefficients'.
#![tactic(auto)]

ghost use Rattle.std.specs.Prelude.{◌≡◌, List, [], ◌++◌, ℕ, ◌+◌, ◌-◌, ◌*◌, ◌/◌, ◌%◌, ◌^◌, ◌<◌, ◌≤◌, length, nat_abs, eqb};
ghost use Rattle.lists.specs.Lists.{row};
ghost use Rattle.format.specs.Writing.{number_bits, update_bits, run_bits, unary_bits, group_width, zero_groups, value_bits, sign_bits, signs_bits, next_bits, row_bits, zero_bits, units, filled, packed};
ghost use Rattle.codes.specs.Wrote.{Room, Appends, Counts, CountRoom};
ghost use Rattle.codes.proofs.Laws.{appends-none, appends-both, room_after, counts-none, counts-both, counts-after};
ghost use Rattle.encoding.specs.Numbers.{line, Small};
ghost use Rattle.encoding.specs.Record.{total, rows_in, record_in};
ghost use Rattle.encoding.specs.Turn.{run_tail, turn_groups, tail_bits};

use bits::bit_length;
use codes::{BitWriter, Code, Count};

// What takes codes: a writer, or a count of their bits.
pub trait Sink {
    // From one state to the next these bits were taken.
    ghost Takes: { Self → Self → List ℕ → Type 0 };

    // So many can be taken.
    ghost CanTake: { Self → ℕ → Type 0 };

    // Takes a code.
    fn put(&mut self, c: Code)
        requires { CanTake self.old c.n }
        ensures { Takes self.old self.new (number_bits c.n c.v) };

    // To take nothing changes nothing; what is taken in turn is taken as one; and what was not taken yet can still be.
    ghost takes_none: { (s : Self) (n : ℕ) → CanTake s n → Takes s s [] };

    ghost takes_both: { (s t u : Self) (x y : List ℕ) → Takes s t x → Takes t u y → Takes s u (x ++ y) };

    ghost can_after: { (s t : Self) (x : List ℕ) (n k : ℕ) → CanTake s n → Takes s t x → length x + k ≤ n → CanTake t k };
}

impl Sink for BitWriter<'_> {
    ghost Takes = { Appends };

    ghost CanTake = { Room };

    ghost takes_none = { appends-none };

    ghost takes_both = { appends-both };

    ghost can_after = { room_after };

    fn put(&mut self, c: Code) {
        BitWriter::put(self, c);
    }
}

impl Sink for Count {
    ghost Takes = { Counts };

    ghost CanTake = { CountRoom };

    ghost takes_none = { counts-none };

    ghost takes_both = { counts-both };

    ghost can_after = { counts-after };

    fn put(&mut self, c: Code) {
        Count::put(self, c);
    }
}

// The width update from a to b.
fn update_code(a: u64, b: u64) -> Code
    requires { (a ≤ 32) × (b ≤ 32) }
    ensures { (number_bits result.n result.v ≡ update_bits a b) × (result.n ≤ 40) }
{
    if a == b {
        return Code::zeros(1);
    }
    if a < b {
        return Code::new(2, 2).then(Code::unary(b - a));
    }
    if b == 0 {
        return Code::new(2, 3).then(Code::zeros(a - 1));
    }
    Code::new(2, 3).then(Code::unary(a - b))
}

// A zero run of k groups, where g are left. Up to its end a run that goes on is the number k itself, after as many zeros. That k is not 0 stands here,
// in `run_tail` and in `Code::unary`: a type for it would be made at each call, and taken apart at once.
fn run_code(g: u64, k: u64) -> Code
    requires { (1 ≤ k) × (k ≤ g) × (g < 2 ^ 16) }
    ensures { (number_bits result.n result.v ≡ run_bits g k) × (result.n ≤ 32) }
{
    if k == g {
        return Code::zeros(bit_length(g - 1));
    }
    let z = bit_length(k) - 1;
    Code::new(z + 1 + z, k)
}

// A run of k groups, of g, and the width of the next one in unary.
fn run_tail(g: u64, k: u64, next: u64) -> Code
    requires { (1 ≤ k) × (k ≤ g) × (g < 2 ^ 16) × (next ≤ 19) × (k < g → 1 ≤ next) }
    ensures { number_bits result.n result.v ≡ run_tail g k next }
{
    let c = run_code(g, k);
    if k == g { c } else { c.then(Code::unary(next)) }
}

// The sign bit of z: none of 0, 1 of what is below.
fn sign_of(z: i32) -> Code
    ensures { (number_bits result.n result.v ≡ sign_bits z) × (result.n ≤ 1) }
{
    if z == 0 {
        return Code::zeros(0);
    }
    Code::new(1, u64::from(z < 0))
}

// One turn of a row: the groups that it passes, the width of the next one, and the bits behind the values.
#[derive(Clone, Copy)]
struct Turn {
    groups: usize,
    width: u64,
    code: Code,
}

// A row that may be written: its numbers, 0 past their end. That 4 * j fits a word stands in four contracts (j < 2 ^ 32): a
// type of such j would be made anew for each j + 1 and j + k.
#[derive(Clone, Copy)]
struct Row<'a> {
    numbers: &'a [i32],
    ghost short: { length numbers.now < 2 ^ 16 },
    ghost small: { Small (line numbers.now) },
}

impl Row<'_> {
    // The number at x.
    fn at(self, x: usize) -> i32
        ensures { result ≡ line self.entry.numbers.now x }
    {
        self.numbers.get(x).copied().unwrap_or(0)
    }

    // How far it is from 0.
    fn size(self, x: usize) -> u64
        ensures { result ≡ nat_abs (line self.entry.numbers.now x) }
    {
        u64::from(self.at(x).unsigned_abs())
    }

    // The smallest width that holds the four magnitudes of group j.
    fn width_of(self, j: usize) -> u64
        requires { j < 2 ^ 32 }
        ensures { (result ≡ group_width (line self.entry.numbers.now) j) × (result ≤ 19) }
    {
        let x = 4 * j;
        let first = self.size(x).max(self.size(x + 1));
        bit_length(first.max(self.size(x + 2).max(self.size(x + 3))))
    }

    // The zero groups from group j on, at most g.
    fn zero_groups(self, j: usize, g: usize) -> usize
        requires { j + g < 2 ^ 32 }
        ensures { (result ≡ zero_groups (line self.entry.numbers.now) j g) × (result ≤ g) }
    {
        for k in 0..g {
            if self.width_of(j + k) != 0 {
                return k;
            }
        }
        g
    }

    // The magnitudes at x and behind it, in width w.
    fn pair(self, x: usize, w: u64) -> Code
        requires { (x < 2 ^ 40) × (w ≤ 19) × (nat_abs (line self.numbers.now x) < 2 ^ w) × (nat_abs (line self.numbers.now (x + 1)) < 2 ^ w) }
        ensures { (number_bits result.n result.v ≡ number_bits w (nat_abs (line self.entry.numbers.now x)) ++ number_bits w (nat_abs (line self.entry.numbers.now (x + 1)))) × (result.n ≡ 2 * w) }
    {
        Code::new(w, self.size(x)).then(Code::new(w, self.size(x + 1)))
    }

    // The signs of group j.
    fn signs(self, j: usize) -> Code
        requires { j < 2 ^ 32 }
        ensures { (number_bits result.n result.v ≡ signs_bits (line self.entry.numbers.now) j) × (result.n ≤ 4) }
    {
        let x = 4 * j;
        let first = sign_of(self.at(x)).then(sign_of(self.at(x + 1)));
        first.then(sign_of(self.at(x + 2)).then(sign_of(self.at(x + 3))))
    }

    // Behind the values of group j, where g are left: the update to the next width, and the signs.
    fn group_tail(self, j: usize, g: usize, w: u64, next: u64) -> Code
        requires { (j < 2 ^ 32) × (w ≡ group_width (line self.numbers.now) j) × (next ≡ group_width (line self.numbers.now) (j + 1)) }
        ensures { number_bits result.n result.v ≡ next_bits (line self.entry.numbers.now) j g ++ signs_bits (line self.entry.numbers.now) j }
    {
        let s = self.signs(j);
        if g <= 1 {
            s
        } else {
            update_code(w, next).then(s)
        }
    }

    // The turn at group j, whose width is w, where g groups are left.
    fn turn(self, j: usize, g: usize, w: u64) -> Turn
        requires { (j + g < 2 ^ 16) × (0 < g) × (w ≡ group_width (line self.numbers.now) j) }
        ensures groups { (result.groups ≡ turn_groups (line self.entry.numbers.now) j g) × (result.width ≡ group_width (line self.entry.numbers.now) (j + result.groups)) }
        ensures bits { number_bits result.code.n result.code.v ≡ tail_bits (line self.entry.numbers.now) j g }
        ensures bounds { (1 ≤ result.groups) × (result.groups ≤ g) }
    {
        if w == 0 {
            let k = self.zero_groups(j, g);
            let next = self.width_of(j + k);
            return Turn {
                groups: k,
                width: next,
                code: run_tail(g as u64, k as u64, next),
            };
        }
        let next = self.width_of(j + 1);
        Turn {
            groups: 1,
            width: next,
            code: self.group_tail(j, g, w, next),
        }
    }
}

// Puts the four magnitudes of group j, in width w: in one code where they fit it.
fn put_values<S: Sink>(s: &mut S, row: Row, j: usize, w: u64)
    requires { (j < 2 ^ 32) × (w ≡ group_width (line row.numbers.now) j) × S.CanTake s.old (4 * w) }
    ensures { S.Takes s.old s.new (value_bits (line row.entry.numbers.now) w j) }
{
    let a = row.pair(4 * j, w);
    let b = row.pair(4 * j + 2, w);
    if w <= 14 {
        s.put(a.then(b));
    } else {
        s.put(a);
        s.put(b);
    }
}

// Puts a row, turn by turn: each passes one group, or a run of zero groups.
fn put_row<S: Sink>(s: &mut S, row: Row)
    requires { S.CanTake s.old (length (row_bits (length row.numbers.now) (line row.numbers.now))) }
    ensures { S.Takes s.old s.new (row_bits (length row.entry.numbers.now) (line row.entry.numbers.now)) }
{
    let g = row.numbers.len().div_ceil(4);
    let mut w = row.width_of(0);
    s.put(update_code(0, w));
    let mut j = 0;
    while j < g {
        let t = row.turn(j, g - j, w);
        put_values(s, row, j, w);
        s.put(t.code);
        w = t.width;
        j += t.groups;
    }
}

// Whether all numbers are 0.
fn all_zero(l: &[i32]) -> bool
    ensures { result ≡ eqb (total l.now) 0 }
{
    l.iter().all(|z| *z == 0)
}

// The rows of a record, one after the other: their numbers, which may be written, the columns of a row, and how many rows there are.
#[derive(Clone, Copy)]
pub struct Rows<'a> {
    pub numbers: &'a [i32],
    pub cols: usize,
    pub count: usize,
    ghost narrow: { cols < 2 ^ 16 },
    ghost few: { count < 2 ^ 8 },
    ghost long: { length numbers.now ≡ count * cols },
    ghost small: { Small (line numbers.now) },
}

impl<'a> Rows<'a> {
    // Row q.
    fn row(self, q: usize) -> Row<'a>
        requires { q < self.count }
        ensures { row_bits (length result.numbers.now) (line result.numbers.now) ≡ row_bits self.entry.cols (line (row self.entry.cols self.entry.numbers.now q)) }
    {
        let a = q * self.cols;
        Row {
            numbers: &self.numbers[a..a + self.cols],
        }
    }

    // Puts each row.
    fn put_each<S: Sink>(self, s: &mut S)
        requires { S.CanTake s.old (length (rows_in self.cols self.numbers.now self.count)) }
        ensures { S.Takes s.old s.new (rows_in self.entry.cols self.entry.numbers.now self.entry.count) }
    {
        for q in 0..self.count {
            put_row(s, self.row(q));
        }
    }

    // Puts the record; one that is all zeros has no bits.
    fn put<S: Sink>(self, s: &mut S)
        requires { S.CanTake s.old (length (record_in self.cols self.count self.numbers.now)) }
        ensures { S.Takes s.old s.new (record_in self.entry.cols self.entry.count self.entry.numbers.now) }
    {
        if !all_zero(self.numbers) {
            self.put_each(s);
        }
    }

    // Writes the record, and zeros up to a whole byte.
    pub fn put_record(self, w: &mut BitWriter)
        requires { Room w.old (length (filled 8 (record_in self.cols self.count self.numbers.now))) × (w.old.held ≡ 0) }
        ensures { Appends w.old w.new (filled 8 (record_in self.entry.cols self.entry.count self.entry.numbers.now)) × (w.new.held ≡ 0) }
    {
        self.put(w);
        w.finish();
    }

    // The bytes that the record takes.
    pub fn bytes(self) -> u64
        ensures { (result ≡ units 8 (record_in self.entry.cols self.entry.count self.entry.numbers.now)) × (result < 2 ^ 32) }
    {
        let mut count = Count { bits: 0 };
        self.put(&mut count);
        count.bits.div_ceil(8)
    }
}
