// One row of coefficients.
#![tactic(auto)]

ghost use Rattle.std.specs.Prelude.{◌≡◌, true, false, cond, List, ℕ, ◌+◌, ◌-◌, ◌*◌, ◌%◌, ◌^◌, ◌<◌, ◌≤◌, min, pos, neg_ℤ, nat_abs, eqb, length, set};
ghost use Rattle.std.specs.Int.Signed.{lt_z};
ghost use Rattle.std.proofs.Common.{lit<};
ghost use Rattle.format.specs.Coefficients.{value_of, sign_of, signs_of, width_after, width_next, group_of, zeros_of, zeros, stopped, row_of};
ghost use Rattle.format.specs.Used.{row_used};
ghost use Rattle.bits.specs.View.{as_reader, as_taken, as_four, Ready};
ghost use Rattle.rows.specs.View.{as_signed, as_signed_four, as_group, as_run};
ghost use Rattle.rows.specs.Word.{sign_bit_of, nonzero_of, signed_of, quad_of, store_quad, level_of, Near, Ends, Runs, step_of};
ghost use Rattle.rows.specs.Stretch.{stretch_of, stretch_quad};
ghost use Rattle.rows.specs.Course.{state_of, moved_to, Halted, Underway, Onward, Done};

// The packet stands beside each reader, and `Ready` in each contract, for the reason that `BitReader` gives. The width goes beside the reader, since a
// turn changes each alone.
use bits::{BitReader, Four, Status, Taken, Used, bit_length, changed};
use words::{after, window};
use wrap32::cut32;

// A selector, of four bits.
#[derive(Clone, Copy)]
pub struct Selector {
    pub number: u64,
    pub ghost small: { number < 16 },
}

// The value u under a selector. It asks whether the selector is 0, where document 01 has another formula: by a type, as `Scale` is, each function from
// `decode_row` to `sign` would carry that parameter for this one line.
fn value(u: u64, selector: Selector) -> i32
    requires { u < 2 ^ 19 }
    ensures { result ≡ value_of u selector.number }
{
    if selector.number == 0 {
        return u as i32;
    }
    if u == 0 {
        return 0;
    }
    cut32((((2 * u + 1) << (selector.number - 1)) - u % 2) as i64)
}

// A value above 0 under a sign bit. It stands by itself so that it is compiled without a branch.
fn with_sign(z: i32, bit: u64) -> i32
    requires { lt_z (pos 0) z ≡ true }
    ensures { result ≡ cond (eqb bit 0) z (neg_ℤ z) }
{
    if bit == 0 { z } else { -z }
}

// A value with its sign.
fn sign(z: i32, reader: BitReader, packet: &[u8]) -> Taken<i32>
    requires { Ready packet.now reader }
    ensures value { as_signed result ≡ sign_of packet.now z (as_reader reader) }
    ensures ready { Ready packet.now result.reader }
{
    if 0 < z {
        let t = reader.read(packet, 1);
        let after = t.reader;
        return Taken {
            value: with_sign(z, t.value),
            reader: after,
        };
    }
    Taken { value: z, reader }
}

// What is decoded of a row, and the width and the reader after it.
#[derive(Clone, Copy)]
struct Decoded<T> {
    value: T,
    width: u64,
    reader: BitReader,
}

// The signs of four values, one by one.
fn signs_apart(
    q: Taken<Four<u64>>,
    selector: Selector,
    reader: BitReader,
    packet: &[u8],
) -> Taken<Four<i32>>
    requires ready { Ready packet.now reader }
    requires short { (q.value.a < 2 ^ 19) × (q.value.b < 2 ^ 19) × (q.value.c < 2 ^ 19) × (q.value.d < 2 ^ 19) }
    ensures value { as_signed_four result ≡ signs_of packet.now selector.number (as_four q) (as_reader reader) }
    ensures still_ready { Ready packet.now result.reader }
{
    let a = sign(value(q.value.a, selector), reader, packet);
    let ra = a.reader;
    let b = sign(value(q.value.b, selector), ra, packet);
    let rb = b.reader;
    let c = sign(value(q.value.c, selector), rb, packet);
    let rc = c.reader;
    let d = sign(value(q.value.d, selector), rc, packet);
    let rd = d.reader;
    Taken {
        value: Four {
            a: a.value,
            b: b.value,
            c: c.value,
            d: d.value,
        },
        reader: rd,
    }
}

// A value with its sign from a word of four sign bits, of which some are used, and how many are used after it.
fn sign_bit(v: i32, word: u64, used: u64) -> Used<i32>
    requires { used < 4 }
    ensures value { result ≡ sign_bit_of v word used }
    ensures used_bound { result.used ≤ used + 1 }
{
    if 0 < v {
        return Used {
            value: with_sign(v, (word >> (3 - used)) % 2),
            used: used + 1,
        };
    }
    Used { value: v, used }
}

// The signs of four values. One word holds them all, but near the end of the allowance.
fn signs(
    q: Taken<Four<u64>>,
    selector: Selector,
    reader: BitReader,
    packet: &[u8],
) -> Taken<Four<i32>>
    requires ready { Ready packet.now reader }
    requires short { (q.value.a < 2 ^ 19) × (q.value.b < 2 ^ 19) × (q.value.c < 2 ^ 19) × (q.value.d < 2 ^ 19) }
    ensures value { as_signed_four result ≡ signs_of packet.now selector.number (as_four q) (as_reader reader) }
    ensures still_ready { Ready packet.now result.reader }
{
    if reader.remaining < 4 {
        return signs_apart(q, selector, reader, packet);
    }
    let word = reader.ahead(packet, 4);
    let a = sign_bit(value(q.value.a, selector), word, 0);
    let b = sign_bit(value(q.value.b, selector), word, a.used);
    let c = sign_bit(value(q.value.c, selector), word, b.used);
    let d = sign_bit(value(q.value.d, selector), word, c.used);
    Taken {
        value: Four {
            a: a.value,
            b: b.value,
            c: c.value,
            d: d.value,
        },
        reader: reader.skip(packet, d.used),
    }
}

// The width after a zero run.
fn width_after(reader: BitReader, packet: &[u8], left: u64) -> Taken<u64>
    requires { Ready packet.now reader }
    ensures value { as_taken result ≡ width_after packet.now left (as_reader reader) }
    ensures ready { Ready packet.now result.reader }
{
    if left == 0 {
        return Taken { value: 0, reader };
    }
    reader.unary(packet)
}

// The width after a group's values.
fn width_next(reader: BitReader, packet: &[u8], width: u64, groups: u64) -> Taken<u64>
    requires ready { Ready packet.now reader }
    requires width_bound { width ≤ 19 }
    ensures value { as_taken result ≡ width_next packet.now groups width (as_reader reader) }
    ensures still_ready { Ready packet.now result.reader }
{
    if groups <= 1 {
        return Taken {
            value: width,
            reader,
        };
    }
    reader.width_update::<false>(packet, width)
}

// A group of four values.
fn group(
    reader: BitReader,
    packet: &[u8],
    width: u64,
    selector: Selector,
    groups: u64,
) -> Decoded<Four<i32>>
    requires ready { Ready packet.now reader }
    requires width_bound { width ≤ 19 }
    ensures value { as_group result ≡ group_of packet.now selector.number groups (state_of width reader) }
    ensures still_ready { Ready packet.now result.reader }
{
    let q = reader.read4(packet, width);
    let rq = q.reader;
    let n = width_next(rq, packet, width, groups);
    let rn = n.reader;
    let z = signs(q, selector, rn, packet);
    let rz = z.reader;
    Decoded {
        value: z.value,
        width: n.value,
        reader: rz,
    }
}

// A run of zero groups.
fn zero_groups(reader: BitReader, packet: &[u8], groups: u64) -> Decoded<u64>
    requires ready { Ready packet.now reader }
    requires some { (0 < groups) × (groups < 2 ^ 32) }
    ensures value { as_run result ≡ zeros_of packet.now groups (as_reader reader) }
    ensures still_ready { Ready packet.now result.reader }
    ensures some_groups { (0 < result.value) × (result.value ≤ groups) }
{
    let run = reader.zero_run(packet, groups);
    let rr = run.reader;
    let n = width_after(rr, packet, groups - run.value);
    let rn = n.reader;
    Decoded {
        value: run.value,
        width: n.value,
        reader: rn,
    }
}

// A reader that has met a width above 19, where nothing stopped it before.
fn stop(reader: BitReader) -> BitReader
    ensures value { as_reader result ≡ stopped (as_reader reader) }
    ensures still_ready { (s : List ℕ) → Ready s reader → Ready s result }
{
    if reader.status.stops() {
        return reader;
    }
    BitReader {
        status: Status::Broken,
        ..reader
    }
}

// A value at a place, if the slice has it.
fn put(dst: &mut [i32], i: usize, v: i32)
    ensures { dst.new ≡ set dst.old i v }
{
    if i < dst.len() {
        dst[i] = v;
    }
}

// Four values at a place of a slice, as far as it goes. In `fast` stands `put_quad`, which tests no place: with this in its stead coefficients
// measured some 20 per cent slower.
fn put4(dst: &mut [i32], i: usize, q: Four<i32>)
    requires { i < 2 ^ 63 }
    ensures { dst.new ≡ store_quad dst.old i q }
{
    put(dst, i, q.a);
    put(dst, i + 1, q.b);
    put(dst, i + 2, q.c);
    put(dst, i + 3, q.d);
}

// One of two numbers. It stands by itself so that it is compiled without a branch.
fn pick(t: bool, a: u64, b: u64) -> u64
    ensures { result ≡ cond t a b }
{
    if t { a } else { b }
}

// A number, or 0 where it is below 0.
fn above(y: i64) -> u64
    ensures { result ≡ level_of y }
{
    y.max(0) as u64
}

// 1 for a value that takes a sign bit.
fn nonzero(u: u64) -> u64
    ensures { (result ≡ nonzero_of u) × (result ≤ 1) }
{
    u64::from(u != 0)
}

// A short magnitude under a sign bit. It stands by itself so that it is compiled without a branch; `with_sign` takes no 0.
fn with_bit(m: u64, bit: u64) -> i32
    requires { m < 2 ^ 12 }
    ensures { result ≡ signed_of m bit }
{
    let z = m as i32;
    if bit == 0 { z } else { -z }
}

// Four values with their signs out of a word, of which `used` bits come before the signs, and the sign bits that they take.
fn quad_word(word: u64, width: u64, used: u64) -> Used<Four<i32>>
    requires { (1 ≤ width) × (width ≤ 12) × (used < 60) }
    ensures { (result ≡ quad_of 0 word width used) × (result.used ≤ 4) }
{
    let left = 63 - used;
    let down = 64 - width;
    let from_b = word << width;
    let from_c = from_b << width;
    let from_d = from_c << width;
    let a = word >> down;
    let b = from_b >> down;
    let c = from_c >> down;
    let d = from_d >> down;
    let n1 = nonzero(a);
    let n2 = n1 + nonzero(b);
    let n3 = n2 + nonzero(c);
    Used {
        value: Four {
            a: with_bit(a, (word >> left) % 2),
            b: with_bit(b, (word >> (left - n1)) % 2),
            c: with_bit(c, (word >> (left - n2)) % 2),
            d: with_bit(d, (word >> (left - n3)) % 2),
        },
        used: n3 + nonzero(d),
    }
}

// Four values at a place.
fn put_quad(dst: &mut [i32], at: usize, q: Four<i32>)
    requires { at + 4 ≤ length dst.old }
    ensures { dst.new ≡ store_quad dst.old at q }
{
    dst[at] = q.a;
    dst[at + 1] = q.b;
    dst[at + 2] = q.c;
    dst[at + 3] = q.d;
}

// 1 for an odd number, else 0.
fn odd(x: i32) -> i32
    ensures { result ≡ pos (nat_abs x % 2) }
{
    i32::from(x % 2 != 0)
}

// A number where a test holds, else 0. It stands by itself so that it is compiled without a branch, and beside `pick`, as each has one type and one use.
fn kept(t: bool, h: i32) -> i32
    ensures { result ≡ cond t h (pos 0) }
{
    if t { h } else { 0 }
}

// A coefficient of selector 0 under the selector.
fn stretched(x: i32, selector: Selector) -> i32
    requires { 0 < selector.number }
    ensures { result ≡ stretch_of selector.number x }
{
    let h = (1i32 << (selector.number - 1)) - odd(x);
    let p = kept(0 < x, h);
    let q = kept(x < 0, h);
    cut32(((x << selector.number) as i64) + (p as i64) - (q as i64))
}

// What is done to four values of selector 0.
trait Scale: Copy {
    ghost selector: { Self → ℕ };

    fn four(self, q: Four<i32>) -> Four<i32>
        ensures { result ≡ stretch_quad (selector self) q };

    ghost below: { (x : Self) → selector x < 16 };
}

// Selector 0 itself.
#[derive(Clone, Copy)]
struct Unscaled;

impl Scale for Unscaled {
    ghost selector = { λ _. 0 };

    fn four(self, q: Four<i32>) -> Four<i32> {
        q
    }

    ghost below = { λ _. lit< tt };
}

// A selector above 0.
#[derive(Clone, Copy)]
struct Scaled {
    selector: Selector,
    ghost some: { 0 < selector.number },
}

impl Scale for Scaled {
    ghost selector = { λ x. x.selector.number };

    fn four(self, q: Four<i32>) -> Four<i32> {
        Four {
            a: stretched(q.a, self.selector),
            b: stretched(q.b, self.selector),
            c: stretched(q.c, self.selector),
            d: stretched(q.d, self.selector),
        }
    }

    ghost below = { λ x. x.selector.small };
}

// The place before which two words stand whole in the packet.
fn edge(packet: &[u8]) -> u64
    ensures { result ≡ min (length packet.now) (2 ^ 40) * 8 - 127 }
{
    ((packet.len() as u64).min(0x100_0000_0000) * 8).saturating_sub(127)
}

// Whether a run or a short group may be taken out of a word: before the row's last group, where two words stand whole in the packet.
fn near(level: i64, out: usize, last: usize, place: u64, end: u64) -> bool
    ensures { (result ≡ true → Near (level_of level) out last place end) × (result ≡ false → Near (level_of level) out last place end → ⊥) }
{
    out < last && place < end && level <= 12
}

// Whether so many bits are more than a word gives, or more than are left up to a place.
fn over(place: u64, used: u64, most: u64, stop: u64) -> bool
    requires { (place < 2 ^ 40) × (used < 2 ^ 40) }
    ensures { (result ≡ false → (used ≤ most) × (place + used ≤ stop)) × (result ≡ true → (used ≤ most) × (place + used ≤ stop) → ⊥) }
{
    most < used || stop < place + used
}

// A zero run and the width after it, and the bits that they take: `Used` over a pair would leave the first two without names.
#[derive(Clone, Copy)]
struct Run {
    groups: u64,
    width: u64,
    used: u64,
}

// A zero run out of a word, where `left` groups are left.
fn run_word(word: u64, left: u64) -> Run
    requires { (0 < left) × (left < 2 ^ 31) }
    ensures { Runs word left result }
{
    let most = bit_length(left - 1);
    let z = word.leading_zeros() as u64;
    if most <= z {
        return Run {
            groups: left,
            width: 0,
            used: most,
        };
    }
    let v = (word << z) >> (63 - z);
    if left <= v {
        return Run {
            groups: left,
            width: 0,
            used: 2 * z + 1,
        };
    }
    let u = (word << (2 * z + 1)).leading_zeros() as u64;
    Run {
        groups: v,
        width: u + 1,
        used: 2 * z + u + 2,
    }
}

// What a width update does to the width, by its first five bits: '0' keeps it, '10' and '11' move it up and down by one more than the zeros
// that follow. Beside it the bits of the update, where they are no more than five; else 64.
static UPDATES: [(i8, u8); 32] = [
    (0, 1),
    (0, 1),
    (0, 1),
    (0, 1),
    (0, 1),
    (0, 1),
    (0, 1),
    (0, 1),
    (0, 1),
    (0, 1),
    (0, 1),
    (0, 1),
    (0, 1),
    (0, 1),
    (0, 1),
    (0, 1),
    (4, 64),
    (3, 5),
    (2, 4),
    (2, 4),
    (1, 3),
    (1, 3),
    (1, 3),
    (1, 3),
    (-4, 64),
    (-3, 5),
    (-2, 4),
    (-2, 4),
    (-1, 3),
    (-1, 3),
    (-1, 3),
    (-1, 3),
];

// The width after a group, 0 where it is below 0, and the bits of its values and its update, out of a word: by the table, or, where the
// update is longer, by the zeros in it.
fn step_word(word: u64, width: u64) -> Used<i64>
    requires { (1 ≤ width) × (width ≤ 12) }
    ensures step { (level_of result.value ≡ (step_of word width).value) × (result.used ≡ (step_of word width).used) }
    ensures used_bound { result.used ≤ 115 }
{
    let rest = word << (4 * width);
    let k = (rest >> 59) as usize;
    let (by, length) = UPDATES[k];
    let level = (width as i64) + (by as i64);
    let bits = pick(level <= 0, width + 1, length as u64);
    if 16 < bits {
        let u = changed(rest, width);
        return Used {
            value: u.value as i64,
            used: 4 * width + u.used,
        };
    }
    Used {
        value: level,
        used: 4 * width + bits,
    }
}

// Whether the row's last group, which has no update, is short and whole, and its signs are within the allowance.
fn ends(width: u64, out: usize, n: usize, place: u64, stop: u64) -> bool
    requires { (out < 2 ^ 33) × (place < 2 ^ 40) }
    ensures { (result ≡ true → Ends width out n place stop) × (result ≡ false → Ends width out n place stop → ⊥) }
{
    1 <= width && width <= 12 && n == out + 4 && place + 4 * width + 4 <= stop
}

// A point of a row, with the reader that has come to it.
fn arrived(reader: BitReader, place: u64, word: u64, width: u64, out: usize) -> Decoded<usize>
    requires { (reader.place ≤ place) × (place ≤ reader.place + reader.remaining) × (reader.place + reader.remaining < 2 ^ 40) }
    ensures { (result.value ≡ out) × (result.width ≡ width) × (as_reader result.reader ≡ moved_to (as_reader reader) place) × (result.reader.cache ≡ word) }
{
    Decoded {
        value: out,
        width,
        reader: BitReader {
            place,
            cache: word,
            remaining: reader.place + reader.remaining - place,
            ..reader
        },
    }
}

// Runs and groups out of single words, as long as each stands whole in its word. The rest of the row is 0 already. Each turn hands the next
// one its word. It is a `while`: what is read decides how far a turn goes. That the row is under way is a clause here and below, of the slice that is
// lent and the reader together.
fn fast<S: Scale>(
    reader: BitReader,
    packet: &[u8],
    width: u64,
    scale: S,
    dst: &mut [i32],
    out: usize,
) -> Decoded<usize>
    requires ready { Ready packet.now reader }
    requires underway { Underway dst.old out width reader }
    ensures onward { Onward packet.now (S.selector scale) dst.old out (state_of width reader) dst.new result.value (state_of result.width result.reader) }
    ensures done { Done packet.now (length dst.old) out width result.value result.width result.reader }
{
    let n = dst.len();
    let last = n.saturating_sub(4);
    let end = edge(packet);
    let stop = reader.place + reader.remaining;
    let room = stop.saturating_sub(4);
    let mut place = reader.place;
    let mut word = reader.cache;
    let mut level = width as i64;
    let mut i = out;
    while near(level, i, last, place, end) {
        if level <= 0 {
            let h = run_word(word, ((n - i + 3) / 4) as u64);
            if over(place, h.used, 56, stop) {
                return arrived(reader, place, word, 0, i);
            }
            i = i + 4 * (h.groups as usize);
            level = h.width as i64;
            word = after(packet, place, h.used);
            place = place + h.used;
        } else {
            let w = level as u64;
            let u = step_word(word, w);
            if over(place, u.used, 52, room) {
                return arrived(reader, place, word, w, i);
            }
            let q = quad_word(word, w, u.used);
            put_quad(dst, i, scale.four(q.value));
            level = u.value;
            i += 4;
            let taken = u.used + q.used;
            word = after(packet, place, taken);
            place = place + taken;
        }
    }
    let w = above(level);
    if ends(w, i, n, place, stop) {
        let q = quad_word(word, w, 4 * w);
        put_quad(dst, i, scale.four(q.value));
        let next = place + 4 * w + q.used;
        return arrived(reader, next, window(packet, next), w, i + 4);
    }
    arrived(reader, place, word, w, i)
}

// Runs and groups out of single words, under any selector: here the scale becomes a type, once for each stretch.
fn quick(
    reader: BitReader,
    packet: &[u8],
    width: u64,
    selector: Selector,
    dst: &mut [i32],
    out: usize,
) -> Decoded<usize>
    requires ready { Ready packet.now reader }
    requires underway { Underway dst.old out width reader }
    ensures onward { Onward packet.now selector.number dst.old out (state_of width reader) dst.new result.value (state_of result.width result.reader) }
    ensures done { Done packet.now (length dst.old) out width result.value result.width result.reader }
{
    if selector.number == 0 {
        return fast(reader, packet, width, Unscaled, dst, out);
    }
    fast(reader, packet, width, Scaled { selector }, dst, out)
}

// One run or group as it is read. The rest of the row is 0 already.
fn plain(
    reader: BitReader,
    packet: &[u8],
    width: u64,
    selector: Selector,
    dst: &mut [i32],
    out: usize,
) -> Decoded<usize>
    requires ready { Ready packet.now reader }
    requires underway { Underway dst.old out width reader }
    ensures onward { Onward packet.now selector.number dst.old out (state_of width reader) dst.new result.value (state_of result.width result.reader) }
    ensures done { (out < result.value) × (result.value < length dst.old + 4) × Ready packet.now result.reader }
{
    let left = (dst.len() - out + 3) / 4;
    if width == 0 {
        let run = zero_groups(reader, packet, left as u64);
        let after = run.reader;
        return Decoded {
            value: out + 4 * (run.value as usize),
            width: run.width,
            reader: after,
        };
    }
    let q = group(reader, packet, width, selector, left as u64);
    put4(dst, out, q.value);
    let after = q.reader;
    Decoded {
        value: out + 4,
        width: q.width,
        reader: after,
    }
}

// Whether the rest of a row is zero.
fn halts(reader: BitReader, width: u64) -> bool
    ensures { (result ≡ true → Halted (state_of width reader)) × (result ≡ false → ((as_reader reader).status ≡ 0) × (width ≤ 19)) }
{
    reader.status.stops() || 19 < width
}

// One row of coefficients, as many as the slice has elements: the reader after it. It is a `while`: what is read decides how far a turn goes.
fn decode_row(reader: BitReader, packet: &[u8], dst: &mut [i32], selector: Selector) -> BitReader
    requires ready { Ready packet.now reader }
    requires size { length dst.old < 2 ^ 32 }
    ensures value { as_reader result ≡ (row_of packet.now selector.number (length dst.old) (as_reader reader)).reader }
    ensures dst_after { dst.new ≡ (row_of packet.now selector.number (length dst.old) (as_reader reader)).values }
    ensures still_ready { Ready packet.now result }
{
    let n = dst.len();
    dst.fill(0);
    let first = reader.width_update::<true>(packet, 0);
    let mut r = first.reader;
    let mut width = first.value;
    let mut out: usize = 0;
    while out < n {
        if halts(r, width) {
            return stop(r);
        }
        let far = quick(r, packet, width, selector, dst, out);
        r = far.reader;
        width = far.width;
        out = far.value;
        if out < n {
            if halts(r, width) {
                return stop(r);
            }
            let one = plain(r, packet, width, selector, dst, out);
            r = one.reader;
            width = one.width;
            out = one.value;
        }
    }
    r
}

// One row of coefficients: the bits that it took from the allowance, and the reader after it.
pub fn decode_component(
    reader: BitReader,
    packet: &[u8],
    dst: &mut [i32],
    selector: Selector,
) -> Taken<u64>
    requires ready { Ready packet.now reader }
    requires size { length dst.old < 2 ^ 32 }
    ensures bits { result.value ≡ row_used packet.now selector.number (length dst.old) (as_reader reader) }
    ensures reader_after { as_reader result.reader ≡ (row_of packet.now selector.number (length dst.old) (as_reader reader)).reader }
    ensures dst_after { dst.new ≡ (row_of packet.now selector.number (length dst.old) (as_reader reader)).values }
    ensures still_ready { Ready packet.now result.reader }
{
    let after = decode_row(reader, packet, dst, selector);
    Taken {
        value: reader.remaining.saturating_sub(after.remaining),
        reader: after,
    }
}
