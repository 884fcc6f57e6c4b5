// The coefficient bit reader.
#![tactic(auto)]

ghost use Rattle.std.specs.Prelude.{◌≡◌, true, false, cond, ◌+◌, ◌/◌, ◌^◌, ◌<◌, ◌≤◌, leb, length};
ghost use Rattle.format.specs.Bits.{bits_at, zeros_at};
ghost use Rattle.format.specs.Reader.{allowance, start_of, skipped, spent, read_of, unary_of, find_of, update_second, update_of, run_of, bit_length};
ghost use Rattle.format.specs.Coefficients.{four_of};
ghost use Rattle.bits.specs.View.{number_of, as_reader, as_taken, as_four, Ready, ReadyBelow, ReadyBelowFour, change_of};

use words::{top, window};

// The bits that x has, under the name that document 01 has for them: its contract speaks in that word, and the library's is `leading_zeros`.
pub fn bit_length(x: u64) -> u64
    ensures { (result ≡ bit_length x) × (result ≤ 64) }
{
    64 - x.leading_zeros() as u64
}

// The zeros before the first one among `limit` bits from a place on, by words of 57 bits, of which the first is in hand.
fn zeros_ahead(packet: &[u8], place: u64, cache: u64, limit: u64) -> u64
    requires in_bounds { (8 ≤ length packet.now) × (place + limit < 2 ^ 40) }
    requires loaded { cache / 2 ^ 7 ≡ bits_at packet.now place 57 }
    ensures { (result ≡ zeros_at packet.now place limit) × (result ≤ limit) }
{
    let mut word = cache;
    for k in 0..limit.div_ceil(57) {
        let passed = 57 * k;
        let z = word.leading_zeros() as u64;
        if z < 57 {
            return limit.min(passed + z);
        }
        word = window(packet, place + passed + 57);
    }
    limit
}

// What a reader has met: nothing yet, a width above 19, or the end of its allowance.
#[derive(Clone, Copy, PartialEq, Eq)]
pub enum Status {
    Good,
    Broken,
    Spent,
}

impl Status {
    // Whether nothing more is read.
    pub fn stops(self) -> bool
        ensures { (result ≡ true → number_of self ≡ 0 → ⊥) × (result ≡ false → number_of self ≡ 0) }
    {
        self != Status::Good
    }
}

// A place in a packet's bits, a word of the bits from there, the bits left of the allowance, and the status. The packet stands beside it as a
// parameter: with the packet inside, coefficients of large tiles at selector 0 measured 4 per cent slower by value; by `&mut self` 2 per cent
// faster, but those of small tiles up to 11 per cent slower.
#[derive(Clone, Copy)]
pub struct BitReader {
    pub place: u64,
    pub cache: u64,
    pub remaining: u64,
    pub status: Status,
}

// What was read, and the reader after it.
#[derive(Clone, Copy)]
pub struct Taken<T> {
    pub value: T,
    pub reader: BitReader,
}

// Four of a group.
#[derive(Clone, Copy)]
pub struct Four<T> {
    pub a: T,
    pub b: T,
    pub c: T,
    pub d: T,
}

// What stands in a word, and the bits of it that it takes.
#[derive(Clone, Copy)]
pub struct Used<T> {
    pub value: T,
    pub used: u64,
}

// A width update out of a word: 0 keeps the width, 10 adds a unary, 11 takes off the place of the next one.
pub fn changed(word: u64, width: u64) -> Used<u64>
    requires { width < 2 ^ 32 }
    ensures { (result ≡ change_of word width) × (result.used ≤ 67) }
{
    if word < 0x8000_0000_0000_0000 {
        return Used {
            value: width,
            used: 1,
        };
    }
    let z = (word << 2).leading_zeros() as u64;
    if word < 0xC000_0000_0000_0000 {
        return Used {
            value: width + z + 1,
            used: z + 3,
        };
    }
    Used {
        value: width.saturating_sub(z + 1),
        used: (z + 1).min(width.saturating_sub(1)) + 2,
    }
}

// The allowance of a byte length, in bits.
pub fn allowance(bytes: u64) -> u64
    requires { bytes < 2 ^ 36 }
    ensures { result ≡ allowance bytes }
{
    (bytes + 15) / 16 * 128
}

// The bounds `8 ≤ length`, `n ≤ 57` and `width < 2 ^ 32` stay clauses: each is of one value of one call, and a type would be made only to be taken
// apart.
impl BitReader {
    // A reader at a place, with a word of the bits from there.
    fn at(packet: &[u8], place: u64, remaining: u64, status: Status) -> BitReader
        requires { (8 ≤ length packet.now) × (place + remaining < 2 ^ 40) }
        ensures value { as_reader result ≡ record { place = place; remaining = remaining; status = number_of status } }
        ensures ready { Ready packet.now result }
    {
        BitReader {
            place,
            cache: window(packet, place),
            remaining,
            status,
        }
    }

    // A reader at a payload, with the allowance of its byte length.
    pub fn new(packet: &[u8], offset: u64, bytes: u64) -> BitReader
        requires { (8 ≤ length packet.now) × (offset < 2 ^ 36) × (bytes < 2 ^ 36) }
        ensures value { as_reader result ≡ start_of offset bytes }
        ensures ready { Ready packet.now result }
    {
        BitReader::at(packet, offset * 8, allowance(bytes), Status::Good)
    }

    // Past n bits.
    pub fn skip(self, packet: &[u8], n: u64) -> BitReader
        requires ready { Ready packet.now self }
        requires left { n ≤ self.remaining }
        ensures value { as_reader result ≡ skipped (as_reader self) n }
        ensures still_ready { Ready packet.now result }
    {
        BitReader::at(packet, self.place + n, self.remaining - n, self.status)
    }

    // At the end of the allowance.
    fn spend(self, packet: &[u8]) -> BitReader
        requires { Ready packet.now self }
        ensures value { as_reader result ≡ spent (as_reader self) }
        ensures ready { Ready packet.now result }
    {
        BitReader::at(packet, self.place + self.remaining, 0, Status::Spent)
    }

    // The status after n bits.
    fn status_past(self, n: u64) -> Status
        ensures { number_of result ≡ cond (leb n self.remaining) (number_of self.status) 2 }
    {
        if n <= self.remaining {
            self.status
        } else {
            Status::Spent
        }
    }

    // n bits. Short, so that the compiler makes it part of each loop that reads.
    pub fn read(self, packet: &[u8], n: u64) -> Taken<u64>
        requires ready { Ready packet.now self }
        requires few_bits { n ≤ 57 }
        ensures value { as_taken result ≡ read_of packet.now (as_reader self) n }
        ensures ready_below { ReadyBelow packet.now result (2 ^ n) }
    {
        let k = n.min(self.remaining);
        let status = self.status_past(n);
        Taken {
            value: top(self.cache, k) << (n - k),
            reader: BitReader::at(packet, self.place + k, self.remaining - k, status),
        }
    }

    // The next n bits, which are not taken.
    pub fn ahead(self, packet: &[u8], n: u64) -> u64
        requires ready { Ready packet.now self }
        requires few_bits { n ≤ 57 }
        ensures { result ≡ bits_at packet.now self.place n }
    {
        top(self.cache, n)
    }

    // n bits, four times. One word holds them all where they are short.
    pub fn read4(self, packet: &[u8], n: u64) -> Taken<Four<u64>>
        requires ready { Ready packet.now self }
        requires few_bits { n ≤ 57 }
        ensures value { as_four result ≡ four_of packet.now (as_reader self) n }
        ensures ready_below_four { ReadyBelowFour packet.now result (2 ^ n) }
    {
        if n < 15 {
            if 4 * n <= self.remaining {
                let w = self.cache;
                return Taken {
                    value: Four {
                        a: top(w, n),
                        b: top(w << n, n),
                        c: top(w << (2 * n), n),
                        d: top(w << (3 * n), n),
                    },
                    reader: self.skip(packet, 4 * n),
                };
            }
        }
        let a = self.read(packet, n);
        let ra = a.reader;
        let b = ra.read(packet, n);
        let rb = b.reader;
        let c = rb.read(packet, n);
        let rc = c.reader;
        let d = rc.read(packet, n);
        let rd = d.reader;
        Taken {
            value: Four {
                a: a.value,
                b: b.value,
                c: c.value,
                d: d.value,
            },
            reader: rd,
        }
    }

    // The zeros before the next one, and one.
    pub fn unary(self, packet: &[u8]) -> Taken<u64>
        requires { Ready packet.now self }
        ensures value { as_taken result ≡ unary_of packet.now (as_reader self) }
        ensures ready_below { ReadyBelow packet.now result (self.remaining + 2) }
    {
        let left = self.remaining;
        let z = zeros_ahead(packet, self.place, self.cache, left);
        if z < left {
            return Taken {
                value: z + 1,
                reader: self.skip(packet, z + 1),
            };
        }
        Taken {
            value: z + 1,
            reader: self.spend(packet),
        }
    }

    // The zeros before the first one among k bits, and the reader after that one; k where there is none.
    fn find(self, packet: &[u8], k: u64) -> Taken<u64>
        requires { Ready packet.now self }
        ensures value { as_taken result ≡ find_of packet.now (as_reader self) k }
        ensures ready_below { ReadyBelow packet.now result (k + 1) }
    {
        let left = self.remaining;
        let limit = k.min(left);
        let z = zeros_ahead(packet, self.place, self.cache, limit);
        if z < limit {
            return Taken {
                value: z,
                reader: self.skip(packet, z + 1),
            };
        }
        if k <= left {
            return Taken {
                value: k,
                reader: self.skip(packet, k),
            };
        }
        Taken {
            value: k,
            reader: self.spend(packet),
        }
    }

    // The width after a width update, out of the cache where that holds it whole. OPENING gives the first update of a row an instance of its own,
    // so that each has one caller, and the compiler makes it part of that caller's loop.
    pub fn width_update<const OPENING: bool>(self, packet: &[u8], width: u64) -> Taken<u64>
        requires ready { Ready packet.now self }
        requires width_bound { width < 2 ^ 32 }
        ensures value { as_taken result ≡ update_of packet.now (as_reader self) width }
        ensures still_ready { Ready packet.now result.reader }
    {
        if self.status.stops() {
            return self.width_bit_by_bit(packet, width);
        }
        let u = changed(self.cache, width);
        if self.remaining.min(57) < u.used {
            return self.width_bit_by_bit(packet, width);
        }
        Taken {
            value: u.value,
            reader: self.skip(packet, u.used),
        }
    }

    // The same bit by bit: 0 keeps it, 10 adds a unary, 11 takes off the place of the next one.
    fn width_bit_by_bit(self, packet: &[u8], width: u64) -> Taken<u64>
        requires ready { Ready packet.now self }
        requires width_bound { width < 2 ^ 32 }
        ensures value { as_taken result ≡ update_of packet.now (as_reader self) width }
        ensures still_ready { Ready packet.now result.reader }
    {
        let a = self.read(packet, 1);
        let first = a.reader;
        if a.value == 0 || first.status.stops() {
            return Taken {
                value: width,
                reader: first,
            };
        }
        let b = first.read(packet, 1);
        let second = b.reader;
        if second.status.stops() {
            return Taken {
                value: width,
                reader: second,
            };
        }
        if b.value == 0 {
            let u = second.unary(packet);
            let after = u.reader;
            return Taken {
                value: width + u.value,
                reader: after,
            };
        }
        let f = second.find(packet, width.saturating_sub(1));
        let after = f.reader;
        Taken {
            value: width.saturating_sub(f.value + 1),
            reader: after,
        }
    }

    // The length of a run of zero groups, of which `groups` are left.
    pub fn zero_run(self, packet: &[u8], groups: u64) -> Taken<u64>
        requires ready { Ready packet.now self }
        requires groups_bound { groups < 2 ^ 32 }
        ensures value { as_taken result ≡ run_of packet.now (as_reader self) groups }
        ensures ready_below { ReadyBelow packet.now result (groups + 1) }
        ensures some { 0 < groups → 0 < result.value }
    {
        if groups <= 1 {
            return Taken {
                value: groups,
                reader: self,
            };
        }
        let most = bit_length(groups - 1);
        let found = self.find(packet, most);
        let z = found.value;
        let after = found.reader;
        if most <= z {
            return Taken {
                value: groups,
                reader: after,
            };
        }
        if after.status.stops() {
            return Taken {
                value: groups,
                reader: after,
            };
        }
        let extra = after.read(packet, z);
        let end = extra.reader;
        Taken {
            value: ((1 << z) + extra.value).min(groups),
            reader: end,
        }
    }
}
