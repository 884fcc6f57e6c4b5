// The header and the directory of the stream, from the units of its 13 packets.
ghost use Rattle.std.specs.Prelude.{◌≡◌, ℕ, ◌+◌, ◌*◌, ◌^◌, ◌<◌, ◌≤◌, length, get_or, ltb};
ghost use Rattle.format.specs.Packets.{sum};
ghost use Rattle.format.specs.Refusals.{on, each};
ghost use Rattle.format.specs.Sizes.{numbered};
ghost use Rattle.format.specs.Writing.{entries, packed};
ghost use Rattle.refusals.specs.Number.{code_of};
ghost use Rattle.codes.specs.Wrote.{Room, Appends};
ghost use Rattle.assembly.specs.Front.{Narrow, group_of, entry_of, block_of, sizes_of, blocks_of, named_of, front_of};

use crate::packet::within;
use codes::{BitWriter, Code};
use refusals::Refusal;

// The most bytes of a group.
const MOST: u64 = 268_435_440;

// The packets of a group. The directory numbers its groups, 0 to 4: a group is its number here, below 5, as one reckons with it (its first packet is
// 3 * group).
fn entries(group: usize) -> usize
    ensures { (result ≡ entries (numbered group)) × (1 ≤ result) × (result ≤ 3) × (group < 5 → 3 * group + result ≤ 13) }
{
    if group < 4 { 3 } else { 1 }
}

// The units of the 13 packets, so small that no sum of them wraps.
#[derive(Clone, Copy)]
pub struct Units {
    pub each: [u64; 13],
    ghost long: { length each ≡ 13 },
    ghost small: { (p : ℕ) → get_or each p 0 < 2 ^ 48 },
}

impl Units {
    // The units of a group.
    fn group(&self, group: usize) -> u64
        requires { group < 5 }
        ensures { (result ≡ group_of self.now.each group) × (result ≤ 2 ^ 50) }
    {
        let a = 3 * group;
        self.each[a..a + entries(group)].iter().sum()
    }

    // The units of the stream's packets.
    pub fn all(&self) -> u64
        ensures { (result ≡ sum (group_of self.now.each) 5) × (result ≤ 2 ^ 53) }
    {
        self.each.iter().sum()
    }

    // The bytes of a stream of such packets.
    pub fn length(&self) -> u64
        ensures { (result ≡ 128 + 16 * sum (group_of self.now.each) 5) × (result ≤ 2 ^ 58) }
    {
        128 + 16 * self.all()
    }

    // Whether no group is too long.
    pub fn check(&self) -> Result<(), Refusal>
        ensures { code_of result ≡ each (λ g. on (ltb 268435440 (16 * group_of self.now.each g)) 26) 5 }
    {
        for g in 0..5 {
            within(MOST, 16 * self.group(g))?;
        }
        Ok(())
    }
}

// What a stream takes: the units of its packets, of which no group is too long, and its bytes.
#[derive(Clone, Copy)]
pub struct Sizes {
    pub units: Units,
    pub length: u64,
    ghost narrow: { Narrow units.each },
}

impl Sizes {
    // The units of a packet of a group, 0 past its last.
    fn entry(&self, group: usize, k: usize) -> u64
        requires { group < 5 }
        ensures { (result ≡ entry_of self.now.units.each group k) × (result < 2 ^ 24) }
    {
        if k < entries(group) {
            self.units.each[3 * group + k]
        } else {
            0
        }
    }

    // Writes the group sizes.
    fn put_sizes(&self, w: &mut BitWriter)
        requires { Room w.old 120 }
        ensures { Appends w.old w.new (sizes_of self.now.units.each 5) }
    {
        for g in 0..5 {
            w.put(Code::new(24, self.units.group(g)));
        }
    }

    // Writes the block of a group.
    fn put_block(&self, w: &mut BitWriter, group: usize)
        requires { (group < 5) × Room w.old 128 }
        ensures { Appends w.old w.new (block_of self.now.units.each group) }
    {
        w.put(Code::new(8, entries(group) as u64));
        for k in 0..5 {
            w.put(Code::new(24, self.entry(group, k)));
        }
    }

    // Writes the directory.
    fn put_blocks(&self, w: &mut BitWriter)
        requires { Room w.old 640 }
        ensures { Appends w.old w.new (blocks_of self.now.units.each 5) }
    {
        for g in 0..5 {
            self.put_block(w, g);
        }
    }

    // Writes the header and the directory over the whole of `out`: 17 bytes of zeros stand between the group sizes and the directory.
    pub fn put_front(&self, out: &mut [u8], w: usize, h: usize)
        requires { (w < 2 ^ 16) × (h < 2 ^ 16) × (length out.old ≡ 128) }
        ensures { out.new ≡ packed (front_of w h self.now.units.each) }
    {
        let mut b = BitWriter::new(out);
        put_named(&mut b, w, h);
        self.put_sizes(&mut b);
        b.put_zeros(17);
        self.put_blocks(&mut b);
    }
}

// Writes the header up to the group sizes: "A000", the coded size, and the two words that mark it.
fn put_named(b: &mut BitWriter, w: usize, h: usize)
    requires { (w < 2 ^ 16) × (h < 2 ^ 16) × Room b.old 128 }
    ensures { Appends b.old b.new (named_of w h) }
{
    b.put(Code::new(32, 0x4130_3030));
    b.put(Code::new(32, 0));
    b.put(Code::new(16, w as u64));
    b.put(Code::new(16, (h / 2) as u64));
    b.put(Code::new(16, 0x0100));
    b.put(Code::new(16, 0x6C00));
}
