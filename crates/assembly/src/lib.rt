// The stream that is written, from coefficients that stand in the work slice.
#![tactic(auto)]

ghost use Rattle.std.specs.Prelude.{◌≡◌, ℕ, ◌*◌, ◌^◌, ◌<◌, length, IfOk};
ghost use Rattle.lists.specs.Lists.{tab, rows};
ghost use Rattle.format.specs.Packets.{sum};
ghost use Rattle.format.specs.Refusals.{each};
ghost use Rattle.format.specs.Coefficients.{Coefs};
ghost use Rattle.format.specs.Writing.{packed, lengths_refusal, stream_of};
ghost use Rattle.refusals.specs.Number.{code_of};
ghost use Rattle.assembly.specs.Tile.{Tile, Holds, shape_in, numbers_in, units_in, refusal_in, packet_bits_in, Short, Counted, Measured, Ready};

mod front;
mod packet;
mod place;

use fields::Size;
pub use front::{Sizes, Units};
use packet::Packet;
use place::locate;
use refusals::Refusal;

// The coefficients of a tile of coded size w, h, in its work slice. The two are no `Size`, since each clause has them, and would say `size.width`.
#[derive(Clone, Copy)]
pub struct Work<'a> {
    pub numbers: &'a [i32],
    pub w: usize,
    pub h: usize,
    ghost tile: { Tile w h numbers.now },
}

impl<'a> Work<'a> {
    // Packet p.
    fn packet(self, p: usize) -> Packet<'a>
        requires { p < 13 }
        ensures { (result.shape ≡ shape_in self.entry.w self.entry.h p) × (result.numbers.now ≡ numbers_in self.entry.w self.entry.h self.entry.numbers.now p) }
    {
        let size = Size {
            width: self.w,
            height: self.h,
        };
        let l = locate(size, p);
        Packet {
            numbers: &self.numbers[l.start..l.end],
            shape: l.shape,
        }
    }

    // The units of all packets, whether they pass or not; and the first refusal of a record.
    // An array, since there is no heap; it is filled by index, as p names the packet too, here and in `put_packets`.
    pub fn units(self) -> (Units, Result<(), Refusal>)
        ensures units { result.0.each ≡ tab 13 (units_in self.entry.w self.entry.h self.entry.numbers.now) }
        ensures refusal { code_of result.1 ≡ each (refusal_in self.entry.w self.entry.h self.entry.numbers.now) 13 }
        ensures sizes { (v : Coefs) → Holds self.entry.w self.entry.h v self.entry.numbers.now → Counted self.entry.w self.entry.h v result.0 }
    {
        let mut each = [0u64; 13];
        let mut passes = Ok(());
        for p in 0..13 {
            let (units, records) = self.packet(p).measure();
            each[p] = units;
            passes = passes.and(records);
        }
        (Units { each }, passes)
    }

    // Measures the stream.
    pub fn measure(self) -> Result<Sizes, Refusal>
        ensures refusal { (v : Coefs) → Holds self.entry.w self.entry.h v self.entry.numbers.now → code_of result ≡ lengths_refusal self.entry.w self.entry.h v }
        ensures sizes { (v : Coefs) → Holds self.entry.w self.entry.h v self.entry.numbers.now → IfOk result (Measured self.entry.w self.entry.h v) }
    {
        let (units, records) = self.units();
        records?;
        units.check()?;
        Ok(Sizes {
            units,
            length: units.length(),
        })
    }

    // Writes all packets over the whole of `out`.
    fn put_packets(self, units: &Units, out: &mut [u8])
        requires { (units.now.each ≡ tab 13 (units_in self.w self.h self.numbers.now)) × Short self.w self.h self.numbers.now × (length out.old ≡ 16 * sum (units_in self.w self.h self.numbers.now) 13) }
        ensures { out.new ≡ rows 13 (λ p. packed (packet_bits_in self.entry.w self.entry.h self.entry.numbers.now p)) }
    {
        let mut at = 0;
        for p in 0..13 {
            let end = at + 16 * (units.each[p] as usize);
            self.packet(p).put(&mut out[at..end]);
            at = end;
        }
    }

    // Writes the stream over the whole of `out`.
    pub fn put_stream(self, sizes: Sizes, out: &mut [u8])
        requires { Ready self.w self.h self.numbers.now sizes (length out.old) }
        ensures { (v : Coefs) → Holds self.entry.w self.entry.h v self.entry.numbers.now → out.new ≡ stream_of self.entry.w self.entry.h v }
    {
        let (front, packets) = out.split_at_mut(128);
        sizes.put_front(front, self.w, self.h);
        self.put_packets(&sizes.units, packets);
    }
}
