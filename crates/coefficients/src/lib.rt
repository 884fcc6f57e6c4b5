// The coefficients of one packet, as C calls for them.
#![tactic(auto)]

ghost use Rattle.std.specs.Prelude.{◌≡◌, cond, length};
ghost use Rattle.format.specs.Coefficients.{packet_values};
ghost use Rattle.coefficients.specs.Together.{together, answer_of};

use fields::Packet;
use records::{Shape, decode_packet};

// Columns and records are below this.
const LIMIT: usize = 65536;

// Whether packet, sizes and the size of a band go together.
#[tactic(auto, unfolding(crate::specs::Together::together))]
fn fits(packet: &[u8], m: usize, cols: usize, n: usize, size: usize) -> bool
    ensures { result ≡ together packet.now m cols n size }
{
    if packet.len() < 16 {
        return false;
    }
    let header = Packet::new(packet);
    m <= 8
        && cols < LIMIT
        && n < LIMIT
        && header.blocks() <= n
        && size == n * (header.kind() * m * cols)
}

// Whether packet, sizes and band go together, 1 or 0, how many records of the packet are broken and spent, and the bits
// that they took. A flag beside the counts, since C reads it.
#[repr(C)]
#[derive(Clone, Copy, Default, PartialEq, Eq)]
pub struct PacketCounts {
    pub together: u64,
    pub broken: u64,
    pub spent: u64,
    pub bits: u64,
}

// The coefficients of a packet of n records, those that are missing with them, into a band of their size, with the counts; all fields 0, with
// the band as it was, where packet, sizes and band do not go together.
pub fn arw6_packet(packet: &[u8], m: usize, cols: usize, n: usize, band: &mut [i32]) -> PacketCounts
    ensures value { result ≡ answer_of (together packet.now m cols n (length band.old)) packet.now m cols }
    ensures band_after { band.new ≡ cond (together packet.now m cols n (length band.old)) (packet_values packet.now m cols n) band.old }
{
    if !fits(packet, m, cols, n, band.len()) {
        return PacketCounts::default();
    }
    let shape = Shape { m, cols };
    let counts = decode_packet(&Packet::new(packet), shape, n, band);
    PacketCounts {
        together: 1,
        broken: counts.broken,
        spent: counts.spent,
        bits: counts.bits,
    }
}
