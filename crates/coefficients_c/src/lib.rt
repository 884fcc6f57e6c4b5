// The library for C of one packet's coefficients.
#![tactic(auto)]

ghost use Rattle.std.specs.Prelude.{◌≡◌, cond, length};
ghost use Rattle.format.specs.Coefficients.{packet_values};
ghost use Rattle.coefficients.specs.Together.{together, answer_of};

use coefficients::PacketCounts;

// The coefficients of a packet of n records, those that are missing with them, into a band of their size, with the counts; all fields 0, with
// the band as it was, where packet, sizes and band do not go together.
#[unsafe(no_mangle)]
pub extern "C" fn arw6_packet(
    packet: &[u8],
    m: usize,
    cols: usize,
    n: usize,
    band: &mut [i32],
) -> PacketCounts
    ensures value { result ≡ answer_of (together packet.now m cols n (length band.old)) packet.now m cols }
    ensures band_after { band.new ≡ cond (together packet.now m cols n (length band.old)) (packet_values packet.now m cols n) band.old }
{
    coefficients::arw6_packet(packet, m, cols, n, band)
}
