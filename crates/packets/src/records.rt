// A packet's header and its records: document 01, 'Directory and packets'.
ghost use Rattle.std.specs.Prelude.{◌≡◌, ◌+◌, ◌*◌, ◌^◌, ◌<◌, ◌≤◌, not, ◌||◌, length, ltb, eqb, IfOk};
ghost use Rattle.format.specs.Packets.{tag, zero4, kind, zero6, blocks, marker, zero8};
ghost use Rattle.format.specs.Refusals.{each, record_refusal, packet_refusal};
ghost use Rattle.refusals.specs.Number.{code_of};

use fields::Packet;
use refusals::Refusal;

// Tag not 4, or one of the zeros after it not 0.
fn wrong_tag(packet: &Packet<'_>) -> bool
    ensures { result ≡ (not (eqb (tag packet.now) 4) || not (eqb (zero4 packet.now) 0) || not (eqb (zero6 packet.now) 0)) }
{
    packet.tag() != 4 || packet.zero4() != 0 || packet.zero6() != 0
}

// Kinds are 1 and 3.
fn known_kind(packet: &Packet<'_>) -> bool
    ensures { result ≡ (eqb (kind packet.now) 1 || eqb (kind packet.now) 3) }
{
    matches!(packet.kind(), 1 | 3)
}

// A block count of 0 or above 30,000.
fn wrong_blocks(packet: &Packet<'_>) -> bool
    ensures { result ≡ (eqb (blocks packet.now) 0 || ltb 30000 (blocks packet.now)) }
{
    let count = packet.blocks();
    count == 0 || 30000 < count
}

// Marker not 16, or the zeros after it not 0.
fn wrong_marker(packet: &Packet<'_>) -> bool
    ensures { result ≡ (not (eqb (marker packet.now) 16) || not (eqb (zero8 packet.now) 0)) }
{
    packet.marker() != 16 || packet.zero8() != 0
}

// Each record's header bits and bytes lie within the packet.
fn check_records(packet: &Packet<'_>) -> Result<(), Refusal>
    requires { length packet.now < 2 ^ 29 }
    ensures { code_of result ≡ each (record_refusal packet.now) (blocks packet.now) }
{
    let mut at = packet.first_payload();
    for i in 0..packet.blocks() {
        if packet.len() * 8 < packet.record_bit(i + 1) {
            return Err(Refusal::RecordHeaderPastEnd);
        }
        let n = packet.record_length(i);
        if packet.len() < at + n {
            return Err(Refusal::RecordPastEnd);
        }
        at += n;
    }
    Ok(())
}

// The refusal of a packet by itself.
#[tactic(auto, unfolding(format::specs::Refusals::packet_refusal))]
pub fn parse_packet(bytes: &[u8]) -> Result<Packet<'_>, Refusal>
    ensures refusal { code_of result ≡ packet_refusal bytes.now }
    ensures same { IfOk result (λ p. p ≡ bytes.now) }
{
    if bytes.len() < 16 {
        return Err(Refusal::PacketTooShort);
    }
    let packet = Packet::new(bytes);
    if packet.padding() != 0 {
        return Err(Refusal::PaddingNotZero);
    }
    if wrong_tag(&packet) {
        return Err(Refusal::WrongTag);
    }
    if !known_kind(&packet) {
        return Err(Refusal::UnknownKind);
    }
    if wrong_blocks(&packet) {
        return Err(Refusal::WrongBlockCount);
    }
    if wrong_marker(&packet) {
        return Err(Refusal::WrongMarker);
    }
    if packet.size_of() != bytes.len() {
        return Err(Refusal::WrongPacketSize);
    }
    check_records(&packet)?;
    Ok(packet)
}
