// One record of a stream, for the rig: its byte length, its allowance, the bits that it took, and its coefficients.
#![tactic(auto)]

ghost use Rattle.std.specs.Prelude.{◌≡◌, cond, ◌++◌, ◌*◌, ◌^◌, ◌<◌, ◌≤◌, ltb, length, drop, Ok, Some, IfOk, is_some, true};
ghost use Rattle.format.specs.Packets.{kind, payload_at};
ghost use Rattle.format.specs.Coefficients.{record_of};
ghost use Rattle.format.specs.Used.{nothing, of_record, has_record};
ghost use Rattle.inspection.specs.Inspect.{told, InspectOutcome};

use bits::allowance;
use fields::Packet;
use packets::{Entry, check_stream};
use records::{Counts, Shape, decode_record};
use refusals::Refusal;

// What is known of a record: its byte length, its allowance, and what it counts: the bits that it took, and whether it is broken or spent.
#[derive(Clone, Copy)]
pub struct Inspected {
    pub bytes: u64,
    pub allowance: u64,
    pub counts: Counts,
}

// A tile's packets.
const PACKETS: usize = 13;

// The byte of a packet where the payload of record i starts. That i is below 2 ^ 16 is a clause here and below: it is C's number, which is known to be so
// once it is below the packet's count.
fn payload_at(packet: &Packet<'_>, i: usize) -> usize
    requires { i < 2 ^ 16 }
    ensures { (result ≡ payload_at packet.now i) × (result < 2 ^ 36) }
{
    let mut at = packet.first_payload();
    for k in 0..i {
        at += packet.record_length(k);
    }
    at
}

// Record i of a packet, which is there, in a band that is long enough.
fn inspect_there(packet: &Packet<'_>, i: usize, shape: Shape, band: &mut [i32]) -> Inspected
    requires { (i < 2 ^ 16) × (kind packet.now * shape.m * shape.cols ≤ length band.old) }
    ensures value { told (Ok (Some result)) ≡ of_record packet.now shape.m shape.cols i }
    ensures band_after { band.new ≡ (record_of packet.now shape.m shape.cols i).values ++ drop (kind packet.now * shape.m * shape.cols) band.old }
{
    let size = packet.kind() * shape.m * shape.cols;
    let offset = payload_at(packet, i);
    let counts = decode_record(packet, i, offset, shape, &mut band[..size]);
    let bytes = packet.record_length(i) as u64;
    Inspected {
        bytes,
        allowance: allowance(bytes),
        counts,
    }
}

// The same where the band may be too short.
fn inspect_packet(
    packet: &Packet<'_>,
    i: usize,
    shape: Shape,
    band: &mut [i32],
) -> Result<Option<Inspected>, Refusal>
    requires { i < 2 ^ 16 }
    ensures value { told result ≡ cond (ltb (length band.old) (kind packet.now * shape.m * shape.cols)) (nothing 4) (of_record packet.now shape.m shape.cols i) }
    ensures there { IfOk result (λ found. is_some found ≡ true) }
    ensures band_after { band.new ≡ cond (ltb (length band.old) (kind packet.now * shape.m * shape.cols)) band.old ((record_of packet.now shape.m shape.cols i).values ++ drop (kind packet.now * shape.m * shape.cols) band.old) }
{
    if band.len() < packet.kind() * shape.m * shape.cols {
        return Err(Refusal::SliceTooShort);
    }
    Ok(Some(inspect_there(packet, i, shape, band)))
}

// Record `record` of packet `number`, of 13 in the order of document 01's checks, into the start of the lent band: a refusal, or none where it
// isn't there, with nothing changed; or what is known of the record. Both are numbers, as C gives them.
pub fn inspect_record(
    stream: &[u8],
    number: usize,
    record: usize,
    band: &mut [i32],
) -> Result<Option<Inspected>, Refusal>
    ensures outcome { InspectOutcome stream.now number «record» band.old (told result) band.new }
    ensures there { IfOk result (λ found. is_some found ≡ has_record stream.now number «record») }
{
    let checked = check_stream(stream)?;
    if PACKETS <= number {
        return Ok(None);
    }
    let own = checked.packet_in(number);
    if own.blocks() <= record {
        return Ok(None);
    }
    let group = Entry::of(number).group;
    let shape = Shape {
        m: group.multiplier(),
        cols: group.columns(checked.stream.width()),
    };
    inspect_packet(&own, record, shape, band)
}
