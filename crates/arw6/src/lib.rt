// The library for C: include/arw6.h declares these functions and their answers.
#![tactic(auto)]

ghost use Rattle.std.specs.Prelude.{◌≡◌, length};
ghost use Rattle.format.specs.Strip.{tiles_of};
ghost use Rattle.format.specs.Tile.{lengths_of, slice};
ghost use Rattle.strip.specs.Answers.{tile_field};
ghost use Rattle.tile.specs.Decode.{TileOutcome};
ghost use Rattle.inspection.specs.Inspect.{InspectOutcome};
ghost use Rattle.writer.specs.Write.{WriteOutcome};
ghost use Rattle.arw6.specs.Answers.{lengths_told, tile_told, record_told, written_told};

mod decoded;
mod inspected;
mod lengths;
mod written;

use decoded::Decoded;
use inspected::Inspected;
use lengths::Lengths;
use written::Written;

// How many tiles a strip has in a frame.
#[unsafe(no_mangle)]
pub extern "C" fn arw6_tile_count(strip: &[u8], frame_width: usize, frame_height: usize) -> usize
    ensures { result ≡ length (tiles_of strip.now frame_width frame_height) }
{
    strip::tile_count(strip, frame_width, frame_height)
}

// Field 0 to 5 of a tile, from 0: offset, length, x, y, width, height. One that isn't there gives 0.
#[unsafe(no_mangle)]
pub extern "C" fn arw6_tile_field(
    strip: &[u8],
    frame_width: usize,
    frame_height: usize,
    ordinal: usize,
    field: usize,
) -> usize
    ensures { result ≡ tile_field (tiles_of strip.now frame_width frame_height) ordinal field }
{
    strip::tile_field(strip, frame_width, frame_height, ordinal, field)
}

// What to lend for a tile's stream: a refusal, or the coded size, rows and lengths.
#[unsafe(no_mangle)]
pub extern "C" fn arw6_lengths(stream: &[u8]) -> Lengths
    ensures { lengths_told result ≡ lengths_of stream.now }
{
    Lengths::from(packets::lengths_of(stream))
}

// One tile: a refusal, with no slice changed, or the coded size, rows and counts with the three planes.
#[unsafe(no_mangle)]
pub extern "C" fn arw6_decode_stream(
    stream: &[u8],
    green: &mut [i32],
    red: &mut [i32],
    blue: &mut [i32],
    work: &mut [i32],
) -> Decoded
    ensures { TileOutcome stream.now green.old red.old blue.old work.old (tile_told result) green.new red.new blue.new work.new }
{
    Decoded::from(tile::decode_stream(stream, green, red, blue, work))
}

// One record of a tile's stream, of a packet from 0 to 12: a refusal, with no number of the band changed, or what is known of the record, with
// its coefficients; every field 0 for one that isn't there.
#[unsafe(no_mangle)]
pub extern "C" fn arw6_record(
    stream: &[u8],
    packet: usize,
    record: usize,
    band: &mut [i32],
) -> Inspected
    ensures { InspectOutcome stream.now packet «record» band.old (record_told result) band.new }
{
    Inspected::from(inspection::inspect_record(stream, packet, record, band))
}

// One tile's stream from planes of a coded size: a refusal, or the stream's length with the stream.
#[unsafe(no_mangle)]
pub extern "C" fn arw6_write_stream(
    green: &[i32],
    red: &[i32],
    blue: &[i32],
    width: usize,
    height: usize,
    work: &mut [i32],
    stream: &mut [u8],
) -> Written
    ensures { WriteOutcome width height (slice green.now red.now blue.now) work.old stream.old (written_told result) work.new stream.new }
{
    Written::from(writer::write_stream(green, red, blue, width, height, work, stream))
}
