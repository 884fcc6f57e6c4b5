// The listing that the program `tiles` prints: document 01, 'Points on the line'.
#![tactic(auto)]

ghost use Rattle.std.specs.Prelude.{◌≡◌, ◌+◌, ◌≤◌, ◌<◌, length, take, IfOk};
ghost use Rattle.std.specs.Io.KnownBytes.{Consumes, IsAtEnd};
ghost use Rattle.lists.specs.Lists.{put_at, rows};
ghost use Rattle.format.specs.Strip.{tiles_of};
ghost use Rattle.strip.specs.Answers.{stream_fields};
ghost use Rattle.listing.specs.Listing.{ended, line, line_at, listing, response};
ghost use Rattle.listing.specs.Text.{Appends};

use itoa::Buffer;
use std::io;
use std::io::Read;
use strip::TileStream;

// The longest input, and the bytes before the strip.
const MOST: usize = 65536;

const SIDES: usize = 8;

// What is printed: text at the start of a slice, and how many bytes it has. (In the lent buffer itself: a string of its own would be cleared and
// copied for each answer.)
#[derive(Drop)]
struct Text<'a> {
    out: &'a mut [u8],
    len: usize,
}

impl<'a> Text<'a> {
    // No text yet.
    fn new(out: &'a mut [u8]) -> Text<'a>
        ensures same { result.out.ghost_name ≡ out.entry.ghost_name }
        ensures empty { (result.len ≡ 0) × (result.out.now ≡ out.old) }
    {
        Text { out, len: 0 }
    }

    // Appends bytes.
    fn push(&mut self, bytes: &[u8])
        requires { self.old.len + length bytes.now ≤ length self.old.out.now }
        ensures { Appends self.old self.new bytes.now }
    {
        let start = self.len;
        let end = start + bytes.len();
        self.out[start..end].copy_from_slice(bytes);
        self.len = end;
    }
}

// A number and the byte after it.
fn put_field(text: &mut Text, n: usize, end: u8)
    requires { text.old.len + 21 ≤ length text.old.out.now }
    ensures value { Appends text.old text.new (ended n end) }
    ensures upper_bound { text.new.len ≤ text.old.len + 21 }
{
    let mut digits = Buffer::new();
    text.push(digits.format(n).as_bytes());
    text.push(&[end]);
}

// The line of a tile.
fn put_tile(text: &mut Text, tile: TileStream)
    requires { text.old.len + 126 ≤ length text.old.out.now }
    ensures value { Appends text.old text.new (line (stream_fields tile)) }
    ensures upper_bound { text.new.len ≤ text.old.len + 126 }
{
    put_field(text, tile.offset, b' ');
    put_field(text, tile.length, b' ');
    put_field(text, tile.x, b' ');
    put_field(text, tile.y, b' ');
    put_field(text, tile.width, b' ');
    put_field(text, tile.height, b'\n');
}

// The lines of the tiles in order.
fn put_tiles(text: &mut Text, tiles: &[TileStream])
    requires { (text.old.len + 2016 ≤ length text.old.out.now) × (length tiles.now ≤ 16) }
    ensures value { Appends text.old text.new (rows (length tiles.now) (line_at tiles.now)) }
    ensures upper_bound { text.new.len ≤ text.old.len + 2016 }
{
    for tile in tiles {
        put_tile(text, *tile);
    }
}

// The listing of a strip in a frame. (The tiles are matched by reference: a move would copy their sixteen places.)
fn put_listing(text: &mut Text, strip: &[u8], full_w: usize, full_h: usize)
    requires { text.old.len + 2043 ≤ length text.old.out.now }
    ensures value { Appends text.old text.new (listing (tiles_of strip.now full_w full_h)) }
    ensures upper_bound { text.new.len ≤ text.old.len + 2043 }
{
    text.push(b"tiles ");
    let found = strip::find_streams(strip, full_w, full_h);
    match &found {
        Ok(tiles) => {
            put_field(text, tiles.len(), b'\n');
            put_tiles(text, tiles.as_slice());
        }
        Err(_) => put_field(text, 0, b'\n'),
    }
}

// The same at the start of a slice: how many bytes. (Out of line: an input that is too short or too long pays for no frame.)
#[inline(never)]
fn list_tiles(strip: &[u8], full_w: usize, full_h: usize, out: &mut [u8]) -> usize
    requires { 2043 ≤ length out.old }
    ensures value { (result ≡ length (listing (tiles_of strip.now full_w full_h))) × (out.new ≡ put_at out.old 0 (listing (tiles_of strip.now full_w full_h))) }
    ensures upper_bound { result ≤ 2043 }
{
    let mut text = Text::new(out);
    put_listing(&mut text, strip, full_w, full_h);
    text.len
}

// A text of one line.
fn told(line: &[u8], out: &mut [u8]) -> usize
    requires { length line.now ≤ length out.old }
    ensures { (result ≡ length line.now) × (out.new ≡ put_at out.old 0 line.now) }
{
    let mut text = Text::new(out);
    text.push(line);
    text.len
}

// What the program prints for an input, at the start of a buffer: how many bytes.
#[tactic(auto, unfolding(crate::specs::Listing::response))]
pub fn respond(input: &[u8], out: &mut [u8; 4096]) -> usize
    ensures value { (result ≡ length (response input.now)) × (result ≤ length out.new) }
    ensures out_after { out.new ≡ put_at out.old 0 (response input.now) }
{
    if MOST < input.len() {
        return told(b"too long\n", out);
    }
    if input.len() < SIDES {
        return told(b"too short\n", out);
    }
    let full_w = words::le32(input, 0);
    let full_h = words::le32(input, 4);
    list_tiles(&input[SIDES..], full_w, full_h, out)
}

// Reads until the buffer is full or the input ends, however the input is cut into reads: how many bytes then stand at the buffer's start. It is a
// `while`, since each read says how far it came; std's `read_to_end` wants the heap.
fn read_full<R: Read>(input: &mut R, buf: &mut [u8]) -> io::Result<usize>
    ensures in_bounds { IfOk result (λ n. n ≤ length buf.new) }
    ensures bytes { IfOk result (λ n. Consumes (R.remaining input.old) (R.remaining input.new) (take n buf.new)) }
    ensures end { IfOk result (λ n. n < length buf.new → IsAtEnd (R.remaining input.new)) }
{
    let mut done = 0;
    while done < buf.len() {
        let n = input.read(&mut buf[done..])?;
        if n == 0 {
            return Ok(done);
        }
        done += n;
    }
    Ok(done)
}

// Answer standard input, however it is cut into reads, on standard output. It stands in an array, of one byte more than the longest, as the text does.
pub fn run(rt: &(impl Input + Print)) -> io::Result<()> {
    let mut input = [0u8; 65537];
    let n = read_full(&mut rt.reader(), &mut input)?;
    let mut out = [0u8; 4096];
    let length = respond(&input[..n], &mut out);
    rt.write_all(&out[..length])
}
