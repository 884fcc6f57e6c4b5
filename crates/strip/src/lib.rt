// The stream header and the locator of tiles in a strip: document 01, 'Strip'.
#![tactic(auto)]

ghost use Rattle.std.specs.Prelude.{⊤, ◌≡◌, ◌+◌, ◌^◌, ◌<◌, ◌≤◌, List, [], ◌∷◌, ◌++◌, MatchOption, IfSome, eqb, length, get_or, slice_get};
ghost use Rattle.format.specs.Strip.{valid_header, magic, sides, marks, payload, unless0, word, entry_start, candidate, entry_tile, alone, tiles_of};
ghost use Rattle.strip.specs.Answers.{HeaderSays, stream_tile, located_tile_of, placed, listed_of, located_of, table_tiles, stream_fields, tile_field};

use arrayvec::ArrayVec;
use fields::{Size, Stream};
use refusals::Refusal;
use std::alloc::AllocError;
use std::marker::Model;
use words::le32;

// The most tiles that a strip's table lists.
pub const TILES: usize = 16;

// The bytes from a candidate to the next, and from an entry's start to its last.
const STEP: usize = 16;

const REACH: usize = 4096;

// A tile stream inside the strip.
#[derive(Clone, Copy, Default)]
pub struct TileStream {
    pub offset: usize,
    pub length: usize,
    pub x: usize,
    pub y: usize,
    pub width: usize,
    pub height: usize,
}

impl TileStream {
    // Where a stream's directory starts.
    pub const DIRECTORY: usize = 48;

    // Where a stream's packets start.
    pub const HEADER: usize = 128;

    // Where a tile's stream starts in the strip, unless the table says where.
    pub const OFFSET: usize = 512;

    // Field 0 to 5 in their order; any other is 0. C gives the number.
    pub fn field(self, field: usize) -> usize
        ensures { result ≡ get_or (stream_fields self) field 0 }
    {
        match field {
            0 => self.offset,
            1 => self.length,
            2 => self.x,
            3 => self.y,
            4 => self.width,
            5 => self.height,
            _ => 0,
        }
    }
}

// What a stream starts with: its header's 128 bytes, and what comes after them.
#[derive(Drop)]
struct Start<'a> {
    stream: Stream<'a>,
    ghost long: { 128 ≤ length stream },
}

impl<'a> Start<'a> {
    // The start of a stream that is long enough.
    fn of(bytes: &'a [u8]) -> Option<Self>
        ensures { MatchOption result (length bytes.now < 128) (λ t. t.stream ≡ bytes.now) }
    {
        if bytes.len() < TileStream::HEADER {
            return None;
        }
        let stream = Stream::new(bytes);
        Some(Self { stream })
    }

    // "A000" or "0000".
    #[tactic(auto, unfolding(format::specs::Strip::magic))]
    fn is_magic(&self) -> bool
        ensures { result ≡ magic self.now.stream }
    {
        let first = self.stream.bits(0, 32);
        first == 0x4130_3030 || first == 0x3030_3030
    }

    // The width nonzero and a multiple of 16, the half height nonzero.
    #[tactic(auto, unfolding(format::specs::Strip::sides))]
    fn has_sides(&self) -> bool
        ensures { result ≡ sides self.now.stream }
    {
        let w = self.stream.width();
        w != 0 && w % 16 == 0 && self.stream.half_height() != 0
    }

    // The fixed bits at 12 and 14.
    #[tactic(auto, unfolding(format::specs::Strip::marks))]
    fn has_marks(&self) -> bool
        ensures { result ≡ marks self.now.stream }
    {
        let middle = self.stream.bits(96, 16) / 16 % 64;
        let at14 = self.stream.bits(112, 16);
        let top = at14 / 8192;
        let both = at14 / 1024 % 4;
        middle == 16 && top == 3 && both == 3
    }

    // The coded size, if the header is valid.
    #[tactic(auto, unfolding(format::specs::Strip::valid_header))]
    fn header(&self) -> Result<Size, Refusal>
        ensures { HeaderSays self.now.stream result }
    {
        if self.is_magic() && self.has_sides() && self.has_marks() {
            return Ok(self.stream.size());
        }
        Err(Refusal::InvalidHeader)
    }

    // The bytes after the header.
    #[tactic(auto, unfolding(format::specs::Strip::payload))]
    fn payload(&self) -> usize
        ensures { (result ≡ payload self.now.stream) × (result < 2 ^ 31) }
    {
        self.stream.group_size(0)
            + self.stream.group_size(1)
            + self.stream.group_size(2)
            + self.stream.group_size(3)
            + self.stream.group_size(4)
    }
}

// The coded size, if the stream starts with a valid header.
#[tactic(auto, unfolding(format::specs::Strip::valid_header))]
pub fn parse_stream_header(stream: &[u8]) -> Result<Size, Refusal>
    ensures { HeaderSays stream.now result }
{
    match Start::of(stream) {
        Some(start) => start.header(),
        None => Err(Refusal::InvalidHeader),
    }
}

// The tiles of a strip in order, at most TILES: in a vector of that capacity, since the decoder has no heap.
#[derive(Drop)]
pub struct Tiles {
    tiles: ArrayVec<TileStream, TILES>,
}

impl Model for Tiles {
    ghost use Rattle.std.specs.Prelude.{List};
    ghost use Rattle.strip.specs.declared.TileStream.{TileStream};

    ghost Value = { List TileStream };

    ghost view = { λ t. t.tiles.items };
}

// A clone never fails, and is the same list.
impl Clone for Tiles {
    ghost is_clone = { λ t u. u ≡ t };

    ghost is_infallible = { λ _. ⊤ };

    fn clone(&self) -> Result<Self, AllocError> {
        let tiles = self.tiles.clone()?;
        Ok(Self { tiles })
    }
}

impl Tiles {
    // No tile.
    fn new() -> Self
        ensures { result ≡ [] }
    {
        Self {
            tiles: ArrayVec::new(),
        }
    }

    // One tile.
    fn one(tile: TileStream) -> Self
        ensures { result ≡ tile ∷ [] }
    {
        let mut tiles = Self::new();
        tiles.push(tile);
        tiles
    }

    // One tile more.
    fn push(&mut self, tile: TileStream)
        requires { length self.old < 16 }
        ensures { self.new ≡ self.old ++ tile ∷ [] }
    {
        self.tiles.push(tile);
    }

    // The tiles in order.
    pub fn as_slice(&self) -> &[TileStream]
        ensures value { result.now ≡ self.now }
        ensures most { length self.now ≤ 16 }
    {
        self.tiles.as_slice()
    }

    // How many there are.
    pub fn len(&self) -> usize
        ensures value { result ≡ length self.now }
        ensures most { result ≤ 16 }
    {
        self.as_slice().len()
    }

    // Tile k from 0.
    pub fn get(&self, k: usize) -> Option<TileStream>
        ensures { result ≡ slice_get self.now k }
    {
        self.as_slice().get(k).copied()
    }
}

// A side of the table is the header's, or 0.
fn matches_side(listed: usize, side: usize) -> bool
    ensures { result ≡ eqb (unless0 listed side) side }
{
    listed == 0 || listed == side
}

// A strip of 640 bytes at least, and the sides of the frame that its tiles cover.
#[derive(Clone, Copy)]
struct Frame<'a> {
    strip: &'a [u8],
    width: usize,
    height: usize,
    ghost long: { 640 ≤ length strip.now },
}

// Entry i of the table goes by its number, below 16: a struct of the frame and the number would say `self.now.frame.strip` for `self.now.strip`
// in each contract.
impl<'a> Frame<'a> {
    // Word k of entry i of the table.
    fn entry_word(&self, i: usize, k: usize) -> usize
        requires { (i < 16) × (k < 6) }
        ensures { (result ≡ word self.now.strip.now i k) × (result < 2 ^ 32) }
    {
        le32(self.strip, 8 + 24 * i + 4 * k)
    }

    // Where the search for entry i starts; 0 means 512.
    #[tactic(auto, unfolding(format::specs::Strip::entry_start))]
    fn entry_start(&self, i: usize) -> usize
        requires { i < 16 }
        ensures { (result ≡ entry_start self.now.strip.now i) × (result < 2 ^ 32) }
    {
        let start = self.entry_word(i, 0);
        if start == 0 {
            TileStream::OFFSET
        } else {
            start
        }
    }

    // The stream at a byte, if its header is valid and a payload of so many bytes at least lies within the strip.
    #[tactic(auto, unfolding(crate::specs::Answers::stream_tile, format::specs::Strip::valid_header))]
    fn stream_at(&self, at: usize, least: usize) -> Option<TileStream>
        requires { at ≤ length self.now.strip.now }
        ensures value { result ≡ located_tile_of (stream_tile self.now.strip.now at least) }
        ensures upper_bound { IfSome result (λ t. (t.width < 2 ^ 16) × (t.height < 2 ^ 17)) }
    {
        let stream = &self.strip[at..];
        let start = Start::of(stream)?;
        let size = start.header().ok()?;
        let payload = start.payload();
        let room = stream.len() - TileStream::HEADER;
        if payload < least || room < payload {
            return None;
        }
        Some(TileStream {
            offset: at,
            length: TileStream::HEADER + payload,
            x: 0,
            y: 0,
            width: size.width,
            height: size.height,
        })
    }

    // The sides of entry i match the header's, and the tile lies inside the frame.
    #[tactic(auto, unfolding(crate::specs::Answers::placed))]
    fn places(&self, i: usize, width: usize, height: usize) -> bool
        requires { (i < 16) × (width < 2 ^ 32) × (height < 2 ^ 32) }
        ensures { result ≡ placed self.now.strip.now self.now.width self.now.height i width height }
    {
        matches_side(self.entry_word(i, 4), width)
            && matches_side(self.entry_word(i, 5), height)
            && self.entry_word(i, 2) + width <= self.width
            && self.entry_word(i, 3) + height <= self.height
    }

    // The tile of entry i at one position.
    #[tactic(auto, unfolding(format::specs::Strip::candidate, format::specs::Strip::fits, crate::specs::Answers::stream_tile, crate::specs::Answers::placed))]
    fn candidate(&self, i: usize, at: usize) -> Option<TileStream>
        requires { (i < 16) × (at ≤ length self.now.strip.now) }
        ensures { result ≡ located_tile_of (candidate self.now.strip.now self.now.width self.now.height i at) }
    {
        let tile = self.stream_at(at, 1)?;
        if !self.places(i, tile.width, tile.height) {
            return None;
        }
        Some(TileStream {
            x: self.entry_word(i, 2),
            y: self.entry_word(i, 3),
            ..tile
        })
    }

    // The tile of entry i: the first of its candidates that is taken.
    fn entry_tile(&self, i: usize) -> Option<TileStream>
        requires { i < 16 }
        ensures { result ≡ located_tile_of (entry_tile self.now.strip.now self.now.width self.now.height i) }
    {
        let start = self.entry_start(i);
        let end = (start + REACH).min(self.strip.len() - TileStream::HEADER);
        // By number: `step_by` over a range takes each byte between as a step.
        let count = (end + STEP).saturating_sub(start) / STEP;
        (0..count).find_map(|k| self.candidate(i, start + k * STEP))
    }

    // The tiles of the table; one failed entry drops all.
    #[tactic(auto, unfolding(crate::specs::Answers::table_tiles, format::specs::Strip::entry_tiles))]
    fn table_tiles(&self) -> Option<Tiles>
        ensures { result ≡ listed_of (table_tiles self.now.strip.now self.now.width self.now.height) }
    {
        let count = le32(self.strip, 0);
        if count == 0 || TILES < count {
            return None;
        }
        let mut tiles = Tiles::new();
        for i in 0..count {
            let tile = self.entry_tile(i)?;
            tiles.push(tile);
        }
        Some(tiles)
    }

    // Offset 512 tried alone.
    #[tactic(auto, using(crate::proofs::Search::alone_is))]
    fn alone(&self) -> Option<TileStream>
        ensures { result ≡ located_tile_of (alone self.now.strip.now self.now.width self.now.height) }
    {
        let tile = self.stream_at(TileStream::OFFSET, 0)?;
        if tile.width != self.width || tile.height != self.height {
            return None;
        }
        Some(tile)
    }
}

// Locate the tile streams of a strip that covers a frame of full_w by full_h. Here and below the three go apart, as C gives them.
#[tactic(auto, using(crate::proofs::Table::found_is), unfolding(format::specs::Strip::tiles_of))]
pub fn find_streams(strip: &[u8], full_w: usize, full_h: usize) -> Result<Tiles, Refusal>
    ensures { result ≡ located_of (tiles_of strip.now full_w full_h) }
{
    if full_w == 0 || full_h == 0 || strip.len() < TileStream::OFFSET + TileStream::HEADER {
        return Err(Refusal::NoTile);
    }
    let frame = Frame {
        strip,
        width: full_w,
        height: full_h,
    };
    if let Some(tiles) = frame.table_tiles() {
        return Ok(tiles);
    }
    let tile = frame.alone().ok_or(Refusal::NoTile)?;
    Ok(Tiles::one(tile))
}

// How many tiles a strip has.
pub fn tile_count(strip: &[u8], full_w: usize, full_h: usize) -> usize
    ensures { result ≡ length (tiles_of strip.now full_w full_h) }
{
    find_streams(strip, full_w, full_h).map_or(0, |tiles| tiles.len())
}

// Field 0 to 5 of a tile from 0; one that isn't there gives 0.
#[tactic(auto, using(crate::proofs::Table::field_is, crate::proofs::Table::field_past))]
pub fn tile_field(strip: &[u8], full_w: usize, full_h: usize, ordinal: usize, field: usize) -> usize
    ensures { result ≡ tile_field (tiles_of strip.now full_w full_h) ordinal field }
{
    if TILES <= ordinal {
        return 0;
    }
    match find_streams(strip, full_w, full_h) {
        Ok(tiles) => tiles.get(ordinal).map_or(0, |tile| tile.field(field)),
        Err(_) => 0,
    }
}
