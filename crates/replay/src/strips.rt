// Strips: `strip::find_streams`, `tile_count` and `tile_field` on a strip, and the tiles that they should find. A case is four little-endian
// words (the strip's length, frame width, frame height, tiles), the strip's bytes, and for each tile six words: offset, length, x, y,
// width, height.
use crate::kind::{Case, Words};
use refusals::Refusal;
use strip::{TILES, Tiles, find_streams, tile_count, tile_field};
use words::le32;

// The words of a case that say more than the length of its input.
#[derive(Clone, Copy)]
pub struct Strip {
    full_w: u32,
    full_h: u32,
    count: u32,
}

// A field of a tile of the case; 0 where there is no such tile or field.
fn wanted(want: &[u8], ordinal: usize, field: usize) -> usize {
    if TILES < ordinal || 6 <= field {
        return 0;
    }
    let at = 24 * ordinal + 4 * field;
    if want.len() < at + 4 {
        return 0;
    }
    le32(want, at)
}

// Whether the tiles have their fields, and there is none after the last.
fn right_tiles(tiles: &Tiles, want: &[u8]) -> bool {
    (0..6 * TILES).all(|i| {
        tiles.get(i / 6).map_or(0, |tile| tile.field(i % 6)) == wanted(want, i / 6, i % 6)
    })
}

// Whether `tile_field` gives the fields of every tile, and 0 for a tile and for a field past the last.
fn right_fields(strip: &[u8], full_w: usize, full_h: usize, want: &[u8]) -> bool {
    (0..7 * (TILES + 1)).all(|i| {
        tile_field(strip, full_w, full_h, i / 7, i % 7) == wanted(want, i / 7, i % 7)
    })
}

// Whether `find_streams` finds so many tiles, and has refusal 1 where there is none.
fn right_located(strip: &[u8], full_w: usize, full_h: usize, count: usize, want: &[u8]) -> bool {
    match find_streams(strip, full_w, full_h) {
        Ok(tiles) => 0 < count && tiles.len() == count && right_tiles(&tiles, want),
        Err(refusal) => count == 0 && refusal == Refusal::NoTile,
    }
}

impl Case for Strip {
    fn words() -> usize {
        4
    }

    fn new(words: &Words) -> Self {
        let [_, full_w, full_h, count, ..] = *words;
        Self {
            full_w,
            full_h,
            count,
        }
    }

    fn answer_length(&self) -> usize {
        24 * self.count as usize
    }

    fn is_right(&self, strip: &[u8], want: &[u8]) -> bool {
        let full_w = self.full_w as usize;
        let full_h = self.full_h as usize;
        let count = self.count as usize;
        tile_count(strip, full_w, full_h) == count
            && right_located(strip, full_w, full_h, count, want)
            && right_fields(strip, full_w, full_h, want)
    }
}
