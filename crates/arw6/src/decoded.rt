// What decoding a tile answers, as C has it.
ghost use Rattle.std.specs.Prelude.{◌≡◌};
ghost use Rattle.tile.specs.Decode.{told};
ghost use Rattle.arw6.specs.Answers.{tile_told};

use refusals::Refusal;
use tile::Decoded as Tile;

// A refusal with every other field 0, or 0 with the coded size, the rows of the planes, how many records stopped, being broken or spent, and
// the bits that the records took.
#[repr(C)]
#[derive(Clone, Copy, Default)]
pub struct Decoded {
    pub refusal: u64,
    pub width: u64,
    pub height: u64,
    pub rows: u64,
    pub stopped: u64,
    pub broken: u64,
    pub spent: u64,
    pub bits: u64,
}

impl From<Result<Tile, Refusal>> for Decoded {
    ghost from_gives = { λ answer c. tile_told c ≡ told answer };

    fn from(answer: Result<Tile, Refusal>) -> Self {
        match answer {
            Ok(tile) => Decoded {
                refusal: 0,
                width: tile.width as u64,
                height: tile.height as u64,
                rows: tile.rows as u64,
                stopped: tile.stopped,
                broken: tile.broken,
                spent: tile.spent,
                bits: tile.bits,
            },
            Err(refusal) => Decoded {
                refusal: u64::from(refusal),
                ..Decoded::default()
            },
        }
    }
}
