// Tiles: `tile::decode_stream` on a stream, and its answer and what the four lent slices should hold; and the stream's lengths. A case is
// eight little-endian words (the stream's length, refusal, width, height, rows, broken records, spent records, bits), the stream's bytes,
// and a word for each number of green, red and blue. A refused stream has 0 in the last six words, and no planes.
ghost use Rattle.std.specs.Prelude.{◌<◌, ◌^◌};

use crate::kind::{Case, Words};
use crate::vectors::{PATTERN, right_numbers, right_work, small};
use packets::{Lengths, lengths_of};
use refusals::Refusal;
use tile::{Decoded, decode_stream};

// The words of a case that say more than the length of its input.
#[derive(Clone, Copy)]
pub struct Tile {
    refusal: u32,
    width: u32,
    height: u32,
    rows: u32,
    broken: u32,
    spent: u32,
    bits: u32,
}

// Whether the planes are those of the case: one half of its words is green's, one quarter each is red's and blue's.
fn right_planes(green: &[i32], red: &[i32], blue: &[i32], want: &[u8]) -> bool {
    let a = want.len() / 2;
    let b = a + want.len() / 4;
    right_numbers(green, &want[..a])
        && right_numbers(red, &want[a..b])
        && right_numbers(blue, &want[b..])
}

impl Tile {
    // What an accepted stream answers: stopped is the sum of broken and spent.
    fn decoded(&self) -> Decoded {
        Decoded {
            width: self.width as usize,
            height: self.height as usize,
            rows: self.rows as usize,
            stopped: self.broken as u64 + self.spent as u64,
            broken: self.broken as u64,
            spent: self.spent as u64,
            bits: self.bits as u64,
        }
    }

    // Whether the answer is the one of the case.
    fn is_answered(&self, answer: Result<Decoded, Refusal>) -> bool {
        match answer {
            Ok(decoded) => self.refusal == 0 && decoded == self.decoded(),
            Err(refusal) => {
                let last = [
                    self.width,
                    self.height,
                    self.rows,
                    self.broken,
                    self.spent,
                    self.bits,
                ];
                u64::from(refusal) == self.refusal as u64 && last == [0; 6]
            }
        }
    }

    // The numbers of work that a tile uses.
    fn work_length(&self) -> usize {
        let n = (small(self.height) as usize + 15) / 16;
        16 * (n + 1) * small(self.width) as usize
    }

    // Whether an accepted stream's lengths are those of the case: its size and rows, and as many numbers as its planes have.
    fn is_measured(&self, stream: &[u8], want: &[u8]) -> bool {
        match lengths_of(stream) {
            Ok(need) => self.refusal != 0 || self.needs(need, want),
            Err(_) => self.refusal != 0,
        }
    }

    // Whether these lengths are those of the case.
    fn needs(&self, need: Lengths, want: &[u8]) -> bool {
        let size = need.size;
        size.width == self.width as usize
            && size.height == self.height as usize
            && need.rows == self.rows as usize
            && need.green == want.len() / 8
            && need.red == want.len() / 16
            && need.blue == want.len() / 16
            && need.work == self.work_length()
    }
}

impl Case for Tile {
    fn words() -> usize {
        8
    }

    fn new(words: &Words) -> Self {
        let [_, refusal, width, height, rows, broken, spent, bits, ..] = *words;
        Self {
            refusal,
            width,
            height,
            rows,
            broken,
            spent,
            bits,
        }
    }

    // Green has rows · width words, red and blue have half as many each.
    fn answer_length(&self) -> usize
        ensures { result < 2 ^ 19 }
    {
        8 * (small(self.width) as usize * small(self.rows) as usize)
    }

    // Decodes a stream into slices longer than it asks for, which are arrays as the words are, and compares.
    fn is_right(&self, stream: &[u8], want: &[u8]) -> bool {
        let mut green = [PATTERN; 1024];
        let mut red = [PATTERN; 512];
        let mut blue = [PATTERN; 512];
        let mut work = [PATTERN; 4096];
        let answer = decode_stream(stream, &mut green, &mut red, &mut blue, &mut work);
        self.is_answered(answer)
            && right_planes(&green, &red, &blue, want)
            && right_work(&work, self.work_length())
            && self.is_measured(stream, want)
    }
}
