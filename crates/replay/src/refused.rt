// Refusals: `packets::check` and `packets::lengths_of` on a stream, and the number that they should answer. A case is six little-endian
// words (the stream's length, those of the four lent slices, the number, which is 0 for an accepted stream), and the stream's bytes.
use crate::kind::{Case, Words};
use packets::{check, lengths_of};

// The words of a case that say more than the length of its input.
#[derive(Clone, Copy)]
pub struct Refused {
    green: u32,
    red: u32,
    blue: u32,
    work: u32,
    number: u32,
}

impl Refused {
    // Whether the stream, lent slices of the case's lengths, has the case's number.
    fn is_refused(&self, stream: &[u8]) -> bool {
        let need = check(
            stream,
            self.green as usize,
            self.red as usize,
            self.blue as usize,
            self.work as usize,
        );
        need.err().map_or(0, u64::from) == self.number as u64
    }

    // Whether the stream's lengths are refused with the case's number, where that is 2 or 3, and else with none.
    fn is_measured(&self, stream: &[u8]) -> bool {
        let number = if 3 < self.number { 0 } else { self.number };
        lengths_of(stream).err().map_or(0, u64::from) == number as u64
    }
}

impl Case for Refused {
    fn words() -> usize {
        6
    }

    fn new(words: &Words) -> Self {
        let [_, green, red, blue, work, number, ..] = *words;
        Self {
            green,
            red,
            blue,
            work,
            number,
        }
    }

    fn answer_length(&self) -> usize {
        0
    }

    fn is_right(&self, stream: &[u8], _answer: &[u8]) -> bool {
        self.is_refused(stream) && self.is_measured(stream)
    }
}
