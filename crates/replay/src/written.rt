// Written streams: `writer::write_stream` on planes, and its answer and what the two slices that it changes should hold. A case is eleven
// little-endian words (the input's length, coded width, coded height, lent numbers in green, red, blue and work, lent bytes of the stream,
// refusal, the stream's length, zeros in work), a word for each number of green, red and blue, and the stream's bytes.
use crate::kind::{Case, Words};
use crate::vectors::{PATTERN, right_work, set_words};
use refusals::Refusal;
use writer::write_stream;

// What every byte of the lent stream is before the call.
const BYTE: u8 = 77;

// The words of a case that say more than the length of its input.
#[derive(Clone, Copy)]
pub struct Planes {
    width: u32,
    height: u32,
    green: u32,
    red: u32,
    blue: u32,
    work: u32,
    stream: u32,
    refusal: u32,
    length: u32,
    zeros: u32,
}

// Whether a stream starts with the bytes of the case, and is after them as it was before.
fn right_stream(stream: &[u8], want: &[u8]) -> bool {
    let n = want.len();
    n <= stream.len() && &stream[..n] == want && stream[n..].iter().all(|b| *b == BYTE)
}

impl Planes {
    // Whether the answer is the one of the case: a refusal with length 0, or the stream's length.
    fn is_answered(&self, answer: Result<usize, Refusal>) -> bool {
        match answer {
            Ok(length) => self.refusal == 0 && length == self.length as usize,
            Err(refusal) => u64::from(refusal) == self.refusal as u64 && self.length == 0,
        }
    }

    // Writes a stream from planes, with as much of work and stream lent as the case says, and compares.
    fn is_written(&self, green: &[i32], red: &[i32], blue: &[i32], want: &[u8]) -> bool {
        // An array, as the words of a case are (`kind`).
        let mut stream = [BYTE; 4096];
        let mut work = [PATTERN; 4096];
        let numbers = self.work as usize;
        let bytes = self.stream as usize;
        if work.len() < numbers || stream.len() < bytes {
            return false;
        }
        let answer = write_stream(
            green,
            red,
            blue,
            self.width as usize,
            self.height as usize,
            &mut work[..numbers],
            &mut stream[..bytes],
        );
        self.is_answered(answer)
            && right_stream(&stream, want)
            && right_work(&work, self.zeros as usize)
    }
}

impl Case for Planes {
    fn words() -> usize {
        11
    }

    fn new(words: &Words) -> Self {
        let [
            _,
            width,
            height,
            green,
            red,
            blue,
            work,
            stream,
            refusal,
            length,
            zeros,
        ] = *words;
        Self {
            width,
            height,
            green,
            red,
            blue,
            work,
            stream,
            refusal,
            length,
            zeros,
        }
    }

    // The bytes of the stream.
    fn answer_length(&self) -> usize {
        self.length as usize
    }

    // The planes stand in the input one after the other.
    fn is_right(&self, input: &[u8], want: &[u8]) -> bool {
        // An array, as the words of a case are (`kind`).
        let mut planes = [0i32; 2048];
        let n = input.len() / 4;
        let a = self.green as usize;
        let b = a + self.red as usize;
        if planes.len() < n || n != b + self.blue as usize {
            return false;
        }
        set_words(&mut planes[..n], input);
        self.is_written(&planes[..a], &planes[a..b], &planes[b..n], want)
    }
}
