// Inspected records: `inspection::inspect_record` on one record of a stream, and its answer and what the lent band should hold. A case is
// eleven little-endian words (the stream's length, packet, record, lent numbers of the band, refusal, bytes, allowance, bits, broken,
// spent, how many numbers of the band are written), the stream's bytes, and a word for each number written.
use crate::kind::{Case, Words};
use crate::vectors::{PATTERN, right_numbers};
use inspection::{Inspected, inspect_record};
use refusals::Refusal;

// An answer in numbers; those that it does not have are 0. It is no `arw6::Inspected`, which is C's and private there.
#[derive(Clone, Copy, Default, PartialEq)]
struct Answer {
    refusal: u64,
    bytes: u64,
    allowance: u64,
    bits: u64,
    broken: u64,
    spent: u64,
}

// The words of a case that say more than the length of its input.
#[derive(Clone, Copy)]
pub struct Record {
    packet: u32,
    record: u32,
    lent: u32,
    answer: Answer,
    written: u32,
}

impl Answer {
    fn of(answer: Result<Option<Inspected>, Refusal>) -> Self {
        match answer {
            Ok(Some(known)) => Self {
                refusal: 0,
                bytes: known.bytes,
                allowance: known.allowance,
                bits: known.counts.bits,
                broken: known.counts.broken,
                spent: known.counts.spent,
            },
            Ok(None) => Self::default(),
            Err(refusal) => Self {
                refusal: u64::from(refusal),
                ..Self::default()
            },
        }
    }
}

impl Case for Record {
    fn words() -> usize {
        11
    }

    fn new(words: &Words) -> Self {
        let [
            _,
            packet,
            record,
            lent,
            refusal,
            bytes,
            allowance,
            bits,
            broken,
            spent,
            written,
        ] = *words;
        let answer = Answer {
            refusal: refusal as u64,
            bytes: bytes as u64,
            allowance: allowance as u64,
            bits: bits as u64,
            broken: broken as u64,
            spent: spent as u64,
        };
        Self {
            packet,
            record,
            lent,
            answer,
            written,
        }
    }

    // A word for each number written.
    fn answer_length(&self) -> usize {
        4 * self.written as usize
    }

    fn is_right(&self, stream: &[u8], want: &[u8]) -> bool {
        // An array, as the words of a case are (`kind`).
        let mut band = [PATTERN; 1024];
        let n = self.lent as usize;
        if band.len() < n {
            return false;
        }
        let answer = inspect_record(
            stream,
            self.packet as usize,
            self.record as usize,
            &mut band[..n],
        );
        Answer::of(answer) == self.answer && right_numbers(&band, want)
    }
}
