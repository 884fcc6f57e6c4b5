// Records: `coefficients::arw6_packet` on a packet, and the coefficients and the counts that it should give. A case is eight
// little-endian words (the packet's length, kind, m, columns, records, broken records, spent records, bits), the packet's bytes, and a word
// for each coefficient.
ghost use Rattle.std.specs.Prelude.{◌<◌, ◌^◌};

use crate::kind::{Case, Words};
use crate::vectors::{same, small};
use coefficients::{PacketCounts, arw6_packet};

// The words of a case that say more than the length of its input.
#[derive(Clone, Copy)]
pub struct Packet {
    kind: u8,
    m: u8,
    columns: u8,
    records: u8,
    broken: u32,
    spent: u32,
    bits: u32,
}

impl Packet {
    // Whether the answer is the one of the case.
    fn is_counted(&self, counted: PacketCounts) -> bool {
        let own = PacketCounts {
            together: 1,
            broken: self.broken as u64,
            spent: self.spent as u64,
            bits: self.bits as u64,
        };
        counted == own
    }
}

impl Case for Packet {
    fn words() -> usize {
        8
    }

    fn new(words: &Words) -> Self {
        let [_, kind, m, columns, records, broken, spent, bits, ..] = *words;
        Self {
            kind: small(kind),
            m: small(m),
            columns: small(columns),
            records: small(records),
            broken,
            spent,
            bits,
        }
    }

    // A word for each coefficient.
    fn answer_length(&self) -> usize
        ensures { result < 2 ^ 34 }
    {
        let in_record = self.kind as usize * self.m as usize * self.columns as usize;
        4 * (self.records as usize * in_record)
    }

    fn is_right(&self, packet: &[u8], want: &[u8]) -> bool {
        // An array, as the words of a case are (`kind`).
        let mut band = [1i32; 1024];
        let n = want.len() / 4;
        if band.len() < n {
            return false;
        }
        let counted = arw6_packet(
            packet,
            self.m as usize,
            self.columns as usize,
            self.records as usize,
            &mut band[..n],
        );
        self.is_counted(counted) && same(&band[..n], want)
    }
}
