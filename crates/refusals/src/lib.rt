// The refusals of documents 01 and 02: each by name, with its number and its words.
#![tactic(auto)]

ghost use Rattle.std.specs.Prelude.{◌≡◌, ◌≤◌, ◌<◌, Some};
ghost use Rattle.refusals.specs.Number.{number_of};
ghost use Rattle.refusals.specs.Words.{words_of};

use std::error::Error;
use std::fmt;

// Why a strip, a stream or planes are refused, in the order of the numbers, which begin with 1.
#[derive(Clone, Copy, Debug, PartialEq, Eq, Hash)]
pub enum Refusal {
    NoTile = 1,
    InvalidHeader,
    PlaneTooLarge,
    SliceTooShort,
    DirectoryTooShort,
    TooManyEntries,
    EntryPastEnd,
    EntriesPastGroup,
    MissingPacket,
    PacketTooShort,
    RecordHeaderPastEnd,
    PaddingNotZero,
    WrongTag,
    UnknownKind,
    WrongBlockCount,
    WrongMarker,
    WrongPacketSize,
    RecordPastEnd,
    ThreeOutsideDetail,
    HeightAboveLimit,
    RowsOffHeight,
    MoreRecordsThanRoom,
    OneInDetail,
    HeightBelow16,
    NumberOutOfRange,
    TooLong,
}

// Its number in the documents, which is the only way to one: never 0, and at most 26.
impl From<Refusal> for u64 {
    ghost from_gives = { λ r n. (n ≡ number_of r) × (0 < n) × (n ≤ 26) };

    fn from(refusal: Refusal) -> u64 {
        refusal as u64
    }
}

// In words, for callers of the crates that print a refusal: no program here does, and C has the numbers.
impl fmt::Display for Refusal {
    ghost output = { λ r. Some (words_of r) };

    fn fmt<W: fmt::Write>(&self, f: &mut fmt::Formatter<W>) -> fmt::Result {
        f.write_str(match self {
            Refusal::NoTile => "no tile located in the strip",
            Refusal::InvalidHeader => "the stream's header is not valid",
            Refusal::PlaneTooLarge => "the green plane would hold more than 134,217,728 numbers",
            Refusal::SliceTooShort => "a lent slice is too short",
            Refusal::DirectoryTooShort => "the directory runs past the end of the stream",
            Refusal::TooManyEntries => "the directory lists more than 9 packets in a group",
            Refusal::EntryPastEnd => "a packet runs past the end of the stream",
            Refusal::EntriesPastGroup => "the packets of a group are longer than the group",
            Refusal::MissingPacket => "a packet is missing",
            Refusal::PacketTooShort => "a packet is shorter than 16 bytes",
            Refusal::RecordHeaderPastEnd => "a record header runs past the end of its packet",
            Refusal::PaddingNotZero => "a packet header's padding is not 0",
            Refusal::WrongTag => "a packet header's tag is not 4, or the zeros beside it are not 0",
            Refusal::UnknownKind => "a packet's kind is neither 1 nor 3",
            Refusal::WrongBlockCount => "a packet has no records, or more than 30,000",
            Refusal::WrongMarker =>
                "a packet header's marker is not 16, or the zeros after it are not 0",
            Refusal::WrongPacketSize => "a packet's size is not its length in the directory",
            Refusal::RecordPastEnd => "a record's bytes run past the end of its packet",
            Refusal::ThreeOutsideDetail => "a packet of kind 3 stands in group 0 or 4",
            Refusal::HeightAboveLimit => "the coded height is above 32,767",
            Refusal::RowsOffHeight => "a packet's rows do not fit the coded height",
            Refusal::MoreRecordsThanRoom => {
                "a packet has more records than a stream of this length may have"
            }
            Refusal::OneInDetail => "a packet of kind 1 stands in group 1, 2 or 3",
            Refusal::HeightBelow16 => "the coded height is under 16",
            Refusal::NumberOutOfRange => {
                "a coefficient is above 524,287 in magnitude, a step of band 0 leaves 16 bits, or an edge value is no value of E"
            }
            Refusal::TooLong => {
                "a record would be longer than 65,535 bytes, or a group longer than 268,435,440"
            }
        })
    }
}

// For callers that hand a refusal on as an error of their own.
impl Error for Refusal {}
