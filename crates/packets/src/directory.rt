// The directory of a stream: document 01, 'Directory and packets'. It has its groups and their entries by number alone, and a group may have
// nine entries, so a block goes by the number of its group, with which one reckons, and its entries by theirs. The bounds of both are clauses, as each
// call has another number.
ghost use Rattle.std.specs.Prelude.{◌≡◌, ◌+◌, ◌*◌, ◌^◌, ◌<◌, ◌≤◌, length, IfOk};
ghost use Rattle.format.specs.Sizes.{group_in, colour_in};
ghost use Rattle.format.specs.Packets.{sum, entry_count, block_size, length_place, entry_length, block_at, group_start, packet_start, packet_length, packet_of};
ghost use Rattle.format.specs.Refusals.{each, entry_refusal, group_refusal, directory_refusal};
ghost use Rattle.fields.specs.Kinds.{group_of, colour_of};
ghost use Rattle.refusals.specs.Number.{code_of};

use fields::{Colour, Group, Stream};
use refusals::Refusal;
use strip::TileStream;

// The place of a packet in a directory: its group, and its colour there.
#[derive(Clone, Copy)]
pub struct Entry {
    pub group: Group,
    pub colour: Colour,
}

impl Entry {
    // That of packet p, of 13 in the order of document 01's checks: groups 0 to 3 of green, of red, of blue, then group 4.
    pub fn of(p: usize) -> Self
        ensures { (group_of result.group ≡ group_in p) × (colour_of result.colour ≡ colour_in p) }
    {
        if p < 12 {
            Self {
                group: Group::numbered(p % 4),
                colour: Colour::indexed(p / 4),
            }
        } else {
            Self {
                group: Group::Final,
                colour: Colour::Green,
            }
        }
    }
}

// A stream whose directory no check refuses.
#[derive(Drop)]
pub struct Listed<'a> {
    pub stream: Stream<'a>,
    pub ghost checked: { directory_refusal stream ≡ 0 },
}

// Where a block has the length of an entry.
#[tactic(auto, unfolding(format::specs::Packets::length_place))]
fn length_place(index: usize) -> usize
    requires { index < 16 }
    ensures { (result ≡ length_place index) × (result < 64) }
{
    if index < 5 {
        1 + 3 * index
    } else {
        17 + 3 * (index - 5)
    }
}

// The block of a group: the byte where it starts.
#[derive(Clone, Copy)]
pub struct Block<'s, 'a> {
    stream: &'s Stream<'a>,
    group: usize,
    at: usize,
    ghost in_groups: { group < 5 },
    ghost place: { at ≡ block_at stream.now group },
    ghost low: { at ≤ 48 + group * 32 },
}

impl<'s, 'a> Block<'s, 'a> {
    // The block of a group: each starts where the one before it ends.
    #[tactic(auto, using(format::proofs::DirectoryLaws::block_none, format::proofs::DirectoryLaws::block_on))]
    pub fn of(stream: &'s Stream<'a>, group: usize) -> Self
        requires { group < 5 }
        ensures { (result.stream.now ≡ stream.now) × (result.group ≡ group) }
    {
        let mut at = TileStream::DIRECTORY;
        for i in 0..group {
            let before = Self {
                stream,
                group: i,
                at,
            };
            at += before.size();
        }
        Self { stream, group, at }
    }

    // How many entries it has.
    #[tactic(auto, unfolding(format::specs::Packets::entry_count))]
    pub fn count(&self) -> usize
        ensures { (result ≡ entry_count self.now.stream.now self.now.at) × (result < 16) }
    {
        self.stream.bits(8 * self.at, 8) % 16
    }

    // Its size in bytes.
    #[tactic(auto, unfolding(format::specs::Packets::block_size))]
    fn size(&self) -> usize
        ensures { (result ≡ block_size self.now.stream.now self.now.at) × (result ≤ 32) }
    {
        if 5 <= self.count() { 32 } else { 16 }
    }

    // The length in bytes of the packet of an entry.
    #[tactic(auto, unfolding(format::specs::Packets::entry_length))]
    fn length(&self, index: usize) -> usize
        requires { index < 16 }
        ensures { (result ≡ entry_length self.now.stream.now self.now.at index) × (result < 2 ^ 28) }
    {
        self.stream.bits(8 * (self.at + length_place(index)), 24) * 16
    }

    // The length of the packets of its first entries.
    fn lengths(&self, count: usize) -> usize
        requires { count < 16 }
        ensures { (result ≡ sum (entry_length self.now.stream.now self.now.at) count) × (result ≤ count * 2 ^ 28) }
    {
        let mut total = 0;
        for i in 0..count {
            total += self.length(i);
        }
        total
    }

    // Where the packets of its group start.
    fn start(&self) -> usize
        ensures { (result ≡ group_start self.now.stream.now self.now.group) × (result < 2 ^ 40) }
    {
        let mut start = TileStream::HEADER;
        for i in 0..self.group {
            start += self.stream.group_size(i);
        }
        start
    }

    // The packet of an entry: a part of the stream itself, which may be too short for a packet's header.
    #[tactic(auto, unfolding(format::specs::Packets::packet_start, format::specs::Packets::packet_length, format::specs::Packets::packet_of))]
    pub fn packet(&self, index: usize) -> &'a [u8]
        requires { (index < 16) × (packet_start self.now.stream.now self.now.group index + packet_length self.now.stream.now self.now.group index ≤ length self.now.stream.now) }
        ensures { result.now ≡ packet_of self.now.stream.now self.now.group index }
    {
        let start = self.start() + self.lengths(index);
        &self.stream.bytes()[start..start + self.length(index)]
    }

    // Each of its first packets lies within the stream.
    fn check_entries(&self, count: usize) -> Result<(), Refusal>
        requires { count < 16 }
        ensures { code_of result ≡ each (entry_refusal self.now.stream.now self.now.group) count }
    {
        let mut start = self.start();
        for index in 0..count {
            let n = self.length(index);
            if self.stream.len() < start + n {
                return Err(Refusal::EntryPastEnd);
            }
            start += n;
        }
        Ok(())
    }

    // The block itself, its entries, their length.
    #[tactic(auto, using(refusals::proofs::Laws::exits_first, format::proofs::DirectoryLaws::lengths_read), unfolding(format::specs::Refusals::group_refusal))]
    fn check(&self) -> Result<(), Refusal>
        ensures { code_of result ≡ group_refusal self.now.stream.now self.now.group }
    {
        if self.stream.len() < self.at + 16 {
            return Err(Refusal::DirectoryTooShort);
        }
        let count = self.count();
        if 9 < count {
            return Err(Refusal::TooManyEntries);
        }
        if self.stream.len() < self.at + self.size() {
            return Err(Refusal::DirectoryTooShort);
        }
        self.check_entries(count)?;
        if self.stream.group_size(self.group) < self.lengths(count) {
            return Err(Refusal::EntriesPastGroup);
        }
        Ok(())
    }
}

// The five groups in turn.
#[tactic(auto, using(refusals::proofs::Laws::exits_each, format::proofs::TurnLaws::each_none, format::proofs::TurnLaws::each_on), unfolding(format::specs::Refusals::directory_refusal))]
pub fn parse_directory<'a>(stream: Stream<'a>) -> Result<Listed<'a>, Refusal>
    ensures refusal { code_of result ≡ directory_refusal stream.entry }
    ensures same { IfOk result (λ l. l.stream ≡ stream.entry) }
{
    for group in 0..5 {
        Block::of(&stream, group).check()?;
    }
    Ok(Listed { stream })
}
