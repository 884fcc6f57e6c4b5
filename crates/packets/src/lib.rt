// The checks of a stream, which write nothing: document 01, 'Refusals by place of check'. Every refusal is found here.
#![tactic(auto)]

ghost use Rattle.std.specs.Prelude.{◌≡◌, ◌+◌, ◌<◌, ◌≤◌, not, true, length, IfOk, Ok, ⊤};
ghost use Rattle.refusals.specs.Number.{code_of};
ghost use Rattle.format.specs.Sizes.{number, index};
ghost use Rattle.format.specs.Strip.{coded_height, valid_header};
ghost use Rattle.format.specs.Packets.{has_entry, packet_start, packet_length, packet_of, kind, blocks};
ghost use Rattle.format.specs.Refusals.{◌▷◌, on, wrong_count, tile_refusal, large_refusal, directory_refusal, entry_check, plane_refusal, packets_refusal, refusal};
ghost use Rattle.format.specs.Used.{packet_in, stream_refusal};
ghost use Rattle.format.specs.Tile.{lengths_by, lengths_of};
ghost use Rattle.fields.specs.Kinds.{group_of, colour_of};
ghost use Rattle.packets.specs.Answers.{told, short_of};

use fields::{Colour, Group, Packet, Size, Stream};
use refusals::Refusal;
use std::alloc::AllocError;
use strip::parse_stream_header;

mod directory;
mod records;

pub use directory::Entry;
use directory::{Block, Listed};

// The most numbers that a plane has.
const MAX_PLANE_SAMPLES: usize = 134_217_728;

// What to lend for a stream: the coded size, the rows of the planes and the numbers of each slice.
#[derive(Clone, Copy, Debug, PartialEq, Eq)]
pub struct Lengths {
    pub size: Size,
    pub rows: usize,
    pub green: usize,
    pub red: usize,
    pub blue: usize,
    pub work: usize,
}

// The packet of an index in a group: a part of the stream itself.
pub fn packet(stream: &[u8], group: usize, index: usize) -> &[u8]
    requires { (128 ≤ length stream.now) × (group < 5) × (index < 16) × (packet_start stream.now group index + packet_length stream.now group index ≤ length stream.now) }
    ensures { result.now ≡ packet_of stream.now group index }
{
    Block::of(&Stream::new(stream), group).packet(index)
}

// Neither n + 1 records nor, guarded, one fewer.
#[tactic(auto, unfolding(format::specs::Refusals::wrong_count))]
fn wrong_count(size: Size, count: usize) -> bool
    ensures { result ≡ wrong_count size.height count }
{
    let n = size.stripes();
    if count == n + 1 {
        return false;
    }
    !size.guarded() || count != n
}

impl<'a> Listed<'a> {
    // The packet of an entry, if the directory has it.
    #[tactic(auto, using(crate::proofs::AnswerLaws::found_inside), unfolding(format::specs::Packets::has_entry))]
    fn packet(&self, entry: Entry) -> Result<&'a [u8], Refusal>
        ensures refusal { code_of result ≡ on (not (has_entry self.now.stream (number (group_of entry.group)) (index (colour_of entry.colour)))) 9 }
        ensures found { IfOk result (λ p. p.now ≡ packet_of self.now.stream (number (group_of entry.group)) (index (colour_of entry.colour))) }
    {
        let block = Block::of(&self.stream, entry.group.number());
        let index = entry.colour.index();
        if block.count() <= index {
            return Err(Refusal::MissingPacket);
        }
        Ok(block.packet(index))
    }

    // An entry, and its packet.
    #[tactic(auto, using(refusals::proofs::Laws::exits_first), unfolding(format::specs::Refusals::entry_check))]
    fn check_entry(&self, entry: Entry) -> Result<(), Refusal>
        ensures { code_of result ≡ entry_check self.now.stream (group_of entry.group) (index (colour_of entry.colour)) }
    {
        let found = records::parse_packet(self.packet(entry)?)?;
        self.check_in_tile(&found, entry.group)
    }

    // A packet of a group in its tile.
    #[tactic(auto, unfolding(format::specs::Refusals::tile_refusal))]
    fn check_in_tile(&self, packet: &Packet<'_>, group: Group) -> Result<(), Refusal>
        ensures { code_of result ≡ tile_refusal (kind packet.now) (blocks packet.now) (group_of group) (coded_height self.now.stream) (length self.now.stream) }
    {
        let kind = packet.kind();
        let count = packet.blocks();
        let size = self.stream.size();
        let detail = group.is_detail();
        if kind == 3 && !detail {
            return Err(Refusal::ThreeOutsideDetail);
        }
        if 32767 < size.height {
            return Err(Refusal::HeightAboveLimit);
        }
        if wrong_count(size, count) {
            return Err(Refusal::RowsOffHeight);
        }
        if self.stream.len() / 16 + 1 < count {
            return Err(Refusal::MoreRecordsThanRoom);
        }
        if kind == 1 && detail {
            return Err(Refusal::OneInDetail);
        }
        Ok(())
    }

    // The plane of a colour: groups 0 to 3.
    #[tactic(auto, using(refusals::proofs::Laws::exits_first), unfolding(format::specs::Refusals::plane_refusal))]
    fn check_plane(&self, colour: Colour) -> Result<(), Refusal>
        ensures { code_of result ≡ plane_refusal self.now.stream (colour_of colour) }
    {
        self.check_entry(Entry {
            group: Group::Base,
            colour,
        })?;
        self.check_entry(Entry {
            group: Group::First,
            colour,
        })?;
        if self.stream.coded_height() < 16 {
            return Err(Refusal::HeightBelow16);
        }
        self.check_entry(Entry {
            group: Group::Second,
            colour,
        })?;
        self.check_entry(Entry {
            group: Group::Third,
            colour,
        })
    }

    // Green, red, blue; then group 4.
    #[tactic(auto, using(refusals::proofs::Laws::exits_first), unfolding(format::specs::Refusals::packets_refusal))]
    fn check_packets(&self) -> Result<(), Refusal>
        ensures { code_of result ≡ packets_refusal self.now.stream }
    {
        self.check_plane(Colour::Green)?;
        self.check_plane(Colour::Red)?;
        self.check_plane(Colour::Blue)?;
        self.check_entry(Entry {
            group: Group::Final,
            colour: Colour::Green,
        })
    }
}

// A stream that no check of its own bytes refuses.
#[derive(Drop)]
pub struct Checked<'a> {
    pub stream: Stream<'a>,
    pub ghost passed: { stream_refusal stream ≡ 0 },
}

// A copy, never refused.
impl<'a> Clone for Checked<'a> {
    ghost is_clone = { λ s r. r ≡ s };

    ghost is_infallible = { λ _. ⊤ };

    #[tactic(auto, using(crate::proofs::CopyLaws::checked_same))]
    fn clone(&self) -> Result<Self, AllocError> {
        let stream = self.stream.clone()?;
        Ok(Self { stream })
    }
}

impl<'a> Checked<'a> {
    // Packet p, of 13 in the order of document 01's checks.
    #[tactic(auto, using(crate::proofs::TilePackets::there, crate::proofs::TilePackets::long_enough))]
    pub fn packet_in(&self, p: usize) -> Packet<'a>
        requires { p < 13 }
        ensures { result ≡ packet_in self.now.stream p }
    {
        let entry = Entry::of(p);
        let block = Block::of(&self.stream, entry.group.number());
        Packet::new(block.packet(entry.colour.index()))
    }
}

// The checks after the header and the size: directory, then packets.
#[tactic(auto, using(refusals::proofs::Laws::exits_first, crate::proofs::AnswerLaws::rest_passed))]
fn check_rest<'a>(stream: Stream<'a>) -> Result<Checked<'a>, Refusal>
    requires { valid_header stream ≡ true }
    ensures refusal { code_of result ≡ (directory_refusal stream.entry ▷ packets_refusal stream.entry) }
    ensures same { IfOk result (λ c. c.stream ≡ stream.entry) }
{
    let listed = directory::parse_directory(stream)?;
    listed.check_packets()?;
    Ok(Checked {
        stream: listed.stream,
    })
}

// The checks of a stream's own bytes, whatever its size and whatever is lent.
#[tactic(auto, unfolding(format::specs::Used::stream_refusal))]
pub fn check_stream(stream: &[u8]) -> Result<Checked<'_>, Refusal>
    ensures refusal { code_of result ≡ stream_refusal stream.now }
    ensures same { IfOk result (λ c. c.stream ≡ stream.now) }
{
    parse_stream_header(stream)?;
    check_rest(Stream::new(stream))
}

// What to lend for a coded size: the check of the size, and the lengths that follow.
#[tactic(auto, unfolding(format::specs::Refusals::large_refusal))]
pub fn lengths_by(size: Size) -> Result<Lengths, Refusal>
    ensures { told result ≡ lengths_by (large_refusal size.width size.height) size.width size.height }
{
    let green = size.green_size();
    if MAX_PLANE_SAMPLES < green {
        return Err(Refusal::PlaneTooLarge);
    }
    let colour = size.colour_size();
    Ok(Lengths {
        size,
        rows: size.plane_rows(),
        green,
        red: colour,
        blue: colour,
        work: size.work_length(),
    })
}

// The same for a stream, whose header is checked first.
#[tactic(auto, unfolding(format::specs::Tile::lengths_of))]
pub fn lengths_of(stream: &[u8]) -> Result<Lengths, Refusal>
    ensures { told result ≡ lengths_of stream.now }
{
    lengths_by(parse_stream_header(stream)?)
}

// The lengths of the lent slices, against those needed. Here and in `check` they go side by side, as C lends the slices: a struct of them would be made
// for one call and taken apart at once.
#[tactic(auto, unfolding(crate::specs::Answers::short_of))]
pub fn check_lent(
    need: Lengths,
    green: usize,
    red: usize,
    blue: usize,
    work: usize,
) -> Result<(), Refusal>
    ensures { code_of result ≡ short_of need green red blue work }
{
    if green < need.green || red < need.red || blue < need.blue || work < need.work {
        return Err(Refusal::SliceTooShort);
    }
    Ok(())
}

// A stream that is accepted, and what it needs.
#[derive(Drop)]
pub struct Accepted<'a> {
    pub checked: Checked<'a>,
    pub need: Lengths,
    pub ghost needed: { told (Ok need) ≡ lengths_of checked.stream },
}

// A copy, never refused.
impl<'a> Clone for Accepted<'a> {
    ghost is_clone = { λ s r. r ≡ s };

    ghost is_infallible = { λ _. ⊤ };

    #[tactic(auto, using(crate::proofs::CopyLaws::accepted_same))]
    fn clone(&self) -> Result<Self, AllocError> {
        let checked = self.checked.clone()?;
        let need = self.need;
        Ok(Self { checked, need })
    }
}

// All checks of a stream, in the document's order, with the lengths of the lent slices.
pub fn check(
    stream: &[u8],
    green: usize,
    red: usize,
    blue: usize,
    work: usize,
) -> Result<Accepted<'_>, Refusal>
    ensures refusal { code_of result ≡ refusal stream.now green red blue work }
    ensures same { IfOk result (λ a. a.checked.stream ≡ stream.now) }
{
    let need = lengths_of(stream)?;
    check_lent(need, green, red, blue, work)?;
    let checked = check_rest(Stream::new(stream))?;
    Ok(Accepted { checked, need })
}
