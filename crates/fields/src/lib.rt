// The fields of a stream's header and of a packet's, and the sizes that follow from them: document 01, 'Strip', 'Directory and packets' and
// 'Planes'. Each stands here alone, under the document's name.
#![tactic(auto)]

ghost use Rattle.std.specs.Prelude.{◌≡◌, ◌^◌, ◌<◌, ◌≤◌, length, ⊤};
ghost use Rattle.format.specs.Bits.{bits_at};
ghost use Rattle.format.specs.Strip.{width, half_height, coded_height, group_size};
ghost use Rattle.format.specs.Packets.{control, extra, tag, zero4, kind, zero6, blocks, marker, zero8, padding, size_of, record_bit, record_length, payload_at};

mod colour;
mod group;
mod size;

pub use colour::Colour;
pub use group::Group;
pub use size::{Size, guarded, rows_of};
use std::alloc::AllocError;
use std::marker::{Model, PhantomData};
use words::field;

// Bytes, eight at least, of a stream or of a packet: their value is the list of them. Past the last a field's bits are 0.
#[derive(Drop)]
pub struct Bytes<'a, K> {
    slice: &'a [u8],
    kind: PhantomData<K>,
}

impl<'a, K> Model for Bytes<'a, K> {
    ghost use Rattle.std.specs.Prelude.{◌≤◌, List, ℕ, length};

    ghost Value = { List ℕ };

    ghost view = { λ p. p.slice.now };

    ghost invariant = { λ p. 8 ≤ length p.slice.now };
}

// A copy, never refused. A derive would say so of the fields, which other crates don't see.
impl<'a, K> Clone for Bytes<'a, K> {
    ghost is_clone = { λ s r. r ≡ s };

    ghost is_infallible = { λ _. ⊤ };

    fn clone(&self) -> Result<Self, AllocError> {
        Ok(Self::new(self.bytes()))
    }
}

impl<'a, K> Bytes<'a, K> {
    // The stream or packet of some bytes.
    pub fn new(bytes: &'a [u8]) -> Self
        requires { 8 ≤ length bytes.now }
        ensures { result ≡ bytes.now }
    {
        Self {
            slice: bytes,
            kind: PhantomData,
        }
    }

    // The bytes.
    pub fn bytes(&self) -> &'a [u8]
        ensures { (result.now ≡ self.now) × (8 ≤ length self.now) }
    {
        self.slice
    }

    // How many there are.
    pub fn len(&self) -> usize
        ensures { result ≡ length self.now }
    {
        self.bytes().len()
    }

    // The number that n bits from a place on make.
    pub fn bits(&self, at: usize, n: u64) -> usize
        requires { n ≤ 57 }
        ensures { (result ≡ bits_at self.now at n) × (result < 2 ^ n) }
    {
        field(self.slice, at, n)
    }
}

// A stream.
pub struct OfStream;

// A packet.
pub struct OfPacket;

pub type Stream<'a> = Bytes<'a, OfStream>;

pub type Packet<'a> = Bytes<'a, OfPacket>;

impl<'a> Bytes<'a, OfStream> {
    // The width w of a stream.
    pub fn width(&self) -> usize
        ensures { (result ≡ width self.now) × (result < 2 ^ 16) }
    {
        self.bits(64, 16)
    }

    // Half the height.
    pub fn half_height(&self) -> usize
        ensures { (result ≡ half_height self.now) × (result < 2 ^ 16) }
    {
        self.bits(80, 16)
    }

    // The coded height H.
    pub fn coded_height(&self) -> usize
        ensures { (result ≡ coded_height self.now) × (result < 2 ^ 17) }
    {
        self.half_height() * 2
    }

    // The coded size.
    pub fn size(&self) -> Size
        ensures { (result.width ≡ width self.now) × (result.height ≡ coded_height self.now) }
    {
        Size {
            width: self.width(),
            height: self.coded_height(),
        }
    }

    // The size of a group in bytes.
    #[tactic(auto, unfolding(format::specs::Strip::group_size))]
    pub fn group_size(&self, group: usize) -> usize
        requires { group < 5 }
        ensures { (result ≡ group_size self.now group) × (result < 2 ^ 28) }
    {
        self.bits(8 * (16 + 3 * group), 24) * 16
    }
}

impl<'a> Bytes<'a, OfPacket> {
    // The units of 16 bytes before the payloads, less one.
    fn control(&self) -> usize
        ensures { (result ≡ control self.now) × (result < 2 ^ 16) }
    {
        self.bits(0, 16)
    }

    // The units of the payloads.
    fn extra(&self) -> usize
        ensures { (result ≡ extra self.now) × (result < 2 ^ 24) }
    {
        self.bits(16, 24)
    }

    // The tag: 4.
    pub fn tag(&self) -> usize
        ensures { (result ≡ tag self.now) × (result < 2 ^ 4) }
    {
        self.bits(40, 4)
    }

    // Four zeros.
    pub fn zero4(&self) -> usize
        ensures { (result ≡ zero4 self.now) × (result < 2 ^ 4) }
    {
        self.bits(44, 4)
    }

    // The kind, 1 or 3: how many components a record has, a number since it is reckoned with.
    pub fn kind(&self) -> usize
        ensures { (result ≡ kind self.now) × (result < 2 ^ 2) }
    {
        self.bits(48, 2)
    }

    // Six zeros.
    pub fn zero6(&self) -> usize
        ensures { (result ≡ zero6 self.now) × (result < 2 ^ 6) }
    {
        self.bits(50, 6)
    }

    // How many records there are.
    pub fn blocks(&self) -> usize
        ensures { (result ≡ blocks self.now) × (result < 2 ^ 16) }
    {
        self.bits(56, 16)
    }

    // The marker: 16.
    pub fn marker(&self) -> usize
        ensures { (result ≡ marker self.now) × (result < 2 ^ 8) }
    {
        self.bits(72, 8)
    }

    // Eight zeros.
    pub fn zero8(&self) -> usize
        ensures { (result ≡ zero8 self.now) × (result < 2 ^ 8) }
    {
        self.bits(80, 8)
    }

    // Forty zeros, to the end of the header.
    pub fn padding(&self) -> usize
        ensures { (result ≡ padding self.now) × (result < 2 ^ 40) }
    {
        self.bits(88, 40)
    }

    // The size of a packet in bytes, by its header.
    #[tactic(auto, unfolding(format::specs::Packets::size_of))]
    pub fn size_of(&self) -> usize
        ensures { (result ≡ size_of self.now) × (result < 2 ^ 29) }
    {
        (self.control() + 1 + self.extra()) * 16
    }

    // The bit of a packet where the header of record i starts.
    #[tactic(auto, using(crate::proofs::SizeLaws::header_le), unfolding(format::specs::Packets::record_bit))]
    pub fn record_bit(&self, i: usize) -> usize
        requires { i < 2 ^ 32 }
        ensures { (result ≡ record_bit self.now i) × (result < 2 ^ 40) }
    {
        128 + (16 + 4 * self.kind()) * i
    }

    // The byte length of record i.
    #[tactic(auto, unfolding(format::specs::Packets::record_length))]
    pub fn record_length(&self, i: usize) -> usize
        requires { i < 2 ^ 32 }
        ensures { (result ≡ record_length self.now i) × (result < 2 ^ 16) }
    {
        self.bits(self.record_bit(i), 16)
    }

    // The byte of a packet where the payloads start.
    #[tactic(auto, using(crate::proofs::SizeLaws::first_payload))]
    pub fn first_payload(&self) -> usize
        ensures { (result ≡ payload_at self.now 0) × (result ≤ 2 ^ 20) }
    {
        (self.control() + 1) * 16
    }
}
