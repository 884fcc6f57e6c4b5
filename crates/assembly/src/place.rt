// The packets of a tile in the work slice: their shapes, and where they stand.
ghost use Rattle.std.specs.Prelude.{◌≡◌, ◌+◌, ◌*◌, ◌^◌, ◌<◌, ◌≤◌};
ghost use Rattle.fields.specs.Kinds.{group_of, colour_of};
ghost use Rattle.assembly.specs.Tile.{unit_of, packet_at, shape_of, group_in, colour_in, shape_in};

use crate::packet::Shape;
use fields::{Colour, Group, Size};

// The shape of the packets of a group: components, rows and columns of their records.
pub fn shape(group: Group, w: usize, records: usize) -> Shape
    ensures { result ≡ shape_of w records (group_of group) }
{
    let c = group.components();
    Shape {
        components: c as u64,
        rows: c * group.multiplier(),
        cols: group.columns(w),
        records,
    }
}

// Where the packet of a group and a colour stands.
pub fn packet_at(group: Group, colour: Colour, unit: usize) -> usize
    requires { unit < 2 ^ 25 }
    ensures { (result ≡ packet_at unit (group_of group) (colour_of colour)) × (result < 2 ^ 33) }
{
    let start = colour.index() * (64 * unit);
    match group {
        Group::Base => start,
        Group::First => start + unit,
        Group::Second => start + 4 * unit,
        Group::Third => start + 16 * unit,
        Group::Final => 192 * unit,
    }
}

// A packet in the work slice: its shape, its first number, and where it ends.
#[derive(Clone, Copy)]
pub struct Located {
    pub shape: Shape,
    pub start: usize,
    pub end: usize,
}

// Packet p of a tile of a coded size.
pub fn locate(size: Size, p: usize) -> Located
    ensures { (result.shape ≡ shape_in size.width size.height p) × (result.start ≡ packet_at (unit_of size.width size.height) (group_in p) (colour_in p)) × (result.end ≡ result.start + result.shape.records * (result.shape.rows * result.shape.cols)) }
{
    let records = size.stripes() + 1;
    let group = Group::numbered(p / 3);
    let z = shape(group, size.width, records);
    let start = packet_at(group, Colour::indexed(p % 3), records * (size.width / 16));
    Located {
        shape: z,
        start,
        end: start + z.records * (z.rows * z.cols),
    }
}
