// The colours of a tile's planes: document 01, 'Planes'.
ghost use Rattle.std.specs.Prelude.{◌≡◌, ◌<◌};
ghost use Rattle.format.specs.Sizes.{index, indexed};
ghost use Rattle.fields.specs.Kinds.{colour_of};

// The colours in their order. `index` and `indexed` are no `From`, which would not say that the number is a colour's.
#[derive(Clone, Copy, Debug, PartialEq, Eq)]
pub enum Colour {
    Green,
    Red,
    Blue,
}

impl Colour {
    // The colour of an index: from 2 on the last.
    pub fn indexed(index: usize) -> Self
        ensures { colour_of result ≡ indexed index }
    {
        match index {
            0 => Colour::Green,
            1 => Colour::Red,
            _ => Colour::Blue,
        }
    }

    // Its index, by which a directory has it.
    pub fn index(self) -> usize
        ensures { (result ≡ index (colour_of self)) × (result < 3) }
    {
        self as usize
    }
}
