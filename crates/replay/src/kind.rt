// The kinds of cases, and what a kind does with its cases.
ghost use Rattle.std.specs.Prelude.{◌≤◌, Some};
ghost use Rattle.replay.specs.Kinds.{KindOf, name_of};

use std::fmt;

// The words that lead a case, the first the length of its input; those that its kind does not have are 0. (Here and below, what a case needs stands in
// arrays: no case goes uncounted for want of memory.)
pub type Words = [u32; 11];

// The kinds, in the order of their numbers.
#[derive(Clone, Copy)]
pub enum Kind {
    Strips = 1,
    Refusals,
    Records,
    Tiles,
    Listings,
    Written,
    Inspected,
}

// A number that no kind has.
#[derive(Clone, Copy)]
pub struct NoKind;

impl Kind {
    pub const ALL: [Kind; 7] = [
        Kind::Strips,
        Kind::Refusals,
        Kind::Records,
        Kind::Tiles,
        Kind::Listings,
        Kind::Written,
        Kind::Inspected,
    ];
}

impl TryFrom<u32> for Kind {
    type Error = NoKind;

    ghost try_from_gives = { KindOf };

    fn try_from(number: u32) -> Result<Kind, NoKind> {
        match number {
            1 => Ok(Kind::Strips),
            2 => Ok(Kind::Refusals),
            3 => Ok(Kind::Records),
            4 => Ok(Kind::Tiles),
            5 => Ok(Kind::Listings),
            6 => Ok(Kind::Written),
            7 => Ok(Kind::Inspected),
            _ => Err(NoKind),
        }
    }
}

impl fmt::Display for Kind {
    ghost output = { λ k. Some (name_of k) };

    fn fmt<W: fmt::Write>(&self, f: &mut fmt::Formatter<W>) -> fmt::Result {
        f.write_str(match self {
            Kind::Strips => "strips",
            Kind::Refusals => "refusals",
            Kind::Records => "records",
            Kind::Tiles => "tiles",
            Kind::Listings => "listings",
            Kind::Written => "written",
            Kind::Inspected => "inspected",
        })
    }
}

// A case of a kind.
pub trait Case: Copy {
    // How many words lead it.
    fn words() -> usize
        ensures { result ≤ 11 };

    // The case that these words lead.
    fn new(words: &Words) -> Self;

    // The bytes of its answer.
    fn answer_length(&self) -> usize;

    // Whether the input comes out as the answer says.
    fn is_right(&self, input: &[u8], answer: &[u8]) -> bool;
}
