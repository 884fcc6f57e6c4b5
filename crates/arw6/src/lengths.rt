// What to lend for a stream, as C has it.
ghost use Rattle.std.specs.Prelude.{◌≡◌};
ghost use Rattle.packets.specs.Answers.{told};
ghost use Rattle.arw6.specs.Answers.{lengths_told};

use packets::Lengths as Needed;
use refusals::Refusal;

// A refusal with every other field 0, or 0 with the coded size, the rows of the planes and the numbers of each slice.
#[repr(C)]
#[derive(Clone, Copy, Default)]
pub struct Lengths {
    pub refusal: u64,
    pub width: u64,
    pub height: u64,
    pub rows: u64,
    pub green: u64,
    pub red: u64,
    pub blue: u64,
    pub work: u64,
}

impl From<Result<Needed, Refusal>> for Lengths {
    ghost from_gives = { λ answer c. lengths_told c ≡ told answer };

    fn from(answer: Result<Needed, Refusal>) -> Self {
        match answer {
            Ok(need) => Lengths {
                refusal: 0,
                width: need.size.width as u64,
                height: need.size.height as u64,
                rows: need.rows as u64,
                green: need.green as u64,
                red: need.red as u64,
                blue: need.blue as u64,
                work: need.work as u64,
            },
            Err(refusal) => Lengths {
                refusal: u64::from(refusal),
                ..Lengths::default()
            },
        }
    }
}
