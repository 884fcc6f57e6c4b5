// What writing a stream answers, as C has it.
ghost use Rattle.std.specs.Prelude.{◌≡◌};
ghost use Rattle.writer.specs.Write.{told};
ghost use Rattle.arw6.specs.Answers.{written_told};

use refusals::Refusal;

// A refusal with length 0, or 0 with the length of the stream.
#[repr(C)]
#[derive(Clone, Copy)]
pub struct Written {
    pub refusal: u64,
    pub length: u64,
}

impl From<Result<usize, Refusal>> for Written {
    ghost from_gives = { λ answer c. written_told c ≡ told answer };

    fn from(answer: Result<usize, Refusal>) -> Self {
        match answer {
            Ok(length) => Written {
                refusal: 0,
                length: length as u64,
            },
            Err(refusal) => Written {
                refusal: u64::from(refusal),
                length: 0,
            },
        }
    }
}
