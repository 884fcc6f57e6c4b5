// What is known of one record, as C has it.
ghost use Rattle.std.specs.Prelude.{◌≡◌};
ghost use Rattle.format.specs.Used.{nothing};
ghost use Rattle.inspection.specs.Inspect.{told};
ghost use Rattle.arw6.specs.Answers.{record_told};

use inspection::Inspected as Known;
use refusals::Refusal;

// A refusal, or 0 for a record that isn't there, with every other field 0; or the byte length of a record, its allowance, the bits that it took,
// and 1 where it is broken or spent.
#[repr(C)]
#[derive(Clone, Copy, Default)]
pub struct Inspected {
    pub refusal: u64,
    pub bytes: u64,
    pub allowance: u64,
    pub bits: u64,
    pub broken: u64,
    pub spent: u64,
}

impl Inspected {
    // A refusal, or 0 for none, with every other field 0.
    fn nothing(refusal: u64) -> Self
        ensures { record_told result ≡ nothing refusal }
    {
        Inspected {
            refusal,
            ..Inspected::default()
        }
    }
}

impl From<Result<Option<Known>, Refusal>> for Inspected {
    ghost from_gives = { λ answer c. record_told c ≡ told answer };

    fn from(answer: Result<Option<Known>, Refusal>) -> Self {
        match answer {
            Ok(Some(known)) => Inspected {
                refusal: 0,
                bytes: known.bytes,
                allowance: known.allowance,
                bits: known.counts.bits,
                broken: known.counts.broken,
                spent: known.counts.spent,
            },
            Ok(None) => Inspected::nothing(0),
            Err(refusal) => Inspected::nothing(u64::from(refusal)),
        }
    }
}
