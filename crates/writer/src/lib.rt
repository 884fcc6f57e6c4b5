// A stream from planes: every refusal of the call first, then the coefficients, their lengths, the stream. Document 02, Job 2.
#![tactic(auto)]

ghost use Rattle.std.specs.Prelude.{◌≡◌, length, IfOk};
ghost use Rattle.refusals.specs.Number.{code_of};
ghost use Rattle.format.specs.Coefficients.{Coefs, zeros};
ghost use Rattle.format.specs.Sizes.{work_length};
ghost use Rattle.format.specs.Recovery as format;
ghost use Rattle.format.specs.Tile.{slice};
ghost use Rattle.format.specs.Writing.{side_refusal, call_refusal, planes_refusal, stream_length};
ghost use Rattle.assembly.specs.Tile.{Holds};
ghost use Rattle.writer.specs.Write.{Fit, Filled, coefs_refusal, told, answer_by, stream_by, WriteOutcome};

use assembly::Work;
use fields::Size;
use packets::{check_lent, lengths_by};
use passes::Plan;
use recovery::recover;
use refusals::Refusal;

// A coded size that a valid header holds: a width of 16 bits, not 0, a multiple of 16; a height twice a number of 16 bits that is not 0.
#[tactic(auto, unfolding(format::specs::Writing::side_refusal))]
fn check_sides(w: usize, h: usize) -> Result<Size, Refusal>
    ensures refusal { code_of result ≡ side_refusal w h }
    ensures size { IfOk result (λ s. (s.width ≡ w) × (s.height ≡ h)) }
{
    if w == 0 || w % 16 != 0 || 65535 < w || h == 0 || h % 2 != 0 || 131070 < h {
        return Err(Refusal::InvalidHeader);
    }
    Ok(Size {
        width: w,
        height: h,
    })
}

// The refusals of a call before anything is changed, by the coded size and the lengths of the lent planes and work slice.
#[tactic(auto, using(refusals::proofs::Laws::exits_first, packets::proofs::LengthLaws::size_refused, packets::proofs::LengthLaws::size_accepted, packets::proofs::LengthLaws::short_is), unfolding(format::specs::Writing::call_refusal))]
fn check_call(
    w: usize,
    h: usize,
    green: usize,
    red: usize,
    blue: usize,
    work: usize,
) -> Result<Size, Refusal>
    ensures refusal { code_of result ≡ call_refusal w h green red blue work }
    ensures size { IfOk result (λ s. (s.width ≡ w) × (s.height ≡ h)) }
{
    let size = check_sides(w, h)?;
    let need = lengths_by(size)?;
    check_lent(need, green, red, blue, work)?;
    if 32767 < h {
        return Err(Refusal::HeightAboveLimit);
    }
    if h < 16 {
        return Err(Refusal::HeightBelow16);
    }
    Ok(size)
}

// The stream of the coefficients that stand in the work slice: their lengths first, then the stream's room. Its length.
fn write_coefficients(work: &[i32], size: Size, stream: &mut [u8]) -> Result<usize, Refusal>
    requires { Filled size.width size.height work.now }
    ensures value { (v : Coefs) → Holds size.width size.height v work.now → told result ≡ answer_by (coefs_refusal size.width size.height v (length stream.old)) (stream_length size.width size.height v) }
    ensures stream_after { (v : Coefs) → Holds size.width size.height v work.now → stream.new ≡ stream_by (coefs_refusal size.width size.height v (length stream.old)) size.width size.height v stream.old }
{
    let tile = Work {
        numbers: work,
        w: size.width,
        h: size.height,
    };
    let sizes = tile.measure()?;
    let n = sizes.length as usize;
    if stream.len() < n {
        return Err(Refusal::SliceTooShort);
    }
    tile.put_stream(sizes, &mut stream[..n]);
    Ok(n)
}

// The stream of planes of a coded size, by their coefficients in a work slice of its own size. Here and below the planes go side by side, as C lends them:
// a struct of three slices would put a longer name before each length and each plane in the clauses, and save none. The plan is made here as in `tile`,
// since the crate of plans knows no `Size`.
fn recover_and_write(
    full: &[i32],
    red: &[i32],
    blue: &[i32],
    size: Size,
    work: &mut [i32],
    stream: &mut [u8],
) -> Result<usize, Refusal>
    requires { Fit size.width size.height (length full.now) (length red.now) (length blue.now) × (length work.old ≡ work_length size.width size.height) }
    ensures value { told result ≡ answer_by (planes_refusal size.width size.height (slice full.now red.now blue.now) (length stream.old)) (stream_length size.width size.height (format.recover size.width size.height (slice full.now red.now blue.now))) }
    ensures same_length { length work.new ≡ length work.old }
    ensures stream_after { stream.new ≡ stream_by (planes_refusal size.width size.height (slice full.now red.now blue.now) (length stream.old)) size.width size.height (format.recover size.width size.height (slice full.now red.now blue.now)) stream.old }
{
    let n = size.stripes();
    let z = Plan {
        w: size.width,
        n,
        guarded: size.guarded(),
        slots: n + 1,
    };
    recover(work, z, full, red, blue)?;
    write_coefficients(work, size, stream)
}

// The same, with the work slice zero then.
fn write_planes(
    full: &[i32],
    red: &[i32],
    blue: &[i32],
    size: Size,
    work: &mut [i32],
    stream: &mut [u8],
) -> Result<usize, Refusal>
    requires { Fit size.width size.height (length full.now) (length red.now) (length blue.now) × (length work.old ≡ work_length size.width size.height) }
    ensures value { told result ≡ answer_by (planes_refusal size.width size.height (slice full.now red.now blue.now) (length stream.old)) (stream_length size.width size.height (format.recover size.width size.height (slice full.now red.now blue.now))) }
    ensures work_after { work.new ≡ zeros (work_length size.width size.height) }
    ensures stream_after { stream.new ≡ stream_by (planes_refusal size.width size.height (slice full.now red.now blue.now) (length stream.old)) size.width size.height (format.recover size.width size.height (slice full.now red.now blue.now)) stream.old }
{
    let written = recover_and_write(full, red, blue, size, work, stream);
    work.fill(0);
    written
}

// Writes the stream of three planes of coded size `width` by `height`, with the work slice lent too: a refusal, or the stream's length.
pub fn write_stream(
    green: &[i32],
    red: &[i32],
    blue: &[i32],
    width: usize,
    height: usize,
    work: &mut [i32],
    stream: &mut [u8],
) -> Result<usize, Refusal>
    ensures { WriteOutcome width height (slice green.now red.now blue.now) work.old stream.old (told result) work.new stream.new }
{
    let size = check_call(
        width,
        height,
        green.len(),
        red.len(),
        blue.len(),
        work.len(),
    )?;
    let n = size.work_length();
    write_planes(green, red, blue, size, &mut work[..n], stream)
}
