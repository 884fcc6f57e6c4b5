// Replays fixed cases from standard input, each held against the answer that stands beside it, and prints for each kind how many came
// out as they should. The input is what `compare vectors` writes: a count of cases, then the cases, each led by the number of its kind.
#![tactic(auto)]

mod inspected;
mod kind;
mod listings;
mod packet_records;
mod refused;
mod strips;
mod tiles;
mod vectors;
mod written;

ghost use Rattle.std.specs.Prelude.{◌≡◌, ◌<◌, length};
ghost use Rattle.replay.specs.Tally.{total, counts_of};

use kind::{Case, Kind};
use std::fmt::Display;
use std::io;
use std::io::Read;
use vectors::{next_word, read, read_words};

// The kinds, and the cases of none.
const PLACES: usize = 8;

// How many cases came out as they should, and how many did not.
#[derive(Clone, Copy, Default)]
struct Count {
    right: usize,
    wrong: usize,
}

// Whether the next case is whole and comes out as it should. There is room for an input of one byte more than `tiles` takes, in arrays, so that
// no case goes uncounted for want of memory.
fn replayed<C: Case, R: Read>(source: &mut R) -> bool {
    let mut input = [0u8; 65537];
    let mut answer = [0u8; 8192];
    let Some(words) = read_words(source, C::words()) else {
        return false;
    };
    let case = C::new(&words);
    let n = words[0] as usize;
    let end = case.answer_length();
    n <= input.len()
        && end <= answer.len()
        && read(source, &mut input[..n])
        && read(source, &mut answer[..end])
        && case.is_right(&input[..n], &answer[..end])
}

// The same for a kind; a case of none never does.
fn right_case<R: Read>(source: &mut R, kind: Option<Kind>) -> bool {
    match kind {
        Some(Kind::Strips) => replayed::<strips::Strip, R>(source),
        Some(Kind::Refusals) => replayed::<refused::Refused, R>(source),
        Some(Kind::Records) => replayed::<packet_records::Packet, R>(source),
        Some(Kind::Tiles) => replayed::<tiles::Tile, R>(source),
        Some(Kind::Listings) => replayed::<listings::Listing, R>(source),
        Some(Kind::Written) => replayed::<written::Planes, R>(source),
        Some(Kind::Inspected) => replayed::<inspected::Record, R>(source),
        None => false,
    }
}

// The kind of the next case; none where the input ends, and for a number that no kind has.
fn next_kind<R: Read>(source: &mut R) -> Option<Kind> {
    Kind::try_from(next_word(source)?).ok()
}

// A kind's place in the tally: its number, and 0 for none.
fn place(kind: Option<Kind>) -> usize
    ensures { result < 8 }
{
    match kind {
        Some(kind) => kind as usize,
        None => 0,
    }
}

// The tally of the cases that follow: each counts once.
fn run<R: Read>(source: &mut R, cases: u32) -> [Count; PLACES]
    ensures { (length result ≡ 8) × (total (counts_of result) ≡ cases) }
{
    let mut tally = [Count::default(); PLACES];
    for _ in 0..cases {
        let kind = next_kind(source);
        let right = right_case(source, kind);
        let count = &mut tally[place(kind)];
        if right {
            count.right += 1;
        } else {
            count.wrong += 1;
        }
    }
    tally
}

// Prints how many cases came out as they should, and how many did not.
fn report(rt: &impl Print, name: impl Display + Drop, count: Count) -> io::Result<()> {
    let Count { right, wrong } = count;
    println!(rt; "{name}: {right} as they should be, {wrong} not")
}

// As many cases as the first word says.
fn main(rt: HostRuntime) -> io::Result<()> {
    let mut source = rt.reader();
    let cases = next_word(&mut source).unwrap_or(0);
    let tally = run(&mut source, cases);
    for kind in &Kind::ALL {
        report(&rt, *kind, tally[place(Some(*kind))])?;
    }
    report(&rt, "of no kind", tally[place(None)])
}
