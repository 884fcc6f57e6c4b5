// What the kinds of cases share: words and numbers of the input, and the comparison with lists of numbers.
ghost use Rattle.std.specs.Prelude.{◌≡◌, ◌+◌, ◌*◌, ◌<◌, ◌≤◌, ◌%◌, length, true, IfSome};
ghost use Rattle.std.specs.Io.KnownBytes.{Consumes};
ghost use Rattle.lists.specs.Lists.{tab};
ghost use Rattle.format.specs.Bits.{little32};
ghost use Rattle.replay.specs.Numbers.{Tells, word_at, always};
ghost use Rattle.replay.specs.Heads.{Takes, head_words};

use crate::kind::Words;
use std::io::Read;
use words::le32;

// What the lent slices hold before a call, and where nothing is to be written also after it.
pub const PATTERN: i32 = 77;

// The little-endian word at a byte.
fn word(b: &[u8], at: usize) -> u32
    requires { at + 4 ≤ length b.now }
    ensures { result ≡ little32 b.now at }
{
    le32(b, at) as u32
}

// The words of a head.
fn words_of(head: &[u8; 44]) -> Words
    ensures { result ≡ head_words head.now }
{
    let mut words = [0u32; 11];
    for (i, w) in words.iter_mut().enumerate() {
        *w = word(head, 4 * i);
    }
    words
}

// A size of a case, cut to a byte.
pub fn small(word: u32) -> u8
    ensures { result ≡ word % 256 }
{
    (word % 256) as u8
}

// Word i of b, in two's complement.
fn number(b: &[u8], i: usize) -> i32
    requires { 4 * i + 4 ≤ length b.now }
    ensures { result ≡ word_at b.now i }
{
    wrap32::cut32(le32(b, 4 * i) as i64)
}

// Sets the numbers to the words of b, in two's complement.
pub fn set_words(numbers: &mut [i32], b: &[u8])
    requires { 4 * length numbers.old ≤ length b.now }
    ensures { numbers.new ≡ tab (length numbers.old) (word_at b.now) }
{
    for (i, z) in numbers.iter_mut().enumerate() {
        *z = number(b, i);
    }
}

// Whether the numbers are the words of b, in two's complement: by index, as word i goes with number i.
pub fn same(numbers: &[i32], b: &[u8]) -> bool
    requires { 4 * length numbers.now ≤ length b.now }
    ensures { Tells result numbers.now (word_at b.now) }
{
    (0..numbers.len()).all(|i| numbers[i] == number(b, i))
}

// Whether every number is v.
pub fn all(numbers: &[i32], v: i32) -> bool
    ensures { Tells result numbers.now (always v) }
{
    numbers.iter().all(|n| *n == v)
}

// Whether a slice starts with the words of b, and holds the pattern after them.
pub fn right_numbers(numbers: &[i32], b: &[u8]) -> bool {
    let n = b.len() / 4;
    n <= numbers.len() && same(&numbers[..n], b) && all(&numbers[n..], PATTERN)
}

// Whether work starts with n zeros, and holds the pattern after them.
pub fn right_work(work: &[i32], n: usize) -> bool {
    n <= work.len() && all(&work[..n], 0) && all(&work[n..], PATTERN)
}

// Reads as many bytes as b has, however the input is cut into reads; false where it ends before, or a read fails.
pub fn read<R: Read>(source: &mut R, b: &mut [u8]) -> bool
    ensures { result ≡ true → Consumes (R.remaining source.old) (R.remaining source.new) b.new }
{
    source.read_exact(b).is_ok()
}

// The next little-endian word of the input; none where it ends before.
pub fn next_word<R: Read>(source: &mut R) -> Option<u32>
    ensures { IfSome result (λ w. Takes (R.remaining source.old) (R.remaining source.new) 4 (λ b. w ≡ little32 b 0)) }
{
    let mut bytes = [0u8; 4];
    if !read(source, &mut bytes) {
        return None;
    }
    Some(word(&bytes, 0))
}

// Reads the words that lead a case, so many, by one read; none where the input ends before.
pub fn read_words<R: Read>(source: &mut R, n: usize) -> Option<Words>
    requires { n ≤ 11 }
    ensures { IfSome result (λ words. Takes (R.remaining source.old) (R.remaining source.new) (4 * n) (λ b. words ≡ head_words b)) }
{
    let mut head = [0u8; 44];
    if !read(source, &mut head[..4 * n]) {
        return None;
    }
    Some(words_of(&head))
}
