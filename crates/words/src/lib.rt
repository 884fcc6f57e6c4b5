// Words and bit fields of a byte slice.
#![tactic(auto)]

ghost use Rattle.std.specs.Prelude.{◌≡◌, ◌+◌, ◌-◌, ◌/◌, ◌^◌, ◌<◌, ◌≤◌, min, length, get_or};
ghost use Rattle.format.specs.Bits.{bits_at, little32};
ghost use Rattle.words.specs.Word.{word_at};

// The eight bytes from i, the first the most significant: one load of the machine.
fn load(s: &[u8], i: usize) -> u64
    requires { i + 8 ≤ length s.now }
    ensures { result ≡ word_at s.now i }
{
    u64::from_be_bytes([
        s[i],
        s[i + 1],
        s[i + 2],
        s[i + 3],
        s[i + 4],
        s[i + 5],
        s[i + 6],
        s[i + 7],
    ])
}

// The bits from a place on, left aligned: the first 57 of the word are the slice's, and 0 past its end.
pub fn window(s: &[u8], place: u64) -> u64
    requires { 8 ≤ length s.now }
    ensures { result / 2 ^ 7 ≡ bits_at s.now place 57 }
{
    let last = s.len() - 8;
    let i = last.min((place / 8) as usize);
    let k = place - 8 * (i as u64);
    if 63 < k {
        return 0;
    }
    load(s, i) << k
}

// The bits from n past a place on, in the same way, where sixteen bytes stand from the place's byte on. Both words are loaded before n is known.
pub fn after(s: &[u8], place: u64, n: u64) -> u64
    requires { (place / 8 + 16 ≤ length s.now) × (n ≤ 56) }
    ensures { result / 2 ^ 7 ≡ bits_at s.now (place + n) 57 }
{
    let i = (place / 8) as usize;
    let k = place % 8 + n;
    (load(s, i) << k) + top(load(s, i + 8), k)
}

// The first n bits of a word.
pub fn top(word: u64, n: u64) -> u64
    requires { n < 64 }
    ensures { result ≡ word / 2 ^ (64 - n) }
{
    (word >> 1) >> (63 - n)
}

// The number that n bits from a place on make; past the end of the slice they are 0.
pub fn field(s: &[u8], at: usize, n: u64) -> usize
    requires { (8 ≤ length s.now) × (n ≤ 57) }
    ensures { (result ≡ bits_at s.now at n) × (result < 2 ^ n) }
{
    top(window(s, at as u64), n) as usize
}

// The little-endian 32-bit word at a byte.
#[tactic(auto, unfolding(format::specs::Bits::little32))]
pub fn le32(s: &[u8], at: usize) -> usize
    requires { at + 4 ≤ length s.now }
    ensures { (result ≡ little32 s.now at) × (result < 2 ^ 32) }
{
    u32::from_le_bytes([s[at], s[at + 1], s[at + 2], s[at + 3]]) as usize
}
