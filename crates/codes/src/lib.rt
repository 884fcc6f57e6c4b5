// What is written, bit by bit: codes, a bit writer over a slice, and a count of bits. Document 02, Job 2.
#![tactic(auto)]

ghost use Rattle.std.specs.Prelude.{◌≡◌, List, ◌++◌, ℕ, ◌+◌, ◌-◌, ◌*◌, ◌%◌, ◌^◌, ◌<◌, ◌≤◌, length};
ghost use Rattle.format.specs.Writing.{number_bits, unary_bits, zero_bits, packed};
ghost use Rattle.codes.specs.Wrote.{Wrote, Room, Appends, Counts, CountRoom, Fresh};

// Bits to be written: the last n of v.
#[derive(Clone, Copy)]
pub struct Code {
    pub n: u64,
    pub v: u64,
    ghost short: { n ≤ 56 },
    ghost fits: { v < 2 ^ n },
}

impl Code {
    // v in n bits.
    pub fn new(n: u64, v: u64) -> Code
        requires { (n ≤ 56) × (v < 2 ^ n) }
        ensures { (result.n ≡ n) × (result.v ≡ v) }
    {
        Code { n, v }
    }

    // n zeros.
    pub fn zeros(n: u64) -> Code
        requires { n ≤ 56 }
        ensures { (result.n ≡ n) × (number_bits result.n result.v ≡ zero_bits n) }
    {
        Code { n, v: 0 }
    }

    // k - 1 zeros and a one.
    pub fn unary(k: u64) -> Code
        requires { (1 ≤ k) × (k ≤ 56) }
        ensures { (result.n ≡ k) × (number_bits result.n result.v ≡ unary_bits k) }
    {
        Code { n: k, v: 1 }
    }

    // One code behind another.
    pub fn then(self, b: Code) -> Code
        requires { self.n + b.n ≤ 56 }
        ensures { (result.n ≡ self.n + b.n) × (number_bits result.n result.v ≡ number_bits self.n self.v ++ number_bits b.n b.v) }
    {
        Code {
            n: self.n + b.n,
            v: (self.v << b.n) + b.v,
        }
    }
}

// The slice, the bytes that are out, the bits that are not, the last the least significant, and how many those are.
#[derive(Drop)]
pub struct BitWriter<'a> {
    pub out: &'a mut [u8],
    pub place: usize,
    pub cache: u64,
    pub held: u64,
}

impl<'a> BitWriter<'a> {
    // A writer at the start of a slice.
    pub fn new(out: &'a mut [u8]) -> BitWriter<'a>
        ensures same { result.out.ghost_name ≡ out.entry.ghost_name }
        ensures fresh { Fresh result out.old }
    {
        BitWriter {
            out,
            place: 0,
            cache: 0,
            held: 0,
        }
    }

    // Writes a code. A `while`: it counts the bits that are held, and no index.
    pub fn put(&mut self, c: Code)
        requires { Room self.old c.n }
        ensures { Appends self.old self.new (number_bits c.n c.v) }
    {
        self.cache = (self.cache << c.n) + c.v;
        self.held += c.n;
        while 8 <= self.held {
            self.out_byte();
        }
    }

    // The first eight bits that are held go out.
    fn out_byte(&mut self)
        requires { (8 ≤ self.old.held) × (self.old.held < 64) × (self.old.cache < 2 ^ self.old.held) × (self.old.place < length self.old.out.now) }
        ensures same { self.new.out.ghost_name ≡ self.old.out.ghost_name }
        ensures place { (self.new.place ≡ self.old.place + 1) × (self.new.held + 8 ≡ self.old.held) × (self.new.cache < 2 ^ self.new.held) × (length self.new.out.now ≡ length self.old.out.now) }
        ensures wrote { (old b : List ℕ) → Wrote old self.old.out.now self.old.place self.old.cache self.old.held b → Wrote old self.new.out.now self.new.place self.new.cache self.new.held b }
    {
        self.held -= 8;
        let at = self.place;
        self.out[at] = (self.cache >> self.held) as u8;
        self.cache %= 1 << self.held;
        self.place = at + 1;
    }

    // Zeros up to a whole byte.
    pub fn finish(&mut self)
        requires { Room self.old 0 }
        ensures appends { Appends self.old self.new (zero_bits ((8 - self.old.held) % 8)) }
        ensures none_held { self.new.held ≡ 0 }
    {
        self.put(Code::zeros((8 - self.held) % 8));
    }

    // k bytes of zeros, up to seven in a code. (One in a code, k = 17 takes the compiler minutes.)
    pub fn put_zeros(&mut self, k: usize)
        requires { Room self.old (8 * k) }
        ensures { Appends self.old self.new (zero_bits (8 * k)) }
    {
        for _ in 0..k / 7 {
            self.put(Code::zeros(56));
        }
        self.put(Code::zeros(8 * (k % 7) as u64));
    }

    // Zeros up to the end.
    pub fn fill_up(&mut self)
        requires { Room self.old 0 }
        ensures same { self.new.out.ghost_name ≡ self.old.out.ghost_name }
        ensures filled { (old x : List ℕ) → Wrote old self.old.out.now self.old.place self.old.cache self.old.held x → self.new.out.now ≡ packed (x ++ zero_bits (8 * length self.old.out.now - length x)) }
    {
        self.finish();
        let place = self.place;
        self.out[place..].fill(0);
    }
}

// A count of bits.
#[derive(Clone, Copy)]
pub struct Count {
    pub bits: u64,
}

impl Count {
    // Counts those of a code.
    pub fn put(&mut self, c: Code)
        requires { CountRoom self.old c.n }
        ensures { Counts self.old self.new (number_bits c.n c.v) }
    {
        self.bits += c.n;
    }
}
