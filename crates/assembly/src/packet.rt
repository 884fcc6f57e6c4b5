// A packet, from the list of its numbers: its header, record headers, and records.
ghost use Rattle.std.specs.Prelude.{◌≡◌, ◌+◌, ◌*◌, ◌^◌, ◌<◌, ◌≤◌, length, ltb};
ghost use Rattle.format.specs.Refusals.{on};
ghost use Rattle.format.specs.Writing.{filled, packed};
ghost use Rattle.refusals.specs.Number.{code_of};
ghost use Rattle.codes.specs.Wrote.{Room, Appends};
ghost use Rattle.encoding.specs.Numbers.{Small, line};
ghost use Rattle.encoding.specs.Record.{record_in};
ghost use Rattle.assembly.specs.Packet.{Sound, head_units_of, open_bits, head_of, bits_of, bytes_of, payload_of, units_of, long_refusal, heads_of, records_of, bits_in};

use codes::{BitWriter, Code};
use encoding::Rows;
use refusals::Refusal;

// What a packet's records hold: its components, the rows of a record, their columns; and how many records there are.
#[derive(Clone, Copy)]
pub struct Shape {
    pub components: u64,
    pub rows: usize,
    pub cols: usize,
    pub records: usize,
}

// Whether n is not above the most that passes.
pub fn within(most: u64, n: u64) -> Result<(), Refusal>
    ensures { code_of result ≡ on (ltb most n) 26 }
{
    if most < n {
        return Err(Refusal::TooLong);
    }
    Ok(())
}

// A packet that is to be written: its numbers, record after record, and its shape.
#[derive(Clone, Copy)]
pub struct Packet<'a> {
    pub numbers: &'a [i32],
    pub shape: Shape,
    ghost sound: { Sound shape },
    ghost long: { length numbers.now ≡ shape.records * (shape.rows * shape.cols) },
    ghost small: { Small (line numbers.now) },
}

impl<'a> Packet<'a> {
    // Record k.
    fn record(self, k: usize) -> Rows<'a>
        requires { k < self.shape.records }
        ensures { record_in result.cols result.count result.numbers.now ≡ bits_of self.entry.shape self.entry.numbers.now k }
    {
        let z = self.shape;
        let n = z.rows * z.cols;
        let a = k * n;
        Rows {
            numbers: &self.numbers[a..a + n],
            cols: z.cols,
            count: z.rows,
        }
    }

    // The bytes up to its payload, which starts at the first unit after the record headers.
    fn head_bytes(self) -> usize
        ensures { (result ≡ 16 * head_units_of self.entry.shape) × (result < 2 ^ 16) }
    {
        let z = self.shape;
        (128 + (16 + 4 * (z.components as usize)) * z.records + 127) / 128 * 16
    }

    // Its units, whether it passes or not; and whether its records do.
    pub fn measure(self) -> (u64, Result<(), Refusal>)
        ensures units { (result.0 ≡ units_of self.entry.shape self.entry.numbers.now) × (result.0 < 2 ^ 48) }
        ensures refusal { code_of result.1 ≡ long_refusal self.entry.shape self.entry.numbers.now }
    {
        let mut bytes = 0;
        let mut passes = Ok(());
        for k in 0..self.shape.records {
            let n = self.record(k).bytes();
            passes = passes.and(within(65535, n));
            bytes += n;
        }
        ((self.head_bytes() as u64) / 16 + (bytes + 15) / 16, passes)
    }

    // Writes its header; its payload takes n units.
    fn put_open(self, w: &mut BitWriter, n: u64)
        requires { (n < 2 ^ 24) × Room w.old 128 }
        ensures { Appends w.old w.new (open_bits self.entry.shape n) }
    {
        let z = self.shape;
        w.put(Code::new(16, (self.head_bytes() / 16 - 1) as u64));
        w.put(Code::new(24, n));
        w.put(Code::new(8, 0x40));
        w.put(Code::new(8, z.components * 64));
        w.put(Code::new(16, z.records as u64));
        w.put(Code::new(56, 16 << 48));
    }

    // Writes record k, and its length and selectors to the headers.
    fn put_next(self, head: &mut BitWriter, payload: &mut BitWriter, k: usize)
        requires sound { (k < self.shape.records) × (bytes_of self.shape self.numbers.now k < 2 ^ 16) × (payload.old.held ≡ 0) }
        requires room { Room head.old (16 + 4 * self.shape.components) × Room payload.old (length (filled 8 (bits_of self.shape self.numbers.now k))) }
        ensures header { Appends head.old head.new (head_of self.entry.shape (bytes_of self.entry.shape self.entry.numbers.now k)) }
        ensures record_after { Appends payload.old payload.new (filled 8 (bits_of self.entry.shape self.entry.numbers.now k)) × (payload.new.held ≡ 0) }
    {
        let start = payload.place;
        self.record(k).put_record(payload);
        let bytes = (payload.place - start) as u64;
        head.put(Code::new(16, bytes).then(Code::zeros(4 * self.shape.components)));
    }

    // Writes the records, one after the other.
    fn put_records(self, head: &mut BitWriter, payload: &mut BitWriter)
        requires sound { (long_refusal self.shape self.numbers.now ≡ 0) × (payload.old.held ≡ 0) }
        requires room { Room head.old (length (heads_of self.shape self.numbers.now self.shape.records)) × Room payload.old (length (records_of self.shape self.numbers.now self.shape.records)) }
        ensures heads { Appends head.old head.new (heads_of self.entry.shape self.entry.numbers.now self.entry.shape.records) }
        ensures records { Appends payload.old payload.new (records_of self.entry.shape self.entry.numbers.now self.entry.shape.records) }
    {
        for k in 0..self.shape.records {
            self.put_next(head, payload, k);
        }
    }

    // Writes it over the whole of `out`.
    pub fn put(self, out: &mut [u8])
        requires { (long_refusal self.shape self.numbers.now ≡ 0) × (length out.old ≡ 16 * units_of self.shape self.numbers.now) × (payload_of self.shape self.numbers.now < 2 ^ 24) }
        ensures { out.new ≡ packed (bits_in self.entry.shape self.entry.numbers.now) }
    {
        let p = self.head_bytes();
        let n = ((out.len() - p) / 16) as u64;
        let (front, rest) = out.split_at_mut(p);
        let mut head = BitWriter::new(front);
        let mut payload = BitWriter::new(rest);
        self.put_open(&mut head, n);
        self.put_records(&mut head, &mut payload);
        head.fill_up();
        payload.fill_up();
    }
}
