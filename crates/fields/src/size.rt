// The sizes that follow from a coded size: document 01, 'Planes'.
ghost use Rattle.std.specs.Prelude.{◌≡◌, true, ◌*◌, ◌^◌, ◌<◌, ◌≤◌};
ghost use Rattle.format.specs.Sizes.{green, red, stripes, guarded, plane_rows, plane_rows_of, plane_columns, work_length};

// A coded size, as a header can hold it: the width w, and the coded height H.
#[derive(Clone, Copy, Debug, PartialEq, Eq)]
pub struct Size {
    pub width: usize,
    pub height: usize,
    pub ghost narrow: { width < 2 ^ 16 },
    pub ghost low: { height < 2 ^ 17 },
}

impl Size {
    // n: the height by 16, rounded up.
    pub fn stripes(self) -> usize
        ensures { (result ≡ stripes self.height) × (result ≤ 2 ^ 13) }
    {
        (self.height + 15) / 16
    }

    // Whether the height is guarded.
    pub fn guarded(self) -> bool
        ensures { result ≡ guarded self.height }
    {
        guarded(self.height)
    }

    // R: the rows of the planes.
    pub fn plane_rows(self) -> usize
        ensures { (result ≡ plane_rows_of self.height) × (result ≤ 2 ^ 16) }
    {
        rows_of(self.stripes(), self.guarded())
    }

    // The numbers of green's plane.
    pub fn green_size(self) -> usize
        ensures { result ≡ plane_rows_of self.height * plane_columns self.width green }
    {
        self.plane_rows() * self.width
    }

    // The numbers of red's plane, and of blue's.
    pub fn colour_size(self) -> usize
        ensures { result ≡ plane_rows_of self.height * plane_columns self.width red }
    {
        self.plane_rows() * (self.width / 2)
    }

    // The numbers of the work slice.
    pub fn work_length(self) -> usize
        ensures { result ≡ work_length self.width self.height }
    {
        16 * (self.stripes() + 1) * self.width
    }
}

// Guarded, of any height: no multiple of 16.
pub fn guarded(height: usize) -> bool
    ensures { result ≡ guarded height }
{
    let rest = height % 16;
    rest != 0
}

// R by n and whether the height is guarded, which is all that a plan knows of it.
pub fn rows_of(n: usize, guarded: bool) -> usize
    requires { (guarded ≡ true → 1 ≤ n) × (n < 2 ^ 32) }
    ensures { (result ≡ plane_rows guarded n) × (result ≤ 8 * n) }
{
    if guarded { 8 * n - 4 } else { 8 * n }
}
