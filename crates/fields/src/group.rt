// The groups of a tile's packets: document 01, 'Directory and packets'.
ghost use Rattle.std.specs.Prelude.{◌≡◌, ◌<◌, ◌≤◌};
ghost use Rattle.format.specs.Sizes.{number, numbered, components, multiplier, columns};
ghost use Rattle.format.specs.Refusals.{is_detail};
ghost use Rattle.fields.specs.Kinds.{group_of};

// The groups in their order: 0; 1 to 3, one for each level; 4. `number` and `numbered` are no `From`, which would not say that the number is a group's.
#[derive(Clone, Copy, Debug, PartialEq, Eq)]
pub enum Group {
    Base,
    First,
    Second,
    Third,
    Final,
}

impl Group {
    // The group of a number: from 4 on the last.
    pub fn numbered(number: usize) -> Self
        ensures { group_of result ≡ numbered number }
    {
        match number {
            0 => Group::Base,
            1 => Group::First,
            2 => Group::Second,
            3 => Group::Third,
            _ => Group::Final,
        }
    }

    // Its number, by which a directory has it.
    pub fn number(self) -> usize
        ensures { (result ≡ number (group_of self)) × (result < 5) }
    {
        self as usize
    }

    // One for each level: groups 1 to 3.
    pub fn is_detail(self) -> bool
        ensures { result ≡ is_detail (group_of self) }
    {
        matches!(self, Group::First | Group::Second | Group::Third)
    }

    // The components of its records.
    pub fn components(self) -> usize
        ensures { (result ≡ components (group_of self)) × (result ≤ 3) }
    {
        if self.is_detail() { 3 } else { 1 }
    }

    // m: the rows of each component in one of its records.
    pub fn multiplier(self) -> usize
        ensures { (result ≡ multiplier (group_of self)) × (result ≤ 8) }
    {
        match self {
            Group::Base | Group::First => 1,
            Group::Second => 2,
            Group::Third => 4,
            Group::Final => 8,
        }
    }

    // Its columns in a tile of width w.
    pub fn columns(self, w: usize) -> usize
        ensures { (result ≡ columns w (group_of self)) × (result ≤ w) }
    {
        match self {
            Group::Base | Group::First => w / 16,
            Group::Second => w / 8,
            Group::Third => w / 4,
            Group::Final => w / 2,
        }
    }
}
