// The three formats of a sheet.
ghost use Rattle.std.specs.Prelude.{◌≤◌};

// By the length of the records: 24 bytes, which lack the fee row, 26, and 46, which have 32 bits for each coordinate and side.
#[derive(Clone, Copy, PartialEq, Eq)]
pub enum Format {
    Base,
    Fee,
    County,
}

impl Format {
    pub const ALL: [Format; 3] = [Format::Base, Format::Fee, Format::County];

    // The length of a record.
    pub fn record(self) -> usize
        ensures least { 24 ≤ result }
        ensures most { result ≤ 46 }
    {
        match self {
            Format::Base => 24,
            Format::Fee => 26,
            Format::County => 46,
        }
    }

    // The length of a sheet of two plots.
    pub fn pair(self) -> usize
        ensures least { 64 ≤ result }
        ensures most { result ≤ 108 }
    {
        match self {
            Format::Base => 64,
            Format::Fee => 68,
            Format::County => 108,
        }
    }

    // The index in a record of the last byte of i.
    pub fn last_of_i(self) -> usize {
        match self {
            Format::Base | Format::Fee => 5,
            Format::County => 7,
        }
    }

    // The index in a record of the first byte of the side n0.
    pub fn side(self) -> usize
        ensures { result ≤ 12 }
    {
        match self {
            Format::Base | Format::Fee => 8,
            Format::County => 12,
        }
    }

    // The index in a record of the first byte of the side n4, which is opposite.
    pub fn opposite(self) -> usize {
        match self {
            Format::Base | Format::Fee => 16,
            Format::County => 28,
        }
    }
}
