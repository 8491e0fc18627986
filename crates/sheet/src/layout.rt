// The lengths that records may have, and the layout and the map of each.
ghost use Rattle.std.specs.Prelude.{◌≡◌, true};
ghost use Rattle.octagon.specs.Cells.{limit};
ghost use Rattle.octagon.specs.NormalForm.{is_within};
ghost use Rattle.sheet.specs.Layout.{is_record_length, county_length, layout_of, map_limit};

use crate::{BASE_RECORD, COUNTY_RECORD, FEE_RECORD, OLD_LIMIT, RECORD};
use octagon::{Octagon, is_within};

// How many fields a record has: plot number, i and j, n0 to n7, fee row.
pub const FIELDS: usize = 12;

// Their widths in bytes: in document 01's records, which lack the fee row, in those that have it, and in the county's. Widths and numbers stand
// in two arrays, in one order, since a loop goes along both: by name it would be twelve reads and twelve writes, of three types.
const BASE_LAYOUT: [usize; FIELDS] = [4, 2, 2, 2, 2, 2, 2, 2, 2, 2, 2, 0];

const FEE_LAYOUT: [usize; FIELDS] = [4, 2, 2, 2, 2, 2, 2, 2, 2, 2, 2, 2];

pub const COUNTY_LAYOUT: [usize; FIELDS] = [4, 4, 4, 4, 4, 4, 4, 4, 4, 4, 4, 2];

// Whether records may be so long.
pub fn is_record_length(each: usize) -> bool
    ensures { result ≡ is_record_length each }
{
    (each == BASE_RECORD) | (each == FEE_RECORD) | (each == COUNTY_RECORD)
}

// A length that records may have, in bytes.
#[derive(Clone, Copy)]
pub struct RecordLength {
    pub bytes: usize,
    ghost known: { is_record_length bytes ≡ true },
}

impl RecordLength {
    // That of the records that are written.
    pub const WRITTEN: RecordLength = RecordLength { bytes: RECORD };

    // That of the records that have a fee row and two bytes a side.
    pub const FEE: RecordLength = RecordLength { bytes: FEE_RECORD };

    // Whether an octagon that is on the map is on that of such records: the old map, where they are shorter than the county's. A second test
    // of the one limit would make the check of the county's records a fifth slower.
    pub fn is_on_map(self, a: Octagon) -> bool
        requires { is_within limit a ≡ true }
        ensures { result ≡ is_within (map_limit self.bytes) a }
    {
        if self.bytes == COUNTY_RECORD {
            return true;
        }
        is_within(a, OLD_LIMIT)
    }

    // The widths of the fields of a record that is shorter than the county's: they differ in the fee row's alone.
    #[inline(always)]
    pub fn short_widths(self) -> [usize; FIELDS]
        requires { self.bytes ≡ county_length → ⊥ }
        ensures { result ≡ layout_of self.bytes }
    {
        if self.bytes == FEE_RECORD {
            FEE_LAYOUT
        } else {
            BASE_LAYOUT
        }
    }

    // The widths of a record's fields.
    #[inline(always)]
    pub fn widths(self) -> [usize; FIELDS]
        ensures { result ≡ layout_of self.bytes }
    {
        if self.bytes == COUNTY_RECORD {
            COUNTY_LAYOUT
        } else {
            self.short_widths()
        }
    }
}
