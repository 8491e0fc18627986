// The records of a sheet that was checked, with the bytes that they stand in: what is worked out of them need not ask for that check.
ghost use Rattle.std.specs.Prelude.{◌+◌, ◌*◌, ◌≤◌, length};
ghost use Rattle.sheet.specs.Sheets.{sheet_limit};
ghost use Rattle.sheet.specs.Layout.{map_limit};
ghost use Rattle.sheet.specs.Rows.{plots_in};
ghost use Rattle.sheet.specs.Checking.{Surveyed};

use crate::encoding::StoredRecord;
use crate::rows::Rows;

// Records, or those that are left of them: they lie in the buffer and within the limit, and a survey of them, on the map of their length, refuses none.
#[derive(Clone, Copy)]
pub struct Records<'a> {
    pub bytes: &'a [u8],
    pub rows: Rows,
    pub ghost within: { rows.at + rows.each.bytes * rows.count ≤ length bytes.now },
    pub ghost short: { rows.at + rows.each.bytes * rows.count ≤ sheet_limit },
    pub ghost surveyed: { Surveyed (map_limit rows.each.bytes) (plots_in bytes.now rows) },
}

impl<'a> Records<'a> {
    ghost use Rattle.std.specs.Prelude.{◌≡◌, true, ◌<◌};
    ghost use Rattle.sheet.specs.Merging.{leads, heads_differ, without_head};
    ghost use Rattle.sheet.specs.Order.{present, rank};
    ghost use Rattle.records.specs.Parts.{part};
    ghost use Rattle.sheet.specs.Layout.{layout_of, decoded};
    ghost use Rattle.sheet.specs.Stored.{plots_of};
    ghost use Rattle.sheet.specs.StoredRecords.{plot_of};

    // Whether one of them has the number v.
    pub fn has_number(self, v: u32) -> bool
        ensures { result ≡ present v (plots_of self.entry) }
    {
        let x = self.rows;
        for k in 0..x.count {
            if x.record(self.bytes, k).number() == v {
                return true;
            }
        }
        false
    }

    // How many of them stand before the first whose number is not below v.
    pub fn rank(self, v: u32) -> usize
        ensures { (result ≡ rank v (plots_of self.entry)) × (result ≤ self.entry.rows.count) }
    {
        let x = self.rows;
        for k in 0..x.count {
            if v <= x.record(self.bytes, k).number() {
                return k;
            }
        }
        x.count
    }

    // The first of them.
    fn first(self) -> StoredRecord<'a>
        requires { 0 < self.rows.count }
        ensures { plot_of result ≡ decoded (layout_of self.entry.rows.each.bytes) (part self.entry.bytes.now self.entry.rows.at self.entry.rows.each.bytes) }
    {
        let x = self.rows;
        StoredRecord {
            bytes: self.bytes,
            at: x.at,
            each: x.each,
        }
    }

    // Whether its first comes next: there is one, and the first of `other`, if there is one, has no lower number.
    pub fn is_next(self, other: Records) -> bool
        ensures { result ≡ leads (plots_of self.entry) (plots_of other.entry) }
    {
        if self.rows.count == 0 {
            return false;
        }
        if other.rows.count == 0 {
            return true;
        }
        self.first().number() <= other.first().number()
    }

    // Whether the first of both have one number, and differ.
    pub fn heads_differ(self, other: Records) -> bool
        ensures { result ≡ heads_differ (plots_of self.entry) (plots_of other.entry) }
    {
        if self.rows.count == 0 {
            return false;
        }
        if other.rows.count == 0 {
            return false;
        }
        let r = self.first();
        let t = other.first();
        if r.number() != t.number() {
            return false;
        }
        !r.is_same(t)
    }

    // Those that are left where the first is taken.
    pub fn left(self, taken: bool) -> Records<'a>
        requires { taken ≡ true → 0 < self.rows.count }
        ensures { plots_of result ≡ without_head taken (plots_of self.entry) }
    {
        if !taken {
            return self;
        }
        let x = self.rows;
        let rows = Rows {
            at: x.at + x.each.bytes,
            count: x.count - 1,
            each: x.each,
        };
        Records {
            bytes: self.bytes,
            rows,
        }
    }
}
