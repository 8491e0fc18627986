// A record from and to its bytes, in the layout of its length.
//
// The compiler reads and writes a field by one load or store where it knows the field's width. So one of the county's records is read apart
// from a shorter one: then every width but the fee row's is known.
ghost use Rattle.std.specs.Prelude.{◌≡◌, true, ◌+◌, ◌^◌, ◌≤◌, ◌<◌, length, drop, get_or};
ghost use Rattle.records.specs.Numbers.{total_width, narrow};
ghost use Rattle.records.specs.Parts.{splice};
ghost use Rattle.sheet.specs.Layout.{fee_width, layout_of, outline_from, encoded, decoded, Fits};
ghost use Rattle.sheet.specs.Merging.{same_record};

use crate::layout::{COUNTY_LAYOUT, FIELDS, RecordLength};
use crate::numbers::{pack, read_four, unpack};
use crate::signed::{to_signed, to_twos};
use crate::{COUNTY_RECORD, Record};
use outline::Outline;

// The outline of the numbers in a record's fields.
fn outline_of(v: &[u32; FIELDS], widths: &[usize; FIELDS]) -> Outline
    requires widths_bound { (get_or widths.now 1 0 ≤ 4) × (get_or widths.now 2 0 ≤ 4) }
    requires v_bound { (get_or v.now 1 0 < 256 ^ get_or widths.now 1 0) × (get_or v.now 2 0 < 256 ^ get_or widths.now 2 0) }
    ensures { result ≡ outline_from widths.now v.now }
{
    Outline {
        i: to_signed(v[1], widths[1]),
        j: to_signed(v[2], widths[2]),
        n0: v[3],
        n1: v[4],
        n2: v[5],
        n3: v[6],
        n4: v[7],
        n5: v[8],
        n6: v[9],
        n7: v[10],
    }
}

// The record in fields of these widths, from an index on. Compiled into each call, as is `put_record`, so that the widths are known there.
#[inline(always)]
fn read_record(s: &[u8], at: usize, widths: &[usize; FIELDS]) -> Record
    requires inside { at + total_width widths.now ≤ length s.now }
    requires narrow_widths { (narrow widths.now ≡ true) × (get_or widths.now 11 0 ≤ fee_width) }
    ensures { result ≡ decoded widths.now (drop at s.now) }
{
    let v = unpack(s, at, widths);
    let number = v[0];
    let outline = outline_of(&v, widths);
    let fee_row = v[11] as u16;
    Record {
        number,
        outline,
        fee_row,
    }
}

// A record in the buffer that it stands in: its index, and its length.
#[derive(Clone, Copy)]
pub struct StoredRecord<'a> {
    pub bytes: &'a [u8],
    pub at: usize,
    pub each: RecordLength,
    pub ghost inside: { at + each.bytes ≤ length bytes.now },
}

impl<'a> StoredRecord<'a> {
    ghost use Rattle.sheet.specs.StoredRecords.{plot_of};

    // Its plot number, which comes first in every layout, in four bytes.
    pub fn number(self) -> u32
        ensures { result ≡ (plot_of self.entry).number }
    {
        read_four(self.bytes, self.at)
    }

    // All of it. Compiled into each call: those that copy a record then take each field from place to place.
    #[inline(always)]
    pub fn plot(self) -> Record
        ensures { result ≡ plot_of self.entry }
    {
        if self.each.bytes == COUNTY_RECORD {
            read_record(self.bytes, self.at, &COUNTY_LAYOUT)
        } else {
            let widths = self.each.short_widths();
            read_record(self.bytes, self.at, &widths)
        }
    }

    // Whether it has the number, the outline and the fee row of another.
    pub fn is_same(self, other: StoredRecord) -> bool
        ensures { result ≡ same_record (plot_of self.entry) (plot_of other.entry) }
    {
        self.plot() == other.plot()
    }
}

// Writes a record of length `each` at an index.
#[inline(always)]
pub fn put_record(s: &mut [u8], at: usize, each: RecordLength, r: Record)
    requires { (at + each.bytes ≤ length s.old) × Fits (layout_of each.bytes) r }
    ensures { s.new ≡ splice s.old at (encoded (layout_of each.bytes) r) }
{
    let widths = each.widths();
    let o = r.outline;
    let i = o.i;
    let j = o.j;
    let v = [
        r.number,
        to_twos(i, widths[1]),
        to_twos(j, widths[2]),
        o.n0,
        o.n1,
        o.n2,
        o.n3,
        o.n4,
        o.n5,
        o.n6,
        o.n7,
        r.fee_row as u32,
    ];
    pack(s, at, &widths, &v);
}
