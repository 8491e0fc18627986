// Records in a lent buffer, one after the other: each of them, and room for one more.
ghost use Rattle.std.specs.Prelude.{◌≡◌, ◌+◌, ◌-◌, ◌*◌, ◌≤◌, ◌<◌, length};
ghost use Rattle.records.specs.Parts.{part, splice};
ghost use Rattle.sheet.specs.Layout.{IsRecordLength, record_length, layout_of, decoded, encoded, Fits};
ghost use Rattle.sheet.specs.Trailer.{trailer_length};
ghost use Rattle.sheet.specs.Order.{All};
ghost use Rattle.sheet.specs.Sheets.{plots_from, rows_bytes};
ghost use Rattle.sheet.specs.Rows.{AllRows, plots_in};

use crate::encoding::{StoredRecord, put_record};
use crate::layout::RecordLength;
use crate::trailer::Trailer;
use crate::{RECORD, TRAILER};

// Records of a sheet, one after the other: where the first stands, how many there are, and the length of each.
#[derive(Clone, Copy)]
pub struct Rows {
    pub at: usize,
    pub count: usize,
    pub each: RecordLength,
}

impl Rows {
    ghost use Rattle.sheet.specs.StoredRecords.{plot_of};

    // Record k of those in the buffer s.
    pub fn record(self, s: &[u8], k: usize) -> StoredRecord<'_>
        requires { (k < self.count) × (self.at + self.each.bytes * self.count ≤ length s.now) }
        ensures plot { plot_of result ≡ decoded (layout_of self.each.bytes) (part s.now (self.at + self.each.bytes * k) self.each.bytes) }
        ensures each { result.each.bytes ≡ self.each.bytes }
    {
        StoredRecord {
            bytes: s,
            at: self.at + self.each.bytes * k,
            each: self.each,
        }
    }
}

// Those of a sheet of `len` bytes with the trailer z.
pub fn all_rows(len: usize, z: Trailer) -> Rows
    requires { (z.distance + trailer_length ≤ len) × IsRecordLength z.length }
    ensures { AllRows len z result }
{
    Rows {
        at: len - TRAILER - (z.distance as usize),
        count: z.count as usize,
        each: RecordLength {
            bytes: z.length as usize,
        },
    }
}

// Moves `count` bytes from index `from` on up to index `to`, the last byte first. The compiler makes one call of `memmove` of it, which it
// does not of `copy_within`.
fn move_bytes(s: &mut [u8], from: usize, count: usize, to: usize)
    requires { (from ≤ to) × (to + count ≤ length s.old) }
    ensures { s.new ≡ splice s.old to (part s.old from count) }
{
    for i in (0..count).rev() {
        s[to + i] = s[from + i];
    }
}

// Writes the record of length `each` at `from` into the RECORD bytes at `to`. `recode` alone calls it, on every record, so that it is
// compiled into that loop.
fn copy_record(s: &mut [u8], from: usize, each: RecordLength, to: usize)
    requires in_bounds { (from + each.bytes ≤ length s.old) × (to + record_length ≤ length s.old) }
    requires fits { Fits (layout_of record_length) (decoded (layout_of each.bytes) (part s.old from each.bytes)) }
    ensures { s.new ≡ splice s.old to (encoded (layout_of record_length) (decoded (layout_of each.bytes) (part s.old from each.bytes))) }
{
    let r = StoredRecord {
        bytes: s,
        at: from,
        each,
    };
    let r = r.plot();
    put_record(s, to, RecordLength::WRITTEN, r);
}

// Reads the records x, and writes them with RECORD bytes each from index `to` on, the last record first, so that each is read before its
// bytes are written over.
fn recode(s: &mut [u8], x: Rows, to: usize)
    requires at_le_to { (x.at ≤ to) × (to + record_length * x.count ≤ length s.old) }
    requires all { All (Fits (layout_of record_length)) (plots_in s.old x) }
    ensures { s.new ≡ splice s.old to (rows_bytes record_length (plots_in s.old x)) }
{
    for k in (0..x.count).rev() {
        copy_record(s, x.at + x.each.bytes * k, x.each, to + RECORD * k);
    }
}

// That each of the records fits is asked here, in `recode` and in `put_sheet`: it is a fact of the bytes that they write over.

// Writes the records x anew, with RECORD bytes each and room for one more at place k. Where they keep their length, those before that place
// stay as they are, and the others are moved as bytes.
pub fn make_room(s: &mut [u8], x: Rows, k: usize)
    requires k_in_bounds { (k ≤ x.count) × (x.at + record_length * (x.count + 1) ≤ length s.old) }
    requires all { All (Fits (layout_of record_length)) (plots_in s.old x) }
    ensures { s.new ≡ splice (splice s.old (x.at + record_length * k + record_length) (rows_bytes record_length (plots_from x.each.bytes s.old (x.at + x.each.bytes * k) (x.count - k)))) x.at (rows_bytes record_length (plots_from x.each.bytes s.old x.at k)) }
{
    let here = x.at + RECORD * k;
    if x.each.bytes == RECORD {
        move_bytes(s, here, RECORD * (x.count - k), here + RECORD);
    } else {
        let higher = Rows {
            at: x.at + x.each.bytes * k,
            count: x.count - k,
            each: x.each,
        };
        recode(s, higher, here + RECORD);
        let lower = Rows {
            at: x.at,
            count: k,
            each: x.each,
        };
        recode(s, lower, x.at);
    }
}
