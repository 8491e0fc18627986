// A sheet copied into a second buffer with FEE_RECORD bytes a record: back to the layout, and the map, before the county's.
ghost use Rattle.std.specs.Prelude.{◌≡◌, false, ◌+◌, ◌*◌, ◌≤◌, length};
ghost use Rattle.octagon.specs.Outcome.{accepted, «then», left};
ghost use Rattle.octagon.specs.Answers.{outcome};
ghost use Rattle.records.specs.Parts.{splice};
ghost use Rattle.sheet.specs.Layout.{fee_length};
ghost use Rattle.sheet.specs.Trailer.{trailer_length};
ghost use Rattle.sheet.specs.Sheets.{sheet_limit, rows_bytes, sheet_length};
ghost use Rattle.sheet.specs.Rows.{plots_in};
ghost use Rattle.sheet.specs.Stored.{plots_of, said};
ghost use Rattle.sheet.specs.StoredRecords.{plot_of};
ghost use Rattle.sheet.specs.Writing.{laid_over};
ghost use Rattle.sheet.specs.Converting.{is_stray, strays, narrowed};

use crate::copying::copy_bytes;
use crate::encoding::{StoredRecord, put_record};
use crate::inserting::has_no_room;
use crate::layout::RecordLength;
use crate::rows::Rows;
use crate::stored::Records;
use crate::trailer::put_trailer;
use crate::{COUNTY_RECORD, FEE_RECORD, OLD_LIMIT, TRAILER};
use octagon::{Refusal, is_within};

// Whether the plot of a record leaves the old map.
fn is_stray(r: StoredRecord) -> bool
    ensures { result ≡ is_stray (plot_of r.entry) }
{
    match outline::to_octagon(r.plot().outline) {
        Ok(a) => !is_within(a, OLD_LIMIT),
        Err(_) => true,
    }
}

// Whether one of the records does. Those that are shorter than the county's were checked on the old map.
fn has_stray(x: Records) -> bool
    ensures { result ≡ strays (plots_of x.entry) }
{
    let rows = x.rows;
    if rows.each.bytes != COUNTY_RECORD {
        return false;
    }
    for k in 0..rows.count {
        if is_stray(rows.record(x.bytes, k)) {
            return true;
        }
    }
    false
}

// Writes the records x of s with FEE_RECORD bytes each from index `to` of u on: as bytes where they keep their length, and else field by
// field. Kept as a slice and where they stand, in place of `Records`, as `put_row` is.
fn put_narrow(s: &[u8], x: Rows, u: &mut [u8], to: usize)
    requires in_bounds { (x.at + x.each.bytes * x.count ≤ length s.now) × (to + fee_length * x.count ≤ length u.old) }
    requires on_old_map { strays (plots_in s.now x) ≡ false }
    ensures { u.new ≡ splice u.old to (rows_bytes fee_length (plots_in s.now x)) }
{
    if x.each.bytes == FEE_RECORD {
        let end = x.at + FEE_RECORD * x.count;
        copy_bytes(&s[x.at..end], u, to);
        return;
    }
    for k in 0..x.count {
        let r = x.record(s, k).plot();
        put_record(u, to + FEE_RECORD * k, RecordLength::FEE, r);
    }
}

// Writes the bytes before the records x, them with FEE_RECORD bytes each, and their trailer.
fn put_converted(x: Records, u: &mut [u8])
    requires on_old_map { strays (plots_of x) ≡ false }
    requires in_bounds { x.rows.at + fee_length * x.rows.count + trailer_length ≤ length u.old }
    requires short { x.rows.at + fee_length * x.rows.count + trailer_length ≤ sheet_limit }
    ensures { u.new ≡ laid_over fee_length u.old (said x.entry) }
{
    let at = x.rows.at;
    let count = x.rows.count;
    copy_bytes(&x.bytes[..at], u, 0);
    put_narrow(x.bytes, x.rows, u, at);
    put_trailer(u, at + FEE_RECORD * count, FEE_RECORD as u32, count as u32);
}

// Converts the sheet of these records. Refuses a plot that leaves the old map, then a sheet that has no room.
pub fn convert_records(x: Records, u: &mut [u8]) -> Result<usize, Refusal>
    ensures result_value { outcome result ≡ «then» (narrowed u.old (said x.entry)) (λ z. accepted (sheet_length fee_length z)) }
    ensures u_after { u.new ≡ left u.old (narrowed u.old (said x.entry)) (laid_over fee_length u.old) }
{
    if has_stray(x) {
        return Err(Refusal::OffOldMap);
    }
    let next = x.rows.at + FEE_RECORD * x.rows.count + TRAILER;
    if has_no_room(u, next) {
        return Err(Refusal::NoRoom);
    }
    put_converted(x, u);
    Ok(next)
}
