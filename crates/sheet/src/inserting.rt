// One record more in a sheet.
ghost use Rattle.std.specs.Prelude.{◌≡◌, ◌+◌, ◌*◌, ◌≤◌, length};
ghost use Rattle.octagon.specs.Outcome.{accepted, «then», left};
ghost use Rattle.records.specs.Parts.{splice};
ghost use Rattle.octagon.specs.Answers.{outcome};
ghost use Rattle.sheet.specs.Layout.{record_length, layout_of, Fits};
ghost use Rattle.sheet.specs.Trailer.{trailer_length};
ghost use Rattle.sheet.specs.Order.{All, rank, put_in_order};
ghost use Rattle.sheet.specs.Sheets.{sheet_limit, records_bytes};
ghost use Rattle.sheet.specs.Rows.{plots_in};
ghost use Rattle.sheet.specs.Stored.{said};
ghost use Rattle.sheet.specs.Checking.{parsed};
ghost use Rattle.sheet.specs.Writing.{written_over, written_length, has_no_room, admitted};

use crate::checking::inspect;
use crate::encoding::put_record;
use crate::layout::RecordLength;
use crate::rows::{Rows, make_room};
use crate::stored::Records;
use crate::trailer::put_trailer;
use crate::{LIMIT, RECORD, Record, TRAILER};
use octagon::Refusal;

// Whether a sheet of n bytes has no room: they exceed the buffer or the limit.
pub fn has_no_room(sheet: &[u8], n: usize) -> bool
    ensures { result ≡ has_no_room sheet.now n }
{
    (sheet.len() < n) | (LIMIT < n)
}

// The length that the sheet of the records x has with the record r. Refuses the number 0 or one that is there, then a sheet that has no
// room.
fn admit(x: Records, r: Record) -> Result<usize, Refusal>
    ensures { outcome result ≡ «then» (admitted x.entry.bytes.now r (said x.entry)) (λ y. accepted (written_length y)) }
{
    let v = r.number;
    if (v == 0) | x.has_number(v) {
        return Err(Refusal::BadNumber);
    }
    let next = x.rows.at + RECORD * (x.rows.count + 1) + TRAILER;
    if has_no_room(x.bytes, next) {
        return Err(Refusal::NoRoom);
    }
    Ok(next)
}

// Writes the records x anew, with r in its place k among them, and their trailer.
fn put_sheet(s: &mut [u8], x: Rows, k: usize, r: Record)
    requires place { (k ≡ rank r.number (plots_in s.old x)) × (k ≤ x.count) }
    requires record_length { x.at + record_length * (x.count + 1) + trailer_length ≤ length s.old }
    requires trailer_length_bound { x.at + record_length * (x.count + 1) + trailer_length ≤ sheet_limit }
    requires all { All (Fits (layout_of record_length)) (plots_in s.old x) × Fits (layout_of record_length) r }
    ensures { s.new ≡ splice s.old x.at (records_bytes record_length (put_in_order r (plots_in s.old x))) }
{
    make_room(s, x, k);
    put_record(s, x.at + RECORD * k, RecordLength::WRITTEN, r);
    let all = x.count + 1;
    put_trailer(s, x.at + RECORD * all, RECORD as u32, all as u32);
}

// Inserts a record that fits. The refusals of the check, and then those of `admit`.
pub fn insert_fitting(sheet: &mut [u8], len: usize, r: Record) -> Result<usize, Refusal>
    requires { Fits (layout_of record_length) r }
    ensures result_value { outcome result ≡ «then» («then» (parsed sheet.old len) (admitted sheet.old r)) (λ y. accepted (written_length y)) }
    ensures sheet_after { sheet.new ≡ left sheet.old («then» (parsed sheet.old len) (admitted sheet.old r)) (written_over sheet.old) }
{
    let x = inspect(sheet, len)?;
    let n = admit(x, r)?;
    let rows = x.rows;
    let k = x.rank(r.number);
    put_sheet(sheet, rows, k, r);
    Ok(n)
}
