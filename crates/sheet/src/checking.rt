// The check of a sheet: its frame, and then its records in order.
ghost use Rattle.std.specs.Prelude.{◌≡◌, ◌+◌, ◌*◌, ◌≤◌, length, IfOk};
ghost use Rattle.octagon.specs.Outcome.{accepted, «then»};
ghost use Rattle.octagon.specs.Answers.{outcome};
ghost use Rattle.sheet.specs.Layout.{map_limit};
ghost use Rattle.sheet.specs.Rows.{plots_in};
ghost use Rattle.sheet.specs.Checking.{judged, all_judged, parsed};
ghost use Rattle.sheet.specs.Stored.{said};
ghost use Rattle.sheet.specs.StoredRecords.{plot_of};

use crate::encoding::StoredRecord;
use crate::rows::{Rows, all_rows};
use crate::stored::Records;
use crate::trailer::frame;
use octagon::Refusal;

// The plot number of a record. Refuses one that is not above `before`, then the outline's refusals, on the map of the record's length.
fn judge(r: StoredRecord, before: u32) -> Result<u32, Refusal>
    ensures { outcome result ≡ judged (map_limit r.entry.each.bytes) before (plot_of r.entry) }
{
    let p = r.plot();
    if p.number <= before {
        return Err(Refusal::BadNumber);
    }
    let a = outline::to_octagon(p.outline)?;
    if !r.each.is_on_map(a) {
        return Err(Refusal::OffMap);
    }
    Ok(p.number)
}

// Checks the records x in order, on the map of their length.
fn survey(s: &[u8], x: Rows) -> Result<(), Refusal>
    requires { x.at + x.each.bytes * x.count ≤ length s.now }
    ensures { outcome result ≡ all_judged (map_limit x.each.bytes) (plots_in s.now x) }
{
    let mut before = 0;
    for k in 0..x.count {
        before = judge(x.record(s, k), before)?;
    }
    Ok(())
}

// The records of a sheet whose frame and records are right. Refuses as `check` does.
pub fn inspect(sheet: &[u8], len: usize) -> Result<Records<'_>, Refusal>
    ensures sheet { «then» (outcome result) (λ x. accepted (said x)) ≡ parsed sheet.now len }
    ensures bytes { IfOk result (λ x. x.bytes.now ≡ sheet.now) }
{
    let z = frame(sheet, len)?;
    let rows = all_rows(len, z);
    survey(sheet, rows)?;
    Ok(Records { bytes: sheet, rows })
}
