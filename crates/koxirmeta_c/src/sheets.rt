// Sheets in lent buffers: check, fetch, read, start, insert, join and convert.
// Each call is a function of its own, since C calls it by its name. C lends a buffer and says how long its sheet is,
// and lends a place for each number that is handed over.
ghost use Rattle.std.specs.Prelude.{◌≡◌};
ghost use Rattle.octagon.specs.Answers.{outcome};
ghost use Rattle.sheet.specs.Checking.{checked};
ghost use Rattle.sheet.specs.Writing.{started, after_start};
ghost use Rattle.sheet.specs.Joining as joins;
ghost use Rattle.sheet.specs.Converting as conversions;
ghost use Rattle.koxirmeta_c.specs.Calls as calls;
ghost use Rattle.koxirmeta_c.specs.Outlines.{holds_outline};
ghost use Rattle.koxirmeta_c.specs.Sheets as sheets;

use crate::codes::{outline_in, parts_of};
use crate::giving::give_value;
use crate::{ACCEPTED, WRONG_LENGTH};
use octagon::Refusal;
use sheet::Record;

// How many records the sheet in the first `len` bytes has.
pub fn kx_sheet_check(sheet: &[u8], len: usize, count: &mut u32) -> u32
    ensures { calls.Hands (checked sheet.now len) (λ n. n) count.old count.new result }
{
    give_value(sheet::check(sheet, len), true, count)
}

// Hands a record over, where `start` and `sides` have the right lengths: its plot number, its outline and its fee row.
fn give_record(
    answer: Result<Record, Refusal>,
    number: &mut u32,
    start: &mut [i32],
    sides: &mut [u32],
    fee_row: &mut u16,
) -> u32
    ensures { calls.Hands (calls.fitted (holds_outline start.old sides.old) (outcome answer)) sheets.plot_of (number.old, start.old, sides.old, fee_row.old) (number.new, start.new, sides.new, fee_row.new) result }
{
    if (start.len() != 2) | (sides.len() != 8) {
        return WRONG_LENGTH;
    }
    match answer {
        Ok(r) => {
            let (from, lengths) = parts_of(r.outline);
            *number = r.number;
            start.copy_from_slice(&from);
            sides.copy_from_slice(&lengths);
            *fee_row = r.fee_row;
            ACCEPTED
        }
        Err(refusal) => refusal.number(),
    }
}

// Record k, counted from 0.
pub fn kx_sheet_fetch(
    sheet: &[u8],
    len: usize,
    k: u32,
    number: &mut u32,
    start: &mut [i32],
    sides: &mut [u32],
    fee_row: &mut u16,
) -> u32
    ensures { calls.Hands (sheets.fetching sheet.now len k start.old sides.old) sheets.plot_of (number.old, start.old, sides.old, fee_row.old) (number.new, start.new, sides.new, fee_row.new) result }
{
    give_record(sheet::fetch(sheet, len, k), number, start, sides, fee_row)
}

// Record k of a sheet that was checked: what `kx_sheet_fetch` answers, with no check of the records.
pub fn kx_sheet_read(
    sheet: &[u8],
    len: usize,
    k: u32,
    number: &mut u32,
    start: &mut [i32],
    sides: &mut [u32],
    fee_row: &mut u16,
) -> u32
    ensures { calls.Hands (sheets.reading sheet.now len k start.old sides.old) sheets.plot_of (number.old, start.old, sides.old, fee_row.old) (number.new, start.new, sides.new, fee_row.new) result }
{
    give_record(sheet::read(sheet, len, k), number, start, sides, fee_row)
}

// Starts a sheet of no records after `heading` bytes.
pub fn kx_sheet_start(sheet: &mut [u8], heading: usize, len: &mut usize) -> u32
    ensures { calls.Hands (started sheet.old heading) (λ n. n) len.old len.new result × (sheet.new ≡ after_start sheet.old heading) }
{
    give_value(sheet::start(sheet, heading), true, len)
}

// Inserts a plot by its number.
pub fn kx_sheet_insert(
    sheet: &mut [u8],
    len: usize,
    number: u32,
    start: &[i32],
    sides: &[u32],
    fee_row: u16,
    grown: &mut usize,
) -> u32
    ensures { calls.Hands (sheets.inserting sheet.old len number start.now sides.now fee_row) (λ n. n) grown.old grown.new result × (sheet.new ≡ sheets.after_inserting sheet.old len number start.now sides.now fee_row) }
{
    if (start.len() == 2) & (sides.len() == 8) {
        let outline = outline_in(start, sides);
        let r = Record {
            number,
            outline,
            fee_row,
        };
        return give_value(sheet::insert(sheet, len, r), true, grown);
    }
    WRONG_LENGTH
}

// Joins two sheets in a third buffer.
pub fn kx_sheet_join(
    first: &[u8],
    first_len: usize,
    second: &[u8],
    second_len: usize,
    joined: &mut [u8],
    len: &mut usize,
) -> u32
    ensures hands { calls.Hands (joins.joined first.now first_len second.now second_len joined.old) (λ n. n) len.old len.new result × (joined.new ≡ joins.after_join first.now first_len second.now second_len joined.old) }
    ensures only_read { (first.exit.now ≡ first.entry.now) × (second.exit.now ≡ second.entry.now) }
{
    give_value(
        sheet::join(first, first_len, second, second_len, joined),
        true,
        len,
    )
}

// Copies a sheet into a second buffer, at 26 bytes a record.
pub fn kx_sheet_convert(first: &[u8], first_len: usize, second: &mut [u8], len: &mut usize) -> u32
    ensures hands { calls.Hands (conversions.converted first.now first_len second.old) (λ n. n) len.old len.new result × (second.new ≡ conversions.after_convert first.now first_len second.old) }
    ensures only_read { first.exit.now ≡ first.entry.now }
{
    give_value(sheet::convert(first, first_len, second), true, len)
}
