// Sheets of plots in lent buffers: a heading, records by rising plot number, and a trailer.
//
// specs/Sheets.antt has what a sheet says and its bytes, specs/Order.antt the order of its records, specs/Layout.antt the bytes of a
// record and specs/Trailer.antt those of a trailer, specs/Bytes.antt the place of each field; specs/Checking.antt what `check`, `fetch`
// and `read` answer, specs/Cases.antt when each of these answers is given; specs/Writing.antt what `start` and `insert` answer and
// leave, specs/WritingCases.antt when each of their answers is given; specs/Merging.antt the records of two sheets together,
// specs/Joining.antt what `join` answers and leaves, specs/JoiningCases.antt when each of its answers is given; specs/Converting.antt and
// specs/ConvertingCases.antt the same of `convert`; specs/OldSheets.antt what `check`, `fetch` and `read` answer by the rules of the
// shorter records alone. specs/Rows.antt, specs/Stored.antt and specs/StoredRecords.antt have the records as the code passes them on:
// where they stand, with the bytes of a sheet that was checked, and one by one.
#![tactic(auto)]

ghost use Rattle.std.specs.Prelude.{◌≡◌};
ghost use Rattle.octagon.specs.Answers.{outcome};
ghost use Rattle.sheet.specs.Checking.{checked, fetched, read as read_of};
ghost use Rattle.sheet.specs.Writing.{started, after_start, inserted, after_insert};
ghost use Rattle.sheet.specs.Joining.{joined, after_join};
ghost use Rattle.sheet.specs.Converting.{converted, after_convert};

use octagon::Refusal;
use outline::Outline;

mod checking;
mod converting;
mod copying;
mod encoding;
mod inserting;
mod joining;
mod layout;
mod merge;
mod numbers;
mod rows;
mod signed;
mod stored;
mod trailer;

// A plot: its number, its outline, and its row in the tariff of fees.
#[derive(Clone, Copy, Debug, PartialEq, Eq, Hash)]
pub struct Record {
    pub number: u32,
    pub outline: Outline,
    pub fee_row: u16,
}

// The longest sheet, and the length of a trailer, in bytes.
pub const LIMIT: usize = 65536;

pub const TRAILER: usize = 16;

// The lengths of records in bytes: document 01's, which lack the fee row, those that have it, and the county's, with i, j and each side
// in four bytes. All that is written has RECORD, but for the copies of `convert`, which have FEE_RECORD.
pub const BASE_RECORD: usize = 24;

pub const FEE_RECORD: usize = 26;

pub const COUNTY_RECORD: usize = 46;

pub const RECORD: usize = COUNTY_RECORD;

// The limit of the old map, on which the shorter records are read, in cells from its middle.
pub const OLD_LIMIT: u32 = 16000;

// The calls take a buffer and the length of the sheet in it, as C lends them: 8 refuses a length above the buffer.

// How many records the sheet in the first `len` bytes has. Refuses a wrong length, wrong marks in the trailer, a wrong distance,
// and then for each record in order a wrong number and the refusals of its outline: on the old map, where the record is shorter than
// COUNTY_RECORD.
pub fn check(sheet: &[u8], len: usize) -> Result<u32, Refusal>
    ensures { outcome result ≡ checked sheet.now len }
{
    Ok(checking::inspect(sheet, len)?.rows.count as u32)
}

// Record k, counted from 0. The refusals of the check, and then k not below the count.
pub fn fetch(sheet: &[u8], len: usize, k: u32) -> Result<Record, Refusal>
    ensures { outcome result ≡ fetched sheet.now len k }
{
    check(sheet, len)?;
    read(sheet, len, k)
}

// Record k of a sheet that was checked: what `fetch` answers, with no check of the records. Refuses a wrong length, wrong marks in the
// trailer, a wrong distance, then a k that is not below the count. It reads the trailer by itself, so that `frame` has one caller, the
// check, and is compiled into it.
pub fn read(sheet: &[u8], len: usize, k: u32) -> Result<Record, Refusal>
    ensures { outcome result ≡ read_of sheet.now len k }
{
    if trailer::is_bad_length(sheet, len) {
        return Err(Refusal::BadLength);
    }
    let z = trailer::state(trailer::read_trailer(sheet, len - TRAILER), len)?;
    if z.count <= k {
        return Err(Refusal::NoRecord);
    }
    let x = rows::all_rows(len, z);
    Ok(x.record(sheet, k as usize).plot())
}

// Starts a sheet of no records after `heading` bytes, and answers its length. Refuses a sheet that is too long, then one that
// the buffer has no room for.
pub fn start(sheet: &mut [u8], heading: usize) -> Result<usize, Refusal>
    ensures { (outcome result ≡ started sheet.old heading) × (sheet.new ≡ after_start sheet.old heading) }
{
    if LIMIT - TRAILER < heading {
        return Err(Refusal::BadLength);
    }
    let next = heading + TRAILER;
    if sheet.len() < next {
        return Err(Refusal::NoRoom);
    }
    trailer::put_trailer(sheet, heading, RECORD as u32, 0);
    Ok(next)
}

// Inserts a record by its number, and answers the new length. The refusals of its outline and of the check, then a number that
// is 0 or that a record has, then a sheet that has no room.
pub fn insert(sheet: &mut [u8], len: usize, r: Record) -> Result<usize, Refusal>
    ensures { (outcome result ≡ inserted sheet.old len r) × (sheet.new ≡ after_insert sheet.old len r) }
{
    outline::to_octagon(r.outline)?;
    inserting::insert_fitting(sheet, len, r)
}

// Writes the records of two sheets, those in the first `first_len` bytes of `first` and the first `second_len` of `second`, by rising number
// into `third`, with RECORD bytes each, under the first sheet's heading, and answers the new length. The refusals of the first sheet's check,
// then of the second's, then one plot number for two differing records, then a sheet that has no room.
pub fn join(
    first: &[u8],
    first_len: usize,
    second: &[u8],
    second_len: usize,
    third: &mut [u8],
) -> Result<usize, Refusal>
    ensures result_value { (outcome result ≡ joined first.now first_len second.now second_len third.old) × (third.new ≡ after_join first.now first_len second.now second_len third.old) }
    ensures only_read { (first.exit.now ≡ first.entry.now) × (second.exit.now ≡ second.entry.now) }
{
    let a = checking::inspect(first, first_len)?;
    let b = checking::inspect(second, second_len)?;
    joining::join_records(a, b, third)
}

// Copies the sheet in the first `len` bytes of `first` into `second` with FEE_RECORD bytes a record, under its heading, and answers the new
// length. The refusals of the check, then a plot that leaves the old map, then a sheet that has no room.
pub fn convert(first: &[u8], len: usize, second: &mut [u8]) -> Result<usize, Refusal>
    ensures result_value { (outcome result ≡ converted first.now len second.old) × (second.new ≡ after_convert first.now len second.old) }
    ensures only_read { first.exit.now ≡ first.entry.now }
{
    let x = checking::inspect(first, len)?;
    converting::convert_records(x, second)
}
