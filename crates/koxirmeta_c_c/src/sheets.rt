// Sheets in lent buffers: check, fetch, read, start, insert, join and convert.
ghost use Rattle.std.specs.Prelude.{◌≡◌};
ghost use Rattle.sheet.specs.Checking.{checked};
ghost use Rattle.sheet.specs.Writing.{started, after_start};
ghost use Rattle.sheet.specs.Joining as joins;
ghost use Rattle.sheet.specs.Converting as conversions;
ghost use Rattle.koxirmeta_c.specs.Calls as calls;
ghost use Rattle.koxirmeta_c.specs.Sheets as sheets;

// How many records the sheet in the first `len` bytes has.
#[unsafe(no_mangle)]
pub extern "C" fn kx_sheet_check(sheet: &[u8], len: usize, count: &mut u32) -> u32
    ensures { calls.Hands (checked sheet.now len) (λ n. n) count.old count.new result }
{
    koxirmeta_c::sheets::kx_sheet_check(sheet, len, count)
}

// Record k, counted from 0.
#[unsafe(no_mangle)]
pub extern "C" fn kx_sheet_fetch(
    sheet: &[u8],
    len: usize,
    k: u32,
    number: &mut u32,
    start: &mut [i32],
    sides: &mut [u32],
    fee_row: &mut u16,
) -> u32
    ensures { calls.Hands (sheets.fetching sheet.now len k start.old sides.old) sheets.plot_of (number.old, start.old, sides.old, fee_row.old) (number.new, start.new, sides.new, fee_row.new) result }
{
    koxirmeta_c::sheets::kx_sheet_fetch(sheet, len, k, number, start, sides, fee_row)
}

// Record k of a sheet that was checked: what `kx_sheet_fetch` answers, with no check of the records.
#[unsafe(no_mangle)]
pub extern "C" fn kx_sheet_read(
    sheet: &[u8],
    len: usize,
    k: u32,
    number: &mut u32,
    start: &mut [i32],
    sides: &mut [u32],
    fee_row: &mut u16,
) -> u32
    ensures { calls.Hands (sheets.reading sheet.now len k start.old sides.old) sheets.plot_of (number.old, start.old, sides.old, fee_row.old) (number.new, start.new, sides.new, fee_row.new) result }
{
    koxirmeta_c::sheets::kx_sheet_read(sheet, len, k, number, start, sides, fee_row)
}

// Starts a sheet of no records after `heading` bytes.
#[unsafe(no_mangle)]
pub extern "C" fn kx_sheet_start(sheet: &mut [u8], heading: usize, len: &mut usize) -> u32
    ensures { calls.Hands (started sheet.old heading) (λ n. n) len.old len.new result × (sheet.new ≡ after_start sheet.old heading) }
{
    koxirmeta_c::sheets::kx_sheet_start(sheet, heading, len)
}

// Inserts a plot by its number.
#[unsafe(no_mangle)]
pub extern "C" fn kx_sheet_insert(
    sheet: &mut [u8],
    len: usize,
    number: u32,
    start: &[i32],
    sides: &[u32],
    fee_row: u16,
    grown: &mut usize,
) -> u32
    ensures { calls.Hands (sheets.inserting sheet.old len number start.now sides.now fee_row) (λ n. n) grown.old grown.new result × (sheet.new ≡ sheets.after_inserting sheet.old len number start.now sides.now fee_row) }
{
    koxirmeta_c::sheets::kx_sheet_insert(sheet, len, number, start, sides, fee_row, grown)
}

// Joins two sheets in a third buffer.
#[unsafe(no_mangle)]
pub extern "C" fn kx_sheet_join(
    first: &[u8],
    first_len: usize,
    second: &[u8],
    second_len: usize,
    joined: &mut [u8],
    len: &mut usize,
) -> u32
    ensures hands { calls.Hands (joins.joined first.now first_len second.now second_len joined.old) (λ n. n) len.old len.new result × (joined.new ≡ joins.after_join first.now first_len second.now second_len joined.old) }
    ensures only_read { (first.exit.now ≡ first.entry.now) × (second.exit.now ≡ second.entry.now) }
{
    koxirmeta_c::sheets::kx_sheet_join(first, first_len, second, second_len, joined, len)
}

// Copies a sheet into a second buffer, at 26 bytes a record.
#[unsafe(no_mangle)]
pub extern "C" fn kx_sheet_convert(
    first: &[u8],
    first_len: usize,
    second: &mut [u8],
    len: &mut usize,
) -> u32
    ensures hands { calls.Hands (conversions.converted first.now first_len second.old) (λ n. n) len.old len.new result × (second.new ≡ conversions.after_convert first.now first_len second.old) }
    ensures only_read { first.exit.now ≡ first.entry.now }
{
    koxirmeta_c::sheets::kx_sheet_convert(first, first_len, second, len)
}
