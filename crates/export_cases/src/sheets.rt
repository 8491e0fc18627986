// The calls on sheets, and the listing.
use crate::print::{Hex, List, tell};
use crate::samples::Sheet;
use koxirmeta_c::sheets::{
    kx_sheet_check, kx_sheet_fetch, kx_sheet_insert, kx_sheet_read, kx_sheet_start,
};
use listing_c::kx_list;
use report::TEXT;
use std::io;

// A plot as it is handed over: its number, its outline, and its fee row.
#[derive(Clone, Copy)]
pub struct Plot<'a> {
    pub number: u32,
    pub start: &'a [i32],
    pub sides: &'a [u32],
    pub fee_row: u16,
}

pub fn sheet_start(rt: &impl Print, buffer: &mut [u8], heading: usize) -> io::Result<()> {
    let mut len = 101;
    let answer = kx_sheet_start(buffer, heading, &mut len);
    tell(
        rt,
        "sheet_start",
        answer,
        format_args!(" {len}{}", Hex(buffer)),
    )
}

pub fn sheet_insert(rt: &impl Print, buffer: &mut [u8], len: usize, plot: Plot) -> io::Result<()> {
    let mut grown = 101;
    let answer = kx_sheet_insert(
        buffer,
        len,
        plot.number,
        plot.start,
        plot.sides,
        plot.fee_row,
        &mut grown,
    );
    tell(
        rt,
        "sheet_insert",
        answer,
        format_args!(" {grown}{}", Hex(buffer)),
    )
}

pub fn sheet_check(rt: &impl Print, sheet: Sheet) -> io::Result<()> {
    let mut count = 101;
    let answer = kx_sheet_check(sheet.buffer, sheet.len, &mut count);
    tell(rt, "sheet_check", answer, format_args!(" {count}"))
}

// A call that hands a record over: its number, its outline, and its fee row.
fn handed<F: FnOnce(&mut u32, &mut [i32], &mut [u32], &mut u16) -> u32>(
    rt: &impl Print,
    name: &str,
    start: &mut [i32],
    sides: &mut [u32],
    call: F,
) -> io::Result<()>
    requires { F.IsAlwaysCallable call }
{
    let mut number = 101;
    let mut fee_row = 401;
    let answer = call(&mut number, start, sides, &mut fee_row);
    tell(
        rt,
        name,
        answer,
        format_args!(" {number}{}{} {fee_row}", List(start), List(sides)),
    )
}

// Record k by both calls, into a start and sides.
fn record_to(
    rt: &impl Print,
    sheet: Sheet,
    k: u32,
    start: &mut [i32],
    sides: &mut [u32],
) -> io::Result<()> {
    handed(
        rt,
        "sheet_fetch",
        start,
        sides,
        |number, start, sides, fee_row| {
            kx_sheet_fetch(sheet.buffer, sheet.len, k, number, start, sides, fee_row)
        },
    )?;
    handed(
        rt,
        "sheet_read",
        start,
        sides,
        |number, start, sides, fee_row| {
            kx_sheet_read(sheet.buffer, sheet.len, k, number, start, sides, fee_row)
        },
    )
}

// What a start and sides hold before a call.
const START: [i32; 2] = [201, 202];

const SIDES: [u32; 8] = [301, 302, 303, 304, 305, 306, 307, 308];

pub fn record(rt: &impl Print, sheet: Sheet, k: u32) -> io::Result<()> {
    record_to(rt, sheet, k, &mut START, &mut SIDES)
}

// A start of one number.
pub fn short_start(rt: &impl Print, sheet: Sheet) -> io::Result<()> {
    record_to(rt, sheet, 1, &mut START[..1], &mut SIDES)
}

// Seven sides.
pub fn short_sides(rt: &impl Print, sheet: Sheet) -> io::Result<()> {
    record_to(rt, sheet, 1, &mut START, &mut SIDES[..7])
}

// The index up to which the bytes from an index on are as they were lent.
fn kept(lent: &[u8], from: usize) -> usize {
    let same = lent.iter().skip(from).take_while(|byte| **byte == 170);
    from.saturating_add(same.count())
}

// A listing in memory that was lent: its length, how far the bytes after it are kept, and its text.
pub fn list(rt: &impl Print, sheet: Sheet) -> io::Result<()> {
    let mut lent = [170; TEXT];
    let mut written = 101;
    let answer = kx_list(sheet.buffer, sheet.len, &mut lent, &mut written);
    let kept = kept(&lent, written);
    tell(rt, "list", answer, format_args!(" {written} {kept}\n"))?;
    rt.write_all(&lent[..written.min(TEXT)])
}
