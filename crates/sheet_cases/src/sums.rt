// Counts of cells, and their sums, about 2 ^ 32 and far above it.
use crate::buffer::{Buffer, PAST};
use crate::format::Format;
use crate::plots::{broad, rectangle, whole};
use std::io;

// The whole map, 16,000,008,000,001 cells, by itself; then beside it 2 ^ 32 - 1, 2 ^ 32 and 65,537 * 65,537 cells, and a plot with eight
// different sides.
pub fn counts(rt: &impl Print) -> io::Result<()> {
    let mut bytes = [PAST; 260];
    let mut sheet = Buffer::new(&mut bytes, 0);
    sheet.tell_start(rt, 0)?;
    sheet.tell_insert(rt, 21, whole())?;
    sheet.show(rt)?;
    sheet.tell_insert(rt, 22, rectangle(-30011, 40023, 65534, 65536))?;
    sheet.tell_insert(rt, 23, rectangle(50017, -60029, 65535, 65535))?;
    sheet.tell_insert(rt, 24, rectangle(-70031, -80047, 65536, 65536))?;
    sheet.tell_insert(rt, 25, broad(90053, 100069))?;
    sheet.show(rt)
}

// Two counts below 2 ^ 32 whose sum is above it.
pub fn sum(rt: &impl Print) -> io::Result<()> {
    let mut bytes = [PAST; 120];
    let mut sheet = Buffer::new(&mut bytes, 0);
    let first = rectangle(-110051, 120077, 59999, 49999);
    let second = rectangle(130069, -140083, 49998, 59998);
    sheet.append_record(Format::County, 31, first);
    sheet.append_record(Format::County, 32, second);
    sheet.append_trailer(Format::County, 2);
    sheet.show(rt)
}

// The fullest sheet of a format, of so many plots, each the largest that it may have.
pub fn greatest(rt: &impl Print, format: Format, count: u16) -> io::Result<()> {
    let mut bytes = [PAST; 65600];
    let mut sheet = Buffer::new(&mut bytes, 0);
    sheet.append_largest(format, count);
    sheet.show_digest(rt)
}
