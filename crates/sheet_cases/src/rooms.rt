// Sheets of 24 and of 26 that have no plots, and an insert into them with little room.
use crate::buffer::{Buffer, PAST};
use crate::format::Format;
use crate::plots::plot;
use crate::words::say_digest;
use std::io;

// An insert into a sheet that has no plots, after five bytes, with room for so many bytes.
fn tell_empty(rt: &impl Print, format: Format, room: usize) -> io::Result<()> {
    let mut bytes = [PAST; 80];
    let mut sheet = Buffer::new(&mut bytes, 5);
    sheet.append_trailer(format, 0);
    sheet.show(rt)?;
    let empty = sheet.len;
    let mut lent = Buffer::new(&mut bytes[..room.min(80)], empty);
    lent.tell_insert(rt, 303, plot(303))?;
    let len = lent.len;
    Buffer::new(&mut bytes, len).show(rt)?;
    say_digest(rt, &bytes)
}

// Room for a record of the sheet's length, for one of 46 less a byte, for one of 46, and for more.
pub fn empty(rt: &impl Print, format: Format) -> io::Result<()> {
    for room in [21 + format.record(), 66, 67, 80] {
        tell_empty(rt, format, room)?;
    }
    Ok(())
}
