// Inserts in some order keep the heading, and the bytes past the sheet.
use crate::buffer::{Buffer, PAST};
use crate::plots::plot;
use std::io;

// A heading, which is put into a buffer before its sheet is started.
pub const HEADING: [u8; 20] = *b"Plots of the parish\n";

// Writes the lengths, the heading, the listing, the records and how far the bytes past the sheet are kept, after inserts of three plots in
// this order.
pub fn ordered(rt: &impl Print, numbers: [u32; 3]) -> io::Result<()> {
    let mut bytes = [PAST; 190];
    let mut sheet = Buffer::new(&mut bytes, 0);
    sheet.put(0, &HEADING);
    sheet.tell_start(rt, HEADING.len())?;
    for number in numbers {
        sheet.tell_insert(rt, number, plot(number))?;
    }
    let end = sheet.bytes.len().min(HEADING.len());
    rt.write_all(&sheet.bytes[..end])?;
    sheet.show(rt)?;
    for k in 0..3 {
        sheet.say_fetched(rt, k)?;
    }
    sheet.say_kept(rt)
}
