// The fullest sheets that an insert or a conversion takes, and fuller ones. An insert writes every record with 46 bytes, so that 1,423 old
// ones are the most that one more can join, under at most sixteen bytes of heading; a conversion writes every record with 26 bytes, so that
// 2,520 are the most that it takes.
use crate::buffer::{Buffer, PAST};
use crate::format::Format;
use crate::plots::plot;
use crate::words::say_digest;
use std::io;

// The first record, those about the place of the plot 2,521, and the last of each of the sheets.
const SOME: [u32; 9] = [0, 1259, 1260, 1261, 1422, 1423, 2519, 2520, 2729];

// Writes the count, the listing, some records and the digest of the buffer.
fn say_sheet(rt: &impl Print, sheet: &Buffer) -> io::Result<()> {
    sheet.say_checked(rt)?;
    sheet.show_digest(rt)?;
    for k in SOME {
        sheet.say_fetched(rt, k)?;
    }
    say_digest(rt, sheet.bytes)
}

// A sheet after so many bytes of heading, of so many plots on the old map with even numbers.
#[derive(Clone, Copy)]
struct Full {
    format: Format,
    heading: usize,
    count: u16,
}

// Before and after an insert of the plot 2,521.
fn tell_insert(rt: &impl Print, full: Full) -> io::Result<()> {
    let mut bytes = [PAST; 65600];
    let mut sheet = Buffer::new(&mut bytes, full.heading);
    sheet.append_plots(full.format, full.count);
    say_sheet(rt, &sheet)?;
    sheet.tell_insert(rt, 2521, plot(2521))?;
    say_sheet(rt, &sheet)
}

// The conversion with so much room, and the conversion of what that left: the lengths, and the digests of the buffers.
fn tell_convert(rt: &impl Print, full: Full, room: usize) -> io::Result<()> {
    let mut bytes = [PAST; 65600];
    let mut sheet = Buffer::new(&mut bytes, full.heading);
    sheet.append_plots(full.format, full.count);
    let mut copied = [PAST; 65600];
    let mut copy = Buffer::new(&mut copied[..room.min(65600)], 0);
    sheet.tell_convert(rt, &mut copy)?;
    let len = copy.len;
    say_digest(rt, &copied)?;
    let mut again = [PAST; 65600];
    Buffer::new(&mut copied, len).tell_convert(rt, &mut Buffer::new(&mut again, 0))?;
    say_digest(rt, &again)
}

// Inserts that just fit, with one byte or one plot too many, and into the fullest sheets.
pub fn inserts(rt: &impl Print) -> io::Result<()> {
    let sheets = [
        (Format::Base, 16, 1423),
        (Format::Base, 17, 1423),
        (Format::Fee, 16, 1423),
        (Format::Fee, 17, 1423),
        (Format::Base, 0, 1424),
        (Format::Fee, 0, 1424),
        (Format::Fee, 0, 2520),
        (Format::Base, 0, 2730),
    ];
    for (format, heading, count) in sheets {
        let full = Full {
            format,
            heading,
            count,
        };
        tell_insert(rt, full)?;
    }
    Ok(())
}

// Conversions with just the room, with one byte less, with one byte or one plot too many for any buffer, and of the fullest sheets.
pub fn conversions(rt: &impl Print) -> io::Result<()> {
    let sheets = [
        (Format::Base, 0, 2520, 65536),
        (Format::Base, 0, 2520, 65535),
        (Format::Base, 1, 2520, 65600),
        (Format::Base, 0, 2521, 65600),
        (Format::Base, 0, 2730, 65600),
        (Format::Fee, 0, 2520, 65536),
        (Format::County, 16, 1424, 65600),
    ];
    for (format, heading, count, room) in sheets {
        let full = Full {
            format,
            heading,
            count,
        };
        tell_convert(rt, full, room)?;
    }
    Ok(())
}
