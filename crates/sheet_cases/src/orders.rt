// Calls that more than one refusal fits: the first in document 01's order is given, and the sheet stays as it was.
use crate::buffer::{Buffer, PAST};
use crate::format::Format;
use crate::plots::{broad, plot, unclosed, wide};
use crate::words::say_digest;
use outline::Outline;
use std::io;

// What `insert` answers and leaves in a buffer of 153 bytes, for a length that is stated: a sheet of two plots, and one byte less than three
// records of 46 need.
fn tell_insert(
    rt: &impl Print,
    format: Format,
    len: usize,
    number: u32,
    outline: Outline,
) -> io::Result<()> {
    let mut bytes = [0; 153];
    let mut sheet = Buffer::new(&mut bytes, 0);
    sheet.make_pair(rt, format)?;
    sheet.len = len;
    sheet.tell_insert(rt, number, outline)?;
    say_digest(rt, sheet.bytes)
}

// The outline's refusals come before the sheet's: an open outline that leaves the map too, an open one, and one that leaves the map to
// the east, north, west and south, each with the number 0 and into a sheet that is too short.
pub fn outlines(rt: &impl Print) -> io::Result<()> {
    let wrong = [
        unclosed(1855824, 0),
        unclosed(0, 1),
        broad(1855824, 0),
        broad(0, 1666415),
        broad(-1867389, 0),
        broad(0, -2000001),
    ];
    for outline in wrong {
        tell_insert(rt, Format::County, 15, 0, outline)?;
    }
    Ok(())
}

// An outline that leaves the old map alone has none of these, whatever the format of the sheet: a sheet that is too short, and the number 0.
pub fn past_old_map(rt: &impl Print) -> io::Result<()> {
    tell_insert(rt, Format::Base, 15, 0, wide(15440, 0))?;
    tell_insert(rt, Format::Base, Format::Base.pair(), 0, wide(0, 14703))?;
    tell_insert(rt, Format::Fee, Format::Fee.pair(), 0, wide(-15485, 0))
}

// The sheet's come before the number's, and the number's before the room's: 15 bytes and one less than the sheet are no sheet, and after
// it there is no room.
pub fn numbers(rt: &impl Print, format: Format) -> io::Result<()> {
    let end = format.pair();
    let stated = [
        (15, 0),
        (end - 1, 0),
        (end, 0),
        (end, 255),
        (end, 511),
        (end, 9),
    ];
    for (len, number) in stated {
        tell_insert(rt, format, len, number, plot(9))?;
    }
    Ok(())
}

// A plot that just fits, with the largest number, and one more; records that there are, and two that there are not, also where the
// sheet is none.
pub fn last_number(rt: &impl Print, format: Format) -> io::Result<()> {
    let mut bytes = [0; 154];
    let mut sheet = Buffer::new(&mut bytes, 0);
    sheet.make_pair(rt, format)?;
    sheet.tell_insert(rt, u32::MAX, plot(u32::MAX))?;
    sheet.tell_insert(rt, u32::MAX, plot(9))?;
    sheet.tell_insert(rt, 9, plot(9))?;
    for k in [0, 1, 2, 3, u32::MAX] {
        sheet.say_fetched(rt, k)?;
    }
    sheet.len = 153;
    sheet.say_fetched(rt, u32::MAX)
}

// What `start` answers and leaves after headings: the longest sheet, and one byte more, which is too long also where the buffer is too
// small; 87 bytes, and one more; the largest number.
fn starts(rt: &impl Print, bytes: &mut [u8]) -> io::Result<()> {
    let mut sheet = Buffer::new(bytes, 0);
    for heading in [65520, 65521, 71, 72, usize::MAX] {
        sheet.tell_start(rt, heading)?;
        say_digest(rt, sheet.bytes)?;
    }
    Ok(())
}

// Buffers of 87 bytes, of one byte less than the longest sheet, of as many, and of one byte more.
pub fn limits(rt: &impl Print) -> io::Result<()> {
    let mut small = [PAST; 87];
    starts(rt, &mut small)?;
    let mut short = [PAST; 65535];
    starts(rt, &mut short)?;
    let mut exact = [PAST; 65536];
    starts(rt, &mut exact)?;
    Buffer::new(&mut exact, 65536).show(rt)?;
    let mut more = [PAST; 65537];
    starts(rt, &mut more)?;
    Buffer::new(&mut more, 65536).show(rt)?;
    Buffer::new(&mut more, 65537).show(rt)
}
