// What `check`, `fetch` and `read` answer, side by side, for a sheet of two plots of any format. A `read` looks at the length, the
// trailer and k, and not at the records.
use crate::buffer::Buffer;
use crate::format::Format;
use crate::making::PAIR;
use std::io;

// The answers for one byte changed, each time, and record k.
fn changed(rt: &impl Print, format: Format, all: &[(usize, u8, u32)]) -> io::Result<()> {
    for (at, byte, k) in all {
        let mut bytes = [0; PAIR];
        let mut sheet = Buffer::new(&mut bytes, 0);
        sheet.make_pair(rt, format)?;
        sheet.put(*at, &[*byte]);
        sheet.say_checked(rt)?;
        sheet.say_both(rt, *k)?;
    }
    Ok(())
}

// The sheet as it is: its first byte is 255. Both records, and two that there are not.
const SOUND: [(usize, u8, u32); 4] = [(0, 255, 0), (0, 255, 1), (0, 255, 2), (0, 255, u32::MAX)];

// A number that is 0, an outline that is open, and one that leaves the map, in the record that is asked for or in another, or before a k
// that is too large.
fn wrong_records(rt: &impl Print, format: Format) -> io::Result<()> {
    let all = [
        (0, 0, 0),
        (format.side(), 43, 1),
        (format.last_of_i(), 127, 0),
        (0, 0, 2),
    ];
    changed(rt, format, &all)
}

// Wrong letters, and a wrong distance, before a k that is too large.
fn wrong_trailers(rt: &impl Print, format: Format) -> io::Result<()> {
    let end = format.pair();
    changed(rt, format, &[(end - 1, 69, 2), (end - 16, 47, 2)])
}

// Lengths that are too short, or not the sheet's, before a k that is too large.
fn wrong_lengths(rt: &impl Print, format: Format) -> io::Result<()> {
    let mut bytes = [0; PAIR];
    let mut sheet = Buffer::new(&mut bytes, 0);
    sheet.make_pair(rt, format)?;
    for len in [15, format.pair() - 1, PAIR + 1] {
        sheet.len = len;
        sheet.say_read(rt, 2)?;
    }
    Ok(())
}

pub fn reading(rt: &impl Print, format: Format) -> io::Result<()> {
    changed(rt, format, &SOUND)?;
    wrong_records(rt, format)?;
    wrong_trailers(rt, format)?;
    wrong_lengths(rt, format)
}
