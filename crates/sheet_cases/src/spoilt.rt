// A sheet of two plots, of any format, with bytes changed, and with lengths that are not its own. The check reads fields in document
// 01's order.
use crate::buffer::Buffer;
use crate::format::Format;
use crate::making::PAIR;
use std::io;

// The sheet with one byte that is one more.
fn raised(rt: &impl Print, format: Format, at: usize) -> io::Result<()> {
    let mut bytes = [0; PAIR];
    let mut sheet = Buffer::new(&mut bytes, 0);
    sheet.make_pair(rt, format)?;
    if let Some(byte) = sheet.bytes.get_mut(at) {
        *byte = byte.wrapping_add(1);
    }
    sheet.show(rt)
}

// Each byte in turn. The first record: the number becomes 0, that of the second, or larger; the start leaves the map; a side opens the
// outline; the fee row is another. The second: the number, the start and the fee row are others, and a side opens the outline. The trailer:
// the distance and the count do not fit; record length, zero bytes and letters are wrong.
pub fn every_byte(rt: &impl Print, format: Format) -> io::Result<()> {
    for at in 0..format.pair() {
        raised(rt, format, at)?;
    }
    Ok(())
}

// Two bytes that are changed, each by its index: two things are wrong, or each makes up for the other.
type Changes = [(usize, u8); 2];

// Opposite sides that shrink alike; letters and distance; distance and number; number and side; side and start; a side, and a start, of
// the first record and the number or a side of the second; the last byte of the first record and of the second.
fn changes(format: Format) -> [Changes; 8] {
    let side = format.side();
    let second = format.record();
    let end = format.pair();
    [
        [(side, 43), (format.opposite(), 33)],
        [(end - 4, 0), (end - 16, 0)],
        [(end - 16, 0), (0, 0)],
        [(0, 0), (side, 0)],
        [(side, 0), (format.last_of_i(), 127)],
        [(side, 0), (second + 1, 0)],
        [(format.last_of_i(), 127), (second + side, 0)],
        [(second - 1, 251), (end - 17, 252)],
    ]
}

pub fn twice(rt: &impl Print, format: Format) -> io::Result<()> {
    for changes in changes(format) {
        let mut bytes = [0; PAIR];
        let mut sheet = Buffer::new(&mut bytes, 0);
        sheet.make_pair(rt, format)?;
        for (at, byte) in changes {
            sheet.put(at, &[byte]);
        }
        sheet.show(rt)?;
    }
    Ok(())
}

// A sheet that is too short, cut, longer, or longer than its buffer.
pub fn wrong_lengths(rt: &impl Print, format: Format) -> io::Result<()> {
    let mut bytes = [0; PAIR];
    let mut sheet = Buffer::new(&mut bytes, 0);
    sheet.make_pair(rt, format)?;
    for len in [0, 15, 16, 63, 65, 67, 69, PAIR - 1, PAIR + 1, usize::MAX] {
        sheet.len = len;
        sheet.show(rt)?;
    }
    Ok(())
}
