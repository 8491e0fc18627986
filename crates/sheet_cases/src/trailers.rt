// A sheet of two plots, of any format, with another trailer after its records.
use crate::buffer::Buffer;
use crate::format::Format;
use crate::making::PAIR;
use std::io;

// What a trailer states: its distance, count and record length.
type Stated = (u32, u32, u32);

// Distances that fit two records of each length, with that record length and with the others: what fits another length reaches too far
// back, or to a place inside a record.
const EXCHANGED: [Stated; 9] = [
    (48, 2, 24),
    (52, 2, 26),
    (92, 2, 46),
    (48, 2, 26),
    (52, 2, 24),
    (92, 2, 26),
    (92, 2, 24),
    (48, 2, 46),
    (52, 2, 46),
];

// One record less, so that the first is heading, one more, and none.
const COUNTED: [Stated; 9] = [
    (24, 1, 24),
    (26, 1, 26),
    (46, 1, 46),
    (72, 3, 24),
    (78, 3, 26),
    (138, 3, 46),
    (0, 0, 24),
    (0, 0, 26),
    (0, 0, 46),
];

// Other record lengths, with distances that fit them or not.
const OTHER_LENGTHS: [Stated; 8] = [
    (46, 2, 23),
    (50, 2, 25),
    (52, 2, 25),
    (52, 2, 27),
    (90, 2, 45),
    (92, 2, 47),
    (0, 2, 0),
    (0, 0, 48),
];

// Counts whose product with the record length is the distance in 32 bits, but not in full.
const WRAPPED: [Stated; 6] = [
    (0, 2147483648, 24),
    (0, 2147483648, 26),
    (0, 2147483648, 46),
    (48, 2147483650, 24),
    (52, 2147483650, 26),
    (92, 2147483650, 46),
];

// The sheet with each of these trailers.
fn each(rt: &impl Print, format: Format, trailers: &[Stated]) -> io::Result<()> {
    for (distance, count, length) in trailers {
        let mut bytes = [0; PAIR];
        let mut sheet = Buffer::new(&mut bytes, 0);
        sheet.make_pair(rt, format)?;
        sheet.put_stated(format.pair() - 16, *distance, *count, *length);
        sheet.show(rt)?;
    }
    Ok(())
}

pub fn trailers(rt: &impl Print, format: Format) -> io::Result<()> {
    each(rt, format, &EXCHANGED)?;
    each(rt, format, &COUNTED)?;
    each(rt, format, &OTHER_LENGTHS)?;
    each(rt, format, &WRAPPED)
}
