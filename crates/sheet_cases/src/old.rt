// The sheets of tests/old_sheets/, from standard input, as they were written when records had 24 and 26 bytes: each is checked, fetched,
// read, listed and converted, and plots are put into it, which writes it anew at 46.
use crate::buffer::{Buffer, PAST};
use crate::plots::{county, plot};
use crate::words::say_digest;
use outline::Outline;
use std::io;
use std::io::Read;

// The room for such a sheet and two records more.
const ROOM: usize = 400;

// The next byte of the input; after its end, 0.
fn next_byte(input: &mut impl Read) -> u8 {
    let mut byte = [0];
    let _ = input.read_exact(&mut byte);
    byte[0]
}

// A sheet in the first bytes of a buffer, which are lent anew for each call.
#[derive(Clone, Copy)]
struct OldSheet {
    bytes: [u8; ROOM],
    len: usize,
}

impl OldSheet {
    // The next sheet of the input: its length in a byte, and its bytes.
    fn read(input: &mut impl Read) -> Self {
        let len = usize::from(next_byte(input));
        let mut bytes = [PAST; ROOM];
        let _ = input.read_exact(&mut bytes[..len]);
        OldSheet { bytes, len }
    }

    // Writes what it says: the count, the first six records and the listing; then its conversions.
    fn say_all(self, rt: &impl Print) -> io::Result<()> {
        let mut bytes = self.bytes;
        let sheet = Buffer::new(&mut bytes, self.len);
        sheet.say_checked(rt)?;
        for k in 0..6 {
            sheet.say_both(rt, k)?;
        }
        sheet.show(rt)?;
        sheet.tell_copies(rt)
    }

    // An insert: the length, which is given back, the whole buffer's digest, the listing, how far the bytes past the sheet are kept, and the
    // conversion. Then one more plot.
    fn tell_grown(self, rt: &impl Print, number: u32, outline: Outline) -> io::Result<usize> {
        let mut bytes = self.bytes;
        let mut sheet = Buffer::new(&mut bytes, self.len);
        sheet.tell_insert(rt, number, outline)?;
        let len = sheet.len;
        say_digest(rt, sheet.bytes)?;
        sheet.show(rt)?;
        sheet.say_kept(rt)?;
        sheet.tell_copy(rt)?;
        sheet.tell_insert(rt, 512, plot(512))?;
        say_digest(rt, sheet.bytes)?;
        Ok(len)
    }

    // An insert with so much room, and the digest of all bytes afterwards.
    fn tell_within(self, rt: &impl Print, room: usize, number: u32) -> io::Result<()> {
        let mut bytes = self.bytes;
        Buffer::new(&mut bytes[..room.min(ROOM)], self.len).tell_insert(rt, number, plot(number))?;
        say_digest(rt, &bytes)
    }

    // Inserts before its first record, between two or after the last, of plots on the old map and off it; then with room for nothing more, for
    // one record more but not for the others at 46, for all less a byte and for all; then the number 0 and a number that most of the sheets
    // have, for which there is no room either.
    fn tell_inserts(self, rt: &impl Print) -> io::Result<()> {
        self.tell_grown(rt, 4, plot(4))?;
        self.tell_grown(rt, 80003, county(80003))?;
        self.tell_grown(rt, u32::MAX, county(u32::MAX))?;
        let needed = self.tell_grown(rt, 9, plot(9))?;
        let len = self.len;
        let rooms = [
            (len, 9),
            (len.saturating_add(46), 9),
            (needed.saturating_sub(1), 9),
            (needed, 9),
            (len, 0),
            (len, 303),
        ];
        for (room, number) in rooms {
            self.tell_within(rt, room, number)?;
        }
        Ok(())
    }
}

// As many sheets as the first byte says.
pub fn old_sheets(rt: &impl Print, input: &mut impl Read) -> io::Result<()> {
    for _ in 0..next_byte(input) {
        let sheet = OldSheet::read(input);
        sheet.say_all(rt)?;
        sheet.tell_inserts(rt)?;
    }
    Ok(())
}
