// Sheets that are copied by 26 bytes a record into a second buffer: what `convert` answers, and the digest of all bytes of that buffer.
use crate::buffer::{Buffer, PAST};
use crate::words::say_digest;
use std::io;

// The room for the copy of a short sheet.
const ROOM: usize = 240;

impl Buffer<'_> {
    // Copies the sheet into a second buffer, of which the length is taken; it stays after a refusal.
    pub fn tell_convert(&self, rt: &impl Print, second: &mut Buffer) -> io::Result<()> {
        let length = sheet::convert(self.bytes, self.len, second.bytes);
        second.tell(rt, length)
    }

    // The same into a buffer of its own, with so much room, and the length; 0 after a refusal.
    fn tell_copy_within(&self, rt: &impl Print, room: usize) -> io::Result<usize> {
        let mut bytes = [PAST; ROOM];
        let mut second = Buffer::new(&mut bytes[..room.min(ROOM)], 0);
        self.tell_convert(rt, &mut second)?;
        let len = second.len;
        say_digest(rt, &bytes)?;
        Ok(len)
    }

    // The same with all its room.
    pub fn tell_copy(&self, rt: &impl Print) -> io::Result<usize> {
        self.tell_copy_within(rt, ROOM)
    }

    // The same with all its room, with just the room, with one byte less, and with none; then the digest of the sheet's own buffer.
    pub fn tell_copies(&self, rt: &impl Print) -> io::Result<()> {
        let needed = self.tell_copy(rt)?;
        for room in [needed, needed.saturating_sub(1), 0] {
            self.tell_copy_within(rt, room)?;
        }
        say_digest(rt, self.bytes)
    }
}
