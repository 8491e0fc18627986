// A buffer with a sheet in its first bytes, so many: what is put into it, what the calls of `sheet` answer for it, and what is written of
// that.
use crate::plots::fee_row;
use crate::words::{Fields, say_digest};
use octagon::Refusal;
use outline::Outline;
use sheet::Record;
use std::io;

// What a buffer holds before a sheet is put into it, where its bytes are looked at afterwards.
pub const PAST: u8 = 170;

// The length is one that a test states: it may be another than the sheet's, and larger than the buffer.
#[derive(Drop)]
pub struct Buffer<'a> {
    pub bytes: &'a mut [u8],
    pub len: usize,
}

// Writes a refusal.
fn say_refused(rt: &impl Print, refusal: Refusal) -> io::Result<()> {
    println!(rt; "refused {}", refusal.number())
}

// Writes a record after a word, or the refusal.
fn say_record(rt: &impl Print, word: &str, record: Result<Record, Refusal>) -> io::Result<()> {
    match record {
        Ok(r) => println!(rt; "{word} {}", Fields(r)),
        Err(refusal) => say_refused(rt, refusal),
    }
}

// A plot with the fee row of its number.
fn with_fee(number: u32, outline: Outline) -> Record {
    Record {
        number,
        outline,
        fee_row: fee_row(number),
    }
}

impl<'a> Buffer<'a> {
    pub fn new(bytes: &'a mut [u8], len: usize) -> Self {
        Self { bytes, len }
    }

    // Puts bytes at an index, as far as there is room.
    pub fn put(&mut self, at: usize, bytes: &[u8]) {
        let start = at.min(self.bytes.len());
        for (to, byte) in self.bytes[start..].iter_mut().zip(bytes) {
            *to = *byte;
        }
    }

    // Takes the length of a sheet that was written; a refusal, after which the length stays, is written out.
    fn take(&mut self, rt: &impl Print, length: Result<usize, Refusal>) -> io::Result<()> {
        match length {
            Ok(len) => {
                self.len = len;
                Ok(())
            }
            Err(refusal) => say_refused(rt, refusal),
        }
    }

    // The same, with the length written out too.
    pub fn tell(&mut self, rt: &impl Print, length: Result<usize, Refusal>) -> io::Result<()> {
        if let Ok(len) = length {
            println!(rt; "length {len}")?;
        }
        self.take(rt, length)
    }

    // Starts a sheet after so many bytes of heading.
    pub fn start(&mut self, rt: &impl Print, heading: usize) -> io::Result<()> {
        let length = sheet::start(self.bytes, heading);
        self.take(rt, length)
    }

    // The same, with what `start` answers written out.
    pub fn tell_start(&mut self, rt: &impl Print, heading: usize) -> io::Result<()> {
        let length = sheet::start(self.bytes, heading);
        self.tell(rt, length)
    }

    // Inserts a plot.
    pub fn insert(&mut self, rt: &impl Print, number: u32, outline: Outline) -> io::Result<()> {
        let record = with_fee(number, outline);
        let length = sheet::insert(self.bytes, self.len, record);
        self.take(rt, length)
    }

    // The same, with what `insert` answers written out.
    pub fn tell_insert(
        &mut self,
        rt: &impl Print,
        number: u32,
        outline: Outline,
    ) -> io::Result<()> {
        self.tell_record(rt, with_fee(number, outline))
    }

    // The same for a record.
    pub fn tell_record(&mut self, rt: &impl Print, record: Record) -> io::Result<()> {
        let length = sheet::insert(self.bytes, self.len, record);
        self.tell(rt, length)
    }

    // Writes record k by `fetch`.
    pub fn say_fetched(&self, rt: &impl Print, k: u32) -> io::Result<()> {
        let record = sheet::fetch(self.bytes, self.len, k);
        say_record(rt, "record", record)
    }

    // Writes record k by `read`.
    pub fn say_read(&self, rt: &impl Print, k: u32) -> io::Result<()> {
        let record = sheet::read(self.bytes, self.len, k);
        say_record(rt, "read", record)
    }

    // Writes record k by both.
    pub fn say_both(&self, rt: &impl Print, k: u32) -> io::Result<()> {
        self.say_fetched(rt, k)?;
        self.say_read(rt, k)
    }

    // Writes how many records the sheet has by `check`.
    pub fn say_checked(&self, rt: &impl Print) -> io::Result<()> {
        match sheet::check(self.bytes, self.len) {
            Ok(n) => println!(rt; "count {n}"),
            Err(refusal) => say_refused(rt, refusal),
        }
    }

    // Writes the listing.
    pub fn show(&self, rt: &impl Print) -> io::Result<()> {
        let mut text = [0; report::TEXT];
        let n = report::list(self.bytes, self.len, &mut text);
        rt.write_all(&text[..n])
    }

    // Writes the length and the digest of the listing.
    pub fn show_digest(&self, rt: &impl Print) -> io::Result<()> {
        let mut text = [0; report::TEXT];
        let n = report::list(self.bytes, self.len, &mut text);
        println!(rt; "listing {n}")?;
        say_digest(rt, &text[..n])
    }

    // Writes the index up to which the bytes past the sheet are as they were.
    pub fn say_kept(&self, rt: &impl Print) -> io::Result<()> {
        let past = self.bytes.iter().skip(self.len);
        let same = past.take_while(|byte| **byte == PAST).count();
        println!(rt; "kept {}", self.len.saturating_add(same))
    }
}
