// Sheets of every format that are written byte by byte, with no call of the crate `sheet`.
use crate::buffer::Buffer;
use crate::format::Format;
use crate::plots::{fee_row, plot, rectangle, whole, wide};
use outline::Outline;

// The lower two bytes of a number.
fn two_bytes(n: u32) -> [u8; 2] {
    let [low, high, _, _] = n.to_le_bytes();
    [low, high]
}

// The coordinates and sides of an outline, in the order of a record.
fn fields(o: Outline) -> [u32; 10] {
    let i = o.i.cast_unsigned();
    let j = o.j.cast_unsigned();
    [i, j, o.n0, o.n1, o.n2, o.n3, o.n4, o.n5, o.n6, o.n7]
}

// The trailer that states these numbers.
fn trailer(distance: u32, count: u32, each: u32) -> [[u8; 4]; 4] {
    let marks = u32::from_le_bytes(*b"GRND");
    [distance, count, each, marks].map(u32::to_le_bytes)
}

// The largest plot that a record may have: the whole map, or the whole old map.
fn largest(format: Format) -> Outline {
    match format {
        Format::Base | Format::Fee => rectangle(-16000, -16000, 32000, 32000),
        Format::County => whole(),
    }
}

impl Buffer<'_> {
    // Puts bytes after what is there.
    fn append(&mut self, bytes: &[u8]) {
        self.put(self.len, bytes);
        self.len = self.len.saturating_add(bytes.len());
    }

    // Puts the record of a plot after what is there. A record of 24 has no place for the fee row.
    pub fn append_record(&mut self, format: Format, number: u32, outline: Outline) {
        self.append(&number.to_le_bytes());
        let fields = fields(outline);
        match format {
            Format::Base | Format::Fee => self.append(fields.map(two_bytes).as_flattened()),
            Format::County => self.append(fields.map(u32::to_le_bytes).as_flattened()),
        }
        if format != Format::Base {
            self.append(&fee_row(number).to_le_bytes());
        }
    }

    // Puts the trailer of so many records after them.
    pub fn append_trailer(&mut self, format: Format, count: u16) {
        let each = format.record() as u32;
        let count = u32::from(count);
        self.append(trailer(each * count, count, each).as_flattened());
    }

    // Puts a trailer that states these numbers at an index.
    pub fn put_stated(&mut self, at: usize, distance: u32, count: u32, each: u32) {
        self.put(at, trailer(distance, count, each).as_flattened());
    }

    // Makes a sheet of so many plots, whose numbers are the even ones from 2 on, after what is there.
    pub fn append_plots(&mut self, format: Format, count: u16) {
        for k in 1..=count {
            let number = 2 * u32::from(k);
            self.append_record(format, number, plot(number));
        }
        self.append_trailer(format, count);
    }

    // The same with the largest plot that a record may have under each number.
    pub fn append_largest(&mut self, format: Format, count: u16) {
        for k in 1..=count {
            self.append_record(format, 2 * u32::from(k), largest(format));
        }
        self.append_trailer(format, count);
    }

    // Makes a sheet of two plots by 24 or 26 bytes a record: number 255 in the corner of the old map, up to its east and north edges, and
    // number 511.
    pub fn append_old_pair(&mut self, format: Format) {
        self.append_record(format, 255, wide(15439, 14702));
        self.append_record(format, 511, plot(511));
        self.append_trailer(format, 2);
    }
}
