// Sheets of every format, written byte by byte, that hold a plot up to an edge of the map on which its record is read, or one cell past it:
// 16,000 and 16,001 cells from the middle for records of 24 and of 26, 2,000,000 and 2,000,001 for those of 46, to the east, the north, the
// west and the south. A plot near the middle is put into each, and the far plot into a sheet of one near the middle; what is left is
// converted. Of records of 46, the plots at 16,000 and 16,001 too, of which no more than the first can be converted.
use crate::buffer::{Buffer, PAST};
use crate::format::Format;
use crate::plots::{broad, plot, wide};
use crate::words::say_digest;
use outline::Outline;
use std::io;

// The room for a sheet of three plots of any format.
const ROOM: usize = 160;

// A plot by its number and its outline.
#[derive(Clone, Copy)]
struct Plot {
    number: u32,
    outline: Outline,
}

// The plot near the middle that stands before the far one.
fn near() -> Plot {
    Plot {
        number: 43,
        outline: plot(43),
    }
}

// The plot near the middle that is put into each sheet.
fn late() -> Plot {
    Plot {
        number: 50,
        outline: plot(50),
    }
}

impl Buffer<'_> {
    // Makes the sheet of these plots, with no heading.
    fn make_sheet(&mut self, format: Format, plots: &[Plot]) {
        let mut count = 0u16;
        for plot in plots {
            self.append_record(format, plot.number, plot.outline);
            count = count.saturating_add(1);
        }
        self.append_trailer(format, count);
    }

    // What an insert answers and leaves in the buffer, the listing, and the conversion.
    fn tell_grown(&mut self, rt: &impl Print, plot: Plot) -> io::Result<()> {
        self.tell_insert(rt, plot.number, plot.outline)?;
        say_digest(rt, self.bytes)?;
        self.show(rt)?;
        self.tell_copy(rt)?;
        Ok(())
    }

    // What the calls answer for a sheet, of which record k is fetched; then an insert of another plot near the middle.
    fn tell_calls(&mut self, rt: &impl Print, k: u32) -> io::Result<()> {
        self.say_checked(rt)?;
        self.say_both(rt, k)?;
        self.show(rt)?;
        self.tell_copy(rt)?;
        self.tell_grown(rt, late())
    }
}

// The calls for the sheet of these plots, of which record k is fetched.
fn tell_sheet(rt: &impl Print, format: Format, plots: &[Plot], k: u32) -> io::Result<()> {
    let mut bytes = [PAST; ROOM];
    let mut sheet = Buffer::new(&mut bytes, 0);
    sheet.make_sheet(format, plots);
    sheet.tell_calls(rt, k)
}

// The far plot put into a sheet of the plot near the middle.
fn tell_put_in(rt: &impl Print, format: Format, far: Plot) -> io::Result<()> {
    let mut bytes = [PAST; ROOM];
    let mut sheet = Buffer::new(&mut bytes, 0);
    sheet.make_sheet(format, &[near()]);
    sheet.tell_grown(rt, far)
}

// The far plot alone, after the plot near the middle, and put into a sheet of that.
fn tell_plot(rt: &impl Print, format: Format, far: Plot) -> io::Result<()> {
    tell_sheet(rt, format, &[far], 0)?;
    tell_sheet(rt, format, &[near(), far], 1)?;
    tell_put_in(rt, format, far)
}

// The numbers and starts of plots that reach up to 16,000 to the east, the north, the west and the south; and up to 16,001.
const OLD_FAR: [(u32, i32, i32); 8] = [
    (70001, 15439, 211),
    (80002, -322, 14702),
    (90003, -15484, 433),
    (100004, 544, -16000),
    (110005, 15440, -655),
    (120006, 766, 14703),
    (130007, -15485, -877),
    (140008, -988, -16001),
];

// The same for 2,000,000 and 2,000,001.
const COUNTY_FAR: [(u32, i32, i32); 8] = [
    (150009, 1855823, 20011),
    (160010, -30022, 1666414),
    (170011, -1867388, 40033),
    (180012, 50044, -2000000),
    (190013, 1855824, -60055),
    (200014, 70066, 1666415),
    (210015, -1867389, -80077),
    (220016, -90088, -2000001),
];

// About the edges of the old map, in records of each format.
fn old_edges(rt: &impl Print, format: Format) -> io::Result<()> {
    for (number, i, j) in OLD_FAR {
        let outline = wide(i, j);
        tell_plot(rt, format, Plot { number, outline })?;
    }
    Ok(())
}

// About the edges of the map, in records of 46.
fn county_edges(rt: &impl Print) -> io::Result<()> {
    for (number, i, j) in COUNTY_FAR {
        let outline = broad(i, j);
        tell_plot(rt, Format::County, Plot { number, outline })?;
    }
    Ok(())
}

pub fn edges(rt: &impl Print) -> io::Result<()> {
    for format in Format::ALL {
        old_edges(rt, format)?;
    }
    county_edges(rt)
}
