// Sheets that are made by `start` and `insert`, and the sheets of two plots.
use crate::buffer::Buffer;
use crate::format::Format;
use crate::plots::{block, broad, county, diamond};
use std::io;

// Room for a sheet of two plots of any format.
pub const PAIR: usize = 108;

impl Buffer<'_> {
    // Document 01's two plots.
    pub fn make_example(&mut self, rt: &impl Print) -> io::Result<()> {
        self.start(rt, 0)?;
        self.insert(rt, 7, block())?;
        self.insert(rt, 11407, diamond())
    }

    // A sheet of two plots in 108 bytes: number 255 in the corner of the map, up to its east and north edges, and number 511.
    fn make_county_pair(&mut self, rt: &impl Print) -> io::Result<()> {
        self.start(rt, 0)?;
        self.insert(rt, 511, county(511))?;
        self.insert(rt, 255, broad(1855823, 1666414))
    }

    // A sheet of two plots in a format.
    pub fn make_pair(&mut self, rt: &impl Print, format: Format) -> io::Result<()> {
        match format {
            Format::Base | Format::Fee => self.append_old_pair(format),
            Format::County => self.make_county_pair(rt)?,
        }
        Ok(())
    }
}
