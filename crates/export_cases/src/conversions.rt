// The copy of a sheet into a second buffer at 26 bytes a record.
ghost use Rattle.std.specs.Prelude.{◌<◌};

use crate::print::{Hex, tell};
use crate::samples::{BUFFER, COUNTY, HALF, NARROW, Sheet};
use koxirmeta_c::sheets::{kx_sheet_convert, kx_sheet_join};
use std::io;

// The length that is handed over, the second buffer, and the one that was only read.
fn convert_to(rt: &impl Print, first: Sheet, second: &mut [u8]) -> io::Result<()> {
    let mut len = 101;
    let answer = kx_sheet_convert(first.buffer, first.len, second, &mut len);
    tell(
        rt,
        "sheet_convert",
        answer,
        format_args!(" {len}{}", Hex(second)),
    )?;
    // In a print of its own: one format over slices of several lifetimes gets no proof.
    print!(rt; "{}", Hex(first.buffer))
}

// The same in a buffer with so much room.
fn convert(rt: &impl Print, first: Sheet, room: usize) -> io::Result<()> {
    let mut second = BUFFER;
    let lent = room.min(second.len());
    convert_to(rt, first, &mut second[..lent])
}

fn narrow<'a>() -> Sheet<'a> {
    Sheet::new(&NARROW, 67)
}

// A sheet of 24 and one of 26, and the two joined, which has 46: in a longer buffer, with just the room, one byte too few, and none.
fn old_plots(rt: &impl Print) -> io::Result<()> {
    let mut buffer = BUFFER;
    let mut len = 101;
    kx_sheet_join(&NARROW, 67, &HALF, 73, &mut buffer, &mut len);
    let joined = Sheet::new(&buffer, 157);
    for room in [163, 71, 70, 0] {
        convert(rt, narrow(), room)?;
    }
    for room in [163, 73, 72] {
        convert(rt, Sheet::new(&HALF, 73), room)?;
    }
    for room in [163, 97, 96] {
        convert(rt, joined, room)?;
    }
    Ok(())
}

// The sheet of 46 with one byte that is another.
fn changed(at: usize, byte: u8) -> [u8; 116]
    requires { at < 116 }
{
    let mut county = COUNTY;
    county[at] = byte;
    county
}

// A plot off the old map, also where there is no room; and what the check refuses before that: lengths, wrong letters, a wrong distance, a
// number above the next one, an open outline, and one off the map.
fn refusals(rt: &impl Print) -> io::Result<()> {
    convert(rt, Sheet::new(&COUNTY, 113), 163)?;
    convert(rt, Sheet::new(&COUNTY, 113), 0)?;
    convert(rt, Sheet::new(&COUNTY, 15), 163)?;
    convert(rt, Sheet::new(&COUNTY, 117), 163)?;
    convert(rt, Sheet::new(&COUNTY, 112), 163)?;
    convert(rt, Sheet::new(&changed(97, 51), 113), 0)?;
    convert(rt, Sheet::new(&changed(7, 1), 113), 163)?;
    convert(rt, Sheet::new(&changed(63, 164), 113), 163)?;
    convert(rt, Sheet::new(&changed(57, 224), 113), 0)
}

// An old sheet whose plot is off the old map: the check refuses it.
fn old_map(rt: &impl Print) -> io::Result<()> {
    let mut half = HALF;
    half[10] = 127;
    convert(rt, Sheet::new(&half, 73), 163)
}

pub fn conversions(rt: &impl Print) -> io::Result<()> {
    old_plots(rt)?;
    refusals(rt)?;
    old_map(rt)
}
