// The join of two sheets in a third buffer.
ghost use Rattle.std.specs.Prelude.{◌<◌};

use crate::print::{Hex, tell};
use crate::samples::{BUFFER, COUNTY, HALF, NARROW, Sheet};
use koxirmeta_c::sheets::kx_sheet_join;
use std::io;

// The length that is handed over, the third buffer, and the two that were only read.
fn join_to(rt: &impl Print, first: Sheet, second: Sheet, joined: &mut [u8]) -> io::Result<()> {
    let mut len = 101;
    let answer = kx_sheet_join(
        first.buffer,
        first.len,
        second.buffer,
        second.len,
        joined,
        &mut len,
    );
    tell(
        rt,
        "sheet_join",
        answer,
        format_args!(" {len}{}", Hex(joined)),
    )?;
    // Each in a print of its own: one format over slices of several lifetimes gets no proof.
    print!(rt; "{}", Hex(first.buffer))?;
    print!(rt; "{}", Hex(second.buffer))
}

// The same in a buffer with so much room.
fn join(rt: &impl Print, first: Sheet, second: Sheet, room: usize) -> io::Result<()> {
    let mut joined = BUFFER;
    let lent = room.min(joined.len());
    join_to(rt, first, second, &mut joined[..lent])
}

fn narrow<'a>() -> Sheet<'a> {
    Sheet::new(&NARROW, 67)
}

fn half<'a>() -> Sheet<'a> {
    Sheet::new(&HALF, 73)
}

fn county<'a>() -> Sheet<'a> {
    Sheet::new(&COUNTY, 113)
}

// The two halves in either order, the one of 24 with itself, and with one of 46: in a longer buffer, and with just the room.
fn accepted(rt: &impl Print) -> io::Result<()> {
    join(rt, narrow(), half(), 163)?;
    join(rt, narrow(), half(), 157)?;
    join(rt, half(), narrow(), 163)?;
    join(rt, half(), narrow(), 159)?;
    join(rt, narrow(), narrow(), 111)?;
    join(rt, narrow(), county(), 157)?;
    join(rt, county(), narrow(), 163)
}

// One byte too few, and none.
fn no_room(rt: &impl Print) -> io::Result<()> {
    join(rt, narrow(), half(), 156)?;
    join(rt, half(), narrow(), 158)?;
    join(rt, narrow(), half(), 0)
}

// The other half with one byte that is another.
fn changed(at: usize, byte: u8) -> [u8; 77]
    requires { at < 77 }
{
    let mut half = HALF;
    half[at] = byte;
    half
}

// Another fee row for plot 70001, also where there is no room.
fn two_records(rt: &impl Print) -> io::Result<()> {
    let other = changed(55, 1);
    let half = Sheet::new(&other, 73);
    join(rt, narrow(), half, 163)?;
    join(rt, half, narrow(), 163)?;
    join(rt, narrow(), half, 0)
}

// What the check refuses, of the first sheet before the second, and of either before the two fee rows: lengths, wrong letters, a wrong
// distance, a number above the next one, an open outline, and one off the old map.
fn not_sheets(rt: &impl Print) -> io::Result<()> {
    let half = changed(55, 1);
    join(rt, Sheet::new(&NARROW, 15), Sheet::new(&half, 72), 163)?;
    join(rt, Sheet::new(&NARROW, 66), Sheet::new(&half, 15), 163)?;
    join(rt, narrow(), Sheet::new(&half, 78), 163)?;
    join(rt, narrow(), Sheet::new(&half, 72), 0)?;
    let letters = changed(57, 51);
    join(rt, Sheet::new(&letters, 73), Sheet::new(&NARROW, 15), 163)?;
    join(rt, narrow(), Sheet::new(&changed(7, 2), 73), 163)?;
    join(rt, narrow(), Sheet::new(&changed(13, 16), 73), 163)?;
    let off = changed(10, 127);
    join(rt, Sheet::new(&off, 73), Sheet::new(&NARROW, 66), 163)
}

pub fn joins(rt: &impl Print) -> io::Result<()> {
    accepted(rt)?;
    no_room(rt)?;
    two_records(rt)?;
    not_sheets(rt)
}
