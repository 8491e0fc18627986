// Plots put into sheets and read back: into one that is started, and into one of 24.
use crate::samples::{BUFFER, NARROW, ROOM, Sheet};
use crate::sheets::{
    Plot, list, record, sheet_check, sheet_insert, sheet_start, short_sides, short_start,
};
use std::io;

// Three plots: the second goes before the first, and the third after it.
fn insert_three(rt: &impl Print, buffer: &mut [u8]) -> io::Result<()> {
    let first = Plot {
        number: 70001,
        start: &[-4, -5],
        sides: &[3, 1, 14, 2, 5, 4, 6, 7],
        fee_row: 1800,
    };
    let before = Plot {
        number: 513,
        start: &[-1000, 2000],
        sides: &[303, 1, 714, 2, 305, 4, 706, 7],
        fee_row: 65535,
    };
    let after = Plot {
        number: 16909060,
        start: &[-8, -11],
        sides: &[6, 7, 3, 1, 14, 2, 5, 4],
        fee_row: 0,
    };
    sheet_insert(rt, buffer, 19, first)?;
    sheet_insert(rt, buffer, 65, before)?;
    sheet_insert(rt, buffer, 111, after)
}

// A plot for which there is no room, a number that is there, an open outline, seven sides, and a start of three numbers.
fn insert_refused(rt: &impl Print, buffer: &mut [u8], len: usize) -> io::Result<()> {
    let plot = Plot {
        number: 9,
        start: &[-4, -5],
        sides: &[3, 1, 14, 2, 5, 4, 6, 7],
        fee_row: 52000,
    };
    let there = Plot {
        number: 513,
        ..plot
    };
    let open = Plot {
        sides: &[4, 1, 14, 2, 5, 4, 6, 7],
        ..plot
    };
    let seven_sides = Plot {
        sides: &[3, 1, 14, 2, 5, 4, 6],
        ..plot
    };
    let long_start = Plot {
        start: &[-4, -5, 8],
        ..plot
    };
    sheet_insert(rt, buffer, len, plot)?;
    sheet_insert(rt, buffer, len, there)?;
    sheet_insert(rt, buffer, len, open)?;
    sheet_insert(rt, buffer, len, seven_sides)?;
    sheet_insert(rt, buffer, len, long_start)
}

// The records, one that there is not, one of a sheet that is cut, and memory of wrong lengths.
fn records(rt: &impl Print, buffer: &[u8], len: usize, cut: usize) -> io::Result<()> {
    let sheet = Sheet::new(buffer, len);
    for k in 0..4 {
        record(rt, sheet, k)?;
    }
    record(rt, Sheet::new(buffer, cut), 0)?;
    short_start(rt, sheet)?;
    short_sides(rt, sheet)?;
    sheet_check(rt, sheet)?;
    sheet_check(rt, Sheet::new(buffer, cut))
}

// A sheet that is started.
fn started(rt: &impl Print, buffer: &mut [u8]) -> io::Result<()> {
    sheet_start(rt, buffer, 148)?;
    sheet_start(rt, buffer, 3)?;
    insert_three(rt, buffer)?;
    insert_refused(rt, buffer, 157)?;
    records(rt, buffer, 157, 156)
}

// A sheet of 24, with room for a record of 46 more but not for all at 46, and with room for these. The plot is off the old map.
fn narrow(rt: &impl Print, buffer: &mut [u8; ROOM]) -> io::Result<()> {
    let plot = Plot {
        number: 31337,
        start: &[-1234567, 1654321],
        sides: &[100003, 20011, 70001, 30013, 100013, 40009, 29995, 50021],
        fee_row: 256,
    };
    records(rt, buffer, 67, 66)?;
    insert_refused(rt, &mut buffer[..113], 67)?;
    sheet_insert(rt, buffer, 67, plot)?;
    records(rt, buffer, 157, 156)
}

// A record whose number is 0: it is refused where the records are checked, and read.
fn wrong_number(rt: &impl Print, buffer: &mut [u8; ROOM]) -> io::Result<()> {
    buffer[3] = 0;
    buffer[4] = 0;
    record(rt, Sheet::new(buffer, 157), 0)?;
    record(rt, Sheet::new(buffer, 157), 3)
}

pub fn plots(rt: &impl Print) -> io::Result<()> {
    let mut first = BUFFER;
    let mut second = NARROW;
    started(rt, &mut first)?;
    narrow(rt, &mut second)?;
    list(rt, Sheet::new(&first, 157))?;
    list(rt, Sheet::new(&NARROW, 67))?;
    list(rt, Sheet::new(&second, 157))?;
    wrong_number(rt, &mut first)?;
    list(rt, Sheet::new(&first, 157))
}
