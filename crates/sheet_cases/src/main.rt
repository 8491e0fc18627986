// Sheets made in memory by `start` and `insert`, or byte by byte, or read from standard input, spoilt, grown and converted, and what each
// call answers. tests/sheet_cases.py works the expected output out on its own.
#![tactic(auto)]

use buffer::Buffer;
use format::Format;
use making::PAIR;
use std::io;
use std::io::Read;

mod buffer;
mod converting;
mod edges;
mod fees;
mod format;
mod fullest;
mod headings;
mod laid;
mod large;
mod making;
mod old;
mod orders;
mod plots;
mod reading;
mod rooms;
mod spoilt;
mod sums;
mod trailers;
mod words;

// Document 01's two plots, and a sheet with none.
fn samples(rt: &impl Print) -> io::Result<()> {
    let mut bytes = [0; PAIR];
    let mut sheet = Buffer::new(&mut bytes, 0);
    sheet.make_example(rt)?;
    sheet.show(rt)?;
    sheet.tell_start(rt, 92)?;
    sheet.show(rt)
}

// The sheet of two plots in a format: its bytes, trailers and lengths changed, and plots put into it.
fn two_plots(rt: &impl Print, format: Format) -> io::Result<()> {
    spoilt::every_byte(rt, format)?;
    spoilt::twice(rt, format)?;
    spoilt::wrong_lengths(rt, format)?;
    trailers::trailers(rt, format)?;
    reading::reading(rt, format)?;
    orders::numbers(rt, format)?;
    orders::last_number(rt, format)
}

// Inserts of three plots in several orders.
fn three_orders(rt: &impl Print) -> io::Result<()> {
    for numbers in [[7, 256, 65537], [65537, 256, 7], [256, 65537, 7]] {
        headings::ordered(rt, numbers)?;
    }
    Ok(())
}

// Counts and sums of 64 bits.
fn great_sums(rt: &impl Print) -> io::Result<()> {
    sums::counts(rt)?;
    sums::sum(rt)?;
    sums::greatest(rt, Format::Base, 2730)?;
    sums::greatest(rt, Format::Fee, 2520)?;
    sums::greatest(rt, Format::County, 1424)
}

// The fullest sheets.
fn full_sheets(rt: &impl Print) -> io::Result<()> {
    fullest::inserts(rt)?;
    fullest::conversions(rt)?;
    large::largest(rt)
}

fn all(rt: &impl Print, input: &mut impl Read) -> io::Result<()> {
    samples(rt)?;
    for format in Format::ALL {
        two_plots(rt, format)?;
    }
    orders::outlines(rt)?;
    orders::past_old_map(rt)?;
    edges::edges(rt)?;
    fees::fees(rt)?;
    three_orders(rt)?;
    old::old_sheets(rt, input)?;
    rooms::empty(rt, Format::Base)?;
    rooms::empty(rt, Format::Fee)?;
    orders::limits(rt)?;
    great_sums(rt)?;
    full_sheets(rt)
}

// Where a line cannot be written, nothing more is.
fn main(rt: HostRuntime) {
    let _ = all(&rt, &mut rt.stdin());
}
