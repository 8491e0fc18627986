// A sheet read from a reader, and its listing, the proved text of `report::list`, written to a writer.
//
// Where the input cannot be read to its end nothing is listed. That, and a listing that cannot be written, is told by one line on
// a second writer; if that fails too, nothing more can be done.
#![tactic(auto)]

use std::io::{Read, Write};

mod input;
mod output;
mod tries;

// Writes one line on what failed.
fn complain<E: Write>(failures: &mut E, line: &[u8]) {
    let _ = output::write_all(failures, line);
}

// Writes the listing of the sheet in the first `len` bytes.
fn write_listing<W: Write, E: Write>(sheet: &[u8], len: usize, to: &mut W, failures: &mut E) {
    let mut text = [0u8; report::TEXT];
    let n = report::list(sheet, len, &mut text);
    if output::write_all(to, &text[..n]).is_err() {
        complain(failures, b"listing: the listing could not be written\n");
    }
}

// Reads a sheet from a reader, writes its listing to a writer, and a failure to a second one. It asks for one byte more than the longest
// sheet has and no more, so what comes after such an input is still to be read.
pub fn list_sheet<R: Read, W: Write, E: Write>(from: &mut R, to: &mut W, failures: &mut E) {
    let mut sheet = [0u8; input::ROOM];
    match input::read_sheet(from, &mut sheet) {
        Ok(len) => write_listing(&sheet, len, to, failures),
        Err(_) => complain(failures, b"listing: the input could not be read\n"),
    }
}
