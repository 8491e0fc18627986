// The trailer that ends a sheet.
ghost use Rattle.std.specs.Prelude.{◌≡◌, ◌+◌, ◌*◌, ◌≤◌, ◌<◌, length};
ghost use Rattle.records.specs.Parts.{splice};
ghost use Rattle.octagon.specs.Answers.{outcome};
ghost use Rattle.sheet.specs.Trailer.{trailer_length, trailer, trailer_at};
ghost use Rattle.sheet.specs.Checking.{is_bad_length, stated, framed};

use crate::layout::is_record_length;
use crate::numbers::{pack, unpack};
use crate::{LIMIT, TRAILER};
use octagon::Refusal;

// The numbers in a trailer: its records' distance in bytes, their count and the length of each, zero bytes, letters.
#[derive(Clone, Copy, Debug, PartialEq, Eq, Hash)]
pub struct Trailer {
    pub distance: u32,
    pub count: u32,
    pub length: u32,
    pub zeros: u32,
    pub letters: u32,
}

// How many numbers a trailer has, and their widths in bytes.
const FIELDS: usize = 5;

const WIDTHS: [usize; FIELDS] = [4, 4, 2, 2, 4];

// The letters GRND, as the number that their bytes are.
const LETTERS: u32 = (b'G' as u32)
    + 256 * ((b'R' as u32) + 256 * ((b'N' as u32) + 256 * (b'D' as u32)));

// The trailer at an index.
pub fn read_trailer(s: &[u8], at: usize) -> Trailer
    requires { at + trailer_length ≤ length s.now }
    ensures { result ≡ trailer_at s.now at }
{
    let v = unpack(s, at, &WIDTHS);
    Trailer {
        distance: v[0],
        count: v[1],
        length: v[2],
        zeros: v[3],
        letters: v[4],
    }
}

// Writes the trailer of `count` records of `each` bytes at an index.
pub fn put_trailer(s: &mut [u8], at: usize, each: u32, count: u32)
    requires { (at + trailer_length ≤ length s.old) × (each * count ≤ 4294967295) }
    ensures { s.new ≡ splice s.old at (trailer each count) }
{
    let v = [each * count, count, each, 0, LETTERS];
    pack(s, at, &WIDTHS, &v);
}

// A trailer that is right for a sheet of `len` bytes. Refuses wrong marks, then a wrong distance.
pub fn state(z: Trailer, len: usize) -> Result<Trailer, Refusal>
    requires { trailer_length ≤ len }
    ensures { outcome result ≡ stated len z }
{
    let distance = z.distance as usize;
    let count = z.count as usize;
    let length = z.length as usize;
    if !is_record_length(length) | (z.zeros != 0) | (z.letters != LETTERS) {
        return Err(Refusal::BadTrailer);
    }
    if (distance != length * count) | (len - TRAILER < distance) {
        return Err(Refusal::BadDistance);
    }
    Ok(z)
}

// Whether no sheet in this buffer can have `len` bytes: fewer than a trailer, more than the limit, or more than the buffer.
pub fn is_bad_length(sheet: &[u8], len: usize) -> bool
    ensures { result ≡ is_bad_length sheet.now len }
{
    (len < TRAILER) | (LIMIT < len) | (sheet.len() < len)
}

// The trailer of a sheet. Refuses a wrong length first.
pub fn frame(sheet: &[u8], len: usize) -> Result<Trailer, Refusal>
    ensures { outcome result ≡ framed sheet.now len }
{
    if is_bad_length(sheet, len) {
        return Err(Refusal::BadLength);
    }
    state(read_trailer(sheet, len - TRAILER), len)
}
