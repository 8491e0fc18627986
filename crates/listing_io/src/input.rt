// An input read to its end, or until a buffer is full. A failure is told from an end.
ghost use Rattle.std.specs.Prelude.{◌≡◌, ◌+◌, ◌<◌, ◌≤◌, length, take, IfOk};
ghost use Rattle.std.specs.Io.KnownBytes.{Consumes, IsAtEnd};
ghost use Rattle.sheet.specs.Sheets.{sheet_limit};
ghost use Rattle.listing_io.specs.Transfers.{bytes_read};

use crate::tries::Tries;
use std::io;
use std::io::Read;

// One byte more than the longest sheet: a longer input fills such a buffer, and is refused.
pub const ROOM: usize = sheet::LIMIT + 1;

// Reads until the input ends or the buffer is full, and answers how many bytes it read. It ends: each turn leaves less of the buffer or
// fewer tries. A `while`, since a read says how far it came.
#[tactic(auto, using(crate::proofs::Moves::reads_more))]
fn read_all<R: Read>(from: &mut R, buffer: &mut [u8]) -> io::Result<usize>
    ensures bound { bytes_read result ≤ length buffer.new }
    ensures bytes { IfOk result (λ n. Consumes (R.remaining from.old) (R.remaining from.new) (take n buffer.new)) }
    ensures end { IfOk result (λ n. n < length buffer.new → IsAtEnd (R.remaining from.new)) }
{
    let mut done = 0;
    let mut tries = Tries::new();
    while done < buffer.len() {
        match from.read(&mut buffer[done..]) {
            Ok(0) => return Ok(done),
            Ok(n) => done += n,
            Err(e) => tries.again(e)?,
        }
    }
    Ok(done)
}

// Reads an input that may be a sheet. The buffer has one byte more than the longest sheet.
pub fn read_sheet<R: Read>(from: &mut R, buffer: &mut [u8; ROOM]) -> io::Result<usize>
    ensures room { length buffer.new ≡ sheet_limit + 1 }
    ensures bound { bytes_read result ≤ sheet_limit + 1 }
    ensures bytes { IfOk result (λ n. Consumes (R.remaining from.old) (R.remaining from.new) (take n buffer.new)) }
    ensures end { IfOk result (λ n. n ≤ sheet_limit → IsAtEnd (R.remaining from.new)) }
{
    read_all(from, buffer)
}
