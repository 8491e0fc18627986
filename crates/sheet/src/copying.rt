// Bytes, and records with RECORD bytes each, written from one buffer into another.
ghost use Rattle.std.specs.Prelude.{◌≡◌, ◌+◌, ◌≤◌, length};
ghost use Rattle.records.specs.Parts.{part, splice};
ghost use Rattle.sheet.specs.Layout.{record_length, layout_of, decoded, encoded};
ghost use Rattle.sheet.specs.Cases.{HasOctagon};

use crate::RECORD;
use crate::encoding::{StoredRecord, put_record};
use crate::layout::RecordLength;

// Copies all of s to index `to` of u. What is written into a lent buffer goes by the buffer and an index: it is read again as a whole.
pub fn copy_bytes(s: &[u8], u: &mut [u8], to: usize)
    requires { to + length s.now ≤ length u.old }
    ensures { u.new ≡ splice u.old to s.now }
{
    let end = to + s.len();
    u[to..end].copy_from_slice(s);
}

// Writes the record of length `each` at `from` of s into the RECORD bytes at `to` of u: as bytes where it keeps its length, and else field
// by field. Compiled into both of its calls, in the loop that writes two sheets' records.
// Kept as a slice and two numbers, in place of a `StoredRecord`: that each byte is below 256, on which the proof rests, is known of a slice
// that is a parameter, and of a struct's field the proof did not close.
#[inline(always)]
pub fn put_row(s: &[u8], from: usize, each: RecordLength, u: &mut [u8], to: usize)
    requires each_in_bounds { (from + each.bytes ≤ length s.now) × (to + record_length ≤ length u.old) }
    requires octagon { HasOctagon (decoded (layout_of each.bytes) (part s.now from each.bytes)) }
    ensures { u.new ≡ splice u.old to (encoded (layout_of record_length) (decoded (layout_of each.bytes) (part s.now from each.bytes))) }
{
    if each.bytes == RECORD {
        let end = from + RECORD;
        copy_bytes(&s[from..end], u, to);
    } else {
        let r = StoredRecord {
            bytes: s,
            at: from,
            each,
        };
        put_record(u, to, RecordLength::WRITTEN, r.plot());
    }
}
