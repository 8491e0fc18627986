// Two sheets in one, in a third buffer: the records of both by rising number, under the first sheet's heading.
ghost use Rattle.std.specs.Prelude.{◌≡◌, ◌+◌, ◌*◌, ◌≤◌, length};
ghost use Rattle.octagon.specs.Outcome.{accepted, «then», left};
ghost use Rattle.octagon.specs.Answers.{outcome};
ghost use Rattle.sheet.specs.Layout.{record_length};
ghost use Rattle.sheet.specs.Trailer.{trailer_length};
ghost use Rattle.sheet.specs.Merging.{merged};
ghost use Rattle.sheet.specs.Sheets.{sheet_limit};
ghost use Rattle.sheet.specs.Stored.{plots_of, said};
ghost use Rattle.sheet.specs.Writing.{written_over, written_length};
ghost use Rattle.sheet.specs.Joining.{union, united};

use crate::copying::copy_bytes;
use crate::inserting::has_no_room;
use crate::merge::{put_merged, tally};
use crate::stored::Records;
use crate::trailer::put_trailer;
use crate::{RECORD, TRAILER};
use octagon::Refusal;

// Writes the bytes before the records a, the `all` records of a and b together, and their trailer.
fn put_joined(a: Records, b: Records, all: u32, u: &mut [u8])
    requires all_value { all ≡ length (merged (plots_of a) (plots_of b)) }
    requires trailer_length_in_bounds { (a.rows.at + record_length * all + trailer_length ≤ length u.old) × (a.rows.at + record_length * all + trailer_length ≤ sheet_limit) }
    ensures { u.new ≡ written_over u.old (union (said a.entry) (said b.entry)) }
{
    let at = a.rows.at;
    copy_bytes(&a.bytes[..at], u, 0);
    put_merged(a, b, u, at);
    put_trailer(u, at + RECORD * (all as usize), RECORD as u32, all);
}

// Joins the sheets of these records. Refuses one plot number for two differing records, then a sheet that has no room.
pub fn join_records(a: Records, b: Records, u: &mut [u8]) -> Result<usize, Refusal>
    ensures result_value { outcome result ≡ «then» (united u.old (said a.entry) (said b.entry)) (λ x. accepted (written_length x)) }
    ensures u_after { u.new ≡ left u.old (united u.old (said a.entry) (said b.entry)) (written_over u.old) }
{
    let all = tally(a, b)?;
    let next = a.rows.at + RECORD * (all as usize) + TRAILER;
    if has_no_room(u, next) {
        return Err(Refusal::NoRoom);
    }
    put_joined(a, b, all, u);
    Ok(next)
}
