// The records of two sheets together, by two passes over both: one counts them, the other writes them.
ghost use Rattle.std.specs.Prelude.{◌≡◌, ◌+◌, ◌*◌, ◌≤◌, ◌<◌, length};
ghost use Rattle.records.specs.Parts.{splice};
ghost use Rattle.octagon.specs.Answers.{outcome};
ghost use Rattle.sheet.specs.Layout.{record_length};
ghost use Rattle.sheet.specs.Merging.{merged, tallied, leads};
ghost use Rattle.sheet.specs.Sheets.{rows_bytes};
ghost use Rattle.sheet.specs.Rows.{PutNext};
ghost use Rattle.sheet.specs.Stored.{plots_of};

use crate::RECORD;
use crate::copying::put_row;
use crate::stored::Records;
use octagon::Refusal;

// Two `while` loops, since neither sheet says how many turns there are; one over a closure would lose what the closure counts or writes.

// How many records the sheets have together, one that both have counted once. Refuses one plot number for two differing records.
pub fn tally(a: Records, b: Records) -> Result<u32, Refusal>
    ensures { outcome result ≡ tallied (plots_of a.entry) (plots_of b.entry) }
{
    let mut x = a;
    let mut y = b;
    let mut all = 0;
    while (0 < x.rows.count) | (0 < y.rows.count) {
        if x.heads_differ(y) {
            return Err(Refusal::TwoRecords);
        }
        let one = x.is_next(y);
        let other = y.is_next(x);
        x = x.left(one);
        y = y.left(other);
        all += 1;
    }
    Ok(all)
}

// Writes the record that comes next at index `to` of u, with RECORD bytes.
fn put_next(x: Records, y: Records, one: bool, u: &mut [u8], to: usize)
    requires some_left { (0 < x.rows.count + y.rows.count) × (to + record_length ≤ length u.old) }
    requires one_value { one ≡ leads (plots_of x) (plots_of y) }
    ensures { PutNext u.old u.new to (plots_of x.entry) (plots_of y.entry) }
{
    if one {
        put_row(x.bytes, x.rows.at, x.rows.each, u, to);
    } else {
        put_row(y.bytes, y.rows.at, y.rows.each, u, to);
    }
}

// Writes the records of both by rising number, with RECORD bytes each, from index `to` of u on.
pub fn put_merged(a: Records, b: Records, u: &mut [u8], to: usize)
    requires { to + record_length * length (merged (plots_of a) (plots_of b)) ≤ length u.old }
    ensures { u.new ≡ splice u.old to (rows_bytes record_length (merged (plots_of a.entry) (plots_of b.entry))) }
{
    let mut x = a;
    let mut y = b;
    let mut o = to;
    while (0 < x.rows.count) | (0 < y.rows.count) {
        let one = x.is_next(y);
        let other = y.is_next(x);
        put_next(x, y, one, u, o);
        x = x.left(one);
        y = y.left(other);
        o += RECORD;
    }
}
