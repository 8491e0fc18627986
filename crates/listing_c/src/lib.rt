// The listing of a sheet for C and Rust, beside the calls of koxirmeta_c: a crate of its own, and so compiled apart
// from them. The crate listing_c_c exports it.
#![tactic(auto)]

ghost use Rattle.octagon.specs.Outcome.{accepted};
ghost use Rattle.report.specs.Listing.{listing};
ghost use Rattle.koxirmeta_c.specs.Calls.{Hands};
ghost use Rattle.listing_c.specs.Listings.{laid};

use koxirmeta_c::ACCEPTED;
use report::TEXT;

// The listing of the sheet in the first `len` bytes: the text of a refused sheet is one line, and is handed over as any other.
pub fn kx_list(sheet: &[u8], len: usize, text: &mut [u8; TEXT], written: &mut usize) -> u32
    ensures { Hands (accepted (listing sheet.now len)) (laid text.old) (text.old, written.old) (text.new, written.new) result }
{
    *written = report::list(sheet, len, text);
    ACCEPTED
}
