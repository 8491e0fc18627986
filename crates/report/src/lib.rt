// The listing of a sheet as text.
//
// specs/Decimal.antt has numbers as text, specs/Lines.antt the lines, specs/Pages.antt what is written on a page, specs/Listing.antt the
// whole listing, specs/ReadBack.antt what its text says when it is read back; proofs/Decimals.antt and proofs/ReadBacks.antt show that it
// says so.
#![tactic(auto)]

ghost use Rattle.std.specs.Prelude.{◌≡◌, length};
ghost use Rattle.records.specs.Parts.{splice};
ghost use Rattle.report.specs.Lines.{Prefix};
ghost use Rattle.report.specs.Listing.{listing};

use page::Page;

mod digits;
mod lines;
mod page;
mod rows;
mod words;

// No line is longer than this, in bytes, and no listing is longer than TEXT: a line for each record that a sheet can hold, and two.
pub const LINE: usize = 273;

pub const TEXT: usize = LINE * ((sheet::LIMIT - sheet::TRAILER) / sheet::BASE_RECORD + 2);

// Puts the listing of the sheet in the first `len` bytes at the start of `text`, and answers its length.
pub fn list(sheet: &[u8], len: usize, text: &mut [u8; TEXT]) -> usize
    ensures prefix { Prefix result text.new }
    ensures value { (result ≡ length (listing sheet.now len)) × (text.new ≡ splice text.old 0 (listing sheet.now len)) }
{
    let mut page = Page::new(text);
    match sheet::check(sheet, len) {
        Ok(c) => rows::put_all(&mut page, sheet, len, c),
        Err(e) => page.put_refused(e.number()),
    }
    page.len()
}
