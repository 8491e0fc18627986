// The rows of a listing, with the sum of their cells.
ghost use Rattle.std.specs.Prelude.{◌≡◌};
ghost use Rattle.octagon.specs.Outcome.{accepted};
ghost use Rattle.sheet.specs.Checking.{checked, plots};
ghost use Rattle.report.specs.Listing.{cell_number, rows_of, total_cells, full};
ghost use Rattle.report.specs.Pages.{HasRoom, Written};

use crate::page::Page;
use outline::Outline;

// The number of cells inside an outline, and 0 for one that is refused.
#[tactic(auto, unfolding(crate::specs::Listing::cell_number))]
fn cells(o: Outline) -> u64
    ensures { result ≡ cell_number o }
{
    outline::to_octagon(o)
        .and_then(cell_count::count_cells)
        .unwrap_or(0)
}

// Puts the rows of the c plots of a checked sheet, and answers how many cells the plots have together.
fn put_rows(page: &mut Page, sheet: &[u8], len: usize, c: u32) -> u64
    requires len_value { checked sheet.now len ≡ accepted c }
    requires len_in_bounds { HasRoom page.old (rows_of (plots sheet.now len)) }
    ensures written { Written page.old (rows_of (plots sheet.now len)) page.new }
    ensures cells_value { result ≡ total_cells (plots sheet.now len) }
{
    let mut sum: u64 = 0;
    for k in 0..c {
        let Ok(r) = sheet::read(sheet, len, k) else {
            return sum;
        };
        let n = cells(r.outline);
        page.put_row(r, n);
        sum += n;
    }
    sum
}

// The whole listing of a checked sheet.
pub fn put_all(page: &mut Page, sheet: &[u8], len: usize, c: u32)
    requires len_value { checked sheet.now len ≡ accepted c }
    requires len_in_bounds { HasRoom page.old (full (plots sheet.now len)) }
    ensures { Written page.old (full (plots sheet.now len)) page.new }
{
    page.put_heading();
    let cells = put_rows(page, sheet, len, c);
    page.put_last(c, cells);
}
