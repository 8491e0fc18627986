// The lines of a listing put on a page.
ghost use Rattle.report.specs.Lines.{heading_line, row_start, row_line, last_line, refused_line};
ghost use Rattle.report.specs.Pages.{HasRoom, Written};

use crate::page::Page;
use sheet::Record;

impl Page<'_> {
    #[tactic(auto, unfolding(crate::specs::Lines::heading_line))]
    pub fn put_heading(&mut self)
        requires { HasRoom self.old heading_line }
        ensures { Written self.old heading_line self.new }
    {
        self.put_word(b"plot i j n0 n1 n2 n3 n4 n5 n6 n7 cells fee\n");
    }

    // The plot number and the start of a row.
    fn put_start(&mut self, number: u32, i: i32, j: i32)
        requires { HasRoom self.old (row_start number i j) }
        ensures { Written self.old (row_start number i j) self.new }
    {
        self.put_decimal(number as u64);
        self.put_integer(i);
        self.put_integer(j);
    }

    // The row of a plot with this many cells.
    pub fn put_row(&mut self, r: Record, cells: u64)
        requires { HasRoom self.old (row_line r cells) }
        ensures { Written self.old (row_line r cells) self.new }
    {
        let o = r.outline;
        self.put_start(r.number, o.i, o.j);
        self.put_numbers(&[
            o.n0 as u64,
            o.n1 as u64,
            o.n2 as u64,
            o.n3 as u64,
            o.n4 as u64,
            o.n5 as u64,
            o.n6 as u64,
            o.n7 as u64,
            cells,
            r.fee_row as u64,
        ]);
    }

    // The last line: how many plots there are, and how many cells they have together.
    pub fn put_last(&mut self, plots: u32, cells: u64)
        requires { HasRoom self.old (last_line plots cells) }
        ensures { Written self.old (last_line plots cells) self.new }
    {
        self.put_word(b"plots");
        self.put_number(plots as u64);
        self.put_word(b" cells");
        self.put_number(cells);
        self.put_byte(b'\n');
    }

    // The one line of a refused sheet.
    pub fn put_refused(&mut self, number: u32)
        requires { HasRoom self.old (refused_line number) }
        ensures { Written self.old (refused_line number) self.new }
    {
        self.put_word(b"refused");
        self.put_numbers(&[number as u64]);
    }
}
