// A number in fewest digits put into a text.
//
// Kept on (text, at): as a method of `Page`, whose index the recursion then keeps in memory, the listing of a full sheet took 419 us in
// place of 324 us.
ghost use Rattle.std.specs.Prelude.{◌+◌, ◌≤◌, length};
ghost use Rattle.report.specs.Decimal.{decimal};
ghost use Rattle.report.specs.Lines.{Put};

// Puts the digits from an index on, and answers the index past them.
pub fn put_digits(text: &mut [u8], at: usize, n: u64) -> usize
    requires { at + length (decimal n) ≤ length text.old }
    ensures { Put text.old at (decimal n) text.new result }
{
    if n < 10 {
        text[at] = b'0' + n as u8;
        return at + 1;
    }
    let last = put_digits(text, at, n / 10);
    text[last] = b'0' + (n % 10) as u8;
    last + 1
}
