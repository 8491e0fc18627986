// Two inputs on standard input, listed one after the other: a sheet of 65,536 bytes and one byte more, which fill the room for an input
// and are refused, and then a sheet of 65,536 bytes up to the end. tests/sheets.py makes both, and works the expected output out on its
// own.
#![tactic(auto)]

fn main(rt: HostRuntime) {
    listing_io::list_sheet(&mut rt.stdin(), &mut rt.stdout(), &mut rt.stderr());
    listing_io::list_sheet(&mut rt.stdin(), &mut rt.stdout(), &mut rt.stderr());
}
