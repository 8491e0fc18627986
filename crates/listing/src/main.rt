// Reads a sheet from standard input, and writes its listing to standard output and a failure to standard error.
#![tactic(auto)]

fn main(rt: HostRuntime) {
    listing_io::list_sheet(&mut rt.stdin(), &mut rt.stdout(), &mut rt.stderr());
}
