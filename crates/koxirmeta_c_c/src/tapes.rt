// The octagon round the points of a surveyor's tape.
ghost use Rattle.koxirmeta_c.specs.Calls as calls;
ghost use Rattle.koxirmeta_c.specs.Tapes as tapes;

// The smallest octagon that holds the cell of each point of a tape: metres, east and north in turn.
#[unsafe(no_mangle)]
pub extern "C" fn kx_enclose(tape: &[f64], out: &mut [i32]) -> u32
    ensures { calls.Hands (tapes.enclosing tape.now out.old) calls.bounds_of out.old out.new result }
{
    koxirmeta_c::tapes::kx_enclose(tape, out)
}
