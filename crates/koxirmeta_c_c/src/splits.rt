// The decomposition into thirteen pieces.
ghost use Rattle.koxirmeta_c.specs.Calls as calls;
ghost use Rattle.koxirmeta_c.specs.Splits as splits;

// The start cell and the counts of the thirteen pieces of eight bounds.
#[unsafe(no_mangle)]
pub extern "C" fn kx_decompose(bounds: &[i32], start: &mut [i32], counts: &mut [u32]) -> u32
    ensures { calls.Hands (splits.splitting bounds.now start.old counts.old) splits.split_parts (start.old, counts.old) (start.new, counts.new) result }
{
    koxirmeta_c::splits::kx_decompose(bounds, start, counts)
}
