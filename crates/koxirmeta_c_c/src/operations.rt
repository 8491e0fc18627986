// Normal form, cell count, dilation, erosion, opening, closing and the n-fold forms.
ghost use Rattle.octagon.specs.NormalForm.{normalised};
ghost use Rattle.morphology.specs.Operations.{dilation, erosion, opened};
ghost use Rattle.morphology.specs.Folds.{closed, dilation_n, erosion_n};
ghost use Rattle.koxirmeta_c.specs.Calls as calls;

// The normal form of eight bounds.
#[unsafe(no_mangle)]
pub extern "C" fn kx_normalise(bounds: &[i32], out: &mut [i32]) -> u32
    ensures { calls.Hands (calls.on_one normalised bounds.now out.old) calls.bounds_of out.old out.new result }
{
    koxirmeta_c::operations::kx_normalise(bounds, out)
}

// The number of cells within eight bounds.
#[unsafe(no_mangle)]
pub extern "C" fn kx_count(bounds: &[i32], cells: &mut u64) -> u32
    ensures { calls.Hands (calls.counted bounds.now) (λ n. n) cells.old cells.new result }
{
    koxirmeta_c::operations::kx_count(bounds, cells)
}

// The dilation of a plot by an element, and its mark.
#[unsafe(no_mangle)]
pub extern "C" fn kx_dilate(plot: &[i32], element: &[i32], out: &mut [i32], mark: &mut u32) -> u32
    ensures { calls.Hands (calls.on_two dilation plot.now element.now out.old) calls.marked_parts (out.old, mark.old) (out.new, mark.new) result }
{
    koxirmeta_c::operations::kx_dilate(plot, element, out, mark)
}

// The erosion of a plot by an element.
#[unsafe(no_mangle)]
pub extern "C" fn kx_erode(plot: &[i32], element: &[i32], out: &mut [i32]) -> u32
    ensures { calls.Hands (calls.on_two erosion plot.now element.now out.old) calls.bounds_of out.old out.new result }
{
    koxirmeta_c::operations::kx_erode(plot, element, out)
}

// The opening of a plot by an element, and its mark.
#[unsafe(no_mangle)]
pub extern "C" fn kx_opening(plot: &[i32], element: &[i32], out: &mut [i32], mark: &mut u32) -> u32
    ensures { calls.Hands (calls.on_two opened plot.now element.now out.old) calls.marked_parts (out.old, mark.old) (out.new, mark.new) result }
{
    koxirmeta_c::operations::kx_opening(plot, element, out, mark)
}

// The closing of a plot by an element, and its mark.
#[unsafe(no_mangle)]
pub extern "C" fn kx_closing(plot: &[i32], element: &[i32], out: &mut [i32], mark: &mut u32) -> u32
    ensures { calls.Hands (calls.on_two closed plot.now element.now out.old) calls.marked_parts (out.old, mark.old) (out.new, mark.new) result }
{
    koxirmeta_c::operations::kx_closing(plot, element, out, mark)
}

// The n-fold dilation of a plot by an element, and its mark.
#[unsafe(no_mangle)]
pub extern "C" fn kx_dilate_n(
    plot: &[i32],
    element: &[i32],
    n: u32,
    out: &mut [i32],
    mark: &mut u32,
) -> u32
    ensures { calls.Hands (calls.on_two (λ p f. dilation_n p f n) plot.now element.now out.old) calls.marked_parts (out.old, mark.old) (out.new, mark.new) result }
{
    koxirmeta_c::operations::kx_dilate_n(plot, element, n, out, mark)
}

// The n-fold erosion of a plot by an element.
#[unsafe(no_mangle)]
pub extern "C" fn kx_erode_n(plot: &[i32], element: &[i32], n: u32, out: &mut [i32]) -> u32
    ensures { calls.Hands (calls.on_two (λ p f. erosion_n p f n) plot.now element.now out.old) calls.bounds_of out.old out.new result }
{
    koxirmeta_c::operations::kx_erode_n(plot, element, n, out)
}
