// The calls that answer an octagon or a count.
use crate::print::{List, tell};
use crate::samples::{SAMPLES, Sample};
use koxirmeta_c::operations::{
    kx_closing, kx_count, kx_dilate, kx_dilate_n, kx_erode, kx_erode_n, kx_normalise, kx_opening,
};
use std::io;

// What a result holds before a call.
const RESULT: [i32; 8] = [101, 102, 103, 104, 105, 106, 107, 108];

// A call that answers an octagon with a mark.
fn marked<F: FnOnce(&mut [i32], &mut u32) -> u32>(
    rt: &impl Print,
    name: &str,
    out: &mut [i32],
    call: F,
) -> io::Result<()>
    requires { F.IsAlwaysCallable call }
{
    let mut mark = 201;
    let answer = call(out, &mut mark);
    tell(rt, name, answer, format_args!("{} {mark}", List(out)))
}

// A call that answers an octagon alone.
fn unmarked<F: FnOnce(&mut [i32]) -> u32>(rt: &impl Print, name: &str, call: F) -> io::Result<()>
    requires { F.IsAlwaysCallable call }
{
    let mut out = RESULT;
    let answer = call(&mut out);
    tell(rt, name, answer, List(&out))
}

// A plot, a frame, and how often the frame is taken in an n-fold call.
#[derive(Clone, Copy)]
struct Operands<'a> {
    plot: &'a [i32],
    frame: &'a [i32],
    folds: u32,
}

impl Operands<'_> {
    fn dilate(&self, rt: &impl Print, out: &mut [i32]) -> io::Result<()> {
        marked(rt, "dilate", out, |out, mark| {
            kx_dilate(self.plot, self.frame, out, mark)
        })
    }

    fn opening(&self, rt: &impl Print, out: &mut [i32]) -> io::Result<()> {
        marked(rt, "opening", out, |out, mark| {
            kx_opening(self.plot, self.frame, out, mark)
        })
    }

    fn closing(&self, rt: &impl Print, out: &mut [i32]) -> io::Result<()> {
        marked(rt, "closing", out, |out, mark| {
            kx_closing(self.plot, self.frame, out, mark)
        })
    }

    fn dilate_n(&self, rt: &impl Print, out: &mut [i32]) -> io::Result<()> {
        marked(rt, "dilate_n", out, |out, mark| {
            kx_dilate_n(self.plot, self.frame, self.folds, out, mark)
        })
    }

    fn erode(&self, rt: &impl Print) -> io::Result<()> {
        unmarked(rt, "erode", |out| kx_erode(self.plot, self.frame, out))
    }

    fn erode_n(&self, rt: &impl Print) -> io::Result<()> {
        unmarked(rt, "erode_n", |out| {
            kx_erode_n(self.plot, self.frame, self.folds, out)
        })
    }

    fn normalise(&self, rt: &impl Print) -> io::Result<()> {
        unmarked(rt, "normalise", |out| kx_normalise(self.plot, out))
    }

    fn each_call(&self, rt: &impl Print) -> io::Result<()> {
        self.dilate(rt, &mut RESULT)?;
        self.erode(rt)?;
        self.opening(rt, &mut RESULT)?;
        self.closing(rt, &mut RESULT)?;
        self.dilate_n(rt, &mut RESULT)?;
        self.erode_n(rt)?;
        self.normalise(rt)
    }

    // A result of seven numbers, in the calls with a mark.
    fn short_results(&self, rt: &impl Print) -> io::Result<()> {
        self.dilate(rt, &mut RESULT[..7])?;
        self.opening(rt, &mut RESULT[..7])?;
        self.closing(rt, &mut RESULT[..7])?;
        self.dilate_n(rt, &mut RESULT[..7])
    }
}

// A sample with its frame, in each call.
pub fn operations(rt: &impl Print, sample: &Sample) -> io::Result<()> {
    let operands = Operands {
        plot: &sample.bounds,
        frame: &SAMPLES[sample.frame % 15].bounds,
        folds: sample.folds,
    };
    operands.each_call(rt)
}

pub fn count(rt: &impl Print, plot: &[i32]) -> io::Result<()> {
    let mut cells = 101;
    let answer = kx_count(plot, &mut cells);
    tell(rt, "count", answer, format_args!(" {cells}"))
}

// A plot of more cells than 32 bits count.
const WIDE: [i32; 8] = [
    -1654321, -2788885, -1114553, 629780, 1774346, 3018925, 1284588, -419754,
];

pub fn wide(rt: &impl Print) -> io::Result<()> {
    count(rt, &WIDE)
}

// Seven bounds of the plot, seven of the frame, and results of seven numbers.
pub fn misfits(rt: &impl Print) -> io::Result<()> {
    let plot = &SAMPLES[0].bounds;
    let frame = &SAMPLES[1].bounds;
    let whole = Operands {
        plot,
        frame,
        folds: 1,
    };
    let short_plot = Operands {
        plot: &plot[..7],
        ..whole
    };
    let short_frame = Operands {
        frame: &frame[..7],
        ..whole
    };
    short_plot.each_call(rt)?;
    short_frame.each_call(rt)?;
    whole.short_results(rt)?;
    count(rt, &plot[..7])
}
