// Pattern spectra of chosen and of drawn plots by frames, in lists of many lengths, and what is then in each list. tests/spectra.py works
// the expected output out on its own.
#![tactic(auto)]

use answers::mixed;
use draws::{Drawn, Draws};
use std::io;

mod answers;
mod calls;
mod chosen;
mod draws;
mod far;
mod words;

// How many pairs are drawn, and how many of these are written each on a line.
const PAIRS: usize = 800;

const SHOWN: usize = 100;

// Draws the pairs, and after each hundred writes a digest of all so far.
fn drawn(rt: &impl Print) -> io::Result<()> {
    let mut draws = Draws(1);
    let mut sum = 0;
    for k in 0..PAIRS {
        let drawn = Drawn::next(k, &mut draws);
        let mut room = [0; 24];
        let list = &mut room[..drawn.places()];
        let told = if k < SHOWN {
            drawn.call().tell(rt, list)?
        } else {
            drawn.call().digest(list)
        };
        sum = mixed(sum, told);
        if k % 100 == 99 {
            println!(rt; "digest of {} pairs {sum}", k + 1)?;
        }
    }
    Ok(())
}

fn all(rt: &impl Print) -> io::Result<()> {
    chosen::by_hand(rt)?;
    chosen::refusals(rt)?;
    drawn(rt)?;
    far::far(rt)
}

// Where a line cannot be written, nothing more is.
fn main(rt: HostRuntime) {
    let _ = all(&rt);
}
