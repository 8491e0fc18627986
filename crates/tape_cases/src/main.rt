// Tapes from standard input, and what `enclose` answers to each. tests/tapes.py chooses the tapes, and works the expected output out on
// its own.
//
// The input is words of eight bytes: how many blocks there are; then for each block its name, how many of its answers are written,
// how many tapes it has, and the tapes; and for each tape how many numbers it has, and their bits.
#![tactic(auto)]

mod answers;
mod corners;
mod digest;
mod input;

use answers::Told;
use corners::handed_back;
use digest::Digest;
use std::io;
use std::io::Read;

// The room for a tape: 4,096 points.
const ROOM: usize = 8192;

// Answers the tapes of the next block, the first of them each on a line, and all of them by their digest, which has each octagon a second
// time, as its corners give it.
fn block(rt: &impl Print, from: &mut impl Read, room: &mut [f64]) -> io::Result<()> {
    let name = input::next_name(from);
    let shown = input::next_number(from);
    let count = input::next_number(from);
    let mut digest = Digest::default();
    for k in 0..count {
        let answer = tape::enclose(input::next_tape(from, room));
        if k < shown {
            println!(rt; "{name} {}", Told(answer))?;
        }
        digest.mix_answer(answer);
        if let Ok(octagon) = answer {
            digest.mix_answer(handed_back(octagon));
        }
    }
    println!(rt; "{name} digest {digest}")
}

fn all(rt: &impl Print, from: &mut impl Read) -> io::Result<()> {
    let mut room = [0.0; ROOM];
    for _ in 0..input::next_number(from) {
        block(rt, from, &mut room)?;
    }
    Ok(())
}

// Where a line cannot be written, nothing more is.
fn main(rt: HostRuntime) {
    let _ = all(&rt, &mut rt.stdin());
}
