// Pairs of sheets from standard input, and what `join` and `convert` answer and leave. tests/join_pairs.py chooses the pairs that are joined
// and tests/conversions.py the sheets that are converted, and tests/joins.py works the expected output out on its own.
//
// The input is words of eight bytes, and bytes: how many pairs there are; then for each pair its name, its two buffers, how many calls are
// made, and the calls. A buffer is the index of its new bytes, how many these are, how many of all its bytes are lent, and the new bytes;
// the others are as they were. A call is how many bytes the third buffer has, which of the two are joined or that the first is converted,
// and the lengths of the two sheets. Byte k of the third buffer is k % 251 before the call.
#![tactic(auto)]

use octagon::Refusal;
use std::io;
use std::io::Read;

mod input;
mod words;

// The room for a sheet, and in the third buffer.
const ROOM: usize = 65600;

// A pair of sheets under a name, each in the bytes that are lent.
#[derive(Clone, Copy)]
struct Pair<'a> {
    name: [u8; 8],
    first: &'a [u8],
    second: &'a [u8],
}

impl Pair<'_> {
    // Makes a call by a number of the input: joins the first sheet and the second, the second and the first, or the first and itself; or
    // converts the first.
    fn write(
        &self,
        way: u64,
        len: usize,
        second_len: usize,
        third: &mut [u8],
    ) -> Result<usize, Refusal> {
        match way {
            0 => sheet::join(self.first, len, self.second, second_len, third),
            1 => sheet::join(self.second, len, self.first, second_len, third),
            2 => sheet::join(self.first, len, self.first, second_len, third),
            _ => sheet::convert(self.first, len, third),
        }
    }

    // Makes the next call, and writes its answer and what is then in the third buffer.
    fn call(&self, rt: &impl Print, input: &mut impl Read, third: &mut [u8]) -> io::Result<()> {
        let room = input::length(input).min(third.len());
        let way = input::number(input);
        let len = input::length(input);
        let second_len = input::length(input);
        let lent = &mut third[..room];
        fill(lent);
        let answer = self.write(way, len, second_len, lent);
        words::say_answer(rt, &self.name, answer)?;
        words::say_bytes(rt, lent)
    }
}

// What a third buffer has before a call.
fn fill(third: &mut [u8]) {
    for (k, byte) in third.iter_mut().enumerate() {
        *byte = (k % 251) as u8;
    }
}

// The two sheets of a pair and the third buffer, which keep their bytes from one pair to the next.
#[derive(Drop)]
struct Buffers {
    first: [u8; ROOM],
    second: [u8; ROOM],
    third: [u8; ROOM],
}

impl Buffers {
    // Reads the next pair, and makes its calls.
    fn calls(&mut self, rt: &impl Print, input: &mut impl Read) -> io::Result<()> {
        let pair = Pair {
            name: input::name(input),
            first: input::buffer(input, &mut self.first),
            second: input::buffer(input, &mut self.second),
        };
        for _ in 0..input::number(input) {
            pair.call(rt, input, &mut self.third)?;
        }
        Ok(())
    }
}

fn all(rt: &impl Print, input: &mut impl Read) -> io::Result<()> {
    let mut buffers = Buffers {
        first: [0; ROOM],
        second: [0; ROOM],
        third: [0; ROOM],
    };
    for _ in 0..input::number(input) {
        buffers.calls(rt, input)?;
    }
    Ok(())
}

// Where a line cannot be written, nothing more is.
fn main(rt: HostRuntime) {
    let _ = all(&rt, &mut rt.stdin());
}
