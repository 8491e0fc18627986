// What a call answered, and the memory that it was lent, on standard output: a line for each call.
use std::{fmt, io};

// Numbers, each after a space.
#[derive(Clone, Copy)]
pub struct List<'a, T>(pub &'a [T]);

impl<T: fmt::Display> fmt::Display for List<'_, T> {
    fn fmt<W: fmt::Write>(&self, f: &mut fmt::Formatter<W>) -> fmt::Result {
        for x in self.0 {
            write!(f, " {x}")?;
        }
        Ok(())
    }
}

// The 64 bits of numbers of metres, each after a space, in hexadecimal digits; the letters `nan` where one is none.
#[derive(Clone, Copy)]
pub struct Metres<'a>(pub &'a [f64]);

impl fmt::Display for Metres<'_> {
    fn fmt<W: fmt::Write>(&self, f: &mut fmt::Formatter<W>) -> fmt::Result {
        for x in self.0 {
            if x.is_nan() {
                write!(f, " nan")?;
            } else {
                write!(f, " {:016x}", x.to_bits())?;
            }
        }
        Ok(())
    }
}

// A buffer in hexadecimal digits, after a space.
#[derive(Clone, Copy)]
pub struct Hex<'a>(pub &'a [u8]);

impl fmt::Display for Hex<'_> {
    fn fmt<W: fmt::Write>(&self, f: &mut fmt::Formatter<W>) -> fmt::Result {
        write!(f, " ")?;
        for byte in self.0 {
            write!(f, "{byte:02x}")?;
        }
        Ok(())
    }
}

// The name of a call on a new line, the number that it answered, and the memory that it was lent.
pub fn tell<D: fmt::Display + Drop>(
    rt: &impl Print,
    name: &str,
    answer: u32,
    memory: D,
) -> io::Result<()> {
    print!(rt; "\n{name:<13} {answer}:{memory}")
}
