// Plots and frames, drawn by a linear generator.
ghost use Rattle.std.specs.Prelude.{◌≤◌};

use crate::calls::Call;
use octagon::Octagon;

// A generator by its last number.
#[derive(Clone, Copy)]
pub struct Draws(pub u32);

impl Draws {
    // The next number, below 2 ^ 31 - 1.
    pub fn next(&mut self) -> u32 {
        self.0 = (u64::from(self.0) * 48271 % 2147483647) as u32;
        self.0
    }
}

// A kind of octagons. Of a number the bits `drawn` are taken, and `added` is added; hexadecimal digit k, from the last, is then for bound k.
#[derive(Clone, Copy)]
struct Kind {
    drawn: u32,
    added: u32,
}

// The kinds of plots: octagons, blocks with corners cut, three of slanting blocks, and plots that may have no cell.
const PLOTS: [Kind; 6] = [
    Kind {
        drawn: 0x73737373,
        added: 0x35353535,
    },
    Kind {
        drawn: 0x73737373,
        added: 0x64646464,
    },
    Kind {
        drawn: 0x77777777,
        added: 0x28282828,
    },
    Kind {
        drawn: 0x67676767,
        added: 0x28282828,
    },
    Kind {
        drawn: 0x27672767,
        added: 0x68286828,
    },
    Kind {
        drawn: 0x77777777,
        added: 0x11111111,
    },
];

// The kinds of frames: rising and falling rows, blocks, blocks with corners cut, octagons, straight rows, again rising and falling rows, and
// frames that may lack the cell (0, 0).
const FRAMES: [Kind; 10] = [
    Kind {
        drawn: 0x11013101,
        added: 0x44242424,
    },
    Kind {
        drawn: 0x01310111,
        added: 0x24242444,
    },
    Kind {
        drawn: 0x21212121,
        added: 0x32323232,
    },
    Kind {
        drawn: 0x20202020,
        added: 0x33333333,
    },
    Kind {
        drawn: 0x13131313,
        added: 0x42424242,
    },
    Kind {
        drawn: 0x01000300,
        added: 0x82828282,
    },
    Kind {
        drawn: 0x00010003,
        added: 0x82828282,
    },
    Kind {
        drawn: 0x21011101,
        added: 0x24244424,
    },
    Kind {
        drawn: 0x01110121,
        added: 0x24442424,
    },
    Kind {
        drawn: 0x13131313,
        added: 0x41414141,
    },
];

// The bound on a form of a cell: more by the last digit of `digits` less 2.
fn bound(form: i32, digits: u32) -> i32 {
    form.wrapping_add((digits % 16) as i32 - 2)
}

impl Kind {
    // The bounds about the cell (x, y) that a draw gives.
    fn about(&self, x: i32, y: i32, draw: u32) -> Octagon {
        let digits = (draw & self.drawn).wrapping_add(self.added);
        let west = x.wrapping_neg();
        let south = y.wrapping_neg();
        Octagon {
            c0: bound(south, digits),
            c1: bound(x.wrapping_add(south), digits >> 4),
            c2: bound(x, digits >> 8),
            c3: bound(x.wrapping_add(y), digits >> 12),
            c4: bound(y, digits >> 16),
            c5: bound(west.wrapping_add(y), digits >> 20),
            c6: bound(west, digits >> 24),
            c7: bound(west.wrapping_add(south), digits >> 28),
        }
    }
}

// A number from -30 to 30.
fn near(n: u32) -> i32 {
    (n % 61) as i32 - 30
}

// Three numbers that make the k-th call.
#[derive(Clone, Copy)]
pub struct Drawn {
    k: usize,
    a: u32,
    b: u32,
    c: u32,
}

impl Drawn {
    pub fn next(k: usize, draws: &mut Draws) -> Self {
        let a = draws.next();
        let b = draws.next();
        let c = draws.next();
        Self { k, a, b, c }
    }

    // A plot about a cell that is drawn too. Every 16th is near the map's eastern edge.
    fn plot(&self) -> Octagon {
        let x = if self.k % 16 == 15 {
            (self.b % 16) as i32 + 1_999_990
        } else {
            near(self.b)
        };
        PLOTS[self.k % 6].about(x, near(self.b / 61), self.a)
    }

    // A frame about the cell (0, 0).
    fn frame(&self) -> Octagon {
        FRAMES[self.k / 6 % 10].about(0, 0, self.c)
    }

    pub fn call(&self) -> Call {
        Call {
            plot: self.plot(),
            frame: self.frame(),
        }
    }

    // With how many places the call is made.
    pub fn places(&self) -> usize
        ensures { result ≤ 24 }
    {
        (self.b / 3721 % 25) as usize
    }
}
