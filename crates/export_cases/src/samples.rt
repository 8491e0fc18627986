// Operands and memory whose numbers differ, so that none can stand in another's place unseen.

// An octagon, which sample is its frame in the calls that take two, and how often that is taken in an n-fold call.
#[derive(Clone, Copy)]
pub struct Sample {
    pub bounds: [i32; 8],
    pub frame: usize,
    pub folds: u32,
}

pub const SAMPLES: [Sample; 15] = [
    // the plot from (-4, -5) with the sides 3 1 14 2 5 4 6 7, and a frame of 10 cells
    Sample {
        bounds: [5, 4, 0, 10, 12, 19, 11, 9],
        frame: 1,
        folds: 2,
    },
    Sample {
        bounds: [-4, -1, 5, 11, 7, 4, -2, -7],
        frame: 0,
        folds: 0,
    },
    // two slack bounds; bounds that hold no cell
    Sample {
        bounds: [5, 4, 0, 10, 40, 27, 11, 20],
        frame: 1,
        folds: 4000002,
    },
    Sample {
        bounds: [6, 2, 7, 5, 8, -2, 9, -5],
        frame: 4,
        folds: 1,
    },
    // the cells (2000001, -3), off the map, (1999999, -7) and (-2, 5)
    Sample {
        bounds: [
            3, 2000004, 2000001, 1999998, -3, -2000004, -2000001, -1999998,
        ],
        frame: 3,
        folds: 1,
    },
    Sample {
        bounds: [
            7, 2000006, 1999999, 1999992, -7, -2000006, -1999999, -1999992,
        ],
        frame: 6,
        folds: 3,
    },
    Sample {
        bounds: [-5, -7, -2, 3, 5, 7, 2, -3],
        frame: 5,
        folds: 1,
    },
    // the cells (2, 3), (3, 4) and (4, 5), and the cells (1, 7) and (2, 6): opposed diagonal rows
    Sample {
        bounds: [-3, -1, 4, 9, 5, 1, -2, -5],
        frame: 8,
        folds: 2,
    },
    Sample {
        bounds: [-6, -4, 2, 8, 7, 6, -1, -8],
        frame: 7,
        folds: 0,
    },
    // the plot turned by one, two and three quarters; a diamond
    Sample {
        bounds: [11, 9, 5, 4, 0, 10, 12, 19],
        frame: 1,
        folds: 1,
    },
    Sample {
        bounds: [12, 19, 11, 9, 5, 4, 0, 10],
        frame: 1,
        folds: 1,
    },
    Sample {
        bounds: [0, 10, 12, 19, 11, 9, 5, 4],
        frame: 1,
        folds: 1,
    },
    Sample {
        bounds: [-1, -7, -3, 1, 6, 11, 8, 5],
        frame: 8,
        folds: 1,
    },
    // the strip from (-9, 14) with the sides 1 2 2 0 0 3 1 0, in which the row of two cells has positions on one rising row
    Sample {
        bounds: [-14, -22, -6, 12, 18, 24, 9, -5],
        frame: 8,
        folds: 3,
    },
    // the cells (1999997, -4) and (1999998, -3): spread by that row they reach the map's edge
    Sample {
        bounds: [
            4, 2000001, 1999998, 1999995, -3, -2000001, -1999997, -1999993,
        ],
        frame: 8,
        folds: 2,
    },
];

// The first bytes of a buffer, so many, taken for a sheet.
#[derive(Clone, Copy)]
pub struct Sheet<'a> {
    pub buffer: &'a [u8],
    pub len: usize,
}

impl<'a> Sheet<'a> {
    pub fn new(buffer: &'a [u8], len: usize) -> Self {
        Self { buffer, len }
    }
}

// How many bytes the buffers of sheets have.
pub const ROOM: usize = 163;

// A buffer whose bytes all differ.
pub const BUFFER: [u8; ROOM] = *b"\
    \x20!\"#$%&'()*+,-./0123456789:;<=>?@ABCDEFGHIJKLMNOPQRSTUVWXYZ[\\]^_`abcdefghijklmnopqrstuvwxyz{|}~\
    \x80\x81\x82\x83\x84\x85\x86\x87\x88\x89\x8a\x8b\x8c\x8d\x8e\x8f\x90\x91\x92\x93\x94\x95\x96\x97\x98\x99\x9a\x9b\x9c\x9d\x9e\x9f\
    \xa0\xa1\xa2\xa3\xa4\xa5\xa6\xa7\xa8\xa9\xaa\xab\xac\xad\xae\xaf\xb0\xb1\xb2\xb3\xb4\xb5\xb6\xb7\xb8\xb9\xba\xbb\xbc\xbd\xbe\xbf\
    \xc0\xc1\xc2\xc3";

// The same, with a sheet of 24 in its first 67 bytes: three bytes of heading, the plots 513 and 70001, and the trailer.
pub const NARROW: [u8; ROOM] = *b"\
    \x20!\"\
    \x01\x02\0\0\x18\xfc\xd0\x07\x2f\x01\x01\0\xca\x02\x02\0\x31\x01\x04\0\xc2\x02\x07\0\
    \x71\x11\x01\0\xfc\xff\xfb\xff\x03\0\x01\0\x0e\0\x02\0\x05\0\x04\0\x06\0\x07\0\
    \x30\0\0\0\x02\0\0\0\x18\0\0\0GRND\
    cdefghijklmnopqrstuvwxyz{|}~\
    \x80\x81\x82\x83\x84\x85\x86\x87\x88\x89\x8a\x8b\x8c\x8d\x8e\x8f\x90\x91\x92\x93\x94\x95\x96\x97\x98\x99\x9a\x9b\x9c\x9d\x9e\x9f\
    \xa0\xa1\xa2\xa3\xa4\xa5\xa6\xa7\xa8\xa9\xaa\xab\xac\xad\xae\xaf\xb0\xb1\xb2\xb3\xb4\xb5\xb6\xb7\xb8\xb9\xba\xbb\xbc\xbd\xbe\xbf\
    \xc0\xc1\xc2\xc3";

// A sheet of 26 in the first 73 bytes: five bytes of heading, the plots 770 and 70001, and the trailer. Its plot 70001 is the one above, with
// the fee row 0.
pub const HALF: [u8; 77] = *b"\
    south\
    \x02\x03\0\0\x15\0\xdf\xff\x0f\0\x0b\0\x12\0\x09\0\x16\0\x08\0\x11\0\x0d\0\x02\x01\
    \x71\x11\x01\0\xfc\xff\xfb\xff\x03\0\x01\0\x0e\0\x02\0\x05\0\x04\0\x06\0\x07\0\0\0\
    \x34\0\0\0\x02\0\0\0\x1a\0\0\0GRND\
    wxyz";

// A sheet of 46 in the first 113 bytes: five bytes of heading, the plots 513 and 31337, and the trailer. Its plot 513 is the one above; 31337 is
// off the old map, and has more cells than 32 bits count.
pub const COUNTY: [u8; 116] = *b"\
    shire\
    \x01\x02\0\0\x18\xfc\xff\xff\xd0\x07\0\0\
    \x2f\x01\0\0\x01\0\0\0\xca\x02\0\0\x02\0\0\0\x31\x01\0\0\x04\0\0\0\xc2\x02\0\0\x07\0\0\0\0\0\
    \x69\x7a\0\0\x79\x29\xed\xff\x31\x3e\x19\0\
    \xa3\x86\x01\0\x2b\x4e\0\0\x71\x11\x01\0\x3d\x75\0\0\xad\x86\x01\0\x49\x9c\0\0\x2b\x75\0\0\x65\xc3\0\0\xed\x0f\
    \x5c\0\0\0\x02\0\0\0\x2e\0\0\0GRND\
    tuv";
