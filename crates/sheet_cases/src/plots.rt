// Plots: document 01's two, rectangles, and such as tell every field apart: their eight sides differ, and so do i and j, and their fee row is
// none of these. Those of the county lie off the old map, and most have sides above 65,535.
use outline::Outline;

// Record 7 of document 01.
pub fn block() -> Outline {
    rectangle(2, -1, 3, 1)
}

// Record 11407 of document 01: K13.
pub fn diamond() -> Outline {
    Outline::with_sides(0, 0, [0, 1, 0, 1, 0, 1, 0, 1])
}

// A plot whose sides differ, six of them above 255. It reaches n7 = 516 to the west, n0 + n1 = 561 to the east and n1 + n2 + n3 = 1,298 up.
pub fn wide(i: i32, j: i32) -> Outline {
    Outline::with_sides(i, j, [300, 261, 1030, 7, 1058, 12, 770, 516])
}

// The sides of that plot, 257 times as long: six are above 65,535.
const BROAD: [u32; 8] = [77100, 67077, 264710, 1799, 271906, 3084, 197890, 132612];

// The plot of these sides. It reaches n7 = 132,612 to the west, n0 + n1 = 144,177 to the east and n1 + n2 + n3 = 333,586 up.
pub fn broad(i: i32, j: i32) -> Outline {
    Outline::with_sides(i, j, BROAD)
}

// The same with n0 longer by one, which does not close.
pub fn unclosed(i: i32, j: i32) -> Outline {
    let [_, n1, n2, n3, n4, n5, n6, n7] = BROAD;
    Outline::with_sides(i, j, [77101, n1, n2, n3, n4, n5, n6, n7])
}

// A rectangle.
pub fn rectangle(i: i32, j: i32, n0: u32, n2: u32) -> Outline {
    Outline::with_sides(i, j, [n0, 0, n2, 0, n0, 0, n2, 0])
}

// The whole map.
pub fn whole() -> Outline {
    rectangle(-2000000, -2000000, 4000000, 4000000)
}

// Coordinates on the old map, each with room for a plot of those below.
const PLACES: [i32; 8] = [-15500, -9001, -300, -1, 2, 515, 12345, 15477];

// The same for a county, off the old map.
const COUNTY_PLACES: [i32; 8] = [
    -1700001, -900007, -70003, -16001, 40009, 65541, 1000003, 1230029,
];

// A plot with a number: i and j are two of these places, and the remainders of the sides by 8 are 5 1 0 3 7 2 4 6, so that no two are
// equal. To each side is added, up to three times, one above 65,535.
fn placed(places: &[i32; 8], number: u32, times: u32) -> Outline {
    let i = places[(number % 8) as usize];
    let j = places[((number % 8 + number % 7 + 1) % 8) as usize];
    let k5 = number % 3 * 8;
    let more = times % 4;
    let sides = [
        5 + number % 11 * 32 + k5 + more * 70000,
        1 + number % 5 * 8 + more * 80000,
        8 + number % 7 * 48 + k5 + more * 72000,
        3 + number % 9 * 16 + more * 88000,
        7 + number % 11 * 32 + more * 76000,
        2 + number % 5 * 8 + k5 + more * 76000,
        4 + number % 7 * 48 + more * 74000,
        6 + number % 9 * 16 + more * 90000,
    ];
    Outline::with_sides(i, j, sides)
}

// The plot with a number, on the old map.
pub fn plot(number: u32) -> Outline {
    placed(&PLACES, number, 0)
}

// The plot of a county with a number.
pub fn county(number: u32) -> Outline {
    placed(&COUNTY_PLACES, number, number)
}

// The fee row of the plot with a number: above every side on the old map, and no coordinate's bytes.
pub fn fee_row(number: u32) -> u16 {
    (40000 + number % 9973 * 7 % 9973) as u16
}
