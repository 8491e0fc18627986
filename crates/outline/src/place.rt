// Places on the ground, in metres: a cell is a quarter of a metre wide.
ghost use Rattle.std.specs.Prelude.{◌≡◌};
ghost use Rattle.outline.specs.Places as places;

// Document 01's place.
#[derive(Clone, Copy, Debug, PartialEq)]
pub struct Place {
    pub east: f64,
    pub north: f64,
}

// A quarter of a number of cells, exactly; zero is positive zero.
pub fn quarter(n: i32) -> f64
    ensures { result ≡ places.quarter n }
{
    (n as f64) * 0.25
}

// The place of the cell (x, y).
pub fn place_of(x: i32, y: i32) -> Place
    ensures { result ≡ places.place_of x y }
{
    Place {
        east: quarter(x),
        north: quarter(y),
    }
}
