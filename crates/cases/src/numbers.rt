// The library's constants on lines of their own. The contracts say that they are what documents 01 and 02 print (specs/Numbers.antt).
ghost use Rattle.std.specs.Prelude.{◌≡◌, replicate, pos, slice_index_or};
ghost use Rattle.outline.specs.Walk.{with_sides};
ghost use Rattle.cases.specs.Numbers as numbers;

use crate::bounds::Bounds;
use crate::told::Spaced;
use octagon::{Octagon, Refusal};
use outline::Outline;
use outline::tables::{STEPS, piece_sides};
use std::io;

// The limits of the map, of the map of older records, of folds and of a sheet's length; the lengths of a record without and with a fee row, of
// one with 32-bit sides, of one that is written, and of a trailer; and the limit of a radius.
fn limits() -> [u32; 10]
    ensures { result ≡ numbers.printed_limits }
{
    [
        Octagon::LIMIT as u32,
        sheet::OLD_LIMIT,
        morphology::folds::FOLD_LIMIT,
        sheet::LIMIT as u32,
        sheet::BASE_RECORD as u32,
        sheet::FEE_RECORD as u32,
        sheet::COUNTY_RECORD as u32,
        sheet::RECORD as u32,
        sheet::TRAILER as u32,
        clearance::RADIUS_LIMIT,
    ]
}

fn refusals() -> [u32; 20]
    ensures { result ≡ numbers.printed_refusals }
{
    [
        Refusal::NoCell,
        Refusal::OffMap,
        Refusal::NotClosed,
        Refusal::NothingLeft,
        Refusal::TooManyFolds,
        Refusal::NoVertex,
        Refusal::BadLength,
        Refusal::BadTrailer,
        Refusal::BadDistance,
        Refusal::BadNumber,
        Refusal::NoRoom,
        Refusal::NoRecord,
        Refusal::NotFinite,
        Refusal::NoPoint,
        Refusal::HalfPoint,
        Refusal::TooWide,
        Refusal::TwoRecords,
        Refusal::NoOrigin,
        Refusal::NoOtherCell,
        Refusal::OffOldMap,
    ]
    .map(Refusal::number)
}

// The one cell at the origin.
fn origin() -> Octagon
    ensures { result ≡ record { c0 = pos 0; c1 = pos 0; c2 = pos 0; c3 = pos 0; c4 = pos 0; c5 = pos 0; c6 = pos 0; c7 = pos 0 } }
{
    Octagon::ORIGIN
}

// Eight bounds that differ, each in its place.
fn built() -> Octagon
    ensures { result ≡ record { c0 = pos 1; c1 = pos 2; c2 = pos 3; c3 = pos 4; c4 = pos 5; c5 = pos 6; c6 = pos 7; c7 = pos 8 } }
{
    Octagon::new(1, 2, 3, 4, 5, 6, 7, 8)
}

// The step vectors, each east and north.
fn steps() -> [[i32; 2]; 8]
    ensures { result ≡ numbers.printed_steps }
{
    STEPS
}

// The sides of the piece in row k of the table, counted from 0; eight noughts past its end.
fn sides(k: usize) -> [u32; 8]
    ensures { result ≡ slice_index_or numbers.printed_pieces k (replicate 8 0) }
{
    piece_sides(k)
}

// The piece in row k as an outline, from (0, 0); the one cell there past the table's end.
fn piece(k: usize) -> Outline
    ensures { result ≡ with_sides (pos 0) (pos 0) (slice_index_or numbers.printed_pieces k (replicate 8 0)) }
{
    decomposition::piece(k)
}

fn tell_constants(rt: &impl Print) -> io::Result<()> {
    println!(rt; "limits{}", Spaced(&limits()))?;
    println!(rt; "refusals{}", Spaced(&refusals()))?;
    println!(rt; "origin{}", Bounds::from(origin()))?;
    println!(rt; "built{}", Bounds::from(built()))?;
    println!(rt; "steps{}", Spaced(steps().as_flattened()))
}

// Each row of the table of pieces, and the one past its end.
fn tell_pieces(rt: &impl Print) -> io::Result<()> {
    for k in 0..=13 {
        let sides = sides(k);
        let Outline { i, j, .. } = piece(k);
        println!(rt; "row {k} of the pieces:{} from {i} {j}", Spaced(&sides))?;
    }
    Ok(())
}

pub fn tell(rt: &impl Print) -> io::Result<()> {
    tell_constants(rt)?;
    tell_pieces(rt)
}
