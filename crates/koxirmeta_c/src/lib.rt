// The library for C and Rust: the calls of document 01, with U4's marks, and U1's, U3's, U6's, U9's and U10's of document 02, on numbers and
// lent slices, without any `requires`. The crate koxirmeta_c_c exports each under its name. The crate listing_c has the listing.
//
// Every call answers a number: 0 where it is accepted, else the number of a refusal of documents 01 and 02, or `WRONG_LENGTH`. Where
// it is not 0, nothing that was lent is altered. bindings/koxirmeta.h declares the calls for C; specs/Calls.antt says what each leaves.
// A call on bounds reads its slices, works its answer out and hands it over by a `give` function, which tests all their lengths.
// What is read from a slice of the wrong length is a stand-in, and so is what is worked out from it. The answer for a tape, which may
// have any length, or a tree, which is three numbers, is handed over in the same way. A call that reads an outline, and one that lends a list
// on, test their slices first.
#![tactic(auto)]

pub mod clearances;
mod codes;
mod giving;
mod octagons;
pub mod operations;
pub mod outlines;
pub mod sheets;
pub mod spectra;
pub mod splits;
pub mod tapes;

// A slice of the wrong length: the caller's mistake, and no number of the documents.
pub const WRONG_LENGTH: u32 = 255;

// The answer of a call that is accepted.
pub const ACCEPTED: u32 = 0;
