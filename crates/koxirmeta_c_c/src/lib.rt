// The exports of koxirmeta_c for C and Rust: each calls the function of its name there, under the same clauses. A crate is a library or
// a static library, and koxirmeta_c is the library. Each call is a function of its own, since C calls it by its name.
#![tactic(auto)]

mod clearances;
mod operations;
mod outlines;
mod sheets;
mod spectra;
mod splits;
mod tapes;
