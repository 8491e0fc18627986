// How often a call that a signal interrupted is made again while one text is read or written.
//
// std's own `write_all` and `read_to_end` make such a call again up to 2^64 times, and `read_to_end` fills a `Vec`, which takes a heap. So
// input.rt and output.rt have the two loops, over std's `read` and `write`.
ghost use Rattle.std.specs.Prelude.{◌≡◌, ◌+◌, false, IsTrue, OnOk, MatchResult};
ghost use Rattle.std.specs.IoError.{error_kind};
ghost use Rattle.listing_io.specs.Transfers.{made_again};

use std::io;
use std::io::ErrorKind;

// One interrupted call more has failed.
const TRIES: u32 = 1000;

// How many interrupted calls are still made again.
#[derive(Drop)]
pub struct Tries {
    left: u32,
}

impl Tries {
    pub fn new() -> Tries
        ensures { result.left ≡ TRIES }
    {
        Tries { left: TRIES }
    }

    // Counts a call that a signal interrupted before it moved a byte, which is to be made again. Any other failure is handed on.
    pub fn again(&mut self, failure: io::Error) -> io::Result<()>
        ensures value { MatchResult result (λ _. IsTrue (made_again (error_kind failure) self.old.left)) (λ e. (e ≡ failure) × (made_again (error_kind failure) self.old.left ≡ false)) }
        ensures fewer { OnOk result (self.old.left ≡ self.new.left + 1) }
    {
        if self.left == 0 || failure.kind() != ErrorKind::Interrupted {
            return Err(failure);
        }
        self.left -= 1;
        Ok(())
    }
}
