// A text written whole, in as many writes as it takes.
ghost use Rattle.std.specs.Prelude.{OnOk};
ghost use Rattle.std.specs.Io.KnownBytes.{Appends};

use crate::tries::Tries;
use std::io;
use std::io::{ErrorKind, Write};

// Writes all of a text. It fails where a write fails or takes nothing; a part may then have been written.
// It ends: each turn leaves less of the text or fewer tries. A `while`, since a write says how far it came.
pub fn write_all<W: Write>(to: &mut W, text: &[u8]) -> io::Result<()>
    ensures { OnOk result (Appends (W.contents to.old) (W.contents to.new) text.now) }
{
    let mut rest = text;
    let mut tries = Tries::new();
    while !rest.is_empty() {
        match to.write(rest) {
            Ok(0) => return Err(ErrorKind::WriteZero.into()),
            Ok(n) => rest = &rest[n..],
            Err(e) => tries.again(e)?,
        }
    }
    Ok(())
}
