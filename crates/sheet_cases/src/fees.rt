// Fee rows at their limits.
use crate::buffer::Buffer;
use crate::plots::plot;
use sheet::Record;
use std::io;

// The least, the next, the largest, and one whose lower byte is 0.
pub fn fees(rt: &impl Print) -> io::Result<()> {
    let mut bytes = [0; 210];
    let mut sheet = Buffer::new(&mut bytes, 0);
    sheet.tell_start(rt, 0)?;
    for (number, fee_row) in [(9, 0), (11, 1), (13, 65535), (12, 256)] {
        let outline = plot(number);
        let record = Record {
            number,
            outline,
            fee_row,
        };
        sheet.tell_record(rt, record)?;
    }
    sheet.show(rt)?;
    for k in 0..4 {
        sheet.say_both(rt, k)?;
    }
    Ok(())
}
