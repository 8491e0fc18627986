// The fullest sheet of 46: 1,424 records after sixteen bytes of heading in 65,536 bytes, inserted in mixed order.
use crate::buffer::Buffer;
use crate::plots::county;
use crate::words::say_digest;
use std::io;

const COUNT: u32 = 1424;

// Inserts the plots with the numbers 1 to 1,424, each 1,009 after the one before, round 1,425.
fn fill(rt: &impl Print, sheet: &mut Buffer) -> io::Result<()> {
    sheet.start(rt, 16)?;
    for k in 1..=COUNT {
        let number = k * 1009 % (COUNT + 1);
        sheet.insert(rt, number, county(number))?;
    }
    Ok(())
}

// Writes the first record, one in the middle, the last, and what is given for one more; then one more plot, and one byte more, are too much.
pub fn largest(rt: &impl Print) -> io::Result<()> {
    let mut bytes = [0; 65600];
    let mut sheet = Buffer::new(&mut bytes, 0);
    fill(rt, &mut sheet)?;
    println!(rt; "length {}", sheet.len)?;
    say_digest(rt, sheet.bytes)?;
    sheet.show_digest(rt)?;
    for k in [0, 711, 1423, 1424] {
        sheet.say_fetched(rt, k)?;
    }
    sheet.tell_insert(rt, 1425, county(1425))?;
    say_digest(rt, sheet.bytes)?;
    sheet.show_digest(rt)?;
    sheet.len = 65537;
    sheet.show(rt)
}
