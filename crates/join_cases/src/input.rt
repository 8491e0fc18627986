// The input: words of eight bytes, the lowest first, and the bytes of buffers. After its end every byte of a word is 0.
use std::io::Read;

// The next word as eight letters.
pub fn name(input: &mut impl Read) -> [u8; 8] {
    let mut bytes = [0; 8];
    let _ = input.read_exact(&mut bytes);
    bytes
}

// The next word as a number.
pub fn number(input: &mut impl Read) -> u64 {
    u64::from_le_bytes(name(input))
}

// The next word as a length or an index.
pub fn length(input: &mut impl Read) -> usize {
    number(input) as usize
}

// Reads the new bytes of a buffer to their place, as far as the input has them, and gives the bytes that are lent.
pub fn buffer<'a>(input: &mut impl Read, bytes: &'a mut [u8]) -> &'a [u8] {
    let at = length(input).min(bytes.len());
    let count = length(input);
    let lent = length(input).min(bytes.len());
    let end = at.saturating_add(count).min(bytes.len());
    let _ = input.read_exact(&mut bytes[at..end]);
    &bytes[..lent]
}
