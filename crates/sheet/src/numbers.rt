// Numbers in bytes, the lowest byte first, and numbers in fields of given widths, one after the other.
ghost use Rattle.std.specs.Prelude.{◌≡◌, true, ℕ, ◌+◌, ◌^◌, ◌≤◌, ◌<◌, length, drop, get_or};
ghost use Rattle.records.specs.Numbers.{number, bytes, total_width, packed, unpacked, narrow};
ghost use Rattle.records.specs.Parts.{part, splice};

// The numbers in two and in four bytes, with no loop: the compiler makes one load of each.
fn read_two(s: &[u8], at: usize) -> u32
    requires { at + 2 ≤ length s.now }
    ensures { result ≡ number (part s.now at 2) }
{
    u32::from(s[at]) + 256 * u32::from(s[at + 1])
}

pub fn read_four(s: &[u8], at: usize) -> u32
    requires { at + 4 ≤ length s.now }
    ensures { result ≡ number (part s.now at 4) }
{
    u32::from(s[at])
        + 256 * u32::from(s[at + 1])
        + 65536 * u32::from(s[at + 2])
        + 16777216 * u32::from(s[at + 3])
}

// The number in `width` bytes.
pub fn read_number(s: &[u8], at: usize, width: usize) -> u32
    requires { (width ≤ 4) × (at + width ≤ length s.now) }
    ensures { result ≡ number (part s.now at width) }
{
    if width == 4 {
        return read_four(s, at);
    }
    if width == 2 {
        return read_two(s, at);
    }
    let mut v = 0;
    for i in (0..width).rev() {
        v = v * 256 + u32::from(s[at + i]);
    }
    v
}

// Write the lowest two and the lowest four bytes of a number: one store each.
fn put_two(s: &mut [u8], at: usize, v: u32)
    requires { at + 2 ≤ length s.old }
    ensures { s.new ≡ splice s.old at (bytes 2 v) }
{
    s[at] = (v % 256) as u8;
    s[at + 1] = (v / 256 % 256) as u8;
}

fn put_four(s: &mut [u8], at: usize, v: u32)
    requires { at + 4 ≤ length s.old }
    ensures { s.new ≡ splice s.old at (bytes 4 v) }
{
    s[at] = (v % 256) as u8;
    s[at + 1] = (v / 256 % 256) as u8;
    s[at + 2] = (v / 65536 % 256) as u8;
    s[at + 3] = (v / 16777216 % 256) as u8;
}

// Writes the lowest `width` bytes of a number.
pub fn put_number(s: &mut [u8], at: usize, width: usize, v: u32)
    requires { at + width ≤ length s.old }
    ensures { s.new ≡ splice s.old at (bytes width v) }
{
    if width == 4 {
        put_four(s, at, v);
        return;
    }
    if width == 2 {
        put_two(s, at, v);
        return;
    }
    let mut rest = v;
    for i in 0..width {
        s[at + i] = (rest % 256) as u8;
        rest /= 256;
    }
}

// The numbers in fields of these widths. Compiled into each call, as is `pack`, so that the widths are known there.
#[inline(always)]
pub fn unpack<const N: usize>(s: &[u8], at: usize, widths: &[usize; N]) -> [u32; N]
    requires { (at + total_width widths.now ≤ length s.now) × (narrow widths.now ≡ true) }
    ensures values { result ≡ unpacked widths.now (drop at s.now) }
    ensures fit { (k : ℕ) → k < N → get_or result k 0 < 256 ^ get_or widths.now k 0 }
{
    let mut values = [0; N];
    let mut p = at;
    for (k, w) in widths.iter().enumerate() {
        values[k] = read_number(s, p, *w);
        p += *w;
    }
    values
}

// Writes numbers into fields of these widths.
#[inline(always)]
pub fn pack<const N: usize>(s: &mut [u8], at: usize, widths: &[usize; N], values: &[u32; N])
    requires { at + total_width widths.now ≤ length s.old }
    ensures { s.new ≡ splice s.old at (packed widths.now values.now) }
{
    let mut p = at;
    for (k, w) in widths.iter().enumerate() {
        put_number(s, p, *w, values[k]);
        p += *w;
    }
}
