// Signed numbers in two's complement of a given number of bytes. A width is a plain number, as it stands in an array of widths, of which
// one fact says that each is at most 4.
ghost use Rattle.std.specs.Prelude.{◌≡◌, ◌/◌, ◌^◌, ◌≤◌, ◌<◌};
ghost use Rattle.std.specs.Int.Signed.{mag};
ghost use Rattle.records.specs.Numbers.{signed, twos};

// How many numbers there are of 0 to 4 bytes.
const POWERS: [u64; 5] = [1, 256, 65536, 16777216, 4294967296];

fn power(width: usize) -> u64
    requires { width ≤ 4 }
    ensures { result ≡ 256 ^ width }
{
    POWERS[width]
}

// The signed number of `width` bytes. It is turned half way round and back, without a branch: the compiler makes it one load.
pub fn to_signed(v: u32, width: usize) -> i32
    requires { (width ≤ 4) × (v < 256 ^ width) }
    ensures { result ≡ signed width v }
{
    let all = power(width);
    let half = all / 2;
    ((((v as u64) + half) % all) as i64 - (half as i64)) as i32
}

// The number of the `width` bytes of a signed number.
pub fn to_twos(x: i32, width: usize) -> u32
    requires { (width ≤ 4) × (mag x < 256 ^ width / 2) }
    ensures { result ≡ twos width x }
{
    let wide = x as i64;
    if wide < 0 {
        (wide + (power(width) as i64)) as u32
    } else {
        wide as u32
    }
}
