// Numbers in a slice of bytes, low byte first. Past its end every byte counts as 0.
ghost use Rattle.std.specs.Prelude.{◌≡◌, ℕ, ◌+◌, ◌≤◌, ◌<◌, ◌^◌, get_or, length};
ghost use Rattle.encoding.specs.Little.{byte_of, half, word, double};
ghost use Rattle.encoding.specs.Stored.{stored};

pub fn byte(s: &[u8], at: usize) -> u8
    ensures { result ≡ get_or s.now at 0 }
{
    s.get(at).copied().unwrap_or(0)
}

// The bytes from `at` on.
fn rest(s: &[u8], at: usize) -> &[u8]
    ensures { (j : ℕ) → get_or result.now j 0 ≡ get_or s.now (at + j) 0 }
{
    s.get(at..).unwrap_or(&[])
}

// The N bytes from at + k on, a sum that may be any number.
fn bytes_at<const N: usize>(s: &[u8], at: usize, k: usize) -> [u8; N]
    requires { k + N < 2 ^ 64 }
    ensures { (j : ℕ) → j < N → get_or result j 0 ≡ get_or s.now (at + (k + j)) 0 }
{
    let rest = rest(s, at);
    let mut bytes = [0; N];
    for j in 0..N {
        bytes[j] = byte(rest, k + j);
    }
    bytes
}

pub fn word_at(s: &[u8], at: usize, k: usize) -> u64
    requires { k < 2 ^ 31 }
    ensures { (result ≡ word s.now at k) × (result < 4294967296) }
{
    u64::from(u32::from_le_bytes(bytes_at(s, at, k)))
}

pub fn double_at(s: &[u8], at: usize, k: usize) -> u64
    requires { k < 2 ^ 30 }
    ensures { result ≡ double s.now at k }
{
    u64::from_le_bytes(bytes_at(s, at, k))
}

pub fn u16_at(s: &[u8], at: usize) -> u16
    ensures { result ≡ half s.now at 0 }
{
    u16::from_le_bytes(bytes_at(s, at, 0))
}

pub fn u64_at(s: &[u8], at: usize) -> u64
    ensures { result ≡ double s.now at 0 }
{
    double_at(s, at, 0)
}

// Stores the m low bytes of n from place `at` on.
pub fn put(s: &mut [u8], at: usize, m: usize, n: u64)
    requires { at + m ≤ length s.old }
    ensures { s.new ≡ stored at m (byte_of n) s.old }
{
    let mut rest = n;
    for j in 0..m {
        s[at + j] = (rest % 256) as u8;
        rest /= 256;
    }
}
