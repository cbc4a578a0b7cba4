// One block of a card that is read: its sum, its header, and whether it departs from what a card has there.
ghost use Rattle.std.specs.Prelude.{◌≡◌, ◌+◌, ◌-◌, ◌*◌, ◌≤◌, ◌<◌, ◌^◌, suc, min};
ghost use Rattle.card.specs.Reading.{sum_of, torn_block, header_of, pattern, departs};
ghost use Rattle.card.specs.Scanning.{nonzero, data_departs};

use crate::Header;
use encoding::little::{byte, double_at, u16_at};

// The sum of bytes 0 to 509.
#[tactic(auto, unfolding(crate::specs::Layout::total))]
pub fn sum(b: &[u8]) -> u64
    ensures { result ≡ sum_of b.now }
{
    let mut t = 0;
    for j in 0..510 {
        t += u64::from(byte(b, j));
    }
    t
}

#[tactic(auto, unfolding(crate::specs::Reading::torn_block, encoding::specs::Little::little))]
pub fn torn_block(b: &[u8]) -> bool
    ensures { result ≡ torn_block b.now }
{
    u64::from(u16_at(b, 510)) != sum(b) % 65536
}

#[tactic(auto, unfolding(crate::specs::Reading::header_of, encoding::specs::Little::little))]
pub fn header_of(b: &[u8]) -> Header
    ensures { result ≡ header_of b.now }
{
    Header {
        kind: byte(b, 8),
        rows: u16_at(b, 4),
        cols: u16_at(b, 6),
    }
}

// The pattern of number i of a data block.
#[tactic(auto, unfolding(crate::specs::Reading::pattern, encoding::specs::Little::little))]
pub fn pattern(b: &[u8], i: usize) -> u64
    requires { i < 63 }
    ensures { result ≡ pattern b.now i }
{
    double_at(b, 0, 8 * i)
}

// Whether one of the n bytes from `from` on is not zero.
#[tactic(auto, unfolding(crate::specs::Scanning::nonzero, view::specs::Any::any))]
fn nonzero(b: &[u8], from: usize, n: usize) -> bool
    requires { from + n ≤ 512 }
    ensures { result ≡ nonzero b.now from n }
{
    for j in 0..n {
        if byte(b, from + j) != 0 {
            return true;
        }
    }
    false
}

// Whether block 0 departs from its own header's.
fn header_departs(b: &[u8]) -> bool
    ensures { result ≡ departs (header_of b.now) 0 b.now }
{
    u16_at(b, 0) != 0x5241 || u16_at(b, 2) != 0x4d4d || nonzero(b, 9, 501)
}

// Whether data block k departs from one for which n numbers are left.
fn data_departs(b: &[u8], k: usize, n: usize) -> bool
    ensures { result ≡ data_departs k n b.now }
{
    let end = 8 * n.min(63);
    nonzero(b, end, 504 - end) || usize::from(u16_at(b, 504)) != k || nonzero(b, 506, 4)
}

// Whether block k departs from that of a card with header h, which is block 0's own.
#[tactic(auto, unfolding(crate::specs::Layout::body_byte))]
pub fn departs(h: Header, k: usize, b: &[u8]) -> bool
    requires { k ≡ 0 → h ≡ header_of b.now }
    ensures { result ≡ departs h k b.now }
{
    if k == 0 {
        header_departs(b)
    } else {
        data_departs(b, k, h.count().saturating_sub((k - 1).saturating_mul(63)))
    }
}
