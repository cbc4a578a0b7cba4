// Fills one block of a card that is written, which is a slice of 512 bytes. Tried as an array, lent by `as_mut_array` and
// `unwrap`: the proof of what the buffer then holds did not close.
ghost use Rattle.std.specs.Prelude.{◌≡◌, ◌+◌, ◌-◌, ◌*◌, ◌≤◌, ◌<◌, length};
ghost use Rattle.encoding.specs.Stored.{stored};
ghost use Rattle.card.specs.Layout.{block_byte, blocks, body_byte, count, data_byte, header_byte, patterns};
ghost use Rattle.card.specs.Writing.{number_byte, sealed, word_of};

use crate::Header;
use crate::block::sum;
use encoding::bits::bits_of;
use encoding::little::{byte, put};

// Stores the sum of bytes 0 to 509.
fn seal(b: &mut [u8])
    requires { length b.old ≡ 512 }
    ensures { b.new ≡ sealed b.old }
{
    let t = sum(b);
    put(b, 510, 2, t % 65536);
}

// Block 0.
#[tactic(auto, unfolding(encoding::specs::Stored::stored, crate::specs::Layout::header_byte))]
fn header_block(h: Header, b: &mut [u8])
    requires { length b.old ≡ 512 }
    ensures { b.new ≡ stored 0 512 (block_byte (header_byte h)) b.old }
{
    let bytes = h.bytes();
    for j in 0..510 {
        b[j] = byte(&bytes, j);
    }
    seal(b);
}

// The pattern of number i of a block for which the numbers `left` are left; past them zero.
#[tactic(auto, unfolding(crate::specs::Layout::patterns))]
fn word(left: &[f64], i: usize) -> u64
    ensures { result ≡ word_of left.now i }
{
    if i < left.len() { bits_of(left[i]) } else { 0 }
}

// The numbers of such a block.
#[tactic(auto, unfolding(encoding::specs::Stored::stored))]
fn numbers(left: &[f64], b: &mut [u8])
    requires { length b.old ≡ 512 }
    ensures { b.new ≡ stored 0 504 (number_byte left.now) b.old }
{
    for i in 0..63 {
        put(b, 8 * i, 8, word(left, i));
    }
}

// Data block k, for which the numbers `left` are left.
fn data_block(k: usize, left: &[f64], b: &mut [u8])
    requires { (k < 65536) × (length b.old ≡ 512) }
    ensures { b.new ≡ stored 0 512 (block_byte (data_byte k (length left.now) (patterns left.now))) b.old }
{
    numbers(left, b);
    put(b, 504, 6, k as u64);
    seal(b);
}

// Block k of the card of the matrix at the slab's front.
#[tactic(auto, using(crate::proofs::Counts::left_some))]
pub fn block(h: Header, k: usize, slab: &[f64], b: &mut [u8])
    requires { (count h ≤ length slab.now) × (k < blocks h) × (blocks h ≤ 65536) × (length b.old ≡ 512) }
    ensures { b.new ≡ stored 0 512 (block_byte (body_byte h k (λ i. patterns slab.now (63 * (k - 1) + i)))) b.old }
{
    if k == 0 {
        header_block(h, b);
    } else {
        data_block(k, &slab[63 * (k - 1)..h.count()], b);
    }
}
