// Writes a card, each block in the part of the buffer that begins at its own offset.
ghost use Rattle.std.specs.Prelude.{◌≡◌, ◌*◌, ◌≤◌, ◌<◌, length};
ghost use Rattle.view.specs.Refusals.{limit};
ghost use Rattle.encoding.specs.Stored.{stored};
ghost use Rattle.card.specs.Answers.{kind_number};
ghost use Rattle.card.specs.Layout.{blocks, card_byte, count, patterns};
ghost use Rattle.card.specs.Writing.{buffer_after, header_for, writing, writing_of};

use crate::judge::too_large;
use crate::{Header, Kind, Refusal, fill};

// The card of the matrix at the slab's front, at the buffer's front.
#[tactic(auto, unfolding(encoding::specs::Stored::stored))]
fn put_card(h: Header, slab: &[f64], card: &mut [u8])
    requires { (count h ≤ length slab.now) × (512 * blocks h ≤ length card.old) × (blocks h ≤ 65536) }
    ensures { card.new ≡ stored 0 (512 * blocks h) (card_byte h (patterns slab.now)) card.old }
{
    for k in 0..h.blocks() {
        fill::block(h, k, slab, &mut card[512 * k..512 * k + 512]);
    }
}

// A matrix that is not too large.
#[tactic(auto, using(crate::proofs::Counts::small_blocks), unfolding(crate::specs::Writing::writing, crate::specs::Writing::write_answer, crate::specs::Writing::buffer_after))]
fn write_small(h: Header, slab: &[f64], card: &mut [u8]) -> Result<usize, Refusal>
    requires { (h.rows ≤ limit) × (h.cols ≤ limit) × (h.kind ≤ 1) }
    ensures { (writing_of result ≡ writing limit h (length slab.now) (length card.old)) × (card.new ≡ buffer_after limit h slab.now card.old) }
{
    let length = 512 * h.blocks();
    if slab.len() < h.count() || card.len() < length {
        return Err(Refusal::TooShort);
    }
    put_card(h, slab, card);
    Ok(length)
}

// The card of a matrix, at the buffer's front; its length.
#[tactic(auto, unfolding(crate::specs::Writing::writing, crate::specs::Writing::write_answer, crate::specs::Writing::buffer_after))]
pub fn write(
    kind: Kind,
    rows: usize,
    cols: usize,
    slab: &[f64],
    card: &mut [u8],
) -> Result<usize, Refusal>
    ensures { (writing_of result ≡ writing limit (header_for (kind_number kind) rows cols) (length slab.now) (length card.old)) × (card.new ≡ buffer_after limit (header_for (kind_number kind) rows cols) slab.now card.old) }
{
    if too_large(rows, cols) {
        return Err(Refusal::TooLarge);
    }
    let h = Header {
        kind: u8::from(kind),
        rows: rows as u16,
        cols: cols as u16,
    };
    write_small(h, slab, card)
}
