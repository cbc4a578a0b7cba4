// Reads a card: all of its blocks are judged before a number is written.
ghost use Rattle.std.specs.Prelude.{◌≡◌, ◌+◌, ◌*◌, ◌≤◌, length};
ghost use Rattle.view.specs.Refusals.{limit};
ghost use Rattle.encoding.specs.Stored.{stored};
ghost use Rattle.card.specs.Layout.{data_blocks};
ghost use Rattle.card.specs.Reading.{number_of, reading, reading_of, slab_after};

use crate::block::pattern;
use crate::{Header, Refusal, Scan};
use encoding::bits::Patterned;

// The n numbers of a card, at the front of the slab.
#[tactic(auto, unfolding(encoding::specs::Stored::stored))]
fn numbers(card: &[u8], n: usize, slab: &mut [f64])
    requires { (n ≤ length slab.old) × (512 * (1 + data_blocks n) ≤ length card.now) }
    ensures { slab.new ≡ stored 0 n (number_of card.now) slab.old }
{
    for i in 0..n {
        let at = 512 * (1 + i / 63);
        slab[i] = f64::of_pattern(pattern(&card[at..at + 512], i % 63));
    }
}

// The matrix of a card, at the front of the slab, with its kind and shape.
pub fn read(card: &[u8], slab: &mut [f64]) -> Result<Header, Refusal>
    ensures { (reading_of result ≡ reading limit card.now (length slab.old)) × (slab.new ≡ slab_after limit card.now slab.old) }
{
    let scan = Scan::of(card);
    scan.judge(card.len() % 512, slab.len())?;
    numbers(card, scan.header.count(), slab);
    Ok(scan.header)
}
