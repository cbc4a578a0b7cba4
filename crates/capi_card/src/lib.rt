// The C interface of cards: zb_card_read, zb_dcard_write and zb_zcard_write. What is handed back is written on answer 0 alone.

#![tactic(auto)]

ghost use Rattle.std.specs.Prelude.{◌≡◌};
ghost use Rattle.card.specs.Answers.{card_number};
ghost use Rattle.card.specs.Reading.{changed};
ghost use Rattle.card.specs.Writing.{header_for, writing_of};
ghost use Rattle.capi_card.specs.Interface.{Reads, Writes};

use card::{Kind, Refusal};

// The answer of a call that is not refused.
const DONE: u8 = 0;

// Reads a card to the slab's front.
#[unsafe(no_mangle)]
pub extern "C" fn zb_card_read(
    card: &[u8],
    slab: &mut [f64],
    kind: &mut u8,
    rows: &mut usize,
    cols: &mut usize,
) -> u8
    ensures { Reads card.now slab.old kind.old rows.old cols.old result slab.new kind.new rows.new cols.new }
{
    match card::read(card, slab) {
        Ok(header) => {
            *kind = header.kind;
            *rows = usize::from(header.rows);
            *cols = usize::from(header.cols);
            DONE
        }
        Err(refusal) => u8::from(refusal),
    }
}

// The answer's number; the card's length is handed back where it is written.
fn handed(written: Result<usize, Refusal>, length: &mut usize) -> u8
    ensures { (result ≡ card_number (writing_of written).answer) × (length.new ≡ changed (writing_of written).answer length.old (writing_of written).length) }
{
    match written {
        Ok(n) => {
            *length = n;
            DONE
        }
        Err(refusal) => u8::from(refusal),
    }
}

// Writes the card of an f64 matrix.
#[unsafe(no_mangle)]
pub extern "C" fn zb_dcard_write(
    rows: usize,
    cols: usize,
    slab: &[f64],
    card: &mut [u8],
    length: &mut usize,
) -> u8
    ensures { Writes (header_for 0 rows cols) slab.now card.old length.old result card.new length.new }
{
    handed(card::write(Kind::Real, rows, cols, slab, card), length)
}

// Writes the card of a complex matrix.
#[unsafe(no_mangle)]
pub extern "C" fn zb_zcard_write(
    rows: usize,
    cols: usize,
    slab: &[f64],
    card: &mut [u8],
    length: &mut usize,
) -> u8
    ensures { Writes (header_for 1 rows cols) slab.now card.old length.old result card.new length.new }
{
    handed(card::write(Kind::Complex, rows, cols, slab, card), length)
}
