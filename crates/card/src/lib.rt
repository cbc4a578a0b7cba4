// Cards: a matrix in a file of 512-byte blocks, read and written.

#![tactic(auto)]

mod block;
mod fill;
pub mod judge;
mod reader;
mod writer;

ghost use Rattle.std.specs.Prelude.{◌≡◌, ◌<◌, ◌^◌};
ghost use Rattle.card.specs.Answers.{kind_number, refusal_number};
ghost use Rattle.card.specs.Layout.{blocks, count, header_bytes};

pub use reader::read;
use std::error::Error;
use std::fmt;
pub use writer::write;

// What a matrix is of: f64 numbers, or complex ones, each of two f64.
#[derive(Clone, Copy, Debug, PartialEq, Eq)]
pub enum Kind {
    Real,
    Complex,
}

// The byte of a kind.
impl From<Kind> for u8 {
    ghost from_gives = { λ kind n. n ≡ kind_number kind };

    fn from(kind: Kind) -> u8 {
        match kind {
            Kind::Real => 0,
            Kind::Complex => 1,
        }
    }
}

// What block 0 holds of a matrix. The kind is a byte, which may be no kind's: a file is wrong by it (specs, `wrong`).
#[derive(Clone, Copy, Debug, PartialEq, Eq)]
pub struct Header {
    pub kind: u8,
    pub rows: u16,
    pub cols: u16,
}

// Why a card is not read, or not written.
#[derive(Clone, Copy, Debug, PartialEq, Eq)]
pub enum Refusal {
    TooLarge,
    TooShort,
    Torn,
    Wrong,
}

impl fmt::Display for Refusal {
    fn fmt<W: fmt::Write>(&self, f: &mut fmt::Formatter<W>) -> fmt::Result {
        match self {
            Refusal::TooLarge => write!(f, "the matrix is too large"),
            Refusal::TooShort => write!(f, "the slab or the buffer is too short"),
            Refusal::Torn => write!(f, "the card is torn"),
            Refusal::Wrong => write!(f, "the card is wrong"),
        }
    }
}

impl Error for Refusal {}

// The number of a refusal.
impl From<Refusal> for u8 {
    ghost from_gives = { λ refusal n. n ≡ refusal_number refusal };

    fn from(refusal: Refusal) -> u8 {
        match refusal {
            Refusal::TooLarge => 1,
            Refusal::TooShort => 2,
            Refusal::Torn => 6,
            Refusal::Wrong => 7,
        }
    }
}

// What is known of a file after some of its blocks.
#[derive(Clone, Copy, Debug, PartialEq, Eq)]
pub struct Scan {
    pub blocks: usize,
    pub torn: bool,
    pub wrong: bool,
    pub header: Header,
}

impl Header {
    // How many f64 numbers the matrix has.
    #[tactic(auto, unfolding(crate::specs::Layout::count))]
    fn count(self) -> usize
        ensures { (result ≡ count self) × (result < 2 ^ 40) }
    {
        usize::from(self.rows) * usize::from(self.cols) * (1 + usize::from(self.kind))
    }

    // The blocks of its card.
    #[tactic(auto, unfolding(crate::specs::Layout::blocks, crate::specs::Layout::data_blocks))]
    fn blocks(self) -> usize
        ensures { result ≡ blocks self }
    {
        1 + self.count().div_ceil(63)
    }

    // The letters ARMM, rows, columns and kind, with which block 0 begins.
    #[tactic(auto, unfolding(encoding::specs::Little::byte_of))]
    fn bytes(self) -> [u8; 9]
        ensures { result ≡ header_bytes self }
    {
        let rows = self.rows.to_le_bytes();
        let cols = self.cols.to_le_bytes();
        [
            b'A', b'R', b'M', b'M', rows[0], rows[1], cols[0], cols[1], self.kind,
        ]
    }
}
