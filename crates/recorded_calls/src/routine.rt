// The routines and the number kinds of a list, by the numbers that stand for them in a record.
ghost use Rattle.recorded_calls.specs.Numbers.{Decodes, routine_number, kind_number};

use std::error::Error;
use std::fmt;

#[derive(Clone, Copy, Debug, PartialEq, Eq)]
pub enum Routine {
    Gemv,
    Hemv,
    Her,
    Her2,
    Trmv,
    Trsv,
    Gemm,
    Symm,
    Hemm,
    Syrk,
    Herk,
    Syr2k,
    Her2k,
    Trmm,
    Trsm,
    Card,
}

// Of the calls of a list of checks only the views count.
#[derive(Clone, Copy, Debug, PartialEq, Eq)]
pub enum Kind {
    F64,
    F32,
    Complex,
    Views,
}

// A number that stands for no routine, or for no kind.
#[derive(Clone, Copy, Debug, PartialEq, Eq)]
pub struct UnknownNumber(pub u8);

impl fmt::Display for UnknownNumber {
    fn fmt<W: fmt::Write>(&self, f: &mut fmt::Formatter<W>) -> fmt::Result {
        write!(f, "number {} stands for nothing", self.0)
    }
}

impl Error for UnknownNumber {}

impl TryFrom<u8> for Routine {
    type Error = UnknownNumber;

    ghost try_from_gives = { Decodes routine_number 16 };

    fn try_from(n: u8) -> Result<Routine, UnknownNumber> {
        match n {
            0 => Ok(Routine::Gemv),
            1 => Ok(Routine::Hemv),
            2 => Ok(Routine::Her),
            3 => Ok(Routine::Her2),
            4 => Ok(Routine::Trmv),
            5 => Ok(Routine::Trsv),
            6 => Ok(Routine::Gemm),
            7 => Ok(Routine::Symm),
            8 => Ok(Routine::Hemm),
            9 => Ok(Routine::Syrk),
            10 => Ok(Routine::Herk),
            11 => Ok(Routine::Syr2k),
            12 => Ok(Routine::Her2k),
            13 => Ok(Routine::Trmm),
            14 => Ok(Routine::Trsm),
            15 => Ok(Routine::Card),
            _ => Err(UnknownNumber(n)),
        }
    }
}

impl TryFrom<u8> for Kind {
    type Error = UnknownNumber;

    ghost try_from_gives = { Decodes kind_number 4 };

    fn try_from(n: u8) -> Result<Kind, UnknownNumber> {
        match n {
            0 => Ok(Kind::F64),
            1 => Ok(Kind::F32),
            2 => Ok(Kind::Complex),
            3 => Ok(Kind::Views),
            _ => Err(UnknownNumber(n)),
        }
    }
}

impl Routine {
    // The views of a call, its target's last.
    pub(crate) fn views(self) -> usize {
        match self {
            Routine::Her
            | Routine::Trmv
            | Routine::Trsv
            | Routine::Syrk
            | Routine::Herk
            | Routine::Trmm
            | Routine::Trsm => 2,
            _ => 3,
        }
    }
}

impl fmt::Display for Routine {
    fn fmt<W: fmt::Write>(&self, f: &mut fmt::Formatter<W>) -> fmt::Result {
        let name = match self {
            Routine::Gemv => "gemv",
            Routine::Hemv => "hemv",
            Routine::Her => "her",
            Routine::Her2 => "her2",
            Routine::Trmv => "trmv",
            Routine::Trsv => "trsv",
            Routine::Gemm => "gemm",
            Routine::Symm => "symm",
            Routine::Hemm => "hemm",
            Routine::Syrk => "syrk",
            Routine::Herk => "herk",
            Routine::Syr2k => "syr2k",
            Routine::Her2k => "her2k",
            Routine::Trmm => "trmm",
            Routine::Trsm => "trsm",
            Routine::Card => "card",
        };
        write!(f, "{name}")
    }
}

impl fmt::Display for Kind {
    fn fmt<W: fmt::Write>(&self, f: &mut fmt::Formatter<W>) -> fmt::Result {
        let name = match self {
            Kind::F64 => "f64",
            Kind::F32 => "f32",
            Kind::Complex => "complex",
            Kind::Views => "views",
        };
        write!(f, "{name}")
    }
}
