// Views of a slab, the flags of the routines, and what a call answers.

#![tactic(auto)]

ghost use Rattle.std.specs.Prelude.{◌≡◌, true, ◌<◌, ◌^◌, pos, ◌*ℤ◌};
ghost use Rattle.std.specs.Int.{w64};
ghost use Rattle.std.proofs.Common.{SFits};
ghost use Rattle.view.specs.Place.{view_of, index, transposed_of, op_view_of, is_conj};
ghost use Rattle.view.specs.Vector.{vec_coord, upright_of, column_of};
ghost use Rattle.view.specs.Triangle.{first_col, end_col};
ghost use Rattle.view.specs.Judge.{answer_number, is_done};
ghost use Rattle.view.specs.Checks.{op_rows, op_cols, vector_of};
ghost use Rattle.view.specs.Flags.{Decodes, trans_in_range, trans_of, up_lo_in_range, up_lo_of, side_in_range, side_of, diag_in_range, diag_of};
ghost use Rattle.view.specs.Steps.{Shown};

use std::error::Error;
use std::fmt;

// Element (r, c) is at start + r * rs + c * cs, counted in elements of the slab.
#[derive(Clone, Copy, Debug, PartialEq, Eq)]
pub struct View {
    pub start: usize,
    pub rows: usize,
    pub cols: usize,
    pub rs: i64,
    pub cs: i64,
}

// A row and a column.
#[derive(Clone, Copy, Debug, PartialEq, Eq)]
pub struct Coord {
    pub row: usize,
    pub col: usize,
}

// op(A) is the matrix, its transpose, or its conjugate transpose.
#[derive(Clone, Copy, Debug, PartialEq, Eq)]
pub enum Trans {
    NoTrans,
    Trans,
    ConjTrans,
}

// The triangle that is named.
#[derive(Clone, Copy, Debug, PartialEq, Eq)]
pub enum UpLo {
    Upper,
    Lower,
}

// Whether the diagonal is read, or counts as ones.
#[derive(Clone, Copy, Debug, PartialEq, Eq)]
pub enum Diag {
    NonUnit,
    Unit,
}

// The side on which A stands.
#[derive(Clone, Copy, Debug, PartialEq, Eq)]
pub enum Side {
    Left,
    Right,
}

// What a call answers: done, or the refusal.
#[derive(Clone, Copy, Debug, PartialEq, Eq)]
pub enum Answer {
    Done,
    TooLarge,
    OutOfBounds,
    ShapeMismatch,
    Overlap,
    Singular,
}

// The number of an answer.
impl From<Answer> for u8 {
    ghost from_gives = { λ answer n. n ≡ answer_number answer };

    fn from(answer: Answer) -> u8 {
        match answer {
            Answer::Done => 0,
            Answer::TooLarge => 1,
            Answer::OutOfBounds => 2,
            Answer::ShapeMismatch => 3,
            Answer::Overlap => 4,
            Answer::Singular => 5,
        }
    }
}

impl Answer {
    // Whether a check passed.
    pub fn passed(self) -> bool
        ensures { result ≡ is_done self }
    {
        matches!(self, Answer::Done)
    }
}

// k steps of a stride.
fn steps(k: usize, stride: i64) -> i64
    requires { (k < 2 ^ 63) × SFits w64 (pos k *ℤ stride) }
    ensures { result ≡ pos k *ℤ stride }
{
    k as i64 * stride
}

impl View {
    // A view by its five numbers.
    pub fn new(start: usize, rows: usize, cols: usize, rs: i64, cs: i64) -> View
        ensures { result ≡ view_of start rows cols rs cs }
    {
        View {
            start,
            rows,
            cols,
            rs,
            cs,
        }
    }

    // The index of element (r, c) in the slab.
    pub fn place(self, r: usize, c: usize) -> usize
        requires { Shown self r c }
        ensures { result ≡ index self r c }
    {
        (self.start as i64 + steps(r, self.rs) + steps(c, self.cs)) as usize
    }

    // The same elements with rows and columns exchanged.
    pub fn transposed(self) -> View
        ensures { result ≡ transposed_of self }
    {
        View {
            start: self.start,
            rows: self.cols,
            cols: self.rows,
            rs: self.cs,
            cs: self.rs,
        }
    }

    // op(A)'s elements, not conjugated.
    pub fn op(self, t: Trans) -> View
        ensures { result ≡ op_view_of t self }
    {
        match t {
            Trans::NoTrans => self,
            Trans::Trans => self.transposed(),
            Trans::ConjTrans => self.transposed(),
        }
    }

    // The rows of op(A).
    pub fn op_rows(self, t: Trans) -> usize
        ensures { result ≡ op_rows t self }
    {
        match t {
            Trans::NoTrans => self.rows,
            Trans::Trans | Trans::ConjTrans => self.cols,
        }
    }

    // The columns of op(A).
    pub fn op_cols(self, t: Trans) -> usize
        ensures { result ≡ op_cols t self }
    {
        match t {
            Trans::NoTrans => self.cols,
            Trans::Trans | Trans::ConjTrans => self.rows,
        }
    }

    // Where element k of a vector stands.
    #[tactic(auto, unfolding(crate::specs::Vector::vec_coord))]
    pub fn vec_coord(self, k: usize) -> Coord
        ensures { result ≡ vec_coord self k }
    {
        if self.cols <= self.rows {
            Coord { row: k, col: 0 }
        } else {
            Coord { row: 0, col: k }
        }
    }

    // The same elements, with the columns no more than the rows.
    fn upright(self) -> View
        ensures { result ≡ upright_of self }
    {
        if self.rows < self.cols {
            self.transposed()
        } else {
            self
        }
    }

    // A vector of n elements as one column.
    pub fn column(self, n: usize) -> View
        requires { vector_of self n ≡ true }
        ensures { result ≡ column_of self }
    {
        let u = self.upright();
        View {
            start: u.start,
            rows: n,
            cols: 1,
            rs: u.rs,
            cs: 0,
        }
    }
}

impl Trans {
    // Whether op conjugates.
    pub fn conjugates(self) -> bool
        ensures { result ≡ is_conj self }
    {
        matches!(self, Trans::ConjTrans)
    }
}

impl UpLo {
    // The first column of row i in the named triangle.
    pub fn first_col(self, i: usize) -> usize
        ensures { result ≡ first_col self i }
    {
        match self {
            UpLo::Upper => i,
            UpLo::Lower => 0,
        }
    }

    // The column after the last one, with n columns.
    pub fn end_col(self, i: usize, n: usize) -> usize
        requires { i < n }
        ensures { result ≡ end_col self i n }
    {
        match self {
            UpLo::Upper => n,
            UpLo::Lower => i + 1,
        }
    }
}

// A number that stands for no flag.
#[derive(Clone, Copy, Debug, PartialEq, Eq)]
pub struct UnknownFlag(pub u8);

impl fmt::Display for UnknownFlag {
    fn fmt<W: fmt::Write>(&self, f: &mut fmt::Formatter<W>) -> fmt::Result {
        write!(f, "no flag has number {}", self.0)
    }
}

impl Error for UnknownFlag {}

impl Trans {
    // The flag of a number; past the last one's, the last.
    #[tactic(auto, unfolding(crate::specs::Flags::trans_of))]
    pub fn of(n: u8) -> Trans
        ensures { result ≡ trans_of n }
    {
        match n {
            0 => Trans::NoTrans,
            1 => Trans::Trans,
            _ => Trans::ConjTrans,
        }
    }
}

impl TryFrom<u8> for Trans {
    type Error = UnknownFlag;

    ghost try_from_gives = { Decodes trans_in_range trans_of };

    fn try_from(n: u8) -> Result<Trans, UnknownFlag> {
        if n < 3 {
            Ok(Trans::of(n))
        } else {
            Err(UnknownFlag(n))
        }
    }
}

impl UpLo {
    // The flag of a number; past the last one's, the last.
    #[tactic(auto, unfolding(crate::specs::Flags::up_lo_of))]
    pub fn of(n: u8) -> UpLo
        ensures { result ≡ up_lo_of n }
    {
        match n {
            0 => UpLo::Upper,
            _ => UpLo::Lower,
        }
    }
}

impl TryFrom<u8> for UpLo {
    type Error = UnknownFlag;

    ghost try_from_gives = { Decodes up_lo_in_range up_lo_of };

    fn try_from(n: u8) -> Result<UpLo, UnknownFlag> {
        if n < 2 {
            Ok(UpLo::of(n))
        } else {
            Err(UnknownFlag(n))
        }
    }
}

impl Side {
    // The flag of a number; past the last one's, the last.
    #[tactic(auto, unfolding(crate::specs::Flags::side_of))]
    pub fn of(n: u8) -> Side
        ensures { result ≡ side_of n }
    {
        match n {
            0 => Side::Left,
            _ => Side::Right,
        }
    }
}

impl TryFrom<u8> for Side {
    type Error = UnknownFlag;

    ghost try_from_gives = { Decodes side_in_range side_of };

    fn try_from(n: u8) -> Result<Side, UnknownFlag> {
        if n < 2 {
            Ok(Side::of(n))
        } else {
            Err(UnknownFlag(n))
        }
    }
}

impl Diag {
    // The flag of a number; past the last one's, the last.
    #[tactic(auto, unfolding(crate::specs::Flags::diag_of))]
    pub fn of(n: u8) -> Diag
        ensures { result ≡ diag_of n }
    {
        match n {
            0 => Diag::NonUnit,
            _ => Diag::Unit,
        }
    }
}

impl TryFrom<u8> for Diag {
    type Error = UnknownFlag;

    ghost try_from_gives = { Decodes diag_in_range diag_of };

    fn try_from(n: u8) -> Result<Diag, UnknownFlag> {
        if n < 2 {
            Ok(Diag::of(n))
        } else {
            Err(UnknownFlag(n))
        }
    }
}
