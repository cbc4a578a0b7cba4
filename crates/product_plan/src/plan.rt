// The plan of a product: the same for every number kind.

ghost use Rattle.std.specs.Prelude.{◌≡◌, ◌≤◌};
ghost use Rattle.product_plan.specs.Plan.{terms_before};

use view::View;

// Where the factors of a term are read: (i, p) of the left view and (p, j) of the right one, and whether they are conjugated.
#[derive(Clone, Copy)]
pub struct Factors {
    pub left: View,
    pub left_conj: bool,
    pub right: View,
    pub right_conj: bool,
}

// target ← scaled target + alpha · Σ left(i, p) · right(p, j), with p below `terms`.
#[derive(Clone, Copy)]
pub struct Plan {
    pub factors: Factors,
    pub terms: usize,
    pub target: View,
}

// After how many terms the sum of element (i, j) meets the other triangle: at the diagonal of row i or of column j, or past it.
#[derive(Clone, Copy)]
pub enum Turn {
    AtRow,
    PastRow,
    AtCol,
    PastCol,
}

impl Turn {
    // The number of terms before the turn, which is at most n.
    pub fn at(self, i: usize, j: usize, n: usize) -> usize
        requires { terms_before self i j ≤ n }
        ensures { result ≡ terms_before self i j }
    {
        match self {
            Turn::AtRow => i,
            Turn::PastRow => i + 1,
            Turn::AtCol => j,
            Turn::PastCol => j + 1,
        }
    }
}

// The same with an operand of which one triangle is read: the terms before the turn have other factors than those after it.
#[derive(Clone, Copy)]
pub struct Folded {
    pub turn: Turn,
    pub head: Factors,
    pub tail: Factors,
    pub terms: usize,
    pub target: View,
}
