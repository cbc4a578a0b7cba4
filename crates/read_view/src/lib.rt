// A view that holds its slab by reference: its rows and columns, and element (r, c) of any number kind. The functions over the struct are
// thin: each calls one that has a slab and a view.

#![tactic(auto)]

ghost use Rattle.std.specs.Prelude.{◌≡◌};
ghost use Rattle.number.specs.Kind.{kind};
ghost use Rattle.view.specs.Checks.{read_check};
ghost use Rattle.read_view.specs.Read.{read_answer, read_outcome, found_outcome};

use call_check::check_read;
use kinds::Number;
use view::{Answer, View};

#[derive(Clone, Copy)]
pub struct ReadView<'a, N: Number> {
    pub slab: &'a [N::Cell],
    pub view: View,
}

// Whether a view may be read: refusal 1 or 2, or Done.
pub fn check<N: Number>(slab: &[N::Cell], v: View) -> Answer
    ensures { result ≡ read_check v (N.numbers.count slab.now) }
{
    check_read(v, N::count(slab))
}

// The answer to a read of element (r, c), for a slab of len elements.
#[tactic(auto, unfolding(crate::specs::Read::read_answer))]
fn answer(v: View, len: usize, r: usize, c: usize) -> Answer
    ensures { result ≡ read_answer v len r c }
{
    let a = check_read(v, len);
    if a.passed() && (v.rows <= r || v.cols <= c) {
        Answer::OutOfBounds
    } else {
        a
    }
}

// Element (r, c) of a slab through a view, or the refusal.
pub fn element<N: Number>(slab: &[N::Cell], v: View, r: usize, c: usize) -> Result<N, Answer>
    ensures { found_outcome (kind N.numbers) result ≡ read_outcome (kind N.numbers) slab.now v r c }
{
    let a = answer(v, N::count(slab), r, c);
    if a.passed() {
        Ok(slabs::elem(slab, v, r, c))
    } else {
        Err(a)
    }
}

impl<'a, N: Number> ReadView<'a, N> {
    pub fn new(slab: &'a [N::Cell], view: View) -> ReadView<'a, N>
        ensures { (result.slab ≡ slab.entry) × (result.view ≡ view) }
    {
        ReadView { slab, view }
    }

    pub fn rows(self) -> usize
        ensures { result ≡ self.entry.view.rows }
    {
        self.view.rows
    }

    pub fn cols(self) -> usize
        ensures { result ≡ self.entry.view.cols }
    {
        self.view.cols
    }

    // Element (r, c).
    pub fn get(self, r: usize, c: usize) -> Result<N, Answer>
        ensures { found_outcome (kind N.numbers) result ≡ read_outcome (kind N.numbers) self.entry.slab.now self.entry.view r c }
    {
        element(self.slab, self.view, r, c)
    }
}
