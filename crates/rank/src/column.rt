// A lent vector, read as one column.

ghost use Rattle.std.specs.Prelude.{◌≡◌, ◌<◌};
ghost use Rattle.number.specs.Kind.{kind};
ghost use Rattle.slabs.specs.Elem.{elem};
ghost use Rattle.rank_plan.specs.Ready.{Sized};

use kinds::Number;
use slabs::elem;
use view::View;

#[derive(Drop)]
pub(crate) struct Column<'a, N: Number> {
    pub slab: &'a [N::Cell],
    pub view: View,
    ghost inside: { Sized view (N.numbers.count slab.now) view.rows 1 },
}

impl<'a, N: Number> Column<'a, N> {
    #[inline(always)]
    pub(crate) fn get(&self, i: usize) -> N
        requires { i < self.now.view.rows }
        ensures { result ≡ elem (kind N.numbers) self.now.slab.now self.now.view i 0 }
    {
        elem(self.slab, self.view, i, 0)
    }
}
