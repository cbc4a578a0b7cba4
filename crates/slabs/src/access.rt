// An element of a lent slab, through a view.

ghost use Rattle.std.specs.Prelude.{◌≡◌, ◌<◌};
ghost use Rattle.number.specs.Kind.{kind};
ghost use Rattle.view.specs.Place.{index};
ghost use Rattle.slabs.specs.Elem.{elem, Within};
ghost use Rattle.slabs.specs.Run.{elem_conj};

use kinds::Number;
use view::View;

// The place of element (i, j) of a view, which is below the slab's end: there is no slab whose places do not fit.
pub fn place<N: Number>(s: &[N::Cell], v: View, i: usize, j: usize) -> usize
    requires { Within v (N.numbers.count s.now) i j }
    ensures is { result ≡ index v i j }
    ensures inside { result < N.numbers.count s.now }
{
    let _count = N::count(s);
    v.place(i, j)
}

// Element (i, j) of a view.
pub fn elem<N: Number>(s: &[N::Cell], v: View, i: usize, j: usize) -> N
    requires { Within v (N.numbers.count s.now) i j }
    ensures { result ≡ elem (kind N.numbers) s.now v i j }
{
    N::get(s, place::<N>(s, v, i, j))
}

// The same, conjugated where asked.
pub fn elem_conj<N: Number>(conj: bool, s: &[N::Cell], v: View, i: usize, j: usize) -> N
    requires { Within v (N.numbers.count s.now) i j }
    ensures { result ≡ elem_conj (kind N.numbers) conj s.now v i j }
{
    let x: N = elem(s, v, i, j);
    if conj { x.conj() } else { x }
}
