// Sums of which no right factor is conjugated, as where the right operand is a vector.

ghost use Rattle.std.specs.Prelude.{◌≡◌, false, ◌-◌};
ghost use Rattle.number.specs.Kind.{complex};
ghost use Rattle.slabs.specs.Run.{plus_terms};
ghost use Rattle.product_plan.specs.Plan.{term, FactorsWithin};

use kinds::{Complex, Number};
use product_plan::{Factors, Operands};
use slabs::{elem, elem_conj};

// The sum with the terms of element (i, j) from `from` to before `end` added.
#[tactic(auto, using(product_plan::proofs::Steps::terms))]
pub(crate) fn add_left(
    ops: &Operands<Complex>,
    f: Factors,
    i: usize,
    j: usize,
    from: usize,
    end: usize,
    sum: Complex,
) -> Complex
    requires { FactorsWithin f (complex.count ops.now.a.now) (complex.count ops.now.b.now) i j from end × (f.right_conj ≡ false) }
    ensures { result ≡ plus_terms complex sum (term complex f ops.now.a.now ops.now.b.now i j) from (end - from) }
{
    let mut total = sum;
    for p in from..end {
        let x: Complex = elem_conj(f.left_conj, ops.a, f.left, i, p);
        total = total.add(x.mul(elem(ops.b, f.right, p, j)));
    }
    total
}
