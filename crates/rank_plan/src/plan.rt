// The plan of two matrices: the same for every number kind.

ghost use Rattle.std.specs.Prelude.{◌≡◌};
ghost use Rattle.rank_plan.specs.Plan.{syr_readings, her_readings, paired_plan, syr2k_plan, her2k_plan};

use view::{Trans, UpLo, View};

// How the left and the right factor of a product are read.
#[derive(Clone, Copy)]
pub struct Readings {
    pub left: Trans,
    pub right: Trans,
}

// The target's named triangle, and where the factors of the products left(a)(i, p) · right(b)(p, j) and
// left(b)(i, p) · right(a)(p, j) are read, with p below `terms`, and whether they are conjugated.
#[derive(Clone, Copy)]
pub struct Plan {
    pub uplo: UpLo,
    pub left_a: View,
    pub right_b: View,
    pub left_b: View,
    pub right_a: View,
    pub left_conj: bool,
    pub right_conj: bool,
    pub terms: usize,
    pub target: View,
}

fn syr_readings(t: Trans) -> Readings
    ensures { result ≡ syr_readings t }
{
    match t {
        Trans::NoTrans => Readings {
            left: Trans::NoTrans,
            right: Trans::Trans,
        },
        Trans::Trans | Trans::ConjTrans => Readings {
            left: Trans::Trans,
            right: Trans::NoTrans,
        },
    }
}

fn her_readings(t: Trans) -> Readings
    ensures { result ≡ her_readings t }
{
    match t {
        Trans::NoTrans => Readings {
            left: Trans::NoTrans,
            right: Trans::ConjTrans,
        },
        Trans::Trans | Trans::ConjTrans => Readings {
            left: Trans::ConjTrans,
            right: Trans::NoTrans,
        },
    }
}

// op(A) and op(B), read as r says.
fn paired_plan(uplo: UpLo, t: Trans, r: Readings, a: View, b: View, c: View) -> Plan
    ensures { result ≡ paired_plan uplo t r a b c }
{
    Plan {
        uplo,
        left_a: a.op(r.left),
        right_b: b.op(r.right),
        left_b: b.op(r.left),
        right_a: a.op(r.right),
        left_conj: r.left.conjugates(),
        right_conj: r.right.conjugates(),
        terms: a.op_cols(t),
        target: c,
    }
}

pub fn syr2k_plan(uplo: UpLo, t: Trans, a: View, b: View, c: View) -> Plan
    ensures { result ≡ syr2k_plan uplo t a b c }
{
    paired_plan(uplo, t, syr_readings(t), a, b, c)
}

pub fn her2k_plan(uplo: UpLo, t: Trans, a: View, b: View, c: View) -> Plan
    ensures { result ≡ her2k_plan uplo t a b c }
{
    paired_plan(uplo, t, her_readings(t), a, b, c)
}
