// Each routine's check as a kernel makes it, the quick tests first. There is one function for each, also where two are alike,
// since each promises what its own routine's check does.
ghost use Rattle.std.specs.Prelude.{◌≡◌};
ghost use Rattle.view.specs.Checks as specs;

use recorded_calls::Arg;
use view::{Answer, Side, Trans};

pub fn gemv(t: Trans, a: Arg, b: Arg, c: Arg) -> Answer
    ensures { result ≡ specs.gemv_check t a.view a.len b.view b.len c.view c.len }
{
    let left = a.view.op(t);
    let quick = call_check::quick::quick_gemv(left, a.len, b.view, b.len, c.view, c.len);
    call_check::check_gemv(quick, t, a.view, a.len, b.view, b.len, c.view, c.len)
}

pub fn hemv(a: Arg, b: Arg, c: Arg) -> Answer
    ensures { result ≡ specs.hemv_check a.view a.len b.view b.len c.view c.len }
{
    let quick = call_check::quick::quick_hemv(a.view, a.len, b.view, b.len, c.view, c.len);
    call_check::check_hemv(quick, a.view, a.len, b.view, b.len, c.view, c.len)
}

pub fn her(a: Arg, b: Arg) -> Answer
    ensures { result ≡ specs.her_check a.view a.len b.view b.len }
{
    let quick = call_check::quick::quick_her(a.view, a.len, b.view, b.len);
    call_check::check_her(quick, a.view, a.len, b.view, b.len)
}

pub fn her2(a: Arg, b: Arg, c: Arg) -> Answer
    ensures { result ≡ specs.her2_check a.view a.len b.view b.len c.view c.len }
{
    let quick = call_check::quick::quick_her2(a.view, a.len, b.view, b.len, c.view, c.len);
    call_check::check_her2(quick, a.view, a.len, b.view, b.len, c.view, c.len)
}

pub fn trmv(a: Arg, b: Arg) -> Answer
    ensures { result ≡ specs.trmv_check a.view a.len b.view b.len }
{
    let quick = call_check::quick::quick_trmv(a.view, a.len, b.view, b.len);
    call_check::check_trmv(quick, a.view, a.len, b.view, b.len)
}

pub fn trsv(a: Arg, b: Arg) -> Answer
    ensures { result ≡ specs.trsv_check a.view a.len b.view b.len }
{
    let quick = call_check::quick::quick_trmv(a.view, a.len, b.view, b.len);
    call_check::check_trsv(quick, a.view, a.len, b.view, b.len)
}

pub fn gemm(t: Trans, u: Trans, a: Arg, b: Arg, c: Arg) -> Answer
    ensures { result ≡ specs.gemm_check t u a.view a.len b.view b.len c.view c.len }
{
    let left = a.view.op(t);
    let right = b.view.op(u);
    let quick = call_check::quick::quick_gemm(left, a.len, right, b.len, c.view, c.len);
    call_check::check_gemm(quick, t, u, a.view, a.len, b.view, b.len, c.view, c.len)
}

pub fn symm(s: Side, a: Arg, b: Arg, c: Arg) -> Answer
    ensures { result ≡ specs.symm_check s a.view a.len b.view b.len c.view c.len }
{
    let quick = call_check::quick::quick_symm(s, a.view, a.len, b.view, b.len, c.view, c.len);
    call_check::check_symm(quick, s, a.view, a.len, b.view, b.len, c.view, c.len)
}

pub fn hemm(s: Side, a: Arg, b: Arg, c: Arg) -> Answer
    ensures { result ≡ specs.hemm_check s a.view a.len b.view b.len c.view c.len }
{
    let quick = call_check::quick::quick_symm(s, a.view, a.len, b.view, b.len, c.view, c.len);
    call_check::check_hemm(quick, s, a.view, a.len, b.view, b.len, c.view, c.len)
}

pub fn syrk(t: Trans, a: Arg, b: Arg) -> Answer
    ensures { result ≡ specs.syrk_check t a.view a.len b.view b.len }
{
    let quick = call_check::quick::quick_syrk(t, a.view, a.len, b.view, b.len);
    call_check::check_syrk(quick, t, a.view, a.len, b.view, b.len)
}

pub fn herk(t: Trans, a: Arg, b: Arg) -> Answer
    ensures { result ≡ specs.herk_check t a.view a.len b.view b.len }
{
    let quick = call_check::quick::quick_syrk(t, a.view, a.len, b.view, b.len);
    call_check::check_herk(quick, t, a.view, a.len, b.view, b.len)
}

pub fn syr2k(t: Trans, a: Arg, b: Arg, c: Arg) -> Answer
    ensures { result ≡ specs.syr2k_check t a.view a.len b.view b.len c.view c.len }
{
    let quick = call_check::quick::quick_syr2k(t, a.view, a.len, b.view, b.len, c.view, c.len);
    call_check::check_syr2k(quick, t, a.view, a.len, b.view, b.len, c.view, c.len)
}

pub fn her2k(t: Trans, a: Arg, b: Arg, c: Arg) -> Answer
    ensures { result ≡ specs.her2k_check t a.view a.len b.view b.len c.view c.len }
{
    let quick = call_check::quick::quick_syr2k(t, a.view, a.len, b.view, b.len, c.view, c.len);
    call_check::check_her2k(quick, t, a.view, a.len, b.view, b.len, c.view, c.len)
}

pub fn trmm(s: Side, a: Arg, b: Arg) -> Answer
    ensures { result ≡ specs.trmm_check s a.view a.len b.view b.len }
{
    let quick = call_check::quick::quick_trmm(s, a.view, a.len, b.view, b.len);
    call_check::check_trmm(quick, s, a.view, a.len, b.view, b.len)
}

pub fn trsm(s: Side, a: Arg, b: Arg) -> Answer
    ensures { result ≡ specs.trsm_check s a.view a.len b.view b.len }
{
    let quick = call_check::quick::quick_trmm(s, a.view, a.len, b.view, b.len);
    call_check::check_trsm(quick, s, a.view, a.len, b.view, b.len)
}
