// Flags from the numbers that C passes, several at once: all of them, or the first that is none. specs/ has a call through the C interface
// as a definition, proofs/ what each C function has to show.

#![tactic(auto)]

ghost use Rattle.std.specs.Prelude.{◌&&◌};
ghost use Rattle.view.specs.Flags.{trans_in_range, trans_of, up_lo_in_range, up_lo_of, side_in_range, side_of, diag_in_range, diag_of};
ghost use Rattle.capi_flags.specs.Interface.{Decoded};

use view::{Diag, Side, Trans, UnknownFlag, UpLo};

pub fn trans_trans(s: u8, t: u8) -> Result<(Trans, Trans), UnknownFlag>
    ensures { Decoded (trans_in_range s && trans_in_range t) (trans_of s, trans_of t) result }
{
    Ok((Trans::try_from(s)?, Trans::try_from(t)?))
}

pub fn side_uplo(s: u8, u: u8) -> Result<(Side, UpLo), UnknownFlag>
    ensures { Decoded (side_in_range s && up_lo_in_range u) (side_of s, up_lo_of u) result }
{
    Ok((Side::try_from(s)?, UpLo::try_from(u)?))
}

pub fn uplo_trans(u: u8, t: u8) -> Result<(UpLo, Trans), UnknownFlag>
    ensures { Decoded (up_lo_in_range u && trans_in_range t) (up_lo_of u, trans_of t) result }
{
    Ok((UpLo::try_from(u)?, Trans::try_from(t)?))
}

pub fn uplo_trans_diag(u: u8, t: u8, d: u8) -> Result<(UpLo, Trans, Diag), UnknownFlag>
    ensures { Decoded (up_lo_in_range u && trans_in_range t && diag_in_range d) (up_lo_of u, trans_of t, diag_of d) result }
{
    Ok((UpLo::try_from(u)?, Trans::try_from(t)?, Diag::try_from(d)?))
}

pub fn side_uplo_trans_diag(
    s: u8,
    u: u8,
    t: u8,
    d: u8,
) -> Result<(Side, UpLo, Trans, Diag), UnknownFlag>
    ensures { Decoded (side_in_range s && (up_lo_in_range u && trans_in_range t && diag_in_range d)) (side_of s, up_lo_of u, trans_of t, diag_of d) result }
{
    let side = Side::try_from(s)?;
    let (uplo, trans, diag) = uplo_trans_diag(u, t, d)?;
    Ok((side, uplo, trans, diag))
}
