// Worked numbers, run by the proved functions and printed, one to a line. crates/number/proofs/WorkedNumbers.antt proves the same.

#![tactic(auto)]

use kinds::{Complex, Number};
use std::io;
use text::{Shown, yes_or_no};

fn main(rt: HostRuntime) -> io::Result<()> {
    println!(rt; "Worked numbers: what each result is, with its bits in hexadecimal")?;
    sums(&rt)?;
    differences(&rt)?;
    complex_numbers(&rt)?;
    infinite(&rt)?;
    zeros(&rt)?;
    betas(&rt)
}

fn complex(re: f64, im: f64) -> Complex {
    Complex { re, im }
}

fn sums(rt: &impl Print) -> io::Result<()> {
    let s = 0.1f64.add(0.2);
    println!(rt; "f64      0.1 + 0.2                      = {}", Shown(s))?;
    println!(rt;
        "f64      0.1 + 0.2 equals 0.3           = {}",
        yes_or_no(s == 0.3)
    )?;
    let t = 0.1f32.add(0.2);
    println!(rt; "f32      0.1 + 0.2                      = {}", Shown(t))?;
    println!(rt;
        "f32      0.1 + 0.2 equals 0.3           = {}",
        yes_or_no(t == 0.3)
    )
}

// The smallest normal number, from its neighbour above.
fn differences(rt: &impl Print) -> io::Result<()> {
    let s = 2.225073858507202e-308f64.sub(2.2250738585072014e-308);
    println!(rt; "f64      (2^-1022 + 2^-1074) - 2^-1022  = {}", Shown(s))?;
    println!(rt;
        "f64      is_zero of that difference     = {}",
        yes_or_no(s.is_zero())
    )?;
    let t = 1.1754945e-38f32.sub(1.1754944e-38);
    println!(rt; "f32      (2^-126 + 2^-149) - 2^-126     = {}", Shown(t))?;
    println!(rt;
        "f32      is_zero of that difference     = {}",
        yes_or_no(t.is_zero())
    )
}

fn complex_numbers(rt: &impl Print) -> io::Result<()> {
    let product = complex(1.0, 2.0).mul(complex(3.0, 5.0));
    println!(rt;
        "complex  (1, 2) * (3, 5)                = {}",
        Shown(product)
    )?;
    let quotient = complex(-7.0, 11.0).div(complex(3.0, 5.0));
    println!(rt;
        "complex  (-7, 11) / (3, 5)              = {}",
        Shown(quotient)
    )?;
    let quotient = complex(1.0, 2.0).div(complex(3.0, 4.0));
    println!(rt;
        "complex  (1, 2) / (3, 4)                = {}",
        Shown(quotient)
    )?;
    println!(rt;
        "complex  conj((3, 5))                   = {}",
        Shown(complex(3.0, 5.0).conj())
    )?;
    println!(rt;
        "complex  conj((3, 0))                   = {}",
        Shown(complex(3.0, 0.0).conj())
    )
}

fn infinite(rt: &impl Print) -> io::Result<()> {
    let z = complex(1.0, f64::INFINITY);
    let product = z.mul(Complex::from_real(1.0));
    println!(rt;
        "complex  (1, inf) * from_real(1)        = {}",
        Shown(product)
    )?;
    println!(rt;
        "complex  (1, inf).scale_real(1)         = {}",
        Shown(z.scale_real(1.0))
    )
}

fn zeros(rt: &impl Print) -> io::Result<()> {
    println!(rt;
        "f64      is_zero(-0)                    = {}",
        yes_or_no((-0.0f64).is_zero())
    )?;
    println!(rt;
        "f32      is_zero(-0)                    = {}",
        yes_or_no((-0.0f32).is_zero())
    )?;
    let zero = complex(-0.0, -0.0);
    println!(rt;
        "complex  is_zero((-0, -0))              = {}",
        yes_or_no(zero.is_zero())
    )?;
    let imaginary = complex(0.0, 2.0);
    println!(rt;
        "complex  is_zero((0, 2))                = {}",
        yes_or_no(imaginary.is_zero())
    )
}

fn betas(rt: &impl Print) -> io::Result<()> {
    println!(rt;
        "f64      beta -0                        = {}",
        Shown((-0.0f64).judged())
    )?;
    println!(rt;
        "f32      beta -0                        = {}",
        Shown((-0.0f32).judged())
    )?;
    println!(rt;
        "f64      beta 3                         = {}",
        Shown(3.0f64.judged())
    )?;
    let beta = complex(-0.0, -0.0).judged();
    println!(rt; "complex  beta (-0, -0)                  = {}", Shown(beta))?;
    let beta = Complex::judged_real(-0.0);
    println!(rt; "complex  beta -0, a real number         = {}", Shown(beta))?;
    println!(rt;
        "complex  beta (1, -0)                   = {}",
        Shown(complex(1.0, -0.0).judged())
    )
}
