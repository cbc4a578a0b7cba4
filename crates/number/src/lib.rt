// The types that the number kinds of document 01 are made of, beside f64 and f32; specs/ has what each kind is and its laws.
// Translated from control-rs; NOTICE names the source.

#![tactic(auto)]

// A complex number: its real and its imaginary part.
#[derive(Clone, Copy, Debug, PartialEq)]
pub struct Complex {
    pub re: f64,
    pub im: f64,
}

// A factor of a complex number: complex, or real.
#[derive(Clone, Copy)]
pub enum Multiplier {
    Number(Complex),
    Real(f64),
}

// What beta does to a target, judged once: it clears it, keeps it, or multiplies it.
#[derive(Clone, Copy)]
pub enum Beta<M> {
    Clear,
    Keep,
    Factor(M),
}
