// One slab printed as several matrices, by what the strides say, negative ones included; and reads that are refused.

#![tactic(auto)]

use number::Complex;
use read_view::ReadView;
use std::{fmt, io};
use text::Column;
use view::{Answer, View};

type Reader<'a> = ReadView<'a, f64>;

fn main(rt: HostRuntime) -> io::Result<()> {
    let slab = [
        1.0, 2.0, 3.0, 4.0, 5.0, 6.0, 7.0, 8.0, 9.0, 10.0, 11.0, 12.0,
    ];
    println!(rt;
        "The slab holds 1 to 12. Element (r, c) is at start + r * row stride + c * column stride."
    )?;
    shown(&rt, &slab)?;
    refusals(&rt, &slab)?;
    complex(&rt, &slab)
}

fn shown(rt: &impl Print, slab: &[f64]) -> io::Result<()> {
    let at = |start, rows, cols, rs, cs| Reader::new(slab, View::new(start, rows, cols, rs, cs));
    println!(rt; "start 0, 3 by 4, strides 4 and 1: by rows")?;
    matrix(rt, at(0, 3, 4, 4, 1))?;
    println!(rt; "start 0, 4 by 3, strides 1 and 4: its transpose")?;
    matrix(rt, at(0, 4, 3, 1, 4))?;
    println!(rt; "start 8, 3 by 4, strides -4 and 1: the rows upwards")?;
    matrix(rt, at(8, 3, 4, -4, 1))?;
    println!(rt; "start 11, 3 by 4, strides -4 and -1: from the last to the first")?;
    matrix(rt, at(11, 3, 4, -4, -1))?;
    println!(rt; "start 3, 3 by 2, strides 4 and -2: every other column, from the right")?;
    matrix(rt, at(3, 3, 2, 4, -2))?;
    println!(rt; "start 3, 2 by 3, strides 0 and 4: the last column, twice as a row")?;
    matrix(rt, at(3, 2, 3, 0, 4))
}

fn refusals(rt: &impl Print, slab: &[f64]) -> io::Result<()> {
    let at = |start, rows, cols, rs, cs| Reader::new(slab, View::new(start, rows, cols, rs, cs));
    println!(rt; "start 7, 3 by 4, strides -4 and 1: off the slab")?;
    matrix(rt, at(7, 3, 4, -4, 1))?;
    println!(rt; "start 0, 65 by 0, strides 1 and 1: too large")?;
    matrix(rt, at(0, 65, 0, 1, 1))?;
    println!(rt; "by rows, element (2, 4)")?;
    println!(rt; "{}", Cell(at(0, 3, 4, 4, 1).get(2, 4)))
}

fn complex(rt: &impl Print, slab: &[f64]) -> io::Result<()> {
    let v = ReadView::<Complex>::new(slab, View::new(5, 2, 3, -3, -1));
    println!(rt;
        "as complex numbers, start 5, 2 by 3, strides -3 and -1: elements (0, 0), (1, 2) and (2, 0)"
    )?;
    println!(rt;
        "{}{}{}",
        Cell(v.get(0, 0)),
        Cell(v.get(1, 2)),
        Cell(v.get(2, 0))
    )
}

// The matrix, or why its view is refused.
fn matrix(rt: &impl Print, m: Reader<'_>) -> io::Result<()> {
    let answer = read_view::check::<f64>(m.slab, m.view);
    if !answer.passed() {
        return println!(rt; "{}", Refusal(answer));
    }
    for r in 0..m.rows() {
        for c in 0..m.cols() {
            print!(rt; "{}", Cell(m.get(r, c)))?;
        }
        println!(rt)?;
    }
    Ok(())
}

// An element that was read, in its column, or the refusal.
#[derive(Clone, Copy)]
struct Cell<N>(Result<N, Answer>);

impl fmt::Display for Cell<f64> {
    fn fmt<W: fmt::Write>(&self, f: &mut fmt::Formatter<W>) -> fmt::Result {
        match self.0 {
            Ok(x) => write!(f, "{}", Column(x)),
            Err(answer) => write!(f, "{}", Refusal(answer)),
        }
    }
}

impl fmt::Display for Cell<Complex> {
    fn fmt<W: fmt::Write>(&self, f: &mut fmt::Formatter<W>) -> fmt::Result {
        match self.0 {
            Ok(z) => write!(f, "{} +{}i", Column(z.re), Column(z.im)),
            Err(answer) => write!(f, "{}", Refusal(answer)),
        }
    }
}

#[derive(Clone, Copy)]
struct Refusal(Answer);

impl fmt::Display for Refusal {
    fn fmt<W: fmt::Write>(&self, f: &mut fmt::Formatter<W>) -> fmt::Result {
        write!(f, "   refusal {}", u8::from(self.0))
    }
}
