// The two-point path: two points are taught, a line through them is fitted by a forward and a backward solve, and its waypoints are
// printed, beside those of a backward solve that ends one row short. Then three calls that are refused.

#![tactic(auto)]

mod path;
mod report;

use std::io;

// A line that is fitted, before the backward solve.
const LINE: [f64; 6] = [10.0, 40.0, 6.0, 20.0, -20.0, 8.0];

fn main(rt: HostRuntime) -> io::Result<()> {
    // The poses (x, y, z) taught at the stations 2 and 6 of the rail, counted from home.
    let taught = [10.0, 40.0, 6.0, 30.0, 20.0, 14.0];
    report::taught(&rt, &taught)?;
    follow(&rt, taught)?;
    off_the_slab(&rt)?;
    overlapping(&rt)?;
    singular(&rt)
}

fn follow(rt: &impl Print, taught: [f64; 6]) -> io::Result<()> {
    let mut line = taught;
    let answer = path::forward(&mut line);
    report::call(rt, "forward solve, Lower, Unit", answer)?;
    let before = line;
    let answer = path::backward(&mut line);
    report::call(rt, "backward solve, Upper, NonUnit", answer)?;
    // a backward solve that ends one row short leaves the first row as it was
    let mut short = line;
    short[..3].copy_from_slice(&before[..3]);
    let mut way = [0.0; 15];
    let answer = path::waypoints(&line, &mut way);
    report::call(rt, "waypoints, gemm", answer)?;
    let mut wrong = [0.0; 15];
    path::waypoints(&short, &mut wrong);
    report::waypoints(rt, &way, &wrong)
}

// The coefficients seen one element too far.
fn off_the_slab(rt: &impl Print) -> io::Result<()> {
    let mut line = LINE;
    report::pair(rt, &line)?;
    let answer = path::solve_from(1, 3, &mut line);
    report::call(rt, "off-slab view, start 1", answer)?;
    report::pair(rt, &line)
}

// The second row begins in the first.
fn overlapping(rt: &impl Print) -> io::Result<()> {
    let mut line = LINE;
    let answer = path::solve_from(0, 2, &mut line);
    report::call(rt, "overlapping target, stride 2", answer)?;
    report::pair(rt, &line)
}

// The first pivot is zero; the second comes first.
fn singular(rt: &impl Print) -> io::Result<()> {
    let mut line = LINE;
    let answer = path::without_first(&mut line);
    report::call(rt, "first pivot zero", answer)?;
    report::pair(rt, &line)
}
