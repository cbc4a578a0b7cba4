// The path as text.
use std::{fmt, io};
use text::Column;
use view::Answer;

// A pose: x, y and z, each in its column.
#[derive(Clone, Copy)]
struct Pose<'a>(&'a [f64]);

impl fmt::Display for Pose<'_> {
    fn fmt<W: fmt::Write>(&self, f: &mut fmt::Formatter<W>) -> fmt::Result {
        for x in self.0 {
            write!(f, "{}", Column(*x))?;
        }
        Ok(())
    }
}

// What a call answered, as a sentence.
#[derive(Clone, Copy)]
struct Outcome(Answer);

impl fmt::Display for Outcome {
    fn fmt<W: fmt::Write>(&self, f: &mut fmt::Formatter<W>) -> fmt::Result {
        let sentence = match self.0 {
            Answer::Done => "done",
            Answer::TooLarge => "a view has more than 64 rows or columns",
            Answer::OutOfBounds => "some element of a view is outside its slab",
            Answer::ShapeMismatch => "the shapes do not go together",
            Answer::Overlap => "two elements of the target share a place",
            Answer::Singular => "a pivot is zero; what was solved before it stays",
        };
        write!(f, "{}: {sentence}", u8::from(self.0))
    }
}

pub fn taught(rt: &impl Print, poses: &[f64; 6]) -> io::Result<()> {
    println!(rt;
        "Two points are taught, each at a station of the rail, counted from home (x, y, z):"
    )?;
    println!(rt; "station 2 {}", Pose(&poses[..3]))?;
    println!(rt; "station 6 {}", Pose(&poses[3..]))?;
    println!(rt; "\nThe line through them")
}

pub fn call(rt: &impl Print, what: &str, answer: Answer) -> io::Result<()> {
    println!(rt; "{what:31}answer {}", Outcome(answer))
}

// The poses at the stations 2 to 6, in two columns.
pub fn waypoints(rt: &impl Print, way: &[f64; 15], wrong: &[f64; 15]) -> io::Result<()> {
    println!(rt; "\nWaypoints                            one row short")?;
    for (station, (right, short)) in (2..7).zip(way.chunks(3).zip(wrong.chunks(3))) {
        println!(rt; "station {station} {}      {}", Pose(right), Pose(short))?;
    }
    println!(rt; "\nRefused calls: the target before them, and after each")
}

pub fn pair(rt: &impl Print, line: &[f64; 6]) -> io::Result<()> {
    println!(rt; "{}   /{}", Pose(&line[..3]), Pose(&line[3..]))
}
