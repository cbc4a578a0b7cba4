// A list as a file: 8 bytes that name the format, the number of records, then the records, each behind its length.
ghost use Rattle.std.specs.Prelude.{◌≡◌, IfOk, IfSome, OnErr, length};
ghost use Rattle.std.specs.Counts.{IsPrefixLen};

use crate::record::Record;
use crate::tally::Tally;
use encoding::little::u64_at;
use std::fs::File;
use std::io;
use std::io::{ErrorKind, Read};
use std::rt::Files;

const FORMAT: &[u8] = b"ZBLIST01";

// The most bytes of a record that a program takes.
pub const LONGEST: usize = 4096;

// A list that is replayed: its file, and the number of its records.
#[derive(Drop)]
pub struct List<F> {
    pub file: F,
    pub records: u64,
}

// The list of that name, or why it cannot be read. A name that is no text names no file.
pub fn open<R: Files>(rt: &R, path: &[u8]) -> io::Result<List<R::File>> {
    let Ok(name) = str::from_utf8(path) else {
        return Err(io::Error::from(ErrorKind::InvalidFilename));
    };
    let mut file = File::open(rt, name)?;
    let records = records(&mut file)?;
    Ok(List { file, records })
}

// The number of records, which stands at the file's start; 0 where the file is no list.
fn records(file: &mut impl Read) -> io::Result<u64> {
    let mut head = [0u8; 16];
    if reads_all(file, &mut head)? && head.starts_with(FORMAT) {
        Ok(u64_at(&head, 8))
    } else {
        Ok(0)
    }
}

// Reads as many bytes as body has; whether they were there.
fn reads_all(file: &mut impl Read, body: &mut [u8]) -> io::Result<bool> {
    match file.read_exact(body) {
        Ok(()) => Ok(true),
        Err(e) if e.kind() == ErrorKind::UnexpectedEof => Ok(false),
        Err(e) => Err(e),
    }
}

// Reads the next record to the start of body, and answers its length. There is none where the file ends, where the length is
// 0, or where body is shorter. Its error is that of the file's read; what body then has are the bytes read so far and its own.
pub fn next(file: &mut impl Read, body: &mut [u8]) -> io::Result<Option<usize>>
    ensures read { IfOk result (λ r. IfSome r (λ n. IsPrefixLen n body.new)) }
    ensures failed { OnErr result (length body.new ≡ length body.old) }
{
    let mut size = [0u8; 2];
    if !reads_all(file, &mut size)? {
        return Ok(None);
    }
    let n = usize::from(u16::from_le_bytes(size));
    if n == 0 || body.len() < n || !reads_all(file, &mut body[..n])? {
        return Ok(None);
    }
    Ok(Some(n))
}

impl<F: Read + Drop> List<F> {
    // Makes the call of each record again, and reports how many agreed.
    pub fn replay<P: Print, C: Fn(Record<'_>) -> bool>(
        mut self,
        rt: &P,
        agrees: C,
    ) -> io::Result<()>
        requires { C.IsAlwaysCallable agrees }
    {
        let mut tally = Tally::new();
        let mut space = [0u8; LONGEST];
        for _ in 0..self.records {
            let Some(n) = next(&mut self.file, &mut space)? else {
                break;
            };
            let record = Record { bytes: &space[..n] };
            tally.count(record, agrees(record));
        }
        tally.report(rt, self.records)
    }
}
