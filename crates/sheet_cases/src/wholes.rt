// Whole sheets: cut short, too long, with other line ends, with something after them.
use crate::{altered, say};
use std::alloc::{AllocError, Global};
use std::io;

// Sheets with more than one fault, or with lines left out.
const SEVERAL: [(&str, &str); 5] = [
    ("bad lines 3 and 4", "rows=01\nouts=01\nmin=60001\nmax=\n"),
    ("a line left out", "rows=01\nouts=01\nmax=2000\nkind=or\n"),
    ("only the first line", "rows=01\n"),
    (
        "14 in line 6 before 15 in line 9",
        "rows=01\nouts=01\nmin=350\nmax=2000\nkind=or\nact=r00\npins=0,0,0,0\nreset=-\nstart=1\nauto=1\nout=r00\n",
    ),
    (
        "15 in line 9 before 13 in line 11",
        "rows=01\nouts=01\nmin=350\nmax=2000\nkind=or\nact=1\npins=0,0,0,0\nreset=-\nstart=1\nauto=1\nout=r99\nx",
    ),
];

fn good(heap: Global) -> Result<Vec<u8>, AllocError> {
    altered(heap, None)
}

// The good sheet and then bytes `x`, until it has `len` bytes.
fn padded(heap: Global, len: usize) -> Result<Vec<u8>, AllocError> {
    let mut sheet = good(heap)?;
    sheet.resize(len, b'x')?;
    Ok(sheet)
}

// The largest sheet: every row and output, and every line as long as it can be.
fn largest(heap: Global) -> Result<Vec<u8>, AllocError> {
    let mut sheet = Vec::new(heap);
    sheet.extend_from_slice(b"rows=32\nouts=16\nmin=60000\nmax=60000\n")?;
    sheet.extend_from_slice(
        b"kind=estop\nact=i63\npins=i00,i01,i62,i63\nreset=i63\nstart=1\nauto=1\n"
            .repeat(heap, 32)?
            .as_slice(),
    )?;
    sheet.extend_from_slice(b"out=r31\n".repeat(heap, 16)?.as_slice())?;
    Ok(sheet)
}

// The good sheet with more after it.
fn followed(heap: Global, more: &[u8]) -> Result<Vec<u8>, AllocError> {
    let mut sheet = good(heap)?;
    sheet.extend_from_slice(more)?;
    Ok(sheet)
}

// The good sheet without its last bytes.
fn cut(heap: Global, bytes: usize) -> Result<Vec<u8>, AllocError> {
    let mut sheet = good(heap)?;
    sheet.truncate(sheet.len().saturating_sub(bytes));
    Ok(sheet)
}

fn lengths(rt: &impl Print, heap: Global) -> io::Result<()> {
    for len in [4096, 4097] {
        say(
            rt,
            format_args!("{len} bytes"),
            padded(heap, len)?.as_slice(),
        )?;
    }
    let sheet = largest(heap)?;
    let len = sheet.len();
    say(
        rt,
        format_args!("the largest sheet, {len} bytes"),
        sheet.as_slice(),
    )
}

// The word comes before the want of memory for the sheet.
fn say_built(rt: &impl Print, what: &str, sheet: Result<Vec<u8>, AllocError>) -> io::Result<()> {
    match sheet {
        Ok(sheet) => say(rt, what, sheet.as_slice()),
        Err(error) => {
            print!(rt; "{what}: ")?;
            Err(error.into())
        }
    }
}

fn ends(rt: &impl Print, heap: Global) -> io::Result<()> {
    say(rt, "no bytes", b"")?;
    say(rt, "one line feed", b"\n")?;
    say_built(rt, "without the last line feed", cut(heap, 1))?;
    say_built(rt, "without the last line", cut(heap, 8))?;
    say_built(rt, "one line feed more", followed(heap, b"\n"))?;
    say_built(rt, "a space at the end", followed(heap, b" "))?;
    say_built(rt, "one output too many", followed(heap, b"out=r00\n"))?;
    say(rt, "CR LF", b"rows=01\r\nouts=01\r\n")
}

pub fn run(rt: &impl Print, heap: Global) -> io::Result<()> {
    say(rt, "the good sheet", good(heap)?.as_slice())?;
    ends(rt, heap)?;
    for (what, sheet) in SEVERAL {
        say(rt, what, sheet.as_bytes())?;
    }
    lengths(rt, heap)
}
