// The cases, from standard input. The file stdin says how they are written.
ghost use Rattle.std.specs.Prelude.{◌≤◌, length, IfOk};

use super::{base, tried};
use script::Cursor;
use std::io;
use std::io::Read;

// The most bytes of standard input that are read.
const LARGEST: usize = 65536;

// Does what each line of standard input says. (Of its first 65,536 bytes: the file has a tenth of that.)
pub(crate) fn all(rt: &(impl Input + Print)) -> io::Result<()> {
    let mut text = [0u8; LARGEST];
    let n = read_full(rt, &mut text)?;
    each_line(rt, &text[..n])
}

// Reads standard input to its end, or until the buffer is full, and says how many bytes it read.
fn read_full(rt: &impl Input, text: &mut [u8]) -> io::Result<usize>
    ensures { IfOk result (λ n. n ≤ length text.new) }
{
    let mut input = rt.reader();
    let mut n: usize = 0;
    for _ in 0..u64::MAX {
        let more = input.read(&mut text[n..])?;
        if more == 0 {
            break;
        }
        n += more;
    }
    Ok(n)
}

fn each_line(rt: &impl Print, text: &[u8]) -> io::Result<()> {
    for line in text.split_inclusive(|&b| b == b'\n') {
        obey(rt, line.strip_suffix(b"\n").unwrap_or(line))?;
    }
    Ok(())
}

// `# NAME` is what the next case's line starts with, other lines with # are for the reader, and any else is a case. One that is none
// is printed, so that the output is not what it is held to.
fn obey(rt: &impl Print, line: &[u8]) -> io::Result<()> {
    match line {
        [b'#', b' ', name @ ..] => return rt.write_all(name),
        [b'#', _, ..] => return Ok(()),
        _ => {}
    }
    if !try_case(rt, line)? {
        rt.write_all(b"? ")?;
        rt.write_all(line)?;
        rt.write_all(b"\n")?;
    }
    Ok(())
}

// Tries every call on the table that a line `T` with its numbers gives; says whether the line is that.
fn try_case(rt: &impl Print, line: &[u8]) -> io::Result<bool> {
    let Some((b'T', start)) = Cursor::START.letter(line) else {
        return Ok(false);
    };
    let Some(table) = base::write_over(base::make(rt), line, start) else {
        return Ok(false);
    };
    tried::every_call(rt, &table)?;
    Ok(true)
}
