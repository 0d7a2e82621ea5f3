// The numbers of a line, up to its end.
ghost use Rattle.script.specs.Reading.{NumbersAt};

use super::cursor::Cursor;

// Reads numbers up to the line's end, as many as `out` has room for: how many there are, and the place after the line's end.
pub fn numbers(start: Cursor, line: &[u8], out: &mut [u16]) -> Option<(usize, Cursor)>
    ensures { NumbersAt line.now start.at out.new result }
{
    let mut c = start;
    for n in 0..out.len() {
        if let Some(after) = c.line_end(line) {
            return Some((n, after));
        }
        let (x, after) = c.number(line)?;
        out[n] = x as u16;
        c = after;
    }
    let after = c.line_end(line)?;
    Some((out.len(), after))
}
