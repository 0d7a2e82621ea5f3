// The table that the cases start from, with numbers beyond the pools that are not zero; and the numbers written over it.
use super::calls;
use super::calls::Lent;
use script::Cursor;

// Makes the table by calls. Rules 0: 64 -> 65, 1: 65 -> 1, 2: 65 -> 2 withdrawn, 3: 64 -> 3; 4 is free. Sets:
//
//   0  kernel 0.0 3.0  expanded: 1>1 3>3 65>4
//   1  kernel 1.1      expanded: reduces 1
//   2  kernel 2.1      expanded: reduces 2; left over, for it names the withdrawn rule
//   3  kernel 3.1      unexpanded
//   4  kernel 0.1      expanded, accepts
//
// and 5 and 6 are free. The line 2 expands the set that stays over once its rule is withdrawn.
pub(crate) fn make(rt: &impl Print) -> Lent {
    let sevens = Lent {
        rules: [7; calls::RULES],
        cells: [7; calls::CELLS],
        words: [7; calls::WORDS],
        answer: 0,
        number: 0,
    };
    let new = sevens.new(7, 5);
    let ruled = new.add(64, 65).add(65, 1).add(65, 2).add(64, 3);
    ruled.parse(rt, &[2]).delete(65, 2).parse(rt, &[1])
}

// Writes the numbers over that stand in the line from `start` on: slice, place and number of each, three after three, and nothing
// else. None where one of them can't be read or has no place.
pub(crate) fn write_over(made: Lent, line: &[u8], start: Cursor) -> Option<Lent> {
    let mut table = made;
    let mut c = start;
    // A `while`: how far a turn goes is what it reads.
    while c.at < line.len() {
        let (slice, second) = c.number(line)?;
        let (place, third) = second.number(line)?;
        let (number, after) = third.number(line)?;
        write(&mut table, slice, place, number)?;
        c = after;
    }
    Some(table)
}

// Writes a number over; the slices are numbered as in the file stdin.
fn write(table: &mut Lent, slice: usize, place: usize, number: usize) -> Option<()> {
    match slice {
        0 => write_byte(&mut table.rules, place, number),
        1 => write_byte(&mut table.cells, place, number),
        2 => write_bit(&mut table.words, place, number),
        _ => None,
    }
}

fn write_byte(bytes: &mut [u8], place: usize, number: usize) -> Option<()> {
    *bytes.get_mut(place)? = u8::try_from(number).ok()?;
    Some(())
}

// A bit is 1 or 0; sets have 1,152 each.
fn write_bit(words: &mut [u64], place: usize, number: usize) -> Option<()> {
    let word = words.get_mut(place / 64)?;
    let bit = 1u64 << (place % 64);
    match number {
        0 => *word &= !bit,
        1 => *word |= bit,
        _ => return None,
    }
    Some(())
}
