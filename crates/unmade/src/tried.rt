// Every call on a table, each on a copy of its own; prints the line.
use super::calls::Lent;
use std::io;

pub(crate) fn every_call(rt: &impl Print, t: &Lent) -> io::Result<()> {
    print_formed(rt, t)?;
    print_call(rt, b'N', t, &t.new(2, 3))?;
    print_call(rt, b'A', t, &t.add(64, 2))?; // a START rule, so that set 0's kernel changes
    print_call(rt, b'D', t, &t.delete(65, 1))?;
    print_call(rt, b'G', t, &t.collect())?;
    print_call(rt, b'R', t, &t.restart())?;
    print_call(rt, b'P', t, &t.parse(rt, &[1]))?;
    print_call(rt, b'P', t, &t.parse(rt, &[1, 1]))?;
    rt.write_all(b"\n")
}

fn print_formed(rt: &impl Print, t: &Lent) -> io::Result<()> {
    rt.write_all(b": F ")?;
    if t.is_formed() {
        return rt.write_all(b"1");
    }
    rt.write_all(b"0")
}

// Prints a call's letter and its answers, and what it left of the table t.
fn print_call(rt: &impl Print, letter: u8, t: &Lent, left: &Lent) -> io::Result<()> {
    rt.write_all(&[b' ', letter])?;
    print_number(rt, left.answer as usize)?;
    if letter == b'A' || letter == b'D' || letter == b'P' {
        print_number(rt, left.number)?;
    }
    print_left(rt, t, left)
}

fn print_number(rt: &impl Print, n: usize) -> io::Result<()> {
    print!(rt; " {n}")
}

fn print_left(rt: &impl Print, t: &Lent, left: &Lent) -> io::Result<()> {
    if !same_beyond(t, left, left.rules[0], left.rules[1]) {
        return rt.write_all(b"!");
    }
    if same(t, left, 0, 0, 0) {
        return rt.write_all(b"=");
    }
    if left.is_formed() {
        return rt.write_all(b"+");
    }
    rt.write_all(b"-")?;
    let next = left.collect();
    print_number(rt, next.answer as usize)
}

// Whether the numbers beyond pools of these sizes are the same.
fn same_beyond(t: &Lent, left: &Lent, sets: u8, places: u8) -> bool {
    let sets = sets as usize;
    let places = places as usize;
    same(
        t,
        left,
        table::SIZES + places * table::RULE,
        sets * table::ROW,
        sets * kernels::SET_WORDS,
    )
}

// Whether the two have the same numbers, from these places on.
fn same(a: &Lent, b: &Lent, rule: usize, cell: usize, word: usize) -> bool {
    same_from(&a.rules, &b.rules, rule)
        && same_from(&a.cells, &b.cells, cell)
        && same_from(&a.words, &b.words, word)
}

fn same_from<T: PartialEq>(a: &[T], b: &[T], from: usize) -> bool {
    a.get(from..) == b.get(from..)
}
