// A table by value, and the calls on it. A call takes a copy, and hands back what it left of the numbers and what it answered. Each
// promises what the call itself does.
ghost use Rattle.std.specs.Prelude.{◌≡◌, [], ◌∷◌};
ghost use Rattle.laws.specs.Choice.{Tells};
ghost use Rattle.symbols.specs.Answer.{number_of, answer_of, answer_of_parse, number_with, links_with};
ghost use Rattle.theory.specs.Calls.{add, delete, collect, restart, parse};
ghost use Rattle.table.specs.Layout.{mem};
ghost use Rattle.table.specs.Becomes.{Promised};
ghost use Rattle.table.specs.Laid.{Formed};
ghost use Rattle.generator.specs.Calls.{NewPromised};

use std::io;
use symbols::{Refusal, Verdict};

// What the pools of seven sets and five places for rules need, and a few numbers more.
pub const RULES: usize = table::SIZES + 5 * table::RULE + 3;

pub const CELLS: usize = 7 * table::ROW + 5;

pub const WORDS: usize = 7 * kernels::SET_WORDS + 2;

// The link pool, and what it needs with a few numbers more.
const POOL: usize = 8;

const LINKS: usize = (POOL + 1) * links::RECORD + 4;

// 01's numbers of the answers that are no refusal.
const DONE: u8 = 0;

const ACCEPT: u8 = 1;

const REJECT: u8 = 2;

// The lent numbers, and what the last call answered: `number` is the rule's for Add and Delete, that of links for Parse, and 0 else.
#[derive(Clone, Copy)]
pub struct Lent {
    pub rules: [u8; RULES],
    pub cells: [u8; CELLS],
    pub words: [u64; WORDS],
    pub answer: u8,
    pub number: usize,
}

impl Lent {
    pub fn is_formed(&self) -> bool
        ensures { Tells result (Formed (mem self.now.rules self.now.cells self.now.words)) }
    {
        form::is_formed(&self.rules, &self.cells, &self.words)
    }

    pub fn new(mut self, sets: usize, places: usize) -> Lent
        ensures { NewPromised
            (mem self.rules self.cells self.words) (mem result.rules result.cells result.words) sets places result.answer }
    {
        let made = generator::new(
            &mut self.rules,
            &mut self.cells,
            &mut self.words,
            sets,
            places,
        );
        (self.answer, self.number) = numbers(made.and(Ok(0)));
        self
    }

    pub fn add(mut self, left: u8, right: u8) -> Lent
        ensures { Promised (λ t. add t left (right ∷ []))
            (mem self.rules self.cells self.words) (mem result.rules result.cells result.words) result.answer result.number }
    {
        let added = generator::add(
            &mut self.rules,
            &mut self.cells,
            &mut self.words,
            left,
            &[right],
        );
        (self.answer, self.number) = numbers(added);
        self
    }

    pub fn delete(mut self, left: u8, right: u8) -> Lent
        ensures { Promised (λ t. delete t left (right ∷ []))
            (mem self.rules self.cells self.words) (mem result.rules result.cells result.words) result.answer result.number }
    {
        let deleted = generator::delete(
            &mut self.rules,
            &mut self.cells,
            &mut self.words,
            left,
            &[right],
        );
        (self.answer, self.number) = numbers(deleted);
        self
    }

    pub fn collect(mut self) -> Lent
        ensures { Promised collect
            (mem self.rules self.cells self.words) (mem result.rules result.cells result.words) result.answer result.number }
    {
        let collected = generator::collect(&mut self.rules, &mut self.cells, &mut self.words);
        (self.answer, self.number) = numbers(collected.and(Ok(0)));
        self
    }

    pub fn restart(mut self) -> Lent
        ensures { Promised restart
            (mem self.rules self.cells self.words) (mem result.rules result.cells result.words) result.answer result.number }
    {
        let restarted = generator::restart(&mut self.rules, &mut self.cells, &mut self.words);
        (self.answer, self.number) = numbers(restarted.and(Ok(0)));
        self
    }

    // Over a link buffer that is not zero. Where what is printed of it can't be written, nor can the line that follows.
    pub fn parse(mut self, rt: &impl Print, line: &[u8]) -> Lent
        ensures { Promised (λ t. parse t 8 line.now)
            (mem self.rules self.cells self.words) (mem result.rules result.cells result.words) result.answer result.number }
    {
        let mut links = [7u16; LINKS];
        let parsed = recogniser::parse(
            &mut self.rules,
            &mut self.cells,
            &mut self.words,
            &mut links,
            POOL,
            line,
        );
        let _ = print_links(rt, &links, parsed);
        (self.answer, self.number) = parse_numbers(parsed);
        self
    }
}

// 01's number of what a call answers, and the number that comes with it, 0 on a refusal.
fn numbers(answer: Result<usize, Refusal>) -> (u8, usize)
    ensures { (result.0 ≡ number_of (answer_of answer)) × (result.1 ≡ number_with answer) }
{
    match answer {
        Ok(number) => (DONE, number),
        Err(refusal) => (refusal.number(), 0),
    }
}

// Those of a parse.
fn parse_numbers(answer: Result<Verdict, Refusal>) -> (u8, usize)
    ensures { (result.0 ≡ number_of (answer_of_parse answer)) × (result.1 ≡ links_with answer) }
{
    match answer {
        Ok(verdict) if verdict.accepts => (ACCEPT, verdict.links),
        Ok(verdict) => (REJECT, verdict.links),
        Err(refusal) => (refusal.number(), 0),
    }
}

// Prints `!` where Parse left the link buffer wrong. A parse that its checks refuse leaves it as it was, any other leaves the pool's
// part zero; beyond it nothing is touched.
fn print_links(
    rt: &impl Print,
    links: &[u16; LINKS],
    parsed: Result<Verdict, Refusal>,
) -> io::Result<()> {
    let (pool, beyond) = links.split_at((POOL + 1) * links::RECORD);
    let left = match parsed {
        Ok(_) | Err(Refusal::NoSets | Refusal::NoLinks) => 0,
        Err(_) => 7,
    };
    if !all_are(pool, left) || !all_are(beyond, 7) {
        rt.write_all(b"!")?;
    }
    Ok(())
}

fn all_are(numbers: &[u16], x: u16) -> bool {
    numbers.iter().all(|&n| n == x)
}
