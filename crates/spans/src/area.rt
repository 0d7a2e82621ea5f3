// The work area of a derivation, and its numbers one at a time. Each function is a load or two, or a store; its contract asks that
// the place be there. They take the slice and not `Area`, which holds it to be changed: a caller may share it, and need count nothing.
ghost use Rattle.std.specs.Prelude.{◌≡◌, ◌+◌, ◌<◌, length, get_or};
ghost use Rattle.spans.specs.Area.{key_of, symbol_at, start_at, end_at, cost_at, choice_at, first_at, rule_of, end_of, set_kept};

// The most spans: one for each link, and START's.
pub const SPANS: usize = 4097;

// Where the costs, the choices and the first places of the ends begin; the keys begin at 0.
pub const COSTS: usize = 4097;

pub const CHOICES: usize = 8194;

pub const FIRSTS: usize = 12291;

// What a line takes beside a number for each token.
pub const BESIDE: usize = 12293;

// A key and a choice are made of bytes: the values of one, and its bits.
const BYTE: usize = 256;

const BITS: usize = 8;

// The latest start, from which a key counts down; and the values of a key's symbol and start together.
const LATEST: usize = 255;

const CELL: usize = 65536;

// The key of the span of x from i to j.
pub fn key_of(x: usize, i: usize, j: usize) -> usize
    requires { (x < 256) × ((i < 256) × (j < 256)) }
    ensures { result ≡ key_of x i j }
{
    x + (LATEST - i) * BYTE + j * CELL
}

// The number at i.
pub fn number(area: &[u64], i: usize) -> usize
    requires { i < length area.now }
    ensures { result ≡ get_or area.now i 0 }
{
    area[i] as usize
}

// The symbol of the span at place e, where it starts and where it ends.
pub fn symbol(area: &[u64], e: usize) -> usize
    requires { e < length area.now }
    ensures { result ≡ symbol_at area.now e }
{
    number(area, e) % BYTE
}

pub fn start(area: &[u64], e: usize) -> usize
    requires { e < length area.now }
    ensures { result ≡ start_at area.now e }
{
    LATEST - number(area, e) / BYTE % BYTE
}

pub fn end(area: &[u64], e: usize) -> usize
    requires { e < length area.now }
    ensures { result ≡ end_at area.now e }
{
    number(area, e) / CELL
}

// What the span at place e costs, 0 for nothing yet.
pub fn cost(area: &[u64], e: usize) -> usize
    requires { 4097 + e < length area.now }
    ensures { result ≡ cost_at area.now e }
{
    number(area, COSTS + e)
}

// The rule that it has chosen.
pub fn rule(area: &[u64], e: usize) -> usize
    requires { 8194 + e < length area.now }
    ensures { result ≡ rule_of (choice_at area.now e) }
{
    number(area, CHOICES + e) % BYTE
}

// Where the right place p of that rule ends.
pub fn end_of(area: &[u64], e: usize, p: usize) -> usize
    requires { (8194 + e < length area.now) × (p < 7) }
    ensures { result ≡ end_of (choice_at area.now e) p }
{
    (number(area, CHOICES + e) >> (BITS * (p + 1))) % BYTE
}

// The first place of the spans that end at j or later.
pub fn first(area: &[u64], j: usize) -> usize
    requires { 12291 + j < length area.now }
    ensures { result ≡ first_at area.now j }
{
    number(area, FIRSTS + j)
}

// Keeps a cost and a choice at place e.
pub fn set_kept(area: &mut [u64], e: usize, cost: usize, choice: usize)
    requires { 8194 + e < length area.old }
    ensures { area.new ≡ set_kept area.old e cost choice }
{
    area[COSTS + e] = cost as u64;
    area[CHOICES + e] = choice as u64;
}

// The lent numbers, and how many spans have a place in them.
#[derive(Drop)]
pub struct Area<'a> {
    pub numbers: &'a mut [u64],
    pub count: usize,
}
