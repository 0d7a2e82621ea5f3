// The slice of rules: the pools' sizes, then ten numbers for each rule number.
ghost use Rattle.std.specs.Prelude.{◌≡◌, ◌+◌, ◌*◌, ◌<◌, ◌≤◌, length};
ghost use Rattle.table.specs.Layout.{sets_in, rules_in, rule_number};
ghost use Rattle.table.specs.Write.{rule_in, ten_of, put_rule};

use symbols::{Rule, Symbol};

// "Pools: 1 to 255 sets, 1 to 128 rules"
pub const MOST_SETS: usize = 255;

pub const MOST_RULES: usize = 128;

// How many numbers the sizes are, and how many a rule.
pub const SIZES: usize = 2;

pub const RULE: usize = 10;

// Where rule 0 has its left symbol, its length and its first right place; its state is the first number behind the sizes.
pub const LEFT: usize = 3;

pub const LENGTH: usize = 4;

pub const RIGHT: usize = 5;

// "A number is current, withdrawn or free." 0 is also the mark of a set that is free.
pub const FREE: u8 = 0;

pub const CURRENT: u8 = 1;

pub const WITHDRAWN: u8 = 2;

// How many sets the table has room for.
pub fn sets_in(rules: &[u8]) -> usize
    requires { 2 ≤ length rules.now }
    ensures { result ≡ sets_in rules.now }
{
    usize::from(rules[0])
}

// How many rules it has room for.
pub fn rules_in(rules: &[u8]) -> usize
    requires { 2 ≤ length rules.now }
    ensures { result ≡ rules_in rules.now }
{
    usize::from(rules[1])
}

// The state of rule r.
pub fn state(rules: &[u8], r: usize) -> u8
    requires { 2 + r * 10 + 10 ≤ length rules.now }
    ensures { result ≡ rule_number rules.now r 0 }
{
    rules[SIZES + r * RULE]
}

// The left symbol of rule r.
pub fn left(rules: &[u8], r: usize) -> usize
    requires { 2 + r * 10 + 10 ≤ length rules.now }
    ensures { result ≡ rule_number rules.now r 1 }
{
    usize::from(rules[SIZES + r * RULE + 1])
}

// How many symbols the right side of rule r has.
pub fn len(rules: &[u8], r: usize) -> usize
    requires { 2 + r * 10 + 10 ≤ length rules.now }
    ensures { result ≡ rule_number rules.now r 2 }
{
    usize::from(rules[SIZES + r * RULE + 2])
}

// Rule r as a record, whatever its state.
pub fn rule(rules: &[u8], r: usize) -> Rule
    requires { 2 + r * 10 + 10 ≤ length rules.now }
    ensures { result ≡ rule_in rules.now r }
{
    let at = SIZES + r * RULE;
    let places = [
        Symbol(rules[at + 3]),
        Symbol(rules[at + 4]),
        Symbol(rules[at + 5]),
        Symbol(rules[at + 6]),
        Symbol(rules[at + 7]),
        Symbol(rules[at + 8]),
        Symbol(rules[at + 9]),
    ];
    Rule {
        left: Symbol(rules[at + 1]),
        len: rules[at + 2],
        right: places,
    }
}

// Writes the ten numbers of rule r.
pub fn put_rule(rules: &mut [u8], r: usize, state: u8, x: Rule)
    requires { 2 + r * 10 + 10 ≤ length rules.old }
    ensures { rules.new ≡ put_rule rules.old r state x }
{
    let at = SIZES + r * RULE;
    for k in 0..RULE {
        rules[at + k] = number(state, x, k);
    }
}

// Number k of the ten that a rule has.
fn number(state: u8, x: Rule, k: usize) -> u8
    requires { k < 10 }
    ensures { result ≡ ten_of state x k }
{
    match k {
        0 => state,
        1 => x.left.0,
        2 => x.len,
        _ => x.at(k - 3).0,
    }
}
