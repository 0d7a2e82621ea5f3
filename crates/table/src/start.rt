// The start set's kernel: "every current START rule with dot 0".
ghost use Rattle.std.specs.Prelude.{◌≡◌, ◌+◌, ◌*◌, ◌<◌, ◌≤◌, length};
ghost use Rattle.table.specs.Layout.{rules_in};
ghost use Rattle.table.specs.Start.{is_start, put_start, put_starts};

use super::rules::{CURRENT, left, rules_in, state};
use symbols::Symbol;

// Puts these items into the kernel that begins the words.
pub fn put_starts(rules: &[u8], words: &mut [u64])
    requires { (2 + rules_in rules.now * 10 ≤ length rules.now) × (rules_in rules.now ≤ 128) × (16 ≤ length words.old) }
    ensures { words.new ≡ put_starts rules.now words.old }
{
    for r in 0..rules_in(rules) {
        put_start(rules, words, r);
    }
}

// Puts that of rule r, if it is a current rule of START.
fn put_start(rules: &[u8], words: &mut [u64], r: usize)
    requires r_bound { (r < 128) × (16 ≤ length words.old) }
    requires r_in_bounds { 2 + r * 10 + 10 ≤ length rules.now }
    ensures { words.new ≡ put_start rules.now r words.old }
{
    if is_start(rules, r) {
        kernels::put(words, 0, r * kernels::DOTS);
    }
}

// Whether rule r is a current rule of START.
fn is_start(rules: &[u8], r: usize) -> bool
    requires { 2 + r * 10 + 10 ≤ length rules.now }
    ensures { result ≡ is_start rules.now r }
{
    state(rules, r) == CURRENT && left(rules, r) == Symbol::START.0 as usize
}
