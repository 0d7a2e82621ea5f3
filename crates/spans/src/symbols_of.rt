// The symbol that each set is reached by: the one before the dot of the first item of its kernel.
ghost use Rattle.std.specs.Prelude.{◌≡◌, ℕ, ◌*◌, ◌≤◌, ◌<◌, length, get_or};
ghost use Rattle.leftmost.specs.Shown.{before_dot};
ghost use Rattle.theory.specs.Table.{rule_at};
ghost use Rattle.table.specs.Layout.{sets_in, rules_in, view_rules};
ghost use Rattle.table.specs.Laid.{LaidRules, Within};
ghost use Rattle.spans.specs.Steps.{symbol_in, Kernels, Symbols};

// Those of all sets, in their order.
pub fn symbols_of(rules: &[u8], words: &[u64]) -> [u8; 256]
    requires { Kernels rules.now words.now }
    ensures { Symbols rules.now words.now (sets_in rules.now) result }
{
    let sets = table::sets_in(rules);
    let mut symbols = [0u8; 256];
    for s in 0..sets {
        symbols[s] = symbol_of(rules, words, s);
    }
    symbols
}

// That of set s, 0 where its kernel is empty or begins with the dot in front.
fn symbol_of(rules: &[u8], words: &[u64], s: usize) -> u8
    requires { Kernels rules.now words.now × (s < sets_in rules.now) }
    ensures { result ≡ symbol_in rules.now words.now s }
{
    let found = kernels::next(words, s * kernels::SET_WORDS, kernels::KERNEL_WORDS, 0);
    match found {
        Some(item) => before_dot(rules, item / kernels::DOTS, item % kernels::DOTS),
        None => 0,
    }
}

// The symbol of rule r before the dot, 0 where it is in front.
fn before_dot(rules: &[u8], r: usize, dot: usize) -> u8
    requires { LaidRules rules.now × ((r < rules_in rules.now) × (dot < 8)) }
    ensures { result ≡ before_dot (rule_at (view_rules rules.now) r).right dot }
{
    if dot == 0 {
        return 0;
    }
    rules[table::RIGHT + r * table::RULE + (dot - 1)]
}
