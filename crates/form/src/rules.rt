// The form's clauses on rules: each is a rule or all zero, and no two in use are equal.
ghost use Rattle.std.specs.Prelude.{◌≡◌, ◌+◌, ◌*◌, ◌<◌, ◌≤◌, length};
ghost use Rattle.table.specs.Layout.{rules_in};
ghost use Rattle.form.specs.Rules.{rule_fits, rules_fit, rule_alone, rules_differ};

use symbols::Rule;

// Whether each rule is as the form asks.
pub fn all_fit(rules: &[u8]) -> bool
    requires { 2 + rules_in rules.now * 10 ≤ length rules.now }
    ensures { result ≡ rules_fit rules.now }
{
    (0..table::rules_in(rules)).all(|r| fits(rules, r))
}

// Whether rule r is all zero or a rule in 01's words.
fn fits(rules: &[u8], r: usize) -> bool
    requires { 2 + r * 10 + 10 ≤ length rules.now }
    ensures { result ≡ rule_fits rules.now r }
{
    match table::state(rules, r) {
        table::FREE => table::rule(rules, r) == Rule::ZERO,
        table::CURRENT | table::WITHDRAWN => table::rule(rules, r).is_well_formed(),
        _ => false,
    }
}

// Whether no two current or withdrawn rules are equal.
pub fn all_differ(rules: &[u8]) -> bool
    requires { 2 + rules_in rules.now * 10 ≤ length rules.now }
    ensures { result ≡ rules_differ rules.now }
{
    (0..table::rules_in(rules)).all(|r| is_alone(rules, r))
}

// Whether no rule before rule r is equal to it, unless r is free. A free one before it is not: its left symbol is zero.
fn is_alone(rules: &[u8], r: usize) -> bool
    requires { 2 + r * 10 + 10 ≤ length rules.now }
    ensures { result ≡ rule_alone rules.now r }
{
    if table::state(rules, r) == table::FREE {
        return true;
    }
    let x = table::rule(rules, r);
    (0..r).all(|q| table::rule(rules, q) != x)
}
