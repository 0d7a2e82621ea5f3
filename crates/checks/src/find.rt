// The searches over the rules that Add and Delete make before anything is changed.
ghost use Rattle.std.specs.Prelude.{◌≡◌, ◌+◌, ◌*◌, ◌≤◌, length};
ghost use Rattle.laws.specs.Loops.{all_below};
ghost use Rattle.table.specs.Layout.{rules_in};
ghost use Rattle.table.specs.Laid.{FormedRules};
ghost use Rattle.checks.specs.Find.{Lowest, has_state, is_at};
ghost use Rattle.checks.specs.Found.{AddFound, DeleteFound};

use symbols::{Refusal, Rule};

// Checks a Delete: 12, 13, 14, 16. What passes comes with the number that it has.
pub fn check_delete(rules: &[u8], left: u8, right: &[u8]) -> Result<(usize, Rule), Refusal>
    requires { FormedRules rules.now }
    ensures { DeleteFound rules.now left right.now result }
{
    let rule = symbols::check_rule(left, right)?;
    let number = find(rules, table::CURRENT, rule).ok_or(Refusal::NotThere)?;
    Ok((number, rule))
}

// Checks an Add: 12, 13, 14, 15, 17. What passes comes with the number that it takes, or with none where collection has to come
// first.
pub fn check_add(rules: &[u8], left: u8, right: &[u8]) -> Result<(Option<usize>, Rule), Refusal>
    requires { FormedRules rules.now }
    ensures { AddFound rules.now left right.now result }
{
    let rule = symbols::check_rule(left, right)?;
    // both are asked first, so that only the order of the answers is left to get wrong (must-fail/full_before_there)
    let there = find(rules, table::CURRENT, rule).is_some();
    let full = is_full(rules);
    if there {
        return Err(Refusal::There);
    }
    if full {
        return Err(Refusal::NoRules);
    }
    if let Some(back) = find(rules, table::WITHDRAWN, rule) {
        return Ok((Some(back), rule));
    }
    Ok((lowest_free(rules), rule))
}

// The lowest number with the rule in that state.
fn find(rules: &[u8], state: u8, x: Rule) -> Option<usize>
    requires { 2 + rules_in rules.now * 10 ≤ length rules.now }
    ensures { Lowest (rules_in rules.now) (is_at rules.now state x) result }
{
    (0..table::rules_in(rules)).find(|&r| is_at(rules, state, x, r))
}

// Whether rule r is x, in that state.
fn is_at(rules: &[u8], state: u8, x: Rule, r: usize) -> bool
    requires { 2 + r * 10 + 10 ≤ length rules.now }
    ensures { result ≡ is_at rules.now state x r }
{
    table::state(rules, r) == state && table::rule(rules, r) == x
}

// The lowest free number.
pub fn lowest_free(rules: &[u8]) -> Option<usize>
    requires { 2 + rules_in rules.now * 10 ≤ length rules.now }
    ensures { Lowest (rules_in rules.now) (has_state rules.now 0) result }
{
    (0..table::rules_in(rules)).find(|&r| table::state(rules, r) == table::FREE)
}

// Whether every number is current.
fn is_full(rules: &[u8]) -> bool
    requires { 2 + rules_in rules.now * 10 ≤ length rules.now }
    ensures { result ≡ all_below (rules_in rules.now) (has_state rules.now 1) }
{
    (0..table::rules_in(rules)).all(|r| table::state(rules, r) == table::CURRENT)
}
