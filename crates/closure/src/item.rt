// What an item says, read off its rule's ten numbers. Those of rule r stand from 2 + 10 r on: its state, its left symbol, its
// length and its seven right places.
ghost use Rattle.std.specs.Prelude.{◌≡◌, ◌*◌, ◌<◌};
ghost use Rattle.theory.specs.Table.{rule_at};
ghost use Rattle.table.specs.Layout.{rules_in, view_rules};
ghost use Rattle.table.specs.Laid.{FormedRules};
ghost use Rattle.closure.specs.Item.{after_at, ends_at, current_rule_of};

use symbols::{Rule, Symbol};

// The symbol after the dot, the end mark where the dot is at the end.
pub fn after(rules: &[u8], item: usize) -> Symbol
    requires { FormedRules rules.now × (item < rules_in rules.now * 8) }
    ensures { result.0 ≡ after_at (view_rules rules.now) item }
{
    let dot = item % kernels::DOTS;
    if dot == Rule::PLACES {
        return Symbol::END;
    }
    Symbol(rules[table::RIGHT + item / kernels::DOTS * table::RULE + dot])
}

// Whether the dot is at the end.
pub fn ends(rules: &[u8], item: usize) -> bool
    requires { FormedRules rules.now × (item < rules_in rules.now * 8) }
    ensures { result ≡ ends_at (view_rules rules.now) item }
{
    item % kernels::DOTS == rules[table::LENGTH + item / kernels::DOTS * table::RULE] as usize
}

// The left symbol of rule r.
pub fn left(rules: &[u8], r: usize) -> Symbol
    requires { FormedRules rules.now × (r < rules_in rules.now) }
    ensures { result.0 ≡ (rule_at (view_rules rules.now) r).left }
{
    Symbol(rules[table::LEFT + r * table::RULE])
}

// Whether rule r is a current rule of b.
pub fn is_current_rule_of(rules: &[u8], b: Symbol, r: usize) -> bool
    requires { FormedRules rules.now × (r < rules_in rules.now) }
    ensures { result ≡ current_rule_of (view_rules rules.now) b.0 r }
{
    rules[table::SIZES + r * table::RULE] == table::CURRENT && left(rules, r) == b
}
