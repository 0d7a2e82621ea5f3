// CLOSURE, by rounds over a working copy of the kernel, until one of them adds nothing.
//
// 001 looks for one item and one rule at a time. Here an item with its dot before B brings all the current rules of B at once,
// and `met` notes B, so that no later item asks for them again.
ghost use Rattle.std.specs.Prelude.{◌≡◌, ◌*◌, ◌<◌};
ghost use Rattle.laws.specs.Loops.{up_to};
ghost use Rattle.kernels.specs.Kernel.{has};
ghost use Rattle.theory.specs.Expansion.{closure};
ghost use Rattle.table.specs.Layout.{rules_in, view_rules};
ghost use Rattle.table.specs.Laid.{FormedRules, Within, HoldsKernel};
ghost use Rattle.closure.specs.Item.{items_in};
ghost use Rattle.closure.specs.UnderWay.{put_rule, UnderWay, Grew, MetAfter, MetBelow};

use super::item::{after, is_current_rule_of};
use symbols::Symbol;

// The closure of a kernel. "Until nothing is new": each round but the last adds an item.
pub fn close(rules: &[u8], kernel: [u64; 16]) -> [u64; 16]
    requires { FormedRules rules.now × Within (rules_in rules.now) kernel 0 }
    ensures { HoldsKernel (rules_in rules.now) result 0 (closure (view_rules rules.now) (items_in rules.now kernel)) }
{
    let mut closure = kernel;
    let mut met = [0u64; 2];
    let mut items = kernels::count(&closure, 0);
    loop {
        round(rules, &mut closure, &mut met);
        let more = kernels::count(&closure, 0);
        if more == items {
            return closure;
        }
        items = more;
    }
}

// One round: "for each item with the dot before non-terminal B, every current rule of B with dot 0".
fn round(rules: &[u8], closure: &mut [u64; 16], met: &mut [u64; 2])
    requires { FormedRules rules.now × UnderWay rules.now closure.old met.old }
    ensures grew { Grew rules.now closure.old met.old closure.new met.new }
    ensures all { MetBelow rules.now closure.old met.new 1024 }
{
    // no `Bits`: items are added while it walks, and those ahead are met in the same round
    let mut from = 0;
    while let Some(item) = kernels::next(closure, 0, kernels::KERNEL_WORDS, from) {
        meet(rules, closure, met, item);
        from = item + 1;
    }
}

// Adds the rules of the non-terminal after the item's dot, if there is one that was not met before.
fn meet(rules: &[u8], closure: &mut [u64; 16], met: &mut [u64; 2], item: usize)
    requires { FormedRules rules.now × UnderWay rules.now closure.old met.old × (item < rules_in rules.now * 8) × (has closure.old 0 item ≡ 1) }
    ensures grew { Grew rules.now closure.old met.old closure.new met.new }
    ensures met { MetAfter rules.now met.new item }
{
    let b = after(rules, item);
    if !b.is_nonterminal() || kernels::has(met, 0, b.0 as usize) {
        return;
    }
    kernels::put(met, 0, b.0 as usize);
    add_rules(rules, closure, b);
}

// Adds every current rule of b with dot 0.
fn add_rules(rules: &[u8], closure: &mut [u64; 16], b: Symbol)
    requires { FormedRules rules.now }
    ensures { closure.new ≡ up_to (rules_in rules.now) (put_rule (view_rules rules.now) b.0) closure.old }
{
    for r in 0..table::rules_in(rules) {
        add_rule(rules, closure, b, r);
    }
}

// Adds rule r, if it is a current rule of b.
fn add_rule(rules: &[u8], closure: &mut [u64; 16], b: Symbol, r: usize)
    requires { FormedRules rules.now × (r < rules_in rules.now) }
    ensures { closure.new ≡ put_rule (view_rules rules.now) b.0 r closure.old }
{
    if is_current_rule_of(rules, b, r) {
        kernels::put(closure, 0, r * kernels::DOTS);
    }
}
