// What EXPAND asks of a closure. Each answer is one walk over the items that are there, and its step puts in what one item brings.
ghost use Rattle.std.specs.Prelude.{◌≡◌, ◌*◌, ◌≤◌, ◌<◌};
ghost use Rattle.theory.specs.Expansion.{moved};
ghost use Rattle.table.specs.Layout.{rules_in, view_rules};
ghost use Rattle.table.specs.Laid.{FormedRules, Within, HoldsKernel};
ghost use Rattle.closure.specs.Item.{items_in};
ghost use Rattle.closure.specs.Walk.{put_after, put_moved, put_reduction, accepts_too, HoldsSymbols, HoldsCompleted};

use super::item::{after, ends, left};
use kernels::Bits;

// "Each symbol X after a dot in the closure": a bit for each, 1 to 127.
pub fn symbols_after(rules: &[u8], closure: [u64; 16]) -> [u64; 2]
    requires { FormedRules rules.now × Within (rules_in rules.now) closure 0 }
    ensures { HoldsSymbols result (view_rules rules.now) (items_in rules.now closure) }
{
    let mut symbols = [0u64; 2];
    for item in Bits::of(&closure, 0, kernels::KERNEL_WORDS) {
        put_after(rules, item, &mut symbols);
    }
    symbols
}

// Puts in the symbol after the item's dot, if there is one.
fn put_after(rules: &[u8], item: usize, symbols: &mut [u64; 2])
    requires { FormedRules rules.now × (item < rules_in rules.now * 8) }
    ensures { symbols.new ≡ put_after (view_rules rules.now) item symbols.old }
{
    let x = after(rules, item).0;
    if x != 0 {
        kernels::put(symbols, 0, x as usize);
    }
}

// "The items with that dot moved over X are a kernel." It has no item if x stands after no dot.
pub fn moved(rules: &[u8], closure: [u64; 16], x: usize) -> [u64; 16]
    requires { FormedRules rules.now × Within (rules_in rules.now) closure 0 × (1 ≤ x) }
    ensures { HoldsKernel (rules_in rules.now) result 0 (moved (view_rules rules.now) (items_in rules.now closure) x) }
{
    let mut kernel = [0u64; 16];
    for item in Bits::of(&closure, 0, kernels::KERNEL_WORDS) {
        put_moved(rules, item, x, &mut kernel);
    }
    kernel
}

// Puts in the item with its dot moved over x, if x stands after it.
fn put_moved(rules: &[u8], item: usize, x: usize, kernel: &mut [u64; 16])
    requires { FormedRules rules.now × (item < rules_in rules.now * 8) × (1 ≤ x) }
    ensures { kernel.new ≡ put_moved (view_rules rules.now) x item kernel.old }
{
    if after(rules, item).0 as usize == x {
        kernels::put(kernel, 0, item + 1);
    }
}

// What an expanded set has of completed items: a bit for each reduction, and its accept mark.
#[derive(Clone, Copy)]
pub struct Completed {
    pub reductions: [u64; 2],
    pub accepts: bool,
}

// "Completed items of START set the accept mark. Other completed items are the reductions."
pub fn completed_items(rules: &[u8], closure: [u64; 16]) -> Completed
    requires { FormedRules rules.now × Within (rules_in rules.now) closure 0 }
    ensures { HoldsCompleted (view_rules rules.now) (items_in rules.now closure) result }
{
    let mut completed = Completed {
        reductions: [0; 2],
        accepts: false,
    };
    for item in Bits::of(&closure, 0, kernels::KERNEL_WORDS) {
        completed.put(rules, item);
    }
    completed
}

impl Completed {
    // Puts in the item's rule, if the item is completed. A rule of START sets the mark instead.
    fn put(&mut self, rules: &[u8], item: usize)
        requires { FormedRules rules.now × (item < rules_in rules.now * 8) }
        ensures reductions { self.new.reductions ≡ put_reduction (view_rules rules.now) item self.old.reductions }
        ensures accepts { self.new.accepts ≡ accepts_too (view_rules rules.now) item self.old.accepts }
    {
        if !ends(rules, item) {
            return;
        }
        let r = item / kernels::DOTS;
        if left(rules, r).is_start() {
            self.accepts = true;
        } else {
            kernels::put(&mut self.reductions, 0, r);
        }
    }
}
