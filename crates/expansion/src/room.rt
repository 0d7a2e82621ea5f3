// Room: how many of the kernels that a closure leads to are in no set. Only the sets' words are read.
ghost use Rattle.std.specs.Prelude.{◌≡◌, ◌≤◌};
ghost use Rattle.table.specs.Layout.{view_rules};
ghost use Rattle.closure.specs.Walk.{HoldsSymbols};
ghost use Rattle.expansion.specs.Inner.{items_in, symbols_in, is_missing, missing_in, Countable};

use kernels::Bits;

// How many of the kernels to which the symbols lead are in no set.
pub fn missing(rules: &[u8], words: &[u64], closure: [u64; 16], symbols: [u64; 2]) -> usize
    requires countable { Countable rules.now words.now closure }
    requires holds_symbols { HoldsSymbols symbols (view_rules rules.now) (items_in rules.now closure) }
    ensures { result ≡ missing_in rules.now words.now closure (symbols_in rules.now closure) }
{
    let mut n = 0;
    for x in Bits::of(&symbols, 0, 2) {
        if is_missing(rules, words, closure, x) {
            n += 1;
        }
    }
    n
}

// Whether no set has the kernel to which x leads.
fn is_missing(rules: &[u8], words: &[u64], closure: [u64; 16], x: usize) -> bool
    requires { Countable rules.now words.now closure × (1 ≤ x) }
    ensures { result ≡ is_missing rules.now words.now closure x }
{
    let kernel = closure::moved(rules, closure, x);
    lookup::find(rules, words, &kernel) == 0
}
