// The form test: whether lent numbers hold a table that the calls may work on.
//
// A table stands in slices that anyone may have written, so every call begins here. `is_formed` takes any three slices, of
// any lengths and with any numbers, and answers true exactly where they are laid out and hold a table in form, in 01's
// words. What it has let through is safe for the rest of the call: every place that a rule, a target, an item or a reduction
// names is there, and unused places are zero.
//
// It reads each number of the pools once, in words where they are words, and stores nothing. Two masks of 18 words, built
// from the rules, have a bit for each item and each reduction that may stand: of rules current or withdrawn, and of current
// ones only. A set's 18 words lie within the first, and where its kernel lies within the second, so must its reductions and
// its targets' kernels: that is five clauses of the form as comparisons of words. Then each rule is compared with those
// before it, and each kernel in use. So the cost is that of the pools' size, and of the squares of the rules and sets in use
// as far as their first numbers agree: some 1 to 2 µs for 32 sets and 32 rules.
//
// Each inner test has an equation with a test of specs/ as its contract, clause by clause in the order of the code;
// proofs/Formed.antt shows that the whole is `Formed`, and so that the form is decided (`formed_dec`). proofs/OneOutcome.antt
// draws the conclusion that a promise on a lent table has one outcome.
#![tactic(auto)]

mod masks; // masks.rt: the bits that kernels and reductions may have
mod rules; // rules.rt: the rules as the form asks
mod sets; // sets.rt: the sets as the form asks

ghost use Rattle.std.specs.Prelude.{◌≡◌};
ghost use Rattle.laws.specs.Choice.{Tells};
ghost use Rattle.table.specs.Layout.{sets, mem};
ghost use Rattle.table.specs.Laid.{Sized, Formed};
ghost use Rattle.form.specs.Masks.{Short};
ghost use Rattle.form.specs.Formed.{start_fits, sets_fit};

// Whether the lent numbers are laid out and hold a table in form.
pub fn is_formed(rules: &[u8], cells: &[u8], words: &[u64]) -> bool
    ensures { Tells result (Formed (mem rules.now cells.now words.now)) }
{
    is_roomy(rules, cells, words)
        && rules::all_fit(rules)
        && rules::all_differ(rules)
        && start_fits(rules, cells, words)
        && sets_fit(rules, cells, words)
        && sets::all_differ(cells, words, table::sets_in(rules))
}

// Whether the sizes are in range and the slices as long as they need. (A byte is at most 255.)
fn is_roomy(rules: &[u8], cells: &[u8], words: &[u64]) -> bool
    ensures { Tells result (Sized rules.now (sets cells.now words.now)) }
{
    if rules.len() < table::SIZES {
        return false;
    }
    let sets = table::sets_in(rules);
    let n = table::rules_in(rules);
    1 <= sets
        && 1 <= n
        && n <= table::MOST_RULES
        && table::SIZES + n * table::RULE <= rules.len()
        && sets * table::ROW <= cells.len()
        && sets * kernels::SET_WORDS <= words.len()
}

// Whether the start set is in use and its kernel is that of the current START rules.
fn start_fits(rules: &[u8], cells: &[u8], words: &[u64]) -> bool
    requires { Sized rules.now (sets cells.now words.now) }
    ensures { result ≡ start_fits rules.now (sets cells.now words.now) }
{
    if table::mark(cells, 0) == table::FREE {
        return false;
    }
    let mut starts = [0u64; kernels::SET_WORDS];
    table::put_starts(rules, &mut starts);
    kernels::equal(words, 0, &starts, 0)
}

// Whether each set is as the form asks. A rule that is longer than its places would have no bits: such are refused before.
fn sets_fit(rules: &[u8], cells: &[u8], words: &[u64]) -> bool
    requires sized { Sized rules.now (sets cells.now words.now) }
    requires short { Short rules.now }
    ensures { result ≡ sets_fit rules.now (sets cells.now words.now) }
{
    let mut named = [0u64; kernels::SET_WORDS];
    masks::put_named(rules, &mut named, table::WITHDRAWN);
    let mut current = [0u64; kernels::SET_WORDS];
    masks::put_named(rules, &mut current, table::CURRENT);
    sets::all_fit(cells, words, table::sets_in(rules), &named, &current)
}
