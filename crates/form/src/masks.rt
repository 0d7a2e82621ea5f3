// The bits that a set may have, put into 18 words as a set has them: bit 8 r + d is rule r with dot d, bit 1024 + r its
// reduction.
ghost use Rattle.std.specs.Prelude.{◌≡◌, ◌+◌, ◌*◌, ◌<◌, ◌≤◌, length};
ghost use Rattle.laws.specs.Loops.{up_to};
ghost use Rattle.table.specs.Layout.{rules_in, rule_number};
ghost use Rattle.form.specs.Masks.{Short, put_items, put_named};

// Puts the items and the reduction of every rule whose state is 1 to `last`.
pub fn put_named(rules: &[u8], mask: &mut [u64], last: u8)
    requires rules_in_bounds { (2 + rules_in rules.now * 10 ≤ length rules.now) × (rules_in rules.now ≤ 128) × (length mask.old ≡ 18) }
    requires short { Short rules.now }
    ensures { mask.new ≡ up_to (rules_in rules.now) (put_named rules.now last) mask.old }
{
    for r in 0..table::rules_in(rules) {
        put_rule(rules, mask, last, r);
    }
}

// Puts those of rule r.
fn put_rule(rules: &[u8], mask: &mut [u64], last: u8, r: usize)
    requires r_in_bounds { (2 + r * 10 + 10 ≤ length rules.now) × (r < 128) × (length mask.old ≡ 18) }
    requires r_bound { rule_number rules.now r 2 ≤ 7 }
    ensures { mask.new ≡ put_named rules.now last r mask.old }
{
    if (table::CURRENT..=last).contains(&table::state(rules, r)) {
        put_items(mask, r, table::len(rules, r) + 1);
        kernels::put(mask, 0, kernels::ITEMS + r);
    }
}

// Puts the items of rule r with a dot below n.
fn put_items(mask: &mut [u64], r: usize, n: usize)
    requires { (r < 128) × (n ≤ 8) × (length mask.old ≡ 18) }
    ensures { mask.new ≡ put_items r n mask.old }
{
    for d in 0..n {
        kernels::put(mask, 0, r * kernels::DOTS + d);
    }
}
