// The slice of cells: for each set its mark, then its targets on the symbols 1 to 127.
ghost use Rattle.std.specs.Prelude.{◌≡◌, ◌+◌, ◌*◌, ◌<◌, ◌≤◌, length, get_or};

// The cells of a set.
pub const ROW: usize = 128;

// "A set is unexpanded (kernel only) or expanded (also transitions, reductions, accept mark)."
pub const UNEXPANDED: u8 = 1;

// Expanded, without the accept mark.
pub const EXPANDED: u8 = 2;

// Expanded, with the accept mark.
pub const ACCEPTING: u8 = 3;

// The mark of set s: FREE or one of the three.
pub fn mark(cells: &[u8], s: usize) -> u8
    requires { s * 128 + 128 ≤ length cells.now }
    ensures { result ≡ get_or cells.now (s * 128 + 0) 0 }
{
    cells[s * ROW]
}

// The target of set s on the symbol x, 0 where it has none.
pub fn target(cells: &[u8], s: usize, x: usize) -> usize
    requires { (s * 128 + 128 ≤ length cells.now) × (x < 128) }
    ensures { result ≡ get_or cells.now (s * 128 + x) 0 }
{
    usize::from(cells[s * ROW + x])
}
