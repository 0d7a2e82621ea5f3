// A word's bits, numbered from 0, the lowest. Each function is a few instructions, with no branch.
ghost use Rattle.std.specs.Prelude.{◌≡◌, ◌<◌, eqb};
ghost use Rattle.kernels.specs.Bit.{bit, put_bit, Lowest};
ghost use Rattle.kernels.specs.Walk.{how_many};

// Whether bit b of w is set.
pub fn has(w: u64, b: usize) -> bool
    requires { b < 64 }
    ensures { result ≡ eqb (bit w b) 1 }
{
    (w >> b) % 2 == 1
}

// w with bit b set.
pub fn with(w: u64, b: usize) -> u64
    requires { b < 64 }
    ensures { result ≡ put_bit w b }
{
    w | 1 << b
}

// The lowest set bit.
pub fn lowest(w: u64) -> usize
    requires { 0 < w }
    ensures { Lowest 64 w result }
{
    u64::trailing_zeros(w) as usize
}

// How many bits are set.
pub fn ones(w: u64) -> usize
    ensures { result ≡ how_many 64 (bit w) }
{
    u64::count_ones(w) as usize
}
