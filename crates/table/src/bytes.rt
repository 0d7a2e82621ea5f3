// Numbers of the slices of rules and of cells made zero.
ghost use Rattle.std.specs.Prelude.{◌≡◌, ◌+◌, ◌≤◌, length};
ghost use Rattle.kernels.specs.Write.{write_words};

// Makes the n numbers from `at` on zero: "What is not in use in the table is zero."
pub fn clear(bytes: &mut [u8], at: usize, n: usize)
    requires { at + n ≤ length bytes.old }
    ensures { bytes.new ≡ write_words bytes.old at (λ k. 0) n }
{
    bytes[at..at + n].fill(0);
}
