// Writing to one lent table: a value in its first cells, or some cells of another from a cell on; and reading cells back. Promised: what each cell that is
// written holds; that every other cell, and the table's length, are as before. Which cells those are is the caller's to say: no order of cells is known here.
#![tactic(auto)]

ghost use Rattle.std.specs.Prelude.{◌≡◌, ◌+◌, ◌≤◌, length, take, drop};
ghost use Rattle.std.proofs.Math.Seq.{paste};
ghost use Rattle.kit.specs.Table.{Holds};

// A value in the first n cells. The loop stands here since the library's `fill` asks that a clone cannot fail, which no bound says.
pub fn fill<T: Copy>(t: &mut [T], n: usize, value: T)
    requires { n ≤ length t.old }
    ensures { Holds value n (λ i. value) t.old t.new }
{
    for cell in &mut t[..n] {
        *cell = value;
    }
}

// All of s, from a cell on. The loop stands here since between two lent slices the library's `copy_from_slice` is compiled to a call of `memmove`, which the
// archive for C would then need.
pub fn put<T: Copy>(t: &mut [T], at: usize, s: &[T])
    requires { at + length s.now ≤ length t.old }
    ensures { t.new ≡ paste t.old at s.now (length s.now) }
{
    for i in 0..s.len() {
        t[at + i] = s[i];
    }
}

// The N bytes that stand from a cell on.
pub fn get<const N: usize>(t: &[u8], at: usize) -> [u8; N]
    requires { at + N ≤ length t.now }
    ensures { result ≡ take N (drop at t.now) }
{
    let mut part = [0; N];
    part.copy_from_slice(&t[at..at + N]);
    part
}
