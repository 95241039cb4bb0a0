// Writes to lent slices, and fills the rest of them.
#![tactic(auto)]

ghost use Rattle.std.specs.Prelude.{[], ◌∷◌, ◌+◌, ◌<◌, ◌≤◌, length};
ghost use Rattle.slices.specs.Cleared.{Filled};
ghost use Rattle.slices.specs.Written.{Wrote};
ghost use Rattle.slices.specs.Contract.{Put};

// Writes one element, and returns the offset after it.
pub fn put<T: Copy>(out: &mut [T], at: usize, x: T) -> usize
    requires { at < length out.old }
    ensures { Wrote out.old at (x ∷ []) out.new result }
{
    out[at] = x;
    at + 1
}

// Writes the elements of `xs`, and returns the offset after them. By a loop, since the library's `copy_from_slice` is
// compiled to `memmove`, which the C library is not to need.
pub fn put_all<T: Copy>(out: &mut [T], at: usize, xs: &[T]) -> usize
    requires { at + length xs.now ≤ length out.old }
    ensures { Wrote out.old at xs.now out.new result }
{
    for (i, x) in xs.iter().enumerate() {
        put(out, at + i, *x);
    }
    at + xs.len()
}

// A slice that is written from the offset `at` on.
#[derive(Drop)]
pub struct Writer<'a, T> {
    pub out: &'a mut [T],
    pub at: usize,
}

impl<'a, T: Copy> Writer<'a, T> {
    // Writes one element.
    pub fn put(&mut self, x: T)
        requires { self.old.at < length self.old.out.now }
        ensures { Put (x ∷ []) self.old self.new }
    {
        self.at = put(self.out, self.at, x);
    }

    // Writes the elements of `xs`.
    pub fn put_all(&mut self, xs: &[T])
        requires { self.old.at + length xs.now ≤ length self.old.out.now }
        ensures { Put xs.now self.old self.new }
    {
        self.at = put_all(self.out, self.at, xs);
    }
}

// Writes `x` from the offset `from` to the end. For a type parameter the library's `fill` states nothing of what the
// slice holds, so this one function serves words and bytes.
pub fn fill_from<T: Copy>(out: &mut [T], from: usize, x: T)
    requires { from ≤ length out.old }
    ensures { Filled x out.old from out.new }
{
    let rest = &mut out[from..];
    for y in rest {
        *y = x;
    }
}
