// Shared by the programs, most of which read a list of cases from standard input (beside/README.md has the formats).
#![tactic(auto)]

ghost use Rattle.std.specs.Prelude.{◌≡◌, ℕ, ◌-◌, ◌<◌, ◌≤◌, ◌↔◌, true, List, ◌++◌, length, take, drop, replicate, All, IsTrue, IfSome, MatchResult};
ghost use Rattle.std.specs.Cmp.Lexicographic.{pointwise};
ghost use Rattle.std.specs.Int.{w32, from_be_bytes};
ghost use Rattle.std.specs.Io.KnownBytes.{Consumes, IsAtEnd};

use std::fmt;
use std::io::{self, Read};

// ---- input. Where a read fails is for no clause to say.

// Reads until a slice is full, the input ends or a read fails; how many bytes it put at the start. `read_exact` does not
// say how many there are where the input is shorter, and `read_to_end` fills a `Vec` alone.
pub fn read_full<R: Read>(input: &mut R, space: &mut [u8]) -> usize
    ensures fits { result ≤ length space.new }
    ensures bytes { Consumes (R.remaining input.old) (R.remaining input.new) (take result space.new) }
{
    let mut done = 0;
    while done < space.len() {
        match input.read(&mut space[done..]) {
            Ok(n) if n > 0 => done += n,
            _ => break,
        }
    }
    done
}

// All that the input holds, or as much as the slice has room for; none if the input cannot be read to its end.
pub fn whole<'a, R: Read>(input: &mut R, space: &'a mut [u8]) -> Option<&'a [u8]>
    ensures { IfSome result (λ bytes. Consumes (R.remaining input.old) (R.remaining input.new) bytes.now
        × (length bytes.now < length space.old → IsAtEnd (R.remaining input.new))) }
{
    let n = read_full(input, space);
    // One more read tells the end from a read that failed.
    if n < space.len() && !matches!(input.read(&mut [0]), Ok(0)) {
        return None;
    }
    Some(&space[..n])
}

// The next bytes; none if there are fewer.
pub fn array<const N: usize, R: Read>(list: &mut R) -> Option<[u8; N]>
    ensures { IfSome result (Consumes (R.remaining list.old) (R.remaining list.new)) }
{
    let mut bytes = [0; N];
    list.read_exact(&mut bytes).ok()?;
    Some(bytes)
}

// The number in the next `width` bytes, the high one first.
pub fn number<R: Read>(list: &mut R, width: usize) -> Option<u32>
    requires { width ≤ 4 }
    ensures { IfSome result (λ n. (bytes : List ℕ) × (length bytes ≡ width)
        × (n ≡ from_be_bytes w32 (replicate (4 - width) 0 ++ bytes))
        × Consumes (R.remaining list.old) (R.remaining list.new) bytes) }
{
    let mut bytes = [0; 4];
    list.read_exact(&mut bytes[4 - width..]).ok()?;
    Some(u32::from_be_bytes(bytes))
}

// The next `n` bytes, which it reads to the start of a slice; none if there are fewer, or if the slice is shorter.
pub fn part<'a, R: Read>(list: &mut R, space: &'a mut [u8], n: usize) -> Option<&'a mut [u8]>
    ensures { IfSome result (λ part. (length part.now ≡ n)
        × Consumes (R.remaining list.old) (R.remaining list.new) part.now) }
{
    let part = space.get_mut(..n)?;
    list.read_exact(part).ok()?;
    Some(part)
}

// ---- slices at exit

// What the slices of bytes hold before each call, and those of words.
pub const FILLER: u8 = 0xA5;

pub const FILLER_WORD: u32 = 0xA5A5A5A5;

// So many elements are compared at once.
const RUN: usize = 256;

fn each_is<T: PartialEq + Copy>(slice: &[T], value: T) -> bool
    ensures { IsTrue result ↔ All (λ x. T.eq x value ≡ true) slice.now }
{
    slice.iter().all(|x| *x == value)
}

// Whether all elements equal `value`. After the first run by runs: one by one they took longer than the operation.
fn all_are<T: PartialEq + Copy>(slice: &[T], value: T) -> bool
    ensures { IsTrue result ↔ All (λ x. T.eq x value ≡ true) slice.now }
{
    let Some((run, mut left)) = slice.split_at_checked(RUN) else {
        return each_is(slice, value);
    };
    if !each_is(run, value) {
        return false;
    }
    while let Some(after) = left.strip_prefix(run) {
        left = after;
    }
    each_is(left, value)
}

// Whether a slice begins with what a case holds, and has `rest` in all places after it.
pub fn holds<T: PartialEq + Copy>(slice: &[T], start: &[T], rest: T) -> bool
    ensures { IsTrue result ↔ ((pointwise T.eq (take (length start.now) slice.now) start.now ≡ true)
        × All (λ x. T.eq x rest ≡ true) (drop (length start.now) slice.now)) }
{
    match slice.strip_prefix(start) {
        Some(after) => all_are(after, rest),
        None => false,
    }
}

// Whether an operation gave as many bytes as a case holds, or the refusal with its number. The refusal is a number, as
// lists have it, 0 for none.
pub fn agrees_with(got: Result<usize, u32>, refusal: u32, bytes: &[u8]) -> bool
    ensures { IsTrue result ↔ MatchResult got (λ n. (refusal ≡ 0) × (n ≡ length bytes.now))
        (λ number. (refusal ≡ number) × (length bytes.now ≡ 0)) }
{
    match got {
        Ok(count) => refusal == 0 && count == bytes.len(),
        Err(number) => refusal == number && bytes.is_empty(),
    }
}

// ---- counts

// The counts of cases, and the number, from 0, of the first that differs.
#[derive(Clone, Copy, Default)]
struct Counts {
    agree: u64,
    differ: u64,
    first: Option<u64>,
}

impl Counts {
    fn count(&mut self, agrees: bool) {
        if agrees {
            self.agree = self.agree.saturating_add(1);
        } else {
            // All cases before the first that differs agree.
            self.first = self.first.or(Some(self.agree));
            self.differ = self.differ.saturating_add(1);
        }
    }
}

impl fmt::Display for Counts {
    fn fmt<W: fmt::Write>(&self, f: &mut fmt::Formatter<W>) -> fmt::Result {
        if let Some(first) = self.first {
            writeln!(f, "the first that differs: {first}")?;
        }
        let Counts { agree, differ, .. } = self;
        write!(f, "{agree} agree, {differ} differ")
    }
}

// More than the cases of any list: a list that never ends is not replayed further.
const MOST: u64 = 1000000000;

// Counts the cases of a list. Each begins with a header, as long as the slice that is lent for it; `agrees` is given
// that, and reads the rest of the case. A case that the list ends inside differs.
fn count_cases<R: Read, F: FnMut(&[u8], &mut R) -> Option<bool>>(
    list: &mut R,
    header: &mut [u8],
    mut agrees: F,
) -> Counts
    requires header { 0 < length header.old }
    requires callable { F.IsAlwaysCallable agrees }
{
    let mut counts = Counts::default();
    for _ in 0..MOST {
        let n = read_full(list, header);
        if n == 0 {
            break;
        }
        counts.count(n == header.len() && agrees(header, list) == Some(true));
    }
    counts
}

// Reads a list to its end, and prints how many cases agree, as `count_cases` does.
pub fn replay<R: Read, F: FnMut(&[u8], &mut R) -> Option<bool>>(
    rt: &impl Print,
    list: &mut R,
    header: &mut [u8],
    agrees: F,
) -> io::Result<()>
    requires header { 0 < length header.old }
    requires callable { F.IsAlwaysCallable agrees }
{
    let counts = count_cases(list, header, agrees);
    println!(rt; "{counts}")
}

#[cfg(test)]
mod tests {
    use super::*;

    // A case is a byte and the same byte again. The stored lists have none that differs.
    fn twice(header: &[u8], list: &mut &[u8]) -> Option<bool> {
        let next: [u8; 1] = array(list)?;
        Some(header == next.as_slice())
    }

    #[test]
    fn cases_that_differ(rt: HostRuntime) {
        let mut list = b"aabbcdeef".as_slice();
        let counts = count_cases(&mut list, &mut [0], twice);
        assert_eq!(rt; counts.agree, 3);
        assert_eq!(rt; counts.differ, 2);
        assert_eq!(rt; counts.first, Some(2));
    }
}
