// The sum of a list of doubles by halves, which rounds a term at most log2 n times, rounded up, where a running sum
// rounds it up to n times (METHOD 6.4).
#![tactic(auto)]

ghost use Rattle.std.specs.Prelude.{◌≡◌};
ghost use Rattle.sums.specs.Halves.{sum_by_halves};

// A list of one is its term, with no zero before it; a longer one is split after the first half, rounded down. Of no
// terms it is 0.
pub fn sum_by_halves(terms: &[f64]) -> f64
    ensures { result ≡ sum_by_halves terms.now }
{
    let n = terms.len();
    if n == 0 {
        return 0.0;
    }
    if n == 1 {
        return terms[0];
    }
    let half = n / 2;
    let first = sum_by_halves(&terms[..half]);
    let second = sum_by_halves(&terms[half..]);
    first + second
}
