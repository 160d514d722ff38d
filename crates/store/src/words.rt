// Words of a table: calls that the crates above may use too, but for `place_of`.
ghost use Rattle.std.specs.Prelude.{◌≡◌, ◌≤◌, cond, eqb, length, replicate};
ghost use Rattle.std.specs.List.{position_or_len};
ghost use Rattle.store.specs.Table.{at_most, above};

// All bits where the word is above `n`, else none.
#[tactic(auto, unfolding(crate::specs::Table::above))]
pub fn above(word: u32, n: u32) -> u32
    ensures { result ≡ above n word }
{
    if word > n { u32::MAX } else { 0 }
}

// Whether each word of `part` is at most `n`. In this test and the next, bits are gathered and no word ends the loop early, so that the
// compiler can test several at once: with `good &= word <= n` a loop takes a third longer.
#[tactic(auto, unfolding(crate::specs::Table::at_most))]
pub fn at_most(part: &[u32], n: u32) -> bool
    ensures { result ≡ at_most n part.now }
{
    let mut bits = 0;
    for &word in part {
        bits |= above(word, n);
    }
    bits == 0
}

// Whether each word of `part` is 0: `at_most(part, 0)` in a loop of its own, which compares no word, for speed.
#[tactic(auto, unfolding(crate::specs::Table::at_most))]
pub fn are_zero(part: &[u32]) -> bool
    ensures { result ≡ at_most 0 part.now }
{
    let mut bits = 0;
    for &word in part {
        bits |= word;
    }
    bits == 0
}

// The place of the first word of `part` that is `word`, or its length where none is.
pub(crate) fn place_of(part: &[u32], word: u32) -> usize
    ensures place { result ≡ position_or_len (λ w. eqb w word) part.now }
    ensures within { result ≤ length part.now }
{
    let place = part.iter().position(|&w| w == word);
    place.unwrap_or(part.len())
}

// Makes each word of `part` be `v`: `fill` with a clause that the proofs of the crates above cite.
pub fn fill(part: &mut [u32], v: u32)
    ensures { part.new ≡ replicate (length part.old) v }
{
    part.fill(v);
}

// Writes all of `from` over `part`, which stays as it is where their lengths differ; `copy_from_slice` takes equal lengths alone.
pub fn copy(part: &mut [u32], from: &[u32])
    ensures { part.new ≡ cond (eqb (length part.old) (length from.now)) from.now part.old }
{
    if part.len() == from.len() {
        part.copy_from_slice(from);
    }
}

// Lays an array of `N` equal numbers over `part`, which stays as it is where its length is another. Fresh tables begin so: docs/DECISIONS.md, 34.
pub fn lay<const N: usize>(part: &mut [u32], v: u32)
    ensures { part.new ≡ cond (eqb (length part.old) N) (replicate N v) part.old }
{
    if part.len() == N {
        part.copy_from_slice(&[v; N]);
    }
}
