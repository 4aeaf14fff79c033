// How many members a set of places has, and which is the lowest.
#![tactic(auto)]

ghost use Rattle.std.specs.Prelude.{◌≡◌, ℕ, ◌<◌, Some};
ghost use Rattle.places.specs.Sets.{size, lowest};

// The number of members.
pub fn size(set: [u64; 8]) -> u32
    ensures { result ≡ size set }
{
    let mut members: u32 = 0;
    for word in set {
        members += word.count_ones();
    }
    members
}

// The lowest member: the lowest bit of the first word that is not 0.
pub fn lowest(set: [u64; 8]) -> Option<usize>
    ensures is { result ≡ lowest set }
    ensures below { (p : ℕ) → result ≡ Some p → p < 512 }
{
    let word = set.iter().position(|bits| *bits != 0)?;
    Some(64 * word + set[word].trailing_zeros() as usize)
}
