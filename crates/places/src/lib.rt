// Sets of places in eight words: place p is bit p % 64 of word p / 64.
#![tactic(auto)]

ghost use Rattle.std.specs.Prelude.{◌≡◌, ◌<◌, length};
ghost use Rattle.places.specs.Sets.{has, single, union, difference, within, looked_at};

// What a comparison of two sets tells: whether the first lies within the second, and how many words were looked at.
#[derive(Clone, Copy)]
pub struct Comparison {
    pub inside: bool,
    pub words: usize,
}

// Tells a caller's proof that a set has eight words.
pub fn eight(set: [u64; 8])
    ensures { length set ≡ 8 }
{}

// Whether `place` is a member.
pub fn contains(set: [u64; 8], place: usize) -> bool
    requires { place < 512 }
    ensures { result ≡ has set place }
{
    (set[place / 64] >> (place % 64)) % 2 == 1
}

// The set of `place` alone.
pub fn single(place: usize) -> [u64; 8]
    requires { place < 512 }
    ensures { result ≡ single 8 place }
{
    let mut set = [0u64; 8];
    set[place / 64] = 1u64 << (place % 64);
    set
}

// The places of `a` and those of `b`.
pub fn union(a: [u64; 8], b: [u64; 8]) -> [u64; 8]
    ensures { result ≡ union a b }
{
    let mut set = [0u64; 8];
    for i in 0..8 {
        set[i] = a[i] | b[i];
    }
    set
}

// The places of `a` that `b` lacks.
pub fn difference(a: [u64; 8], b: [u64; 8]) -> [u64; 8]
    ensures { result ≡ difference a b }
{
    let mut set = [0u64; 8];
    for i in 0..8 {
        set[i] = a[i] ^ (a[i] & b[i]);
    }
    set
}

// Whether each place of `a` is one of `b`. It ends at the first word with a place that `b` lacks.
pub fn within(a: [u64; 8], b: [u64; 8]) -> Comparison
    ensures { (result.inside ≡ within a b) × (result.words ≡ looked_at a b) }
{
    for word in 0..8 {
        let missing = a[word] ^ (a[word] & b[word]);
        if missing != 0 {
            let words = word + 1;
            return Comparison {
                inside: false,
                words,
            };
        }
    }
    Comparison {
        inside: true,
        words: 8,
    }
}
