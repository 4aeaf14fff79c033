// What a node reaches: for each node, whether its children's children lead to a kind that no trigger body may reach.
#![tactic(auto)]

ghost use Rattle.std.specs.Prelude.{◌≡◌, false, ◌||◌, ◌<◌, ℕ, get_or};
ghost use Rattle.book.specs.Layout.{count, section, decode};
ghost use Rattle.book.specs.Refusals.{first, Laid, bad_node, forbidden, reaches};

// Whether a trigger body may not reach this kind.
fn forbidden(kind: u8) -> bool
    ensures { result ≡ forbidden kind }
{
    kind == 20 || 23 <= kind && kind <= 25
}

// Whether one of two nodes is flagged.
fn flagged(flags: &[bool; 1024], i: usize, j: usize) -> bool
    requires { (i < 1024) × (j < 1024) }
    ensures { result ≡ (get_or flags.now i false || get_or flags.now j false) }
{
    flags[i] || flags[j]
}

// Whether node `n` is of a forbidden kind or has a flagged child, where the nodes below it are flagged already. No expression is flagged,
// and of the kinds that are not forbidden only a sequence, 18, and a choice, 19, name commands.
fn reaches(file: &[u8], nodes: book::Section, flags: &[bool; 1024], n: usize) -> bool
    requires laid { Laid file.now × (nodes ≡ section file.now 3) × (n < count file.now 3) }
    requires file_value { first (bad_node (decode file.now)) (count file.now 3) ≡ count file.now 3 }
    requires by_index { (i : ℕ) → i < n → get_or flags.now i false ≡ reaches (decode file.now) (count file.now 3) i }
    ensures { result ≡ reaches (decode file.now) (count file.now 3) n }
{
    let start = nodes.start;
    let at = start + 16 * n;
    let kind = file[at];
    // Most nodes are of a lower kind, and reach none that is forbidden.
    if kind < 18 {
        return false;
    }
    if kind == 18 {
        return flagged(
            flags,
            numbers::u16_at(file, at + 2),
            numbers::u16_at(file, at + 4),
        );
    }
    if kind == 19 {
        return flagged(
            flags,
            numbers::u16_at(file, at + 4),
            numbers::u16_at(file, at + 6),
        );
    }
    forbidden(kind)
}

// For each node, whether it reaches a forbidden kind: one pass, as children have lower numbers.
pub fn reaching_flags(file: &[u8], nodes: book::Section) -> [bool; 1024]
    requires laid { Laid file.now × (nodes ≡ section file.now 3) }
    requires file_value { first (bad_node (decode file.now)) (count file.now 3) ≡ count file.now 3 }
    ensures { (i : ℕ) → i < count file.now 3 → get_or result i false ≡ reaches (decode file.now) (count file.now 3) i }
{
    let mut flags = [false; 1024];
    for flagged in 0..nodes.count {
        let flag = reaches(file, nodes, &flags, flagged);
        flags[flagged] = flag;
    }
    flags
}
