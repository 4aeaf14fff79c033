// The labels of the 512 cells in lent memory: the label of cell p is the eight words from 8 * p on.
#![tactic(auto)]

ghost use Rattle.std.specs.Prelude.{◌≡◌, ◌+◌, ◌*◌, ◌≤◌, ◌<◌, length, get_or};
ghost use Rattle.places.specs.Sets.{single};
ghost use Rattle.labels.specs.Labels.{label_at, set_label, own_labels, is_own, no_labels};

// Makes `label` the label of cell `place`; the other labels stay. Word by word, since a run that does nothing but store its cells takes a fifth
// longer by `copy_from_slice`.
pub fn set_label(labels: &mut [u64], place: usize, label: [u64; 8])
    requires { 8 * place + 8 ≤ length labels.old }
    ensures { labels.new ≡ set_label labels.old place label }
{
    for offset in 0..8 {
        labels[8 * place + offset] = label[offset];
    }
}

// Makes each cell's label its own place alone, as it is at the start of a run: one bit in words that are all cleared first, since a
// set made for each place and copied would take longer.
pub fn own_labels(labels: &mut [u64])
    requires { length labels.old ≡ 4096 }
    ensures { labels.new ≡ own_labels 512 }
{
    labels.fill(0);
    for place in 0..512 {
        labels[8 * place + place / 64] = 1u64 << (place % 64);
    }
}

// Word `word` of the set of `place` alone.
pub fn own_word(place: usize, word: usize) -> u64
    requires { (place < 512) × (word < 8) }
    ensures { result ≡ get_or (single 8 place) word 0 }
{
    if word != place / 64 {
        return 0;
    }
    1u64 << (place % 64)
}

// Whether the label of cell `place` is its own place alone. It ends at the first word that differs.
pub fn is_own(labels: &[u64], place: usize) -> bool
    requires { (place < 512) × (8 * place + 8 ≤ length labels.now) }
    ensures { result ≡ is_own place (label_at labels.now place) }
{
    for word in 0..8 {
        if labels[8 * place + word] != own_word(place, word) {
            return false;
        }
    }
    true
}
