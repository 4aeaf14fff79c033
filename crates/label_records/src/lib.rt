// The label records of version 2: the place and the label of each, and their check (refusal 32).
#![tactic(auto)]

ghost use Rattle.std.specs.Prelude.{◌≡◌, ◌+◌, ◌≤◌, ◌<◌, length};
ghost use Rattle.labels.specs.Labels.{is_own};
ghost use Rattle.book.specs.Records.{label_of, labels_format};
ghost use Rattle.book.specs.Layout.{label_section, decode};
ghost use Rattle.book.specs.Refusals.{first_bad, Laid, bad_label};

// The place of the record at `at`.
pub fn place_at(file: &[u8], at: usize) -> usize
    requires { at + 66 ≤ length file.now }
    ensures { result ≡ (labels_format.read file.now at).place }
{
    numbers::u16_at(file, at)
}

// The label of the record at `at`.
pub fn label_at(file: &[u8], at: usize) -> [u64; 8]
    requires { at + 66 ≤ length file.now }
    ensures { result ≡ label_of (labels_format.read file.now at) }
{
    let mut label = [0u64; 8];
    for word in 0..8 {
        label[word] = numbers::u64_at(file, at + 2 + 8 * word);
    }
    label
}

// Whether the label of the record at `at` is `place` alone. It ends at the first word that differs.
fn own_alone(file: &[u8], at: usize, place: usize) -> bool
    requires { (at + 66 ≤ length file.now) × (place < 512) }
    ensures { result ≡ is_own place (label_of (labels_format.read file.now at)) }
{
    for same in 0..8 {
        if numbers::u64_at(file, at + 2 + 8 * same) != labels::own_word(place, same) {
            return false;
        }
    }
    true
}

// Refusal 32: the first bad label record, if there is one; `least` is the least place that the next record may have.
pub fn first_bad_label(file: &[u8]) -> Option<usize>
    requires { Laid file.now }
    ensures { result ≡ first_bad (bad_label (decode file.now).labels) (label_section file.now).count }
{
    let labels = book::label_section(file);
    let start = labels.start;
    let count = labels.count;
    let mut least: usize = 0;
    for label in 0..count {
        let at = start + label * 66;
        let place = place_at(file, at);
        if 511 < place {
            return Some(label);
        }
        if place < least {
            return Some(label);
        }
        if own_alone(file, at, place) {
            return Some(label);
        }
        least = place + 1;
    }
    None
}
