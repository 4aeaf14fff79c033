// The program that names the cell. Its committed input is book W.
#![tactic(auto)]

fn main() {
    listing::list_explained();
}
