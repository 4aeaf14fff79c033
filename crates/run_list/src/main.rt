// The run-list program. Its committed input is book W.
#![tactic(auto)]

fn main() {
    listing::list();
}
