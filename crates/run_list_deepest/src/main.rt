// The run-list program again, on the book that nests deepest: at every gate it has to run in a stack of 8 MiB.
#![tactic(auto)]

fn main() {
    listing::list();
}
