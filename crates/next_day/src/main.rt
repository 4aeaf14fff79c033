// The program that carries a book forward to the next day. Its committed input is the book of a Monday.
#![tactic(auto)]

fn main() {
    listing::list_next_day();
}
