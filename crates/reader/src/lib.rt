// The reader: whether a file is a book, or why it is refused.
#![tactic(auto)]

ghost use Rattle.std.specs.Prelude.{◌≡◌};
ghost use Rattle.book.specs.Layout.{decode};
ghost use Rattle.book.specs.Refusals.{Laid, book_verdict, verdict};

use book::{Reason, Refusal};

// Refusals 5 to 10 and 32: the records, in the order of the sections.
fn inspect_records(file: &[u8]) -> Result<(), Refusal>
    requires { Laid file.now }
    ensures { result ≡ book_verdict (decode file.now) }
{
    book::blame(Reason::Cell, records::first_bad_cell(file))?;
    book::blame(Reason::Region, records::first_bad_region(file))?;
    book::blame(Reason::Right, records::first_bad_right(file))?;
    book::blame(Reason::Node, nodes::first_bad_node(file))?;
    book::blame(Reason::Program, scripts::first_bad_program(file))?;
    book::blame(Reason::Trigger, scripts::first_bad_trigger(file))?;
    book::blame(Reason::Label, label_records::first_bad_label(file))
}

// Refusals 2 to 10 and 32 of a file, in the paper's order.
pub fn inspect(file: &[u8]) -> Result<(), Refusal>
    ensures { result ≡ verdict file.now }
{
    book::need(Reason::Length, trailer::length_fits(file))?;
    book::need(Reason::Mark, trailer::mark_fits(file))?;
    book::need(Reason::Sections, trailer::sections_fit(file))?;
    inspect_records(file)
}
