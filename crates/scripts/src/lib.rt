// The checks of programs and triggers (refusals 9 and 10).
#![tactic(auto)]

ghost use Rattle.std.specs.Prelude.{◌≡◌, false, ◌+◌, ◌≤◌, ◌<◌, ℕ, length, get_or};
ghost use Rattle.book.specs.Records.{programs_format, triggers_format};
ghost use Rattle.book.specs.Layout.{count, section, decode};
ghost use Rattle.book.specs.Refusals.{first, first_bad, Laid, bad_node, bad_program, bad_trigger, is_command, program_fits, reaches, trigger_fits};

// Whether there is a node `i` and it is a command.
fn is_command(file: &[u8], nodes: book::Section, i: usize) -> bool
    requires { Laid file.now × (nodes ≡ section file.now 3) }
    ensures { result ≡ is_command (decode file.now) i }
{
    if nodes.count <= i {
        return false;
    }
    kinds::sort_at(file, nodes, i) == kinds::COMMAND
}

// Whether the program record at byte `at` names a user, and a root that is a command.
fn program_fits(file: &[u8], nodes: book::Section, at: usize) -> bool
    requires { Laid file.now × (nodes ≡ section file.now 3) × (at + 4 ≤ length file.now) }
    ensures { result ≡ program_fits (decode file.now) (programs_format.read file.now at) }
{
    if 7 < file[at] {
        return false;
    }
    if file[at + 1] != 0 {
        return false;
    }
    is_command(file, nodes, numbers::u16_at(file, at + 2))
}

// The first bad program, if there is one.
pub fn first_bad_program(file: &[u8]) -> Option<usize>
    requires { Laid file.now }
    ensures { result ≡ first_bad (bad_program (decode file.now)) (count file.now 4) }
{
    let nodes = book::section_at(file, 3);
    let programs = book::section_at(file, 4);
    for program in 0..programs.count {
        let at = programs.start + 4 * program;
        if !program_fits(file, nodes, at) {
            return Some(program);
        }
    }
    None
}

// Whether the trigger record at byte `at` names a region, an event, a user, and a body that is a command and not flagged.
fn trigger_fits(
    file: &[u8],
    nodes: book::Section,
    regions: usize,
    flags: &[bool; 1024],
    at: usize,
) -> bool
    requires laid { Laid file.now × (nodes ≡ section file.now 3) × (regions ≡ count file.now 1) × (at + 8 ≤ length file.now) }
    requires by_index { (i : ℕ) → i < count file.now 3 → get_or flags.now i false ≡ reaches (decode file.now) (count file.now 3) i }
    ensures { result ≡ trigger_fits (decode file.now) (triggers_format.read file.now at) }
{
    if regions <= file[at] as usize {
        return false;
    }
    if file[at + 1] < 1 {
        return false;
    }
    if 2 < file[at + 1] {
        return false;
    }
    if 7 < file[at + 2] {
        return false;
    }
    if file[at + 3] != 0 {
        return false;
    }
    let body = numbers::u16_at(file, at + 4);
    if !is_command(file, nodes, body) {
        return false;
    }
    if numbers::u16_at(file, at + 6) != 0 {
        return false;
    }
    !flags[body]
}

// The first bad trigger, if there is one.
pub fn first_bad_trigger(file: &[u8]) -> Option<usize>
    requires laid { Laid file.now }
    requires file_value { first (bad_node (decode file.now)) (count file.now 3) ≡ count file.now 3 }
    ensures { result ≡ first_bad (bad_trigger (decode file.now)) (count file.now 5) }
{
    let regions = book::section_at(file, 1);
    let nodes = book::section_at(file, 3);
    let triggers = book::section_at(file, 5);
    let flags = reaching::reaching_flags(file, nodes);
    for trigger in 0..triggers.count {
        let at = triggers.start + 8 * trigger;
        if !trigger_fits(file, nodes, regions.count, &flags, at) {
            return Some(trigger);
        }
    }
    None
}
