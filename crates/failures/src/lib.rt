// A read or a write that failed, as the programs tell of it on standard error.
#![tactic(auto)]

ghost use Rattle.failures.specs.Words.{IsWithoutNumber};

use std::io;

// The text before an error's number, which std puts behind the system's words for it.
pub fn without_number(text: &str) -> &str
    ensures { IsWithoutNumber text.now result.now }
{
    match text.split_once(" (os error ") {
        Some((words, _)) => words,
        None => text,
    }
}

// Tells what failed, and why, in the system's words. It answers nothing, and no contract can say what a terminal takes.
// Where standard error fails too, nobody can be told.
pub fn tell_failed(rt: &(impl Eprint + Alloc), what: &str, error: &io::Error) {
    let told = match error.to_string(rt.alloc()) {
        Ok(text) => eprintln!(rt; "{what}: {}", without_number(text.as_str())),
        Err(_) => eprintln!(rt; "{what}: {error}"),
    };
    let _ = told;
}
