// Calls the library by lines of text. Prints after each call the answer and, where the member changed, all of it. For tests alone, since it
// prints keys. tests/README.md has its text.
#![tactic(auto)]

mod calls;
mod fragment;
mod input;
mod journal;
mod sealed;
mod text;
mod traced;
mod whole;

// A write that failed ends the program, and nothing is told of it.
fn main(rt: HostRuntime) {
    let _ = input::trace(&rt);
}
