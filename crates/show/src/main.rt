// Reads the lines of the member program, or bare frames, and prints each frame as a tree, or its tree up to where its layout breaks and why
// it does. Prints no octet of a key, and no octet without a name in the papers.
// Offsets count from the start of the frame. A function that puts text is an error where that cannot be written.
#![tactic(auto)]

mod address;
mod attribute;
mod bag;
mod delete;
mod frame;
mod header;
mod input;
mod kinds;
mod line;
mod partial;
mod policy;
mod reading;

// A write that failed ends the program, and nothing is told of it.
fn main(rt: HostRuntime) {
    let _ = input::show_all(&rt);
}
