// Walks through views of policies by the calls of `wire_view`: twice through each, by `shown_step` and by the calls that a step puts into
// one. Prints for each walk a word for each selector, transform and attribute, and how many it came by.
#![tactic(auto)]

use wire_view::items::Item;

// Prints `text`. What a failed write leaves out is not printed again, and the walks go on.
fn print(rt: &impl Print, text: &[u8]) {
    let _ = rt.write_all(text);
}

// Prints a word for `item`.
fn print_name(rt: &impl Print, item: Item) {
    match item {
        Item::Selector { .. } => print(rt, b"selector "),
        Item::Transform { .. } => print(rt, b"transform "),
        Item::Attribute { .. } => print(rt, b"attribute "),
    }
}

// Walks through the policy `s` by `shown_step`. Answers how many items it came by.
fn by_steps(rt: &impl Print, s: &[u8]) -> usize {
    let mut at = 0;
    for n in 0..s.len() {
        let step = wire_view::shown_step(s, at);
        let Some(item) = step.item else {
            return n;
        };
        print_name(rt, item);
        at = step.next;
    }
    s.len()
}

// Walks through the policy `s` by `shown_end`, `shown` and `shown_next`. Answers how many items it came by.
fn by_moves(rt: &impl Print, s: &[u8]) -> usize {
    let mut at = 0;
    for n in 0..s.len() {
        if wire_view::shown_end(s, at) {
            return n;
        }
        if let Some(item) = wire_view::shown(s, at) {
            print_name(rt, item);
        }
        at = wire_view::shown_next(s, at);
    }
    s.len()
}

fn print_count(rt: &impl Print, n: usize) {
    let _ = println!(rt; "{n} shown");
}

// Walks through the policy `s` in both ways.
fn walk(rt: &impl Print, s: &[u8]) {
    print_count(rt, by_steps(rt, s));
    print_count(rt, by_moves(rt, s));
}

fn main(rt: HostRuntime) {
    // group-wide: empty, with a deactivation delay, and with an octet left over
    walk(&rt, b"\x00\x00\x00\x04");
    walk(&rt, b"\x00\x00\x00\x08\x80\x02\x00\x05");
    walk(&rt, b"\x00\x00\x00\x04\x00");
    // ESP policies: two selectors and a transform; two selectors, two transforms and an attribute
    walk(
        &rt,
        b"\x03\x04\x00\x30spi \x07a\x00\x10PPPPaaaabbbb\x07a\x00\x10PPPPaaaabbbb\x00\x00\x00\x08\x05\x00\x00\x02",
    );
    walk(
        &rt,
        b"\x03\x04\x00@spi \x07a\x00\x10PPPPaaaabbbb\x07a\x00\x10PPPPaaaabbbb\x03r\x00\x08\x01rID\x00r\x00\x08\x05rID\x00\x01\x00\x04life",
    );
    walk(&rt, b"");
}
