// Shows a policy of a GSA payload where it stands in the frame. A view holds the policy's octets and a cursor. The cursor says what comes
// next and at which offset, so a step reads that and the policy's head alone; only the first step reads the whole policy. Each function
// here takes the view apart and leaves the work to `read`.
// For customers: the calls of this file. All else is internal.
#![tactic(auto)]

ghost use Rattle.std.specs.Prelude.{◌≡◌, ◌+◌};
ghost use Rattle.std.specs.Iterator.{YieldsFirst, item_count};
ghost use Rattle.wire_view.specs.View.{first_octet, octet_of, shown_kind, shown_spi, spi_start, is_at_end, next_after, item_at, step_at, items_left};

pub mod items;
pub mod read;

// A view of a policy: the policy's octets `src`, and the cursor `at`.
#[derive(Clone, Copy)]
pub struct View<'a> {
    pub src: &'a [u8],
    pub at: usize,
}

// Shows what stands at the cursor, and moves on: a loop over a view goes through all that it shows.
impl<'a> Iterator for View<'a> {
    type Item = items::Item;

    ghost next_gives = { YieldsFirst items_left };

    ghost remaining = { item_count items_left };

    fn next(&mut self) -> Option<items::Item> {
        let step = read::step_at(self.src, self.at);
        self.at = step.next;
        step.item
    }
}

// Makes a view of the policy `src`, with the cursor at the start.
pub fn new<'a>(src: &'a [u8]) -> View<'a>
    ensures { (result.src ≡ src.entry) × (result.at ≡ 0) }
{
    View { src, at: 0 }
}

// Answers which policy `v` shows, if it shows one: a Group SA policy with its protocol, or a group-wide policy.
pub fn kind<'a>(v: View<'a>) -> Option<read::Kind>
    ensures { (result ≡ shown_kind v.entry.src.now) × (first_octet result ≡ octet_of v.entry.src.now) }
{
    read::kind_of(v.src)
}

// Answers the SPI of the policy, as a slice of the octets of `v`; empty for a group-wide policy and for no policy.
pub fn spi<'a>(v: View<'a>) -> &'a [u8]
    ensures { (result.now ≡ shown_spi v.entry.src.now)
        × (result.ref_ptr ≡ (v.entry.src.ref_ptr.0, spi_start v.entry.src.now + v.entry.src.ref_ptr.1)) }
{
    read::spi_of(v.src)
}

// Whether `v` has nothing more to show.
pub fn at_end<'a>(v: View<'a>) -> bool
    ensures { result ≡ is_at_end v.entry.src.now v.entry.at }
{
    read::is_at_end(v.src, v.at)
}

// Answers `v` moved on to the next selector, transform or attribute; at the end it stays.
pub fn moved<'a>(v: View<'a>) -> View<'a>
    ensures { (result.src ≡ v.entry.src) × (result.at ≡ next_after v.entry.src.now v.entry.at) }
{
    View {
        src: v.src,
        at: read::next_after(v.src, v.at),
    }
}

// Answers what stands at the cursor of `v`, if anything does.
pub fn here<'a>(v: View<'a>) -> Option<items::Item>
    ensures { result ≡ item_at v.entry.src.now v.entry.at }
{
    read::item_at(v.src, v.at)
}

// Answers what stands at the cursor of `v`, and the cursor moved on, in one call.
pub fn step<'a>(v: View<'a>) -> read::Step
    ensures { result ≡ step_at v.entry.src.now v.entry.at }
{
    read::step_at(v.src, v.at)
}

// Answers what a view of `s` shows at the cursor `at`, and the cursor moved on: `step` for a caller that holds no view. A walk starts at 0.
pub fn shown_step(s: &[u8], at: usize) -> read::Step
    ensures { result ≡ step_at s.now at }
{
    step(View { src: s, at })
}

// Whether a view of `s` with the cursor `at` has nothing more to show: `at_end` for a caller that holds no view.
pub fn shown_end(s: &[u8], at: usize) -> bool
    ensures { result ≡ is_at_end s.now at }
{
    at_end(View { src: s, at })
}

// Answers the cursor `at` of a view of `s` moved on: `moved` for a caller that holds no view.
pub fn shown_next(s: &[u8], at: usize) -> usize
    ensures { result ≡ next_after s.now at }
{
    moved(View { src: s, at }).at
}

// Answers what a view of `s` shows at the cursor `at`: `here` for a caller that holds no view.
pub fn shown(s: &[u8], at: usize) -> Option<items::Item>
    ensures { result ≡ item_at s.now at }
{
    here(View { src: s, at })
}

// Answers which policy a view of `s` shows: `kind` for a caller that holds no view.
pub fn shown_kind(s: &[u8]) -> Option<read::Kind>
    ensures { (result ≡ shown_kind s.now) × (first_octet result ≡ octet_of s.now) }
{
    kind(new(s))
}

// Answers the SPI of the policy that a view of `s` shows, as a slice of `s`: `spi` for a caller that holds no view.
pub fn shown_spi(s: &[u8]) -> &[u8]
    ensures { (result.now ≡ shown_spi s.now)
        × (result.ref_ptr ≡ (s.entry.ref_ptr.0, spi_start s.now + s.entry.ref_ptr.1)) }
{
    spi(new(s))
}
