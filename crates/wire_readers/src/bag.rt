// Reads the key bags of a KD body whose layout is whole.
ghost use Rattle.std.specs.Prelude.{◌≡◌, Bool, true, ◌<◌, length};
ghost use Rattle.wire_readers.specs.inner.Values.{is_whole};
ghost use Rattle.wire_bags.specs.Bag.{bags};
ghost use Rattle.wire_readers.specs.inner.Bags.{BagIs};

use crate::policy::Parts;

// Reads the first key bag of `s`, a KD body or the rest of one. Its answer is the same whether fresh keys are read or not.
pub fn bag_parts(s: &[u8]) -> Parts
    requires { (0 < length s.now) × ((fresh : Bool) × (is_whole (bags fresh 0 s.now) ≡ true)) }
    ensures { (fresh : Bool) → is_whole (bags fresh 0 s.now) ≡ true → BagIs fresh s.now result }
{
    crate::policy::head_parts(s)
}
