// The Group Key Bag that belongs to an SA.
ghost use Rattle.std.specs.Prelude.{◌≡◌, Bool, true};
ghost use Rattle.wire_bags.specs.Bag.{bags};
ghost use Rattle.wire_readers.specs.inner.Values.{is_whole};
ghost use Rattle.check_pairing.specs.inner.Stretches.{bag_stretch};

use crate::names::is_named;
use ikev2_numbers::POLICY_HEAD;
use wire_readers::Stretch;

// Finds the first Group Key Bag with `protocol` and `spi` in KD body `kd` and answers where its attributes stand. The stretch is empty if
// there is no such bag. Its answer is the same whether fresh keys are read or not.
pub fn bag_stretch(kd: &[u8], protocol: usize, spi: &[u8]) -> Stretch
    requires { (fresh : Bool) × (is_whole (bags fresh 0 kd.now) ≡ true) }
    ensures { result ≡ bag_stretch protocol spi.now kd.now }
{
    let mut at = 0;
    // Kept as a `while`: the place moves by what each bag says, and that place is the answer.
    while at < kd.len() {
        let p = wire_readers::bag::bag_parts(&kd[at..]);
        let name = at + POLICY_HEAD;
        let start = at + p.body;
        let end = at + p.end;
        if is_named(protocol, spi, p.first, &kd[name..start]) {
            return Stretch { start, end };
        }
        at = end;
    }
    Stretch { start: 0, end: 0 }
}
