// The product of two blocks (SP 800-38D, section 6.3), four bits at a time, by 16 multiples of one of them.
ghost use Rattle.std.specs.Prelude.{◌≡◌, ℕ, ◌<◌, ◌*◌, ◌^◌, length};
ghost use Rattle.std.specs.Int.Bits.{bit_xor};
ghost use Rattle.fips197.specs.Field.{mask_by};
ghost use Rattle.sp800_38d.specs.Product.{shifted, v_at, product};
ghost use Rattle.gcm.specs.inner.Halves.{pair_number};
ghost use Rattle.gcm.specs.inner.Multiples.{multiple_of, digit, Multiples};

use aes::Pair;

// A block shifted to the right by one place, with R added where a 1 falls off.
fn shift(v: Pair) -> Pair
    ensures { pair_number result ≡ shifted (pair_number v) }
{
    let off = v.lo % 2;
    let carried = v.hi % 2;
    Pair {
        hi: (v.hi / 2) ^ (off * 0xe100000000000000),
        lo: v.lo / 2 + carried * 0x8000000000000000,
    }
}

// z with v added where the bit is 1. No branch on the bit.
fn add_where(z: Pair, v: Pair, b: u64) -> Pair
    requires { b < 2 }
    ensures { pair_number result ≡ bit_xor (pair_number z) (mask_by b (pair_number v)) }
{
    Pair {
        hi: z.hi ^ (b * v.hi),
        lo: z.lo ^ (b * v.lo),
    }
}

// What four bits that fall off at the end add at the beginning: R for each, at its place.
fn reduce_four(d: u64) -> u64
    requires { d < 16 }
    ensures { result * 2 ^ 64 ≡ v_at d 4 }
{
    ((d ^ (d * 32)) ^ ((d * 64) ^ (d * 128))) * 0x20000000000000
}

// A block shifted to the right by four places.
fn shift_four(z: Pair) -> Pair
    ensures { pair_number result ≡ v_at (pair_number z) 4 }
{
    let off = reduce_four(z.lo % 16);
    let carried = z.hi % 16;
    Pair {
        hi: (z.hi / 16) ^ off,
        lo: z.lo / 16 + carried * 0x1000000000000000,
    }
}

// The multiple of a block by four bits.
fn make_multiple(y: Pair, d: u64) -> Pair
    requires { d < 16 }
    ensures { pair_number result ≡ multiple_of (pair_number y) d }
{
    let v1 = shift(y);
    let v2 = shift(v1);
    let v3 = shift(v2);
    let z = Pair { hi: 0, lo: 0 };
    let z1 = add_where(z, y, d / 8 % 2);
    let z2 = add_where(z1, v1, d / 4 % 2);
    let z3 = add_where(z2, v2, d / 2 % 2);
    add_where(z3, v3, d % 2)
}

// The 16 multiples of a block, the halves of each one behind the other.
pub(crate) fn make_multiples(y: Pair) -> [u64; 32]
    ensures { Multiples (pair_number y) result }
{
    let mut w = [0u64; 32];
    for d in 0..16 {
        let m = make_multiple(y, d as u64);
        w[2 * d] = m.hi;
        w[2 * d + 1] = m.lo;
    }
    w
}

// Four bits of a block, the n-th from the first on.
fn digit_at(x: Pair, n: u32) -> u64
    requires { n < 32 }
    ensures { (result ≡ digit (pair_number x) n) × (result < 16) }
{
    if n < 16 {
        return (x.hi >> (60 - 4 * n)) % 16;
    }
    (x.lo >> (124 - 4 * n)) % 16
}

// z shifted by four places, with the multiple by d added.
fn step(w: &[u64], z: Pair, d: u64) -> Pair
    requires { (d < 16) × (length w.now ≡ 32) }
    ensures { (y : ℕ) → Multiples y w.now → pair_number result ≡ bit_xor (multiple_of y d) (v_at (pair_number z) 4) }
{
    let m = shift_four(z);
    let at = 2 * d as usize;
    Pair {
        hi: w[at] ^ m.hi,
        lo: w[at + 1] ^ m.lo,
    }
}

// X • Y, by the multiples of Y.
pub(crate) fn multiply(w: &[u64], x: Pair) -> Pair
    requires { length w.now ≡ 32 }
    ensures { (y : ℕ) → Multiples y w.now → pair_number result ≡ product (pair_number x) y }
{
    let mut z = Pair { hi: 0, lo: 0 };
    for n in (0..32).rev() {
        let d = digit_at(x, n);
        z = step(w, z, d);
    }
    z
}
