// Words of four octets, the first octet highest.
ghost use Rattle.std.specs.Prelude.{◌≡◌, ◌+◌, ◌≤◌, length};
ghost use Rattle.aes.specs.inner.Word.{word_of, word_octets, column_of, last_column_of};

// Joins four octets to a word, with `p` highest.
pub fn join(p: u8, q: u8, r: u8, t: u8) -> u32
    ensures { result ≡ word_of p q r t }
{
    u32::from_be_bytes([p, q, r, t])
}

// Splits the word `x` into its octets.
pub fn apart(x: u32) -> [u8; 4]
    ensures { result ≡ word_octets x }
{
    x.to_be_bytes()
}

// Computes a column of a round: looks up one octet of each word `a` to `d` in the combined table and adds the word `k` of the round key.
pub fn column(t: &[u32], a: u32, b: u32, c: u32, d: u32, k: u32) -> u32
    requires { 256 ≤ length t.now }
    ensures { result ≡ column_of t.now a b c d k }
{
    let p = t[((a >> 24) % 256) as usize];
    let q = t[((b >> 16) % 256) as usize].rotate_right(8);
    let r = t[((c >> 8) % 256) as usize].rotate_right(16);
    let u = t[(d % 256) as usize].rotate_right(24);
    ((p ^ q) ^ (r ^ u)) ^ k
}

// Computes a column of the last round: as `column`, but with the substitution box that stands in `t` from `at` on.
pub fn last_column(t: &[u32], at: usize, a: u32, b: u32, c: u32, d: u32, k: u32) -> u32
    requires { at + 256 ≤ length t.now }
    ensures { result ≡ last_column_of t.now at a b c d k }
{
    let p = t[at + ((a >> 24) % 256) as usize];
    let q = t[at + ((b >> 16) % 256) as usize];
    let r = t[at + ((c >> 8) % 256) as usize];
    let u = t[at + (d % 256) as usize];
    (((p << 24) ^ (q << 16)) ^ ((r << 8) ^ u)) ^ k
}
