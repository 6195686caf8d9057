// The held list: the wrapping keys that a member keeps from its registration.
ghost use Rattle.std.specs.Prelude.{◌≡◌, not, ◌||◌, [], ◌≤◌, length, take, drop};
ghost use Rattle.state_keys.specs.Limits.{limits};
ghost use Rattle.lists.specs.Lists.{all};
ghost use Rattle.state.specs.Held.{blank_key, keys_of, held_of, key_formed, ids_of, has, distinct, held_formed, held_key};
ghost use Rattle.state.specs.inner.Entering.{id_before, entered_key};

use state_keys::kinds::WrappingKey;
use state_keys::limits::HELD_KEYS;

// A wrapping key with its Key ID.
#[derive(Clone, Copy, PartialEq, Eq)]
pub struct HeldKey {
    pub id: u32,
    pub key: WrappingKey,
}

// The held list: its keys are the first `count` of `keys`.
// Kept as an array with its count, since memory is fixed.
#[derive(Clone, Copy, PartialEq, Eq)]
pub struct Held {
    pub keys: [HeldKey; HELD_KEYS],
    pub count: usize,
}

// Makes the value of an unused place of the list.
fn blank() -> HeldKey
    ensures { result ≡ blank_key }
{
    HeldKey {
        id: 0,
        key: WrappingKey::blank(),
    }
}

impl HeldKey {
    // Whether the Key ID is not 0 and the octet count is that of a wrapping key.
    pub fn is_formed(self) -> bool
        ensures { result ≡ key_formed self }
    {
        let k = self.key;
        self.id != 0 && WrappingKey::is_size(k.count)
    }
}

// Whether `a` goes ahead of `k` while a key is inserted. `placed` says that the inserted key has its place already: from there on all keys
// move back by one, and `a` is the one that has to move. Before that, `a` is the inserted key, and the Key IDs decide.
fn goes_ahead(placed: bool, a: HeldKey, k: HeldKey) -> bool
    ensures { result ≡ (placed || id_before a k) }
{
    placed || a.id < k.id
}

// Whether none of `ids` stands twice.
fn are_distinct(ids: &[u32]) -> bool
    ensures { result ≡ distinct ids.now }
{
    for i in 0..ids.len() {
        let id = ids[i];
        if ids[i + 1..].contains(&id) {
            return false;
        }
    }
    true
}

impl Held {
    // Makes a list with no key.
    pub fn new() -> Held
        ensures { result ≡ held_of limits [] }
    {
        let none = [blank(); HELD_KEYS];
        Held {
            keys: none,
            count: 0,
        }
    }

    // Whether every key of the list is formed.
    fn each_formed(self) -> bool
        requires { self.count ≤ limits.held_keys }
        ensures { result ≡ all key_formed (keys_of self) }
    {
        for k in &self.keys[..self.count] {
            if !k.is_formed() {
                return false;
            }
        }
        true
    }

    // Copies the Key IDs to an array, because comparing each with all others must not move whole keys.
    fn ids(self) -> [u32; HELD_KEYS]
        requires { self.count ≤ limits.held_keys }
        ensures { take self.count result ≡ ids_of (keys_of self) }
    {
        let mut ids = [0u32; HELD_KEYS];
        for i in 0..self.count {
            let k = self.keys[i];
            ids[i] = k.id;
        }
        ids
    }

    // Whether the list is as a member's must be: it has at most `HELD_KEYS` keys, each is formed, and their Key IDs are
    // distinct.
    pub fn is_formed(self) -> bool
        ensures { result ≡ held_formed limits self }
    {
        let n = self.count;
        if HELD_KEYS < n {
            return false;
        }
        if !self.each_formed() {
            return false;
        }
        let ids = self.ids();
        are_distinct(&ids[..n])
    }

    // Finds the key with the Key ID `id`. In a list whose count is over the limit it finds none.
    pub fn find(self, id: u32) -> Option<WrappingKey>
        ensures { result ≡ held_key limits id self }
    {
        if HELD_KEYS < self.count {
            return None;
        }
        for k in &self.keys[..self.count] {
            if k.id == id {
                return Some(k.key);
            }
        }
        None
    }

    // Inserts the key `a` in its place. A full list stays as it is.
    pub fn enter(self, a: HeldKey) -> Held
        ensures { result ≡ entered_key limits a self }
    {
        let n = self.count;
        if HELD_KEYS <= n {
            return self;
        }
        let mut out = [blank(); HELD_KEYS];
        let mut carried = a;
        let mut placed = false;
        for i in 0..n {
            let k = self.keys[i];
            if goes_ahead(placed, carried, k) {
                out[i] = carried;
                carried = k;
                placed = true;
            } else {
                out[i] = k;
            }
        }
        out[n] = carried;
        Held {
            keys: out,
            count: n + 1,
        }
    }
}
