// The limits of document 01, four of them raised by document 02, T-01, and one that T-11 adds. Each is named once; the record of
// specs/Limits.antt has the same figures.
ghost use Rattle.std.specs.Prelude.{◌≡◌, [], ◌∷◌};
ghost use Rattle.state_keys.specs.Limits.{limits};

// SAs in the table.
pub const SAS: usize = 64;

// Wrapping keys in the held list.
pub const HELD_KEYS: usize = 128;

// ESP policies in a frame.
pub const ESP_POLICIES: usize = 24;

// WRAP_KEY attributes in a frame.
pub const WRAP_KEYS: usize = 128;

// SA_KEY attributes in a Group Key Bag.
pub const SA_KEYS: usize = 32;

// Deleted SPIs in a frame.
pub const DELETED_SPIS: usize = 32;

// Fresh tree keys in a rekey.
pub const FRESH_KEYS: usize = 128;

// Answers the seven limits. Internal: no code calls it. Its promise compares the figures of this file with those of the definitions.
pub fn figures() -> [usize; 7]
    ensures { result ≡
        limits.sas ∷ limits.held_keys ∷ limits.esp_policies ∷ limits.wrap_keys ∷ limits.sa_keys ∷ limits.deleted_spis ∷ limits.fresh_keys ∷
        [] }
{
    [
        SAS,
        HELD_KEYS,
        ESP_POLICIES,
        WRAP_KEYS,
        SA_KEYS,
        DELETED_SPIS,
        FRESH_KEYS,
    ]
}
