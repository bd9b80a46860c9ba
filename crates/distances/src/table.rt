// Single entries of a lent table of values.
// Stays: the distances hand their lent slice on to these, by a rule of the project.
ghost use Rattle.std.specs.Prelude.{◌≡◌, ℕ, ◌<◌, map, length, slice_set};
ghost use Rattle.distances.specs.Distance.{entry};

use kinds::Kind;

// Makes every entry zero.
pub fn clear<K: Kind>(table: &mut [K])
    ensures zeros { (i : ℕ) → entry K.group (map K.meaning table.new) i ≡ K.group.zero }
    ensures len { length table.new ≡ length table.old }
{
    // Stays: `fill` would ask that a clone can't fail, which a kind, copied as it is, does not say.
    for entry in table.iter_mut() {
        *entry = K::zero();
    }
}

// The entry at a place, zero where the table is too short.
pub fn at<K: Kind>(table: &[K], i: usize) -> K
    ensures { K.meaning result ≡ entry K.group (map K.meaning table.now) i }
{
    table.get(i).copied().unwrap_or(K::zero())
}

// Sets one entry.
pub fn put<K: Kind>(table: &mut [K], i: usize, x: K)
    requires { i < length table.old }
    ensures { table.new ≡ slice_set table.old i x }
{
    table[i] = x;
}
