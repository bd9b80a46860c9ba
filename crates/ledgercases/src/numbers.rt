// Numbers of a line: as many as an order has, each as small as it must be.
ghost use Rattle.std.specs.Prelude.{◌≡◌, ◌&&◌, length, if◌then◌else◌, Some, None, nat_eq, nat_lt, slice_index};

// The numbers themselves, where they are just so many.
pub fn exactly<const N: usize>(numbers: &[u32]) -> Option<[u32; N]>
    ensures { result ≡ (if nat_eq (length numbers.now) N then Some numbers.now else None) }
{
    <[u32; N]>::try_from(numbers).ok()
}

// The only number, where it is small enough to be the length of a table.
pub fn count(numbers: &[u32]) -> Option<u16>
    ensures { result ≡ (if nat_eq (length numbers.now) 1 && nat_lt (slice_index numbers.now 0) 65536 then Some (slice_index numbers.now 0) else None) }
{
    let [count] = exactly::<1>(numbers)?;
    u16::try_from(count).ok()
}
