// Numbers in rows of bytes, the lowest byte first.
ghost use Rattle.std.specs.Prelude.{◌≡◌, ◌+◌, ◌-◌, ◌≤◌, length, drop, slice_index};
ghost use Rattle.value.specs.Numbers.{number_at, part, put_at};
ghost use Rattle.value.specs.Padded.{padded as padded_to};

// The row from a place on.
pub fn rest<T>(row: &[T], at: usize) -> &[T]
    ensures is { result.now ≡ drop at row.now }
    ensures len { length result.now ≡ length row.now - at }
{
    &row[at.min(row.len())..]
}

// The byte at a place, or 0 past the end.
pub fn byte(row: &[u8], at: usize) -> u8
    ensures { result ≡ slice_index row.now at }
{
    row.get(at).copied().unwrap_or(0)
}

// The first N bytes; past the end they count as 0.
pub fn padded<const N: usize>(row: &[u8]) -> [u8; N]
    ensures { result ≡ padded_to N row.now }
{
    let mut bytes = [0; N];
    let len = N.min(row.len());
    bytes[..len].copy_from_slice(&row[..len]);
    bytes
}

// Three of a line each, since `from_le_bytes` is a function of each type: a trait over them is no plainer.
// The number in the two bytes at a place; past the end bytes count as 0.
pub fn read_u16(row: &[u8], at: usize) -> u16
    ensures { result ≡ number_at 2 at row.now }
{
    u16::from_le_bytes(padded(rest(row, at)))
}

// The number in the four bytes at a place; past the end bytes count as 0.
pub fn read_u32(row: &[u8], at: usize) -> u32
    ensures { result ≡ number_at 4 at row.now }
{
    u32::from_le_bytes(padded(rest(row, at)))
}

// The number in the eight bytes at a place; past the end bytes count as 0.
pub fn read_u64(row: &[u8], at: usize) -> u64
    ensures { result ≡ number_at 8 at row.now }
{
    u64::from_le_bytes(padded(rest(row, at)))
}

// The bytes at a place, as many as asked for or as there are.
pub fn part_of(row: &[u8], at: usize, len: usize) -> &[u8]
    ensures { result.now ≡ part at len row.now }
{
    let from = rest(row, at);
    &from[..len.min(from.len())]
}

// Writes bytes over those at a place.
pub fn put(row: &mut [u8], at: usize, bytes: &[u8])
    requires { at + length bytes.now ≤ length row.old }
    ensures { row.new ≡ put_at at bytes.now row.old }
{
    row[at..at + bytes.len()].copy_from_slice(bytes);
}
