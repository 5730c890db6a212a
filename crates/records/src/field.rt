// Fields of a record: numbers of two and of four bytes, high byte first, and the mark that a record begins with.
ghost use Rattle.std.specs.Prelude.{◌≡◌, ◌+◌, ◌≤◌, length};
ghost use Rattle.records.specs.Fields.{number16, number32, begins};

// The number of the two bytes from `at` on.
pub fn u16_at(bytes: &[u8], at: usize) -> u16
    requires { at + 2 ≤ length bytes.now }
    ensures { result ≡ number16 bytes.now at }
{
    u16::from_be_bytes([bytes[at], bytes[at + 1]])
}

// The number of the four bytes from `at` on.
pub fn u32_at(bytes: &[u8], at: usize) -> u32
    requires { at + 4 ≤ length bytes.now }
    ensures { result ≡ number32 bytes.now at }
{
    u32::from_be_bytes([bytes[at], bytes[at + 1], bytes[at + 2], bytes[at + 3]])
}

// Whether the bytes begin with a whole record of this mark and width.
pub fn begins_with(bytes: &[u8], mark: u16, width: usize) -> bool
    requires { 2 ≤ width }
    ensures { result ≡ begins mark width bytes.now }
{
    width <= bytes.len() && u16_at(bytes, 0) == mark
}
