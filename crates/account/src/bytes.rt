// Little-endian numbers of a file.
ghost use Rattle.std.specs.Prelude.{◌+◌, ◌<◌, length, ◌≡◌};
ghost use Rattle.rules.specs.File.{u8_at, u16_at, u24_at, u32_at};

pub fn u8_at(file: &[u8], i: usize) -> u32
    requires { i < length file.now }
    ensures { (result ≡ u8_at file.now i) × (result < 256) }
{
    u32::from(file[i])
}

pub fn u16_at(file: &[u8], i: usize) -> u32
    requires { i + 1 < length file.now }
    ensures { (result ≡ u16_at file.now i) × (result < 65536) }
{
    u32::from(u16::from_le_bytes([file[i], file[i + 1]]))
}

pub fn u24_at(file: &[u8], i: usize) -> u32
    requires { i + 2 < length file.now }
    ensures { result ≡ u24_at file.now i }
{
    u32::from_le_bytes([file[i], file[i + 1], file[i + 2], 0])
}

pub fn u32_at(file: &[u8], i: usize) -> u32
    requires { i + 3 < length file.now }
    ensures { result ≡ u32_at file.now i }
{
    u32::from_le_bytes([file[i], file[i + 1], file[i + 2], file[i + 3]])
}
