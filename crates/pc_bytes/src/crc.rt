//! CRC-32C of bytes, eight bytes a step.

ghost use Rattle.std.specs.Prelude.{◌≡◌, length};
ghost use Rattle.pc_bytes.specs.Crc.{with_bits, with_bytes, crc32c_of};

mod tables;

// How many bytes a step takes.
const BLOCK: usize = 8;

// The byte after 8 zero bits.
#[inline(always)]
fn after_8(byte: u8) -> u32
    ensures { result ≡ with_bits 8 byte 0 }
{
    tables::AFTER_8[byte as usize]
}

// The byte after 16 zero bits.
#[inline(always)]
fn after_16(byte: u8) -> u32
    ensures { result ≡ with_bits 16 byte 0 }
{
    tables::AFTER_16[byte as usize]
}

// The byte after 24 zero bits.
#[inline(always)]
fn after_24(byte: u8) -> u32
    ensures { result ≡ with_bits 24 byte 0 }
{
    tables::AFTER_24[byte as usize]
}

// The byte after 32 zero bits.
#[inline(always)]
fn after_32(byte: u8) -> u32
    ensures { result ≡ with_bits 32 byte 0 }
{
    tables::AFTER_32[byte as usize]
}

// The byte after 40 zero bits.
#[inline(always)]
fn after_40(byte: u8) -> u32
    ensures { result ≡ with_bits 40 byte 0 }
{
    tables::AFTER_40[byte as usize]
}

// The byte after 48 zero bits.
#[inline(always)]
fn after_48(byte: u8) -> u32
    ensures { result ≡ with_bits 48 byte 0 }
{
    tables::AFTER_48[byte as usize]
}

// The byte after 56 zero bits.
#[inline(always)]
fn after_56(byte: u8) -> u32
    ensures { result ≡ with_bits 56 byte 0 }
{
    tables::AFTER_56[byte as usize]
}

// The byte after 64 zero bits.
#[inline(always)]
fn after_64(byte: u8) -> u32
    ensures { result ≡ with_bits 64 byte 0 }
{
    tables::AFTER_64[byte as usize]
}

// The register after one more byte.
fn with_byte(register: u32, byte: u8) -> u32
    ensures { result ≡ with_bits 8 register byte }
{
    let [low, _, _, _] = register.to_le_bytes();
    (register >> 8) ^ after_8(low ^ byte)
}

// The register after eight more bytes. Each byte of the register meets one of the block.
fn with_block(register: u32, block: &[u8]) -> u32
    requires { length block.now ≡ 8 }
    ensures { result ≡ with_bytes register block.now }
{
    let [a, b, c, d] = register.to_le_bytes();
    let last = after_8(block[7]) ^ after_16(block[6]) ^ after_24(block[5]) ^ after_32(block[4]);
    last ^ after_40(d ^ block[3])
        ^ after_48(c ^ block[2])
        ^ after_56(b ^ block[1])
        ^ after_64(a ^ block[0])
}

// The register after the last bytes.
fn with_tail(mut register: u32, bytes: &[u8]) -> u32
    ensures { result ≡ with_bytes register bytes.now }
{
    for byte in bytes {
        register = with_byte(register, *byte);
    }
    register
}

/// The CRC-32C of `bytes` (RFC 3720, appendix B.4): the reflected polynomial 82F63B78, the initial
/// value FFFFFFFF and the final exclusive-or FFFFFFFF.
pub fn crc32c(bytes: &[u8]) -> u32
    ensures { result ≡ crc32c_of bytes.now }
{
    let mut register = u32::MAX;
    let mut rest = bytes;
    while rest.len() >= BLOCK {
        let (block, after) = rest.split_at(BLOCK);
        register = with_block(register, block);
        rest = after;
    }
    with_tail(register, rest) ^ u32::MAX
}
