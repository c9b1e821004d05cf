// Blocks of four and eight bytes, read as one number. The order of its bytes is the machine's own, so that a block is
// one load: such numbers are only compared.
ghost use Rattle.std.specs.Prelude.{◌≡◌, ◌+◌, ◌≤◌, length};
ghost use Rattle.spec_file.specs.Bytes.{part};
ghost use Rattle.bytes_compare.specs.Little.{little};

use bytes_words::fields::read_little;

// Four bytes as a number.
pub(crate) fn four(s: &[u8], at: usize) -> u32
    requires { at + 4 ≤ length s.now }
    ensures { result ≡ little (part s.now at 4) }
{
    read_little(s, at)
}

// Eight bytes as a number.
pub(crate) fn eight(s: &[u8], at: usize) -> u64
    requires { at + 8 ≤ length s.now }
    ensures { result ≡ little (part s.now at 8) }
{
    ((four(s, at + 4) as u64) << 32) | (four(s, at) as u64)
}
