// Arithmetic modulo 2^32, and the lesser of two numbers.
ghost use Rattle.std.specs.Prelude.{◌≡◌, ◌*◌, ◌%◌, ◌^◌, min};
ghost use Rattle.spec_file.specs.Create.{step};

// The product, cut to 32 bits, by 16-bit halves.
pub fn mul_u32(a: u32, b: u32) -> u32
    ensures { result ≡ (a * b) % 2 ^ 32 }
{
    let a0 = a & 0xffff;
    let a1 = a >> 16;
    let b0 = b & 0xffff;
    let b1 = b >> 16;
    let middle = std::num::wrapping_add_u32(a0 * b1, a1 * b0);
    std::num::wrapping_add_u32(a0 * b0, middle << 16)
}

// A step of the generator.
pub fn step(state: u32) -> u32
    ensures { result ≡ step state }
{
    std::num::wrapping_add_u32(mul_u32(state, 1664525), 1013904223)
}

// The lesser of two numbers.
pub fn lesser(a: usize, b: usize) -> usize
    ensures { result ≡ min a b }
{
    if a < b { a } else { b }
}
