// Questions 1 to 3, and 6 of N, on numbers; D by its formula.
#![tactic(auto)]

ghost use Rattle.std.specs.Prelude.{◌≡◌, ◌≤◌, ◌&&◌, nat_le};
ghost use Rattle.spec_file.specs.Image.{data_start};
ghost use Rattle.spec_file.specs.Questions.{size_allowed, key_allowed, slots_allowed};

use bytes_words::limits::{MOST_IMAGE, MOST_KEY, MOST_SLOTS, PAGE, PAGE_ROUND, TABLE_START};

// Question 1, of an image's length.
pub fn size_allowed(len: usize) -> bool
    ensures { result ≡ size_allowed len }
{
    (len % PAGE == 0) & (PAGE <= len) & (len <= MOST_IMAGE)
}

// Question 2.
pub fn key_allowed(k: u32) -> bool
    ensures { result ≡ key_allowed k }
{
    (1 <= k) & (k <= MOST_KEY)
}

// Question 3.
pub fn slots_allowed(n: u32) -> bool
    ensures { result ≡ slots_allowed n }
{
    n <= MOST_SLOTS
}

// Question 6 of N, by one comparison: below 1 the difference wraps.
pub fn table_allowed(n: u32) -> bool
    ensures { result ≡ (nat_le 1 n && slots_allowed n) }
{
    std::num::wrapping_sub_u32(n, 1) < MOST_SLOTS
}

// D, by its formula.
pub fn data_start(key: usize, slots: usize) -> usize
    requires { (key ≤ 32) × (slots ≤ 1048576) }
    ensures { result ≡ data_start key slots }
{
    (TABLE_START + slots * (key + 4) + PAGE_ROUND) / PAGE * PAGE
}
