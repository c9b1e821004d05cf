// Questions 5 and 6 on an image's header, in constant time. What a question cannot go on with is asked first: D's
// formula is worked out only where K and N are in range.
#![tactic(auto)]

ghost use Rattle.std.specs.Prelude.{◌≡◌, ◌≤◌, length};
ghost use Rattle.spec_file.specs.Limits.{header_size};
ghost use Rattle.spec_file.specs.Questions.{version_known, header_sound};
ghost use Rattle.header_questions.specs.Ranges.{ranges_sound};

use bytes_words::fields::read_u32;
use bytes_words::limits::{
    DATA_FIELD, FIRST_FIELD, FREE_FIELD, KEY_FIELD, LAST_FIELD, MAGIC, MAGIC_FIELD, MOST_CHARACTER,
    OLDEST_VERSION, POINTS_FIELD, SCRAMBLE_FIELD, SCRAMBLE_OFFSET, SLOTS_FIELD, TABLE_FIELD,
    TABLE_OFFSET, VERSION, VERSION_WORD, WIDE_VERSION,
};
use header_sizes::{data_start, key_allowed, table_allowed};

// Question 5, of eight bytes as two numbers: from 1.0.0 to 1.0.2.
pub fn version_known(image: &[u8]) -> bool
    requires { 8 ≤ length image.now }
    ensures { result ≡ version_known image.now }
{
    if read_u32(image, MAGIC_FIELD) != MAGIC {
        return false;
    }
    let version = read_u32(image, VERSION_WORD);
    if (OLDEST_VERSION <= version) & (version <= VERSION) {
        return true;
    }
    version == WIDE_VERSION
}

// Question 6 up to the offsets: the fields that are compared with each other or with a fixed number.
fn ranges_sound(image: &[u8]) -> bool
    requires { header_size ≤ length image.now }
    ensures { result ≡ ranges_sound image.now }
{
    let key = read_u32(image, KEY_FIELD);
    let slots = read_u32(image, SLOTS_FIELD);
    let points = read_u32(image, POINTS_FIELD);
    let first = read_u32(image, FIRST_FIELD);
    let last = read_u32(image, LAST_FIELD);
    let scramble = read_u32(image, SCRAMBLE_FIELD);
    let table = read_u32(image, TABLE_FIELD);
    key_allowed(key)
        & table_allowed(slots)
        & (points <= slots)
        & ((first <= last) & (last <= MOST_CHARACTER))
        & ((scramble == SCRAMBLE_OFFSET) & (table == TABLE_OFFSET))
}

// Question 6.
pub fn header_sound(image: &[u8]) -> bool
    requires { header_size ≤ length image.now }
    ensures { result ≡ header_sound image.now }
{
    if !ranges_sound(image) {
        return false;
    }
    let key = read_u32(image, KEY_FIELD) as usize;
    let slots = read_u32(image, SLOTS_FIELD) as usize;
    let area = read_u32(image, DATA_FIELD) as usize;
    let free = read_u32(image, FREE_FIELD) as usize;
    (area == data_start(key, slots)) & ((area <= free) & (free <= image.len()))
}
