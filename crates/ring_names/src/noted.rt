//! A hash table from bytes to numbers.

ghost use Rattle.std.specs.Prelude.{◌≡◌, ℕ, List, Some, true, false, length, map, option_map, slice_get, IfSome, IfNone};
ghost use Rattle.std.specs.List.{fold};
ghost use Rattle.ring_names.specs.Noted.{IsNoted, first_place, next_sum, noted_at, sum_of, sum_of_words};

/// An entry: a checksum of bytes, and their number plus 1, or 0 if free.
#[derive(Clone, Copy)]
pub struct Noted {
    sum: u32,
    next: u32,
}

/// A free entry.
pub const FREE: Noted = Noted { sum: 0, next: 0 };

// How many successive places are searched.
const NEAR: usize = 8;

// Adds a word by Fibonacci hashing (Knuth, The Art of Computer Programming, volume 3, section 6.4).
fn next_sum(sum: u64, word: u64) -> u64
    ensures { result ≡ next_sum sum word }
{
    let product = (sum ^ word).wrapping_mul(11_400_714_819_323_198_485);
    product ^ (product >> 32)
}

fn sum_of_few(bytes: &[u8]) -> u64
    ensures { result ≡ fold next_sum 0 bytes.now }
{
    bytes
        .iter()
        .fold(0, |sum, byte| next_sum(sum, u64::from(*byte)))
}

// Sums the whole 8-byte words.
fn sum_of_words(bytes: &[u8]) -> u64
    ensures { result ≡ sum_of_words 0 bytes.now }
{
    let mut sum = 0;
    let mut rest = bytes;
    'words: while let Some((word, more)) = rest.split_first_chunk::<8>() {
        sum = next_sum(sum, u64::from_le_bytes(*word));
        rest = more;
    }
    sum
}

fn sum_of(bytes: &[u8]) -> u32
    ensures { result ≡ sum_of bytes.now }
{
    let sum = match bytes.last_chunk::<8>() {
        Some(last) => next_sum(sum_of_words(bytes), u64::from_le_bytes(*last)),
        None => sum_of_few(bytes),
    };
    (sum >> 32) as u32
}

// A product and a shift are much faster than a division.
fn first_place(places: usize, sum: u32) -> usize
    ensures { result ≡ first_place places sum }
{
    if places > u32::MAX as usize {
        return 0;
    }
    (sum as u64 * places as u64 / 4_294_967_296) as usize
}

fn number_at(table: &[Noted], place: usize, sum: u32) -> Option<usize>
    ensures { result ≡ noted_at table.now place sum }
{
    match table.get(place) {
        Some(noted) if noted.sum == sum && 0 < noted.next => Some(noted.next as usize - 1),
        _ => None,
    }
}

/// Returns the number's bytes.
pub fn bytes_at(list: &[Vec<u8>], number: usize) -> Option<&[u8]>
    ensures { option_map (λ bytes. bytes.now) result ≡ slice_get (map (λ b. b.items) list.now) number }
{
    match list.get(number) {
        Some(bytes) => Some(bytes.as_slice()),
        None => None,
    }
}

fn is_at(list: &[Vec<u8>], number: usize, bytes: &[u8]) -> bool
    ensures yes { result ≡ true → slice_get (map (λ b. b.items) list.now) number ≡ Some bytes.now }
    ensures no { slice_get (map (λ b. b.items) list.now) number ≡ Some bytes.now → result ≡ true }
{
    match bytes_at(list, number) {
        Some(known) => known == bytes,
        None => false,
    }
}

fn found_at(
    table: &[Noted],
    place: usize,
    sum: u32,
    list: &[Vec<u8>],
    bytes: &[u8],
) -> Option<usize>
    ensures found { IfSome result (λ n. slice_get (map (λ b. b.items) list.now) n ≡ Some bytes.now) }
    ensures none { IfNone result
        ((n : ℕ) → noted_at table.now place sum ≡ Some n → slice_get (map (λ b. b.items) list.now) n ≡ Some bytes.now → ⊥) }
{
    let number = number_at(table, place, sum)?;
    if is_at(list, number, bytes) {
        return Some(number);
    }
    None
}

/// Finds the bytes' number in time linear in their length.
pub fn find(table: &[Noted], list: &[Vec<u8>], bytes: &[u8]) -> Option<usize>
    ensures found { IfSome result (λ n. slice_get (map (λ b. b.items) list.now) n ≡ Some bytes.now) }
    ensures none { IfNone result
        ((n : ℕ) → IsNoted table.now bytes.now n → slice_get (map (λ b. b.items) list.now) n ≡ Some bytes.now → ⊥) }
{
    if table.is_empty() {
        return None;
    }
    let sum = sum_of(bytes);
    let first = first_place(table.len(), sum);
    for near in 0..NEAR {
        if let Some(number) = found_at(table, first + near, sum, list, bytes) {
            return Some(number);
        }
    }
    None
}

fn put(table: &mut [Noted], place: usize, noted: Noted) -> bool
    ensures size { length table.new ≡ length table.old }
    ensures put { result ≡ true → slice_get table.new place ≡ Some noted }
    ensures same { result ≡ false → table.new ≡ table.old }
    ensures kept { (at sum n : ℕ) → noted_at table.old at sum ≡ Some n → noted_at table.new at sum ≡ Some n }
{
    if place < table.len() && table[place].next == 0 {
        table[place] = noted;
        return true;
    }
    false
}

/// Whether a place for the bytes' checksum was free; notes their number there.
pub fn note(table: &mut [Noted], bytes: &[u8], number: usize) -> bool
    ensures noted { result ≡ true → IsNoted table.new bytes.now number }
    ensures same { result ≡ false → table.new ≡ table.old }
    ensures kept { (b : List ℕ) (n : ℕ) → IsNoted table.old b n → IsNoted table.new b n }
{
    if table.is_empty() || u32::MAX as usize <= number {
        return false;
    }
    let sum = sum_of(bytes);
    let first = first_place(table.len(), sum);
    let noted = Noted {
        sum,
        next: number as u32 + 1,
    };
    for near in 0..NEAR {
        if put(table, first + near, noted) {
            return true;
        }
    }
    false
}
