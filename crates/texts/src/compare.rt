//! Compares numbers by digits.

ghost use Rattle.std.specs.Prelude.{◌≡◌, true, nat_lt, length};
ghost use Rattle.texts.specs.Number.{value_from, is_number};

// Both numbers have equally many digits.
fn is_less_digits(first: &[u8], second: &[u8]) -> bool
    requires { length first.now ≡ length second.now }
    ensures { is_number first.now ≡ true → is_number second.now ≡ true
        → result ≡ nat_lt (value_from 0 first.now) (value_from 0 second.now) }
{
    for i in 0..first.len() {
        if first[i] < second[i] {
            return true;
        }
        if second[i] < first[i] {
            return false;
        }
    }
    false
}

/// Whether the first number, of any length, is less. Neither is parsed.
pub fn is_less(first: &[u8], second: &[u8]) -> bool
    ensures { is_number first.now ≡ true → is_number second.now ≡ true
        → result ≡ nat_lt (value_from 0 first.now) (value_from 0 second.now) }
{
    if first.len() < second.len() {
        return true;
    }
    if second.len() < first.len() {
        return false;
    }
    is_less_digits(first, second)
}
