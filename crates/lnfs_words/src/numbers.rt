//! Numbers as words spell them.

ghost use Rattle.std.specs.Prelude.{◌≡◌, ◌^◌, true, nat_lt, Some, None, if◌then◌else◌};
ghost use Rattle.std.specs.Char.{is_ascii_digit};
ghost use Rattle.std.specs.List.{list_all};
ghost use Rattle.std.specs.Str.Parse.{digits_value};
ghost use Rattle.lnfs_words.specs.Numbers.{is_padded, is_plain, number, number_up_to};

fn all_digits(word: &[u8]) -> bool
    ensures { result ≡ list_all is_ascii_digit word.now }
{
    word.iter().all(|b| b.is_ascii_digit())
}

fn is_padded(word: &[u8]) -> bool
    ensures { result ≡ is_padded word.now }
{
    word.len() > 1 && word[0] == b'0'
}

fn is_plain(word: &[u8]) -> bool
    ensures { result ≡ is_plain word.now }
{
    !word.is_empty() && !is_padded(word) && all_digits(word)
}

fn value_of(digits: &[u8]) -> Option<u64>
    requires { list_all is_ascii_digit digits.now ≡ true }
    ensures { result
        ≡ (if nat_lt (digits_value 10 digits.now) (2 ^ 64) then Some (digits_value 10 digits.now)
        else None) }
{
    let mut value: u64 = 0;
    for digit in digits {
        value = value
            .checked_mul(10)?
            .checked_add(u64::from(*digit - b'0'))?;
    }
    Some(value)
}

/// The number that a word spells, decimal and without leading zeros, where it does and the number is at most the given
/// one.
pub fn number_up_to(most: u64, word: &[u8]) -> Option<u64>
    ensures { result ≡ number_up_to most word.now }
{
    if !is_plain(word) {
        return None;
    }
    match value_of(word) {
        Some(value) if value <= most => Some(value),
        _ => None,
    }
}

/// The number of 32 bits that a word spells, decimal and without leading zeros, where it does.
pub fn number(word: &[u8]) -> Option<u32>
    ensures { result ≡ number word.now }
{
    let value = number_up_to(u64::from(u32::MAX), word)?;
    Some(value as u32)
}
