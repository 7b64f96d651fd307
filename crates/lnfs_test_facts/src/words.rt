//! What words of an edit tell.

/// Bytes that are put into rows.
#[derive(Clone, Copy)]
pub struct Stock<'a> {
    /// So many `a`.
    pub long: &'a [u8],
    /// The digits of the numbers from 0 on, four of each.
    pub digits: &'a [[u8; 4]],
}

/// The digits of a number.
pub fn digits_at<'a>(stock: Stock<'a>, number: usize) -> Option<&'a [u8]> {
    match stock.digits.get(number) {
        Some(digits) => Some(digits.as_slice()),
        None => None,
    }
}

/// The bytes that a word tells: those of a text between `'`; so many `a`, as `x5`; a zero byte, as `zero`; or a byte that is no
/// UTF-8, as `bad`.
fn bytes_in<'a>(stock: Stock<'a>, word: &'a str) -> Option<&'a [u8]> {
    if let Some(quoted) = word.strip_prefix('\'') {
        return Some(quoted.strip_suffix('\'')?.as_bytes());
    }
    if let Some(count) = word.strip_prefix('x') {
        let count = count.parse::<usize>().ok()?;
        return stock.long.get(..count);
    }
    match word {
        "zero" => Some(b"\0"),
        "bad" => Some(b"\xff"),
        _ => None,
    }
}

/// Puts the number of a word into a place, and tells whether it tells one.
pub fn set_u32(place: &mut u32, word: &str) -> bool {
    match word.parse::<u32>() {
        Ok(number) => {
            *place = number;
            true
        }
        Err(_) => false,
    }
}

/// The same of a longer number.
pub fn set_u64(place: &mut u64, word: &str) -> bool {
    match word.parse::<u64>() {
        Ok(number) => {
            *place = number;
            true
        }
        Err(_) => false,
    }
}

/// The same of bytes.
pub fn set_bytes<'a>(place: &mut &'a [u8], stock: Stock<'a>, word: &'a str) -> bool {
    match bytes_in(stock, word) {
        Some(bytes) => {
            *place = bytes;
            true
        }
        None => false,
    }
}
