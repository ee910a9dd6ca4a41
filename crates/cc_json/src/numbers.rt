// Decimals as the program writes them: with no sign but `-`, and with no leading zeros.

use std::str;

// Whether these digits are such a decimal.
fn is_plain(digits: &[u8]) -> bool {
    match digits.split_first() {
        Some((first, rest)) => {
            digits.iter().all(|byte| byte.is_ascii_digit()) && (*first != b'0' || rest.is_empty())
        }
        None => false,
    }
}

/// The number that a decimal means; `None` if the text is not such a decimal.
pub(crate) fn unsigned(text: &[u8]) -> Option<u64> {
    if !is_plain(text) {
        return None;
    }
    str::from_utf8(text).ok()?.parse().ok()
}

/// The 32-bit signed number that a decimal means, which may begin with `-`; `None` if the text is not such a
/// decimal.
pub(crate) fn signed(text: &[u8]) -> Option<i32> {
    let is_number = match text.strip_prefix(b"-") {
        Some(digits) => is_plain(digits) && digits != b"0".as_slice(),
        None => is_plain(text),
    };
    if !is_number {
        return None;
    }
    str::from_utf8(text).ok()?.parse().ok()
}
