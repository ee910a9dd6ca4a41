// Numbers on the command line: only digits, since clap by itself also takes a sign.

ghost use Rattle.std.specs.Prelude.{◌≤◌, IfSome};

fn is_decimal(text: &str) -> bool {
    text.bytes().all(|b| b.is_ascii_digit())
}

/// The number between two limits that a text of digits means.
pub(crate) fn number_in(text: &str, least: u64, most: u64) -> Option<u64>
    ensures { IfSome result (λ number. (least ≤ number) × (number ≤ most)) }
{
    if !is_decimal(text) {
        return None;
    }
    match text.parse::<u64>() {
        Ok(number) if least <= number && number <= most => Some(number),
        _ => None,
    }
}

/// The input word that a text of digits writes; `None` if the text is anything else or the number is too large.
pub(crate) fn word_in(text: &str) -> Option<u32> {
    if !is_decimal(text) {
        return None;
    }
    text.parse().ok()
}
