//! The values of JSON that have no quotes.

fn are_digits(text: &str) -> bool {
    !text.is_empty() && text.as_bytes().iter().all(|byte| byte.is_ascii_digit())
}

/// Whether a text is a number in front of its exponent.
fn is_mantissa(text: &str) -> bool {
    let (whole, fraction) = match text.split_once('.') {
        Some((whole, fraction)) => (whole, Some(fraction)),
        None => (text, None),
    };
    let is_whole = are_digits(whole) && (whole == "0" || !whole.starts_with('0'));
    match fraction {
        Some(digits) => is_whole && are_digits(digits),
        None => is_whole,
    }
}

fn is_exponent(text: &str) -> bool {
    match text.strip_prefix('-') {
        Some(digits) => are_digits(digits),
        None => are_digits(text.strip_prefix('+').unwrap_or(text)),
    }
}

fn is_number(text: &str) -> bool {
    let text = text.strip_prefix('-').unwrap_or(text);
    if let Some((mantissa, exponent)) = text.split_once('e') {
        return is_mantissa(mantissa) && is_exponent(exponent);
    }
    if let Some((mantissa, exponent)) = text.split_once('E') {
        return is_mantissa(mantissa) && is_exponent(exponent);
    }
    is_mantissa(text)
}

/// Returns whether bytes are a number, `true`, `false` or `null`.
pub(crate) fn is_word(bytes: &[u8]) -> bool {
    match std::str::from_utf8(bytes) {
        Ok("true" | "false" | "null") => true,
        Ok(text) => is_number(text),
        Err(_) => false,
    }
}

/// Returns what was meant by a word that is no value: a value in another case, or the advice that a
/// text stands in quotes.
pub(crate) fn meant_by(word: &str) -> &'static str {
    if word.eq_ignore_ascii_case("true") {
        return "; did you mean `true`?";
    }
    if word.eq_ignore_ascii_case("false") {
        return "; did you mean `false`?";
    }
    if word.eq_ignore_ascii_case("null") || word.eq_ignore_ascii_case("none") {
        return "; did you mean `null`?";
    }
    match word.as_bytes() {
        [b'0', b'0'..=b'9', ..] => "; a number does not begin with 0",
        [b'0'..=b'9' | b'-' | b'+' | b'.', ..] => "; a text stands in double quotes",
        [b'a'..=b'z' | b'A'..=b'Z' | b'\'' | b'_', ..] => "; a text stands in double quotes",
        _ => "",
    }
}
