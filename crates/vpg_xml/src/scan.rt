//! Blanks, names, references and characters of a text.
ghost use Rattle.std.specs.Prelude.{◌≡◌, ◌<◌, ◌≤◌, ◌+◌, ◌-◌, ◌==◌, length, take, drop, position, bytes_eq, IfSome};
ghost use Rattle.std.specs.List.{prefix_len, list_all};
ghost use Rattle.std.specs.Char.{is_ascii_digit};
ghost use Rattle.vpg_xml.specs.Tokens.{is_blank, is_allowed, is_name_start, is_name_byte, starts_name, starts_blank, after_gap, name_in, after_name, after_sign, character_numbered, are_digits, number_after, numbered_in, character_of, reference_at, is_plain, character_at};
ghost use Rattle.vpg_xml.specs.View.{text_in, with_rest, same};

pub(crate) fn is_blank(b: u8) -> bool
    ensures { result ≡ is_blank b }
{
    b == b' ' || (b == b'\t' || (b == b'\r' || b == b'\n'))
}

/// Whether a byte may stand in a document.
pub(crate) fn is_allowed(b: u8) -> bool
    ensures { result ≡ is_allowed b }
{
    32 <= b || is_blank(b)
}

fn is_name_start(b: u8) -> bool
    ensures { result ≡ is_name_start b }
{
    b.is_ascii_alphabetic() || (b == b'_' || b == b':')
}

fn is_name_byte(b: u8) -> bool
    ensures { result ≡ is_name_byte b }
{
    is_name_start(b) || (b.is_ascii_digit() || (b == b'-' || b == b'.'))
}

/// Whether a name begins here.
pub(crate) fn starts_name(text: &[u8]) -> bool
    ensures { result ≡ starts_name text.now }
{
    match text {
        [] => false,
        [b, ..] => is_name_start(*b),
    }
}

/// Whether a blank comes next.
pub(crate) fn starts_blank(text: &[u8]) -> bool
    ensures { result ≡ starts_blank text.now }
{
    match text {
        [] => false,
        [b, ..] => is_blank(*b),
    }
}

/// Returns the number of blanks at the front.
fn gap_len(text: &[u8]) -> usize
    ensures len { result ≡ prefix_len is_blank text.now }
    ensures within { result ≤ length text.now }
{
    text.iter().take_while(|b| is_blank(**b)).count()
}

/// Returns the number of bytes of names at the front.
fn name_len(text: &[u8]) -> usize
    ensures len { result ≡ prefix_len is_name_byte text.now }
    ensures within { result ≤ length text.now }
{
    text.iter().take_while(|b| is_name_byte(**b)).count()
}

/// Returns the text after the blanks at its front.
pub(crate) fn after_gap(text: &[u8]) -> &[u8]
    ensures rest { result.now ≡ after_gap text.now }
    ensures within { length result.now ≤ length text.now }
{
    &text[gap_len(text)..]
}

/// Returns the name at the front.
pub(crate) fn name_in(text: &[u8]) -> &[u8]
    ensures { result.now ≡ name_in text.now }
{
    &text[..name_len(text)]
}

/// Returns the text after the name at its front.
pub(crate) fn after_name(text: &[u8]) -> &[u8]
    ensures rest { result.now ≡ after_name text.now }
    ensures within { length result.now ≤ length text.now }
{
    &text[name_len(text)..]
}

/// Returns the text after a byte, if the byte comes next.
pub(crate) fn after_sign(text: &[u8], sign: u8) -> Option<&[u8]>
    ensures rest { text_in result ≡ after_sign sign text.now }
    ensures shorter { IfSome result (λ rest. length rest.now < length text.now) }
{
    match text {
        [] => None,
        [b, rest @ ..] => { if *b == sign { Some(rest) } else { None } }
    }
}

/// Whether two texts are the same.
pub(crate) fn is_same(a: &[u8], b: &[u8]) -> bool
    ensures { result ≡ bytes_eq a.now b.now }
{
    a == b
}

fn has_digits(text: &[u8]) -> bool
    ensures { result ≡ list_all is_ascii_digit text.now }
{
    text.iter().all(|c| c.is_ascii_digit())
}

fn are_digits(text: &[u8]) -> bool
    ensures { result ≡ are_digits text.now }
{
    match text {
        [] => false,
        [b, rest @ ..] => b.is_ascii_digit() && has_digits(rest),
    }
}

fn digit(b: u8) -> u32
    ensures { result ≡ b - 48 }
{
    if b < 48 { 0 } else { u32::from(b - 48) }
}

/// Returns the number that decimal digits write, or 1000 if it is greater.
fn number(digits: &[u8]) -> u32
    ensures { result ≡ number_after 0 digits.now }
{
    let mut value: u32 = 0;
    for b in digits {
        value = (value * 10 + digit(*b)).min(1000);
    }
    value
}

/// Returns the character of a number.
fn character_numbered(n: u32) -> Option<u8>
    ensures { result ≡ character_numbered n }
{
    if n < 128 && is_allowed(n as u8) {
        Some(n as u8)
    } else {
        None
    }
}

/// Returns the character by its number in decimal.
fn numbered_in(text: &[u8]) -> Option<u8>
    ensures { result ≡ numbered_in text.now }
{
    if are_digits(text) {
        character_numbered(number(text))
    } else {
        None
    }
}

/// Returns the character of a reference, by the bytes between `&` and `;`.
fn character_of(name: &[u8]) -> Option<u8>
    ensures { result ≡ character_of name.now }
{
    if is_same(name, b"lt") {
        return Some(b'<');
    }
    if is_same(name, b"gt") {
        return Some(b'>');
    }
    if is_same(name, b"amp") {
        return Some(b'&');
    }
    if is_same(name, b"quot") {
        return Some(b'"');
    }
    if is_same(name, b"apos") {
        return Some(b'\'');
    }
    let Some(number) = after_sign(name, b'#') else {
        return None;
    };
    numbered_in(number)
}

fn semicolon(text: &[u8]) -> Option<usize>
    ensures { result ≡ position (λ b. b == 59) text.now }
{
    text.iter().position(|b| *b == b';')
}

/// Returns the character of a reference, after its `&`, and the text after it.
fn reference(text: &[u8]) -> Option<(u8, &[u8])>
    ensures read { with_rest same result ≡ reference_at text.now }
    ensures shorter { IfSome result (λ c. length c.1.now < length text.now) }
{
    let Some(end) = semicolon(text) else {
        return None;
    };
    let Some(c) = character_of(&text[..end]) else {
        return None;
    };
    Some((c, &text[end + 1..]))
}

/// Returns the character at the front, and the text after it. `end` is a byte that may not stand for itself.
pub(crate) fn character(text: &[u8], end: u8) -> Option<(u8, &[u8])>
    ensures read { with_rest same result ≡ character_at end text.now }
    ensures shorter { IfSome result (λ c. length c.1.now < length text.now) }
{
    match text {
        [] => None,
        [b, rest @ ..] => {
            if *b == b'&' {
                return reference(rest);
            }
            if is_allowed(*b) && !(*b == b'<' || (*b == b'&' || *b == end)) {
                Some((*b, rest))
            } else {
                None
            }
        }
    }
}
