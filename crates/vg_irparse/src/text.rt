//! What single lexemes are.

ghost use Rattle.std.specs.Prelude.{◌≡◌};
ghost use Rattle.std.specs.List.{list_all};
ghost use Rattle.std.specs.Char.{is_ascii_digit};
ghost use Rattle.vg_irlex.specs.Lexing.{may_start_name, may_continue_name, ends_quote, is_quoted, is_word_name, are_digits, is_bare_name};
ghost use Rattle.vg_irparse.specs.Text.{is_local, is_global, is_number};

fn may_start_name(byte: u8) -> bool
    ensures { result ≡ may_start_name byte }
{
    byte.is_ascii_alphabetic() || byte == b'-' || byte == b'$' || byte == b'.' || byte == b'_'
}

fn may_continue_name(byte: u8) -> bool
    ensures { result ≡ may_continue_name byte }
{
    may_start_name(byte) || byte.is_ascii_digit()
}

fn all_of_name(text: &[u8]) -> bool
    ensures { result ≡ list_all may_continue_name text.now }
{
    text.iter().all(|byte| may_continue_name(*byte))
}

fn all_digits(text: &[u8]) -> bool
    ensures { result ≡ list_all is_ascii_digit text.now }
{
    text.iter().all(|byte| byte.is_ascii_digit())
}

/// A word that is a name.
pub fn is_word_name(text: &[u8]) -> bool
    ensures { result ≡ is_word_name text.now }
{
    match text.split_first() {
        Some((first, rest)) => may_start_name(*first) && all_of_name(rest),
        None => false,
    }
}

/// One or more digits.
pub fn are_digits(text: &[u8]) -> bool
    ensures { result ≡ are_digits text.now }
{
    match text.split_first() {
        Some((first, rest)) => first.is_ascii_digit() && all_digits(rest),
        None => false,
    }
}

/// Whether the first quote of a text is its last byte.
#[tactic(auto, using(crate::proofs::Steps::quote_steps))]
fn ends_quote(text: &[u8]) -> bool
    ensures { result ≡ ends_quote text.now }
{
    for (i, byte) in text.iter().enumerate() {
        if *byte == b'"' {
            return i + 1 == text.len();
        }
    }
    false
}

/// A quoted text.
pub fn is_quoted(text: &[u8]) -> bool
    ensures { result ≡ is_quoted text.now }
{
    match text.split_first() {
        Some((first, rest)) => *first == b'"' && ends_quote(rest),
        None => false,
    }
}

/// A name without its `%` or `@`.
pub fn is_bare_name(text: &[u8]) -> bool
    ensures { result ≡ is_bare_name text.now }
{
    is_word_name(text) || are_digits(text) || is_quoted(text)
}

/// A `%` and a name.
pub fn is_local(text: &[u8]) -> bool
    ensures { result ≡ is_local text.now }
{
    match text.split_first() {
        Some((first, rest)) => *first == b'%' && is_bare_name(rest),
        None => false,
    }
}

/// A `@` and a name.
pub fn is_global(text: &[u8]) -> bool
    ensures { result ≡ is_global text.now }
{
    match text.split_first() {
        Some((first, rest)) => *first == b'@' && is_bare_name(rest),
        None => false,
    }
}

/// Digits, with a `-` before them or alone.
pub fn is_number(text: &[u8]) -> bool
    ensures { result ≡ is_number text.now }
{
    match text.split_first() {
        Some((first, rest)) => {
            if *first == b'-' {
                are_digits(rest)
            } else {
                are_digits(text)
            }
        }
        None => false,
    }
}
