//! What stands at the front of a text.

ghost use Rattle.std.specs.Prelude.{◌≡◌, ◌≤◌, ◌<◌, ◌+◌, ◌==◌, not, length};
ghost use Rattle.std.specs.List.{prefix_len};
ghost use Rattle.std.specs.Char.{is_ascii_digit};
ghost use Rattle.vg_irlex.specs.Lexing.{is_white, may_start_name, may_continue_name, is_run_byte};
ghost use Rattle.vg_irlex.specs.Front.{begins_with, quoted_len, bare_name_len, behind_quote, behind_c, lexeme_len, front_of};

/// What stands at the front of a text, and how many bytes it has.
#[derive(Clone, Copy, Debug)]
pub(crate) enum Front {
    /// White space or a comment.
    Gap(usize),
    Lexeme(usize),
}

fn is_white(byte: u8) -> bool
    ensures { result ≡ is_white byte }
{
    byte == b' ' || byte == b'\t' || byte == b'\r' || byte == b'\n'
}

fn may_start_name(byte: u8) -> bool
    ensures { result ≡ may_start_name byte }
{
    byte.is_ascii_alphabetic() || byte == b'-' || byte == b'$' || byte == b'.' || byte == b'_'
}

fn may_continue_name(byte: u8) -> bool
    ensures { result ≡ may_continue_name byte }
{
    may_start_name(byte) || byte.is_ascii_digit()
}

fn is_run_byte(byte: u8) -> bool
    ensures { result ≡ is_run_byte byte }
{
    may_continue_name(byte) || byte == b'#'
}

fn begins_with(byte: u8, text: &[u8]) -> bool
    ensures { result ≡ begins_with byte text.now }
{
    match text.first() {
        Some(first) => *first == byte,
        None => false,
    }
}

fn run_len(text: &[u8]) -> usize
    ensures len { result ≡ prefix_len is_run_byte text.now }
    ensures within { result ≤ length text.now }
{
    text.iter().take_while(|byte| is_run_byte(**byte)).count()
}

fn name_len(text: &[u8]) -> usize
    ensures len { result ≡ prefix_len may_continue_name text.now }
    ensures within { result ≤ length text.now }
{
    text.iter()
        .take_while(|byte| may_continue_name(**byte))
        .count()
}

fn digits_len(text: &[u8]) -> usize
    ensures len { result ≡ prefix_len is_ascii_digit text.now }
    ensures within { result ≤ length text.now }
{
    text.iter().take_while(|byte| byte.is_ascii_digit()).count()
}

fn line_len(text: &[u8]) -> usize
    ensures len { result ≡ prefix_len (λ c. not (c == 10)) text.now }
    ensures within { result ≤ length text.now }
{
    text.iter().take_while(|byte| **byte != b'\n').count()
}

fn unquoted_len(text: &[u8]) -> usize
    ensures len { result ≡ prefix_len (λ c. not (c == 34)) text.now }
    ensures within { result ≤ length text.now }
{
    text.iter().take_while(|byte| **byte != b'"').count()
}

/// The length of a quoted text whose opening quote stands before this text, and 0 where no quote ends it.
#[tactic(auto, unfolding(crate::specs::Front::quoted_len))]
fn quoted_len(text: &[u8]) -> usize
    ensures len { result ≡ quoted_len text.now }
    ensures within { result ≤ length text.now + 1 }
{
    let len = unquoted_len(text);
    if len < text.len() { len + 2 } else { 0 }
}

/// How many bytes of this text belong to a name whose `%` or `@` stands before it.
#[tactic(auto, unfolding(crate::specs::Front::bare_name_len))]
fn bare_name_len(text: &[u8]) -> usize
    ensures len { result ≡ bare_name_len text.now }
    ensures within { result ≤ length text.now }
{
    let Some((first, rest)) = text.split_first() else {
        return 0;
    };
    if may_start_name(*first) {
        return name_len(rest) + 1;
    }
    if first.is_ascii_digit() {
        return digits_len(rest) + 1;
    }
    if *first == b'"' { quoted_len(rest) } else { 0 }
}

/// The length of a lexeme that begins with a quote and goes on with this text.
#[tactic(auto, unfolding(crate::specs::Front::behind_quote))]
fn behind_quote(text: &[u8]) -> usize
    ensures len { result ≡ behind_quote text.now }
    ensures within { result ≤ length text.now + 1 }
{
    let len = quoted_len(text);
    if 0 < len { len } else { 1 }
}

/// The length of a lexeme that begins with a `c` and goes on with this text.
#[tactic(auto, unfolding(crate::specs::Front::behind_c))]
fn behind_c(text: &[u8]) -> usize
    ensures len { result ≡ behind_c text.now }
    ensures within { result ≤ length text.now + 1 }
{
    if begins_with(b'"', text) {
        let len = quoted_len(&text[1..]);
        if 0 < len {
            return len + 1;
        }
    }
    run_len(text) + 1
}

/// The length of a lexeme that begins with this byte and goes on with this text.
#[tactic(auto, unfolding(crate::specs::Front::lexeme_len))]
fn lexeme_len(byte: u8, text: &[u8]) -> usize
    ensures len { result ≡ lexeme_len byte text.now }
    ensures within { result ≤ length text.now + 1 }
{
    if byte == b'%' || byte == b'@' {
        return bare_name_len(text) + 1;
    }
    if byte == b'"' {
        return behind_quote(text);
    }
    if byte == b'c' {
        return behind_c(text);
    }
    if is_run_byte(byte) {
        run_len(text) + 1
    } else {
        1
    }
}

/// What stands at the front of a text that begins with this byte and goes on with this text.
#[tactic(auto, unfolding(crate::specs::Front::front_of))]
pub(crate) fn front_of(byte: u8, text: &[u8]) -> Front
    ensures { result ≡ front_of byte text.now }
{
    if is_white(byte) {
        return Front::Gap(1);
    }
    if byte == b';' {
        return Front::Gap(line_len(text) + 1);
    }
    Front::Lexeme(lexeme_len(byte, text))
}
