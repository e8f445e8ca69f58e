ghost use Rattle.std.specs.Prelude.{◌≡◌, map, Option, Some, None, length, drop};
ghost use Rattle.vg_tok.specs.Lexing.{same_text, entry_of};
ghost use Rattle.vg_tok.specs.Rows.{rows};

/// Whether these are the characters of an ASCII spelling.
#[tactic(auto, using(crate::proofs::Steps::text_steps))]
fn same_text(spelling: &[u8], text: &[char]) -> bool
    ensures { result ≡ same_text spelling.now text.now }
{
    if spelling.len() != text.len() {
        return false;
    }
    for (i, byte) in spelling.iter().enumerate() {
        if char::from(*byte) != text[i] {
            return false;
        }
    }
    true
}

/// What a table has under a spelling.
pub(crate) fn entry_of<T: Copy>(table: &[(&[u8], T)], text: &[char]) -> Option<T>
    ensures { result ≡ entry_of (rows table.now) text.now }
{
    for entry in table {
        if same_text(entry.0, text) {
            return Some(entry.1);
        }
    }
    None
}
