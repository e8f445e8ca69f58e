ghost use Rattle.std.specs.Prelude.{◌≡◌};
ghost use Rattle.vg_irparse.specs.Rows.{rows, texts};
ghost use Rattle.vg_irparse.specs.Words.{entry_of, is_one_of};

/// What a table has under a word.
pub fn entry_of<T: Copy>(table: &[(&[u8], T)], text: &[u8]) -> Option<T>
    ensures { result ≡ entry_of (rows table.now) text.now }
{
    for entry in table {
        if entry.0 == text {
            return Some(entry.1);
        }
    }
    None
}

/// Whether a word is one of a list.
pub fn is_one_of(table: &[&[u8]], text: &[u8]) -> bool
    ensures { result ≡ is_one_of (texts table.now) text.now }
{
    for word in table {
        if *word == text {
            return true;
        }
    }
    false
}
