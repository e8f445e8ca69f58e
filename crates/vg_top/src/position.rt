ghost use Rattle.std.specs.Prelude.{◌≡◌, ◌<◌, ◌^◌, length};
ghost use Rattle.vg_top.specs.Position;

/// The line and the column of the byte at an offset of a text, both from 1. Columns are counted in bytes.
pub(crate) fn position(text: &[u8], at: usize) -> (u64, u64)
    requires { length text.now < 2 ^ 32 }
    ensures { result ≡ Position.position text.now at }
{
    let mut line: u64 = 1;
    let mut column: u64 = 1;
    let mut left = at;
    let mut rest = text;
    while left > 0 {
        let Some((byte, others)) = rest.split_first() else {
            return (line, column);
        };
        if *byte == b'\n' {
            line += 1;
            column = 1;
        } else {
            column += 1;
        }
        rest = others;
        left -= 1;
    }
    (line, column)
}
