//! What whole numbers and widths are, where the rules on types are kept.

ghost use Rattle.std.specs.Prelude.{◌≡◌};
ghost use Rattle.vg_tree.specs.Number.{value_or as value_of, width_or as width_of};

use vg_whole::Worth;

/// A whole number, or 0 where it has no value.
pub fn value_or(worth: Worth) -> u128
    ensures { result ≡ value_of worth }
{
    match worth {
        Worth::Whole(value) => value,
        Worth::NoValue | Worth::Typed => 0,
    }
}

/// A width, or 0 where there is none.
pub fn width_or(width: Option<u128>) -> u128
    ensures { result ≡ width_of width }
{
    width.unwrap_or(0)
}
