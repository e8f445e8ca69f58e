//! What numbers outside of statements are.

ghost use Rattle.std.specs.Prelude.{◌≡◌};
ghost use Rattle.vg_type.specs.Setting.{setting_in};
ghost use Rattle.vg_declare.specs.AbiRole.{number_of as number_written};

use vg_ast::Expr;
use vg_inline::worth_of;
use vg_tree::value_or;
use vg_type::Setting;

/// What an expression outside of all inner names is worth.
pub(crate) fn number_of(e: &Expr, setting: &Setting) -> u128
    ensures { result ≡ number_written (setting_in setting.now.context.now) e.now }
{
    value_or(worth_of(e, setting.context))
}
