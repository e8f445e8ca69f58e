//! Frames of instructions.

ghost use Rattle.std.specs.Prelude.{◌≡◌};
ghost use Rattle.vg_tree.specs.Access.{frame_of as frame_by};
ghost use Rattle.vg_type.specs.Setting.{setting_in};
ghost use Rattle.vg_tree.specs.Fields.{sorts_given};
ghost use Rattle.vg_tree.specs.Frame.{frame_in};

use crate::formats::format_number;
use crate::frame::Frame;
use crate::machine::Machine;
use vg_type::Sort;

/// The frame of an instruction in the format of a name, of which this is what the fields are.
pub fn frame_of<'a>(machine: &'a Machine<'a>, name: &'a [char], fields: &'a [Sort]) -> Frame<'a>
    requires { fields.now ≡ sorts_given (setting_in machine.now.setting.now.context.now) name.now }
    ensures { frame_in result ≡ frame_by (setting_in machine.now.setting.now.context.now) name.now }
{
    Frame {
        setting: machine.setting,
        resources: machine.resources.as_slice(),
        memory: machine.memory,
        name,
        format: format_number(name, machine),
        fields,
    }
}
