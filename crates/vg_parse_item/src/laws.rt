ghost use Rattle.vg_parse_item.specs.Exact.{ItemIsExact, RoleIsExact, MicroItemIsExact, IsaHeadingIsExact, AbiHeadingIsExact, MicroHeadingIsExact, ClosingIsExact};

/// Each piece is read exactly where a tree of the grammar spells it.
pub fn exact()
    ensures item { ItemIsExact }
    ensures role { RoleIsExact }
    ensures micro_item { MicroItemIsExact }
    ensures isa_heading { IsaHeadingIsExact }
    ensures abi_heading { AbiHeadingIsExact }
    ensures micro_heading { MicroHeadingIsExact }
    ensures closing { ClosingIsExact }
{}
