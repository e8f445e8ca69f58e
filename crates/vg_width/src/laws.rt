ghost use Rattle.vg_ast.specs.declared.desc.Desc.{Desc};
ghost use Rattle.vg_rule.specs.Breach.{OneAnswer};
ghost use Rattle.vg_rule.specs.Order.{check_order};
ghost use Rattle.vg_width.specs.Rules.{places_of};

/// A law: a description keeps all these rules, or breaks one first at one place, and only one of these holds.
pub fn one_answer()
    ensures { (d : Desc) → OneAnswer (places_of d) check_order }
{}
