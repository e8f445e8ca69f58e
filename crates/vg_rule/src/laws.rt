ghost use Rattle.std.specs.Prelude.{◌≡◌, ◌++◌, ℕ, List};
ghost use Rattle.vg_rule.specs.declared.rule.Rule.{Rule as TheRule};
ghost use Rattle.vg_rule.specs.Breach.{OneAnswer, AreFirst, first_breach, or_later};

/// A law: of any rules, all are kept, or one is broken first at one place, and only one of these holds.
pub fn one_answer()
    ensures { (places : TheRule → List ℕ) (rules : List TheRule) → OneAnswer places rules }
{}

/// A law: `first_breach` is none exactly where all rules are kept, and else exactly the one that is broken first.
pub fn are_first()
    ensures { (places : TheRule → List ℕ) (rules : List TheRule) → AreFirst places rules }
{}

/// A law: of rules that are asked in two steps, the first step's breach counts, and else the second's.
pub fn are_asked_on()
    ensures { (places : TheRule → List ℕ) (rules more : List TheRule)
        → first_breach places (rules ++ more) ≡ or_later (first_breach places rules) (first_breach places more) }
{}
