// The worked cases of the rules, for the clutch catalogue: they follow from the definitions that the contracts cite.
#![tactic(auto)]

ghost use Rattle.clutch.specs.Worked.{Worked};

// Each case of the rules' page holds. The function does nothing.
pub fn worked_cases()
    ensures { Worked }
{}
