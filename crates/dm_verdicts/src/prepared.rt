//! Calls that do nothing, from which each other is made by the fields in which it differs.

ghost use Rattle.std.specs.Prelude.{◌≡◌};
ghost use Rattle.dm_model.specs.Plan.{healing_plan as healing_plan_of, prepared_plan, quiet_plan as quiet_plan_of};

use dm_model::{Answer, Component, Ending, Mark, Opening, Prepared};

/// A call that answers, does nothing and leaves a step in doubt.
pub fn quiet_plan(component: Component, answer: Answer) -> Prepared
    ensures { result ≡ prepared_plan (quiet_plan_of component answer) }
{
    Prepared {
        component,
        heals: false,
        ends: Ending::Nothing,
        payload: None,
        mark: Mark::Nothing,
        opens: Opening::Nothing,
        answer,
    }
}

/// The same, of one that settles a step in doubt first.
pub fn healing_plan(component: Component, answer: Answer) -> Prepared
    ensures { result ≡ prepared_plan (healing_plan_of component answer) }
{
    Prepared {
        heals: true,
        ..quiet_plan(component, answer)
    }
}
