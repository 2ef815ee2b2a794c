//! What is said of a text that is a scenario.

ghost use Rattle.std.specs.Prelude.{◌≡◌};
ghost use Rattle.fault_text.specs.Counts.{counts_text};

use cs_types::Scenario;
use scenario_text::Line;

/// What the scenario has: how many siblings, tasks, teach lines and steps.
pub fn counts_line(scenario: &Scenario) -> Line
    ensures { result ≡ counts_text scenario.now }
{
    let mut said = Line::new();
    said.text("a scenario: siblings ");
    said.number(scenario.siblings);
    said.text(", tasks ");
    said.number(scenario.tasks.items().len());
    said.text(", teach lines ");
    said.number(scenario.teaches.items().len());
    said.text(", steps ");
    said.number(scenario.steps.items().len());
    said.text("\n");
    said
}
