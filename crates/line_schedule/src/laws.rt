//! Laws of the lines of a schedule and a script.

ghost use Rattle.std.specs.Prelude.{◌≡◌, List, Some, ℕ};
ghost use Rattle.gl_base.specs.declared.side.Side.{Side};
ghost use Rattle.line_schedule.specs.declared.event.Event.{Event};
ghost use Rattle.line_schedule.specs.declared.script.ScriptStep.{ScriptStep};
ghost use Rattle.line_schedule.specs.Events.{event_in};
ghost use Rattle.line_schedule.specs.Grammar.{IsEventLine, IsPassedOver, IsScriptLine};
ghost use Rattle.line_schedule.specs.Reading.{script_line_in};

/// The functions that compute find what a line means by the grammar, and nothing else. So no line means two things.
pub fn readers_find_the_meaning()
    ensures event { (line : List ℕ) (event : Event) → event_in line ≡ Some event → IsEventLine event line }
    ensures event_again { (line : List ℕ) (event : Event) → IsEventLine event line → event_in line ≡ Some event }
    ensures told { (side : Side) (line : List ℕ) (told : ℕ × ScriptStep) →
        script_line_in side line ≡ Some told → IsScriptLine side told line }
    ensures told_again { (side : Side) (line : List ℕ) (told : ℕ × ScriptStep) →
        IsScriptLine side told line → script_line_in side line ≡ Some told }
    // A line that is passed over tells neither.
    ensures no_event { (line : List ℕ) (event : Event) → IsPassedOver line → IsEventLine event line → ⊥ }
    ensures none_told { (side : Side) (line : List ℕ) (told : ℕ × ScriptStep) →
        IsPassedOver line → IsScriptLine side told line → ⊥ }
{}
