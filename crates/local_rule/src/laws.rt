//! Laws that join a node's own moves with the machine's steps.

ghost use Rattle.std.specs.Prelude.{◌≡◌, ℕ, Some, IsTrue, List, Contains};
ghost use Rattle.rule_machine.specs.declared.act.Moved.{Moved};
ghost use Rattle.rule_machine.specs.declared.choice.Item.{Item};
ghost use Rattle.rule_machine.specs.Base.{node_record_at};
ghost use Rattle.rule_machine.specs.Disturbance.{after_unlink};
ghost use Rattle.rule_machine.specs.Network.{linked};
ghost use Rattle.rule_machine.specs.RuleTable.{RuleTable};
ghost use Rattle.rule_machine.specs.State.{State, IsState};
ghost use Rattle.rule_machine.specs.Step.{IsStep};
ghost use Rattle.rule_machine.specs.Table.{IsTable, AsksForWork};
ghost use Rattle.local_rule.specs.declared.local_move.LocalMove.{LocalMove};
ghost use Rattle.local_rule.specs.Moves.{move_at};
ghost use Rattle.local_rule.specs.Steps.{IsStepOf, IsLocalIn, repaired, records_around};

/// What `local_rule` answers is a step of the machine: the node alone is chosen, makes this move, and has
/// these registers afterwards.
pub fn local_moves_are_steps()
    ensures { (t : RuleTable) (s : State) (v : ℕ) (m : LocalMove) → IsTable t → IsState s → move_at t s v ≡ Some m → IsStepOf t s v m }
{}

/// In a step of any number of nodes, `may_move` allows each move on what its node was shown before the step.
///
/// The node's registers after the step follow from that alone.
pub fn steps_are_local_moves()
    ensures { (t : RuleTable) (s after : State) (choice : List Item) (moves : List Moved) → AsksForWork t → IsState s → IsStep t s choice moves after
        → (m : Moved) → Contains moves m → IsLocalIn t s after m }
{}

/// When an edge goes, the machine does to the node at its end what `repaired` does.
pub fn unlinking_repairs()
    ensures { (s : State) (v w : ℕ) → IsState s → IsTrue (linked s.network v w)
        → node_record_at (after_unlink s v w) v ≡ repaired (node_record_at s v) (records_around (after_unlink s v w) v) }
{}
