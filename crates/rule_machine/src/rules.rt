//! A rule set.

ghost use Rattle.std.specs.Prelude.{◌≡◌, ℕ, Bool, Option, None, Some, IsSome};
ghost use Rattle.std.specs.Result.{result_ok};
ghost use Rattle.rule_machine.specs.declared.act.Act.{Act};
ghost use Rattle.rule_machine.specs.declared.event.Event.{Event};
ghost use Rattle.rule_machine.specs.Refuse.{refusal_of};
ghost use Rattle.rule_machine.specs.State.{State, IsState, pointer};
ghost use Rattle.rule_machine.specs.RuleTable.{RuleTable, rule_at};
ghost use Rattle.rule_machine.specs.LocalViews.{asks_for};
ghost use Rattle.rule_machine.specs.RulesLaws.{RulesLaws};
ghost use Rattle.rule_machine.specs.ChargeInputs.{IsChargeInput};
ghost use Rattle.rule_machine.specs.Target.{target_at};

use crate::{Act, ChargeInput, Event, Local, Node, Touched};
use thiserror::Error;

/// The node's rule does not allow the wished target.
#[derive(Clone, Copy, Debug, PartialEq, Eq, Error)]
#[error("the wish is not an allowed target")]
pub struct BadTarget;

/// A self-stabilising algorithm for maximal matching, with its laws.
pub trait Rules {
    /// The algorithm's definition.
    ghost table: { RuleTable };

    ghost CENTRAL: { Bool };

    ghost FLAGS: { Bool };

    ghost COURTS_HIGHER_ONLY: { Bool };

    ghost NODE_WEIGHT: { ℕ };

    ghost COURTED_PAIR_CLOSES_EDGE: { Bool };

    /// What `closes` returns, on a state.
    ghost closes: { State → ℕ → Bool };

    /// What `node_charge` returns, on a state.
    ghost adds: { State → ℕ → ℕ };

    /// What `cost` returns, on a state.
    ghost cost: { State → Event → ℕ };

    /// The laws of the rule set, which each implementation proves.
    ghost laws: { RulesLaws table CENTRAL FLAGS COURTS_HIGHER_ONLY NODE_WEIGHT COURTED_PAIR_CLOSES_EDGE closes adds cost };

    /// Whether the daemon is central: one node moves at a time.
    const CENTRAL: bool;

    /// Whether the rules use the married flags.
    const FLAGS: bool;

    /// Whether guards look only for open neighbours with names above the node's.
    const COURTS_HIGHER_ONLY: bool;

    /// How much each node adds to the bound on the charge, at most 3.
    const NODE_WEIGHT: u64;

    /// Whether an edge is closed if both its ends have null pointers and suitors.
    const COURTED_PAIR_CLOSES_EDGE: bool;

    /// Whether a neighbour with this pointer and flag is open to a seduction.
    fn opens(pointer: Option<Node>, flag: bool) -> bool
        ensures { result ≡ table.opens pointer flag };

    /// The rule that is enabled at the node, if any.
    fn guard<L: Local>(local: &L, v: Node) -> Option<Act>
        requires at { L.at local.now ≡ v }
        requires opens { L.opens ≡ table.opens }
        requires state { IsState (L.state local.now) }
        ensures { result ≡ rule_at table (L.state local.now) v };

    /// The target of the node's enabled rule; `None` if the rule takes no target.
    /// Without a wish, the target is the least one that the rule allows.
    /// Error: `BadTarget` if the rule does not allow the wish.
    fn target<L: Local>(local: &L, v: Node, wish: Option<Node>) -> Result<Option<Node>, BadTarget>
        requires at { L.at local.now ≡ v }
        requires opens { L.opens ≡ table.opens }
        requires state { IsState (L.state local.now) }
        requires enabled { IsSome (rule_at table (L.state local.now) v) }
        ensures { result_ok result ≡ target_at table (L.state local.now) v wish };

    /// Whether a node's pointer closes the edge to its target, if the ends leave that edge open.
    fn closes(node: Node, target: &ChargeInput) -> bool
        ensures { (s : State) → IsState s → IsChargeInput s target.now → pointer s node ≡ Some target.now.node → result ≡ closes s node };

    /// How much a node adds to the charge, without the 1 that an unanswered pointer adds.
    fn node_charge(node: &ChargeInput) -> u8
        ensures { (s : State) → IsChargeInput s node.now → result ≡ adds s node.now.node };

    /// The most that an accepted event may add to the charge; 0 for steps and questions.
    /// In both rule sets the cost is a constant up to 4, plus twice some degrees of the touched nodes.
    fn cost<T: Touched>(touched: &T, event: &Event) -> u32
        requires state { IsState (T.state touched.now) }
        requires accepted { refusal_of table (T.state touched.now) event.now ≡ None }
        ensures { result ≡ cost (T.state touched.now) event.now };
}

/// Whether the guard of `v` asks if `w` is open: it asks this of all neighbours, or of those above `v`.
#[inline(always)]
pub fn asks_for<R: Rules>(v: Node, w: Node) -> bool
    ensures { result ≡ asks_for R.COURTS_HIGHER_ONLY v w }
{
    !R::COURTS_HIGHER_ONLY || v < w
}
