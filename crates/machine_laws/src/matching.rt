//! Laws of the rule machine's definitions.

ghost use Rattle.std.specs.Prelude.{◌≡◌, ℕ, ◌*◌, ◌≤◌, Bool, List, length, Some, IfSome, IsTrue, All, Contains};
ghost use Rattle.std.specs.FinMap as map;
ghost use Rattle.rule_machine.specs.Base.{base_of};
ghost use Rattle.rule_machine.specs.Network.{Network, present};
ghost use Rattle.machine_laws.specs.HalfMatchings.{IsMatching};
ghost use Rattle.rule_machine.specs.Run.{Moment};
ghost use Rattle.rule_machine.specs.State.{State, IsState, pointer, flag, married};
ghost use Rattle.rule_machine.specs.Stable.{IsStable, IsMaximalMatching, ShareAnEnd, mutual_pairs};

/// The mutual pairs of any state are edges, and no two of them share an end.
#[tactic(auto, using(crate::proofs::MaximalMatchings::pairs_are_edges))]
pub fn mutual_pairs_apart()
    ensures edges { (s : State) → IsState s → All (λ e. IsTrue (map.contains_key s.network.edges e)) (mutual_pairs s) }
    ensures apart { (s : State) (e f : ℕ × ℕ) → Contains (mutual_pairs s) e → Contains (mutual_pairs s) f → ShareAnEnd e f → e ≡ f }
{}

/// In a stable network the mutual pairs are a maximal matching.
#[tactic(auto, using(crate::proofs::MaximalMatchings::maximal_from_stable))]
pub fn stable_is_maximal()
    ensures { (uses_flags : Bool) (s : State) → IsState s → IsStable uses_flags s → IsMaximalMatching s.network (mutual_pairs s) }
{}

/// A network whose mutual pairs are a maximal matching is stable if its registers are consistent.
///
/// Consistent: the target of each pointer points back and, if flags are used, each flag is true exactly if
/// its node is married.
#[tactic(auto, using(crate::proofs::MaximalMatchings::stable_from_maximal))]
pub fn maximal_is_stable()
    ensures { (uses_flags : Bool) (s : State) → IsState s
        → ((v : ℕ) → IfSome (pointer s v) (λ w. pointer s w ≡ Some v))
        → (IsTrue uses_flags → (v : ℕ) → IsTrue (present s.network v) → flag s v ≡ married s v)
        → IsMaximalMatching s.network (mutual_pairs s) → IsStable uses_flags s }
{}

/// A base determines its moment: two moments of the same capacity are equal if their bases are.
pub fn base_tells()
    ensures { (number : ℕ) (m o : Moment) → IsState m.state → IsState o.state
        → m.state.network.size ≡ o.state.network.size → base_of number m ≡ base_of number o → m ≡ o }
{}

/// No matching has more than twice as many edges as a maximal matching.
///
/// So a maximal matching has at least half as many edges as a maximum matching.
pub fn maximal_is_half()
    ensures { (net : Network) (maximal other : List (ℕ × ℕ))
        → IsMaximalMatching net maximal → IsMatching net other → length other ≤ 2 * length maximal }
{}

/// In a stable network there are at least half as many mutual pairs as edges in any matching.
#[tactic(auto, using(crate::proofs::HalfMatchings::stable_is_half))]
pub fn stable_is_half()
    ensures { (uses_flags : Bool) (s : State) → IsState s → IsStable uses_flags s
        → (other : List (ℕ × ℕ)) → IsMatching s.network other → length other ≤ 2 * length (mutual_pairs s) }
{}
