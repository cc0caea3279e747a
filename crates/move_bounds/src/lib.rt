//! Bounds on moves and rounds that a rule set has beyond its charge, as two traits of rule sets.
//!
//! `NodeBound` is a bound by the number of nodes alone, which is smaller than that by edges and nodes if there
//! are many edges. The engine promises the smaller of the two (`Net::moves_left`). A rule set without such a
//! bound returns `None`. The trait also has a bound on rounds by the number of nodes (`Net::rounds_left`).
//!
//! `SilentCost` is what one disturbance of a silent network costs. A network is silent if no rule is enabled.
//! Few moves come after one disturbance of it: the laws of `silence_laws` bound these moves by the unmarried
//! neighbours of two nodes. The engine reports the bound (`Net::silent_cost_of`). The trait `Rules` has
//! another bound, `cost`, which is valid in every network, silent or not. `silent_cost` looks at each
//! neighbour of two nodes, whatever the size of the network.
//!
//! ```rust
//! let most = R::most_moves(net.store().nodes());
//! let caused = R::silent_cost(net, &Event::Unlink(a, b));
//! ```
#![tactic(auto)]

mod count;
mod edges;
mod node_bound;
mod silent_cost;

pub use count::{unmarried_neighbours, unmarried_neighbours_but};
pub use edges::{link_cost, unlink_cost};
pub use node_bound::NodeBound;
pub use silent_cost::SilentCost;
