//! The whole picture.

ghost use Rattle.std.specs.Prelude.{◌≡◌, IfOk};
ghost use Rattle.transcript_view.specs.Picture.{picture_of};

use crate::edges::put_edges;
use crate::nodes::put_nodes;
use reply_checker::Judge;
use rule_machine::{RuleSet, Want};
use std::alloc::Global;

/// The picture of the judge's state under these rules, as a Graphviz graph.
///
/// Fails only if memory runs out. Looks at the neighbours of each node; takes some fifty bytes a node and
/// thirty an edge.
pub fn picture(alloc: Global, judge: &Judge, rules: RuleSet) -> Result<Vec<u8>, Want>
    ensures { IfOk result (λ text. text.items ≡ picture_of rules judge.now) }
{
    let net = judge.net();
    let mut out = Vec::new(alloc);
    out.extend_from_slice(b"graph matching {\n")?;
    put_nodes(&mut out, net, rules)?;
    put_edges(&mut out, net)?;
    out.extend_from_slice(b"}\n")?;
    Ok(out)
}
