//! The lines of edges.

ghost use Rattle.std.specs.Prelude.{◌≡◌, ◌++◌, ◌∷◌, [], OnOk, filter, nat_lt};
ghost use Rattle.std.specs.List.{flat_map};
ghost use Rattle.rule_machine.specs.Network.{names, present};
ghost use Rattle.transcript_view.specs.Picture.{edge_line, edge_lines_at, style_text};

use crate::words::put_name;
use net_state::NetState;
use rule_machine::{Node, Want};

// `forward`: the lower end points at the higher; `back`: the higher at the lower.
fn put_style(out: &mut Vec<u8>, forward: bool, back: bool) -> Result<(), Want>
    ensures { OnOk result (out.new.items ≡ out.old.items ++ style_text forward back) }
{
    match (forward, back) {
        (true, true) => out.extend_from_slice(b" [style=bold]"),
        (true, false) => out.extend_from_slice(b" [dir=forward]"),
        (false, true) => out.extend_from_slice(b" [dir=back]"),
        (false, false) => Ok(()),
    }
}

fn put_edge(out: &mut Vec<u8>, net: &NetState, a: Node, b: Node) -> Result<(), Want>
    ensures { OnOk result (out.new.items ≡ out.old.items ++ edge_line net.now.state a b) }
{
    put_name(out, a)?;
    out.extend_from_slice(b" -- ")?;
    put_name(out, b)?;
    put_style(out, net.points(a, b), net.points(b, a))?;
    out.extend_from_slice(b";\n")
}

// Writes a line for each edge from `v` to a higher node of the row.
fn put_edges_to(out: &mut Vec<u8>, net: &NetState, v: Node, row: &[Node]) -> Result<(), Want>
    ensures { OnOk result (out.new.items ≡ out.old.items ++ flat_map (edge_line net.now.state v) (filter (nat_lt v) row.now)) }
{
    for &w in row {
        if v < w {
            put_edge(out, net, v, w)?;
        }
    }
    Ok(())
}

#[tactic(auto, using(crate::proofs::Names::drawn, crate::proofs::Names::left_out))]
fn put_edges_if_present(out: &mut Vec<u8>, net: &NetState, v: Node) -> Result<(), Want>
    ensures { OnOk result (out.new.items ≡ out.old.items
        ++ flat_map (edge_lines_at net.now.state) (filter (present net.now.state.network) (v ∷ []))) }
{
    if net.has(v) {
        return put_edges_to(out, net, v, net.neighbours(v));
    }
    Ok(())
}

pub(crate) fn put_edges(out: &mut Vec<u8>, net: &NetState) -> Result<(), Want>
    ensures { OnOk result (out.new.items ≡ out.old.items ++ flat_map (edge_lines_at net.now.state) (names net.now.state.network)) }
{
    for name in 1..net.capacity() + 1 {
        let v = Node::new(name).unwrap();
        put_edges_if_present(out, net, v)?;
    }
    Ok(())
}
