//! The lines of nodes.

ghost use Rattle.std.specs.Prelude.{◌≡◌, ◌++◌, ◌∷◌, [], IsTrue, OnOk, filter};
ghost use Rattle.std.specs.List.{flat_map};
ghost use Rattle.rule_machine.specs.Network.{names, present};
ghost use Rattle.rule_machine.specs.Tables.{table_of};
ghost use Rattle.transcript_view.specs.Picture.{fill_text, node_line, rule_text};

use crate::words::{put_act, put_name};
use net_state::NetState;
use reply_checker::rule_at;
use rule_machine::{Act, Node, RuleSet, Want};

fn put_rule(out: &mut Vec<u8>, rule: Option<Act>) -> Result<(), Want>
    ensures { OnOk result (out.new.items ≡ out.old.items ++ rule_text rule) }
{
    if let Some(act) = rule {
        out.extend_from_slice(b"\\n")?;
        put_act(out, act)?;
    }
    Ok(())
}

fn put_fill(out: &mut Vec<u8>, married: bool) -> Result<(), Want>
    ensures { OnOk result (out.new.items ≡ out.old.items ++ fill_text married) }
{
    if married {
        out.extend_from_slice(b", style=filled")?;
    }
    Ok(())
}

fn put_node(out: &mut Vec<u8>, net: &NetState, rules: RuleSet, v: Node) -> Result<(), Want>
    requires { IsTrue (present net.now.state.network v) }
    ensures { OnOk result (out.new.items ≡ out.old.items ++ node_line (table_of rules) net.now.state v) }
{
    put_name(out, v)?;
    out.extend_from_slice(b" [label=\"")?;
    put_name(out, v)?;
    put_rule(out, rule_at(net, rules, v))?;
    out.extend_from_slice(b"\"")?;
    put_fill(out, net.married(v))?;
    out.extend_from_slice(b"];\n")
}

#[tactic(auto, using(crate::proofs::Names::drawn, crate::proofs::Names::left_out))]
fn put_node_if_present(
    out: &mut Vec<u8>,
    net: &NetState,
    rules: RuleSet,
    v: Node,
) -> Result<(), Want>
    ensures { OnOk result (out.new.items ≡ out.old.items
        ++ flat_map (node_line (table_of rules) net.now.state) (filter (present net.now.state.network) (v ∷ []))) }
{
    if net.has(v) {
        return put_node(out, net, rules, v);
    }
    Ok(())
}

pub(crate) fn put_nodes(out: &mut Vec<u8>, net: &NetState, rules: RuleSet) -> Result<(), Want>
    ensures { OnOk result (out.new.items ≡ out.old.items ++ flat_map (node_line (table_of rules) net.now.state) (names net.now.state.network)) }
{
    for name in 1..net.capacity() + 1 {
        let v = Node::new(name).unwrap();
        put_node_if_present(out, net, rules, v)?;
    }
    Ok(())
}
