//! The lines of a base.

ghost use Rattle.std.specs.Prelude.{◌≡◌, ℕ, ◌≤◌, List, [], ◌∷◌, ◌++◌, length, OnOk, OnErr};
ghost use Rattle.line_text.specs.Words.{lines_with_ends, Extends};
ghost use Rattle.line_text.specs.BaseText.{base_head, numbers_line, node_record_text, link_text, base_text};

use crate::entry::whole_or_none;
use crate::numbers::{put_name, put_name_then, put_number, put_target};
use crate::replies::put_field;
use rule_machine::{Base, Edge, NodeRecord, RuleSet, Want};

/// A value that is written as one line.
trait Line {
    // The line's text, without its LF.
    ghost text: { Self → List ℕ };

    fn put_line(&self, out: &mut Vec<u8>) -> Result<(), Want>
        ensures ok { OnOk result (out.new.items ≡ out.old.items ++ text self.now) }
        ensures err { OnErr result (Extends out.old.items out.new.items) };
}

impl Line for NodeRecord {
    ghost text = { node_record_text };

    fn put_line(&self, out: &mut Vec<u8>) -> Result<(), Want> {
        out.extend_from_slice(b"node ")?;
        put_name_then(out, self.node, b' ')?;
        put_target(out, self.target)?;
        out.extend_from_slice(if self.flagged { b" 1" } else { b" 0" })
    }
}

impl Line for Edge {
    ghost text = { link_text };

    fn put_line(&self, out: &mut Vec<u8>) -> Result<(), Want> {
        out.extend_from_slice(b"edge ")?;
        put_name_then(out, self.low(), b' ')?;
        put_name(out, self.high())
    }
}

fn put_lines<L: Line>(out: &mut Vec<u8>, lines: &[L]) -> Result<(), Want>
    ensures ok { OnOk result (out.new.items ≡ out.old.items ++ lines_with_ends L.text lines.now) }
    ensures err { OnErr result (Extends out.old.items out.new.items) }
{
    for line in lines {
        line.put_line(out)?;
        out.push(b'\n')?;
    }
    Ok(())
}

fn put_head(out: &mut Vec<u8>, rules: RuleSet, size: u32) -> Result<(), Want>
    ensures ok { OnOk result (out.new.items ≡ out.old.items ++ (base_head rules size ++ 10 ∷ [])) }
    ensures err { OnErr result (Extends out.old.items out.new.items) }
{
    out.extend_from_slice(b"matching2 ")?;
    out.extend_from_slice(rules.word().as_bytes())?;
    out.push(b' ')?;
    put_number(out, size)?;
    out.extend_from_slice(b"\n")
}

fn put_counts(out: &mut Vec<u8>, base: &Base) -> Result<(), Want>
    requires few_nodes { length base.now.nodes ≤ 65535 }
    requires few_edges { length base.now.edges ≤ 1048576 }
    ensures ok { OnOk result (out.new.items ≡ out.old.items ++ (numbers_line base.now ++ 10 ∷ [])) }
    ensures err { OnErr result (Extends out.old.items out.new.items) }
{
    put_field(out, b"base ", base.number)?;
    put_field(out, b" spent=", base.spent)?;
    put_field(out, b" nodes=", base.nodes.as_slice().len() as u32)?;
    put_field(out, b" edges=", base.edges.as_slice().len() as u32)?;
    out.extend_from_slice(b"\n")
}

fn append_base(out: &mut Vec<u8>, rules: RuleSet, size: u32, base: &Base) -> Result<(), Want>
    requires few_nodes { length base.now.nodes ≤ 65535 }
    requires few_edges { length base.now.edges ≤ 1048576 }
    ensures ok { OnOk result (out.new.items ≡ out.old.items ++ base_text rules size base.now) }
    ensures err { OnErr result (Extends out.old.items out.new.items) }
{
    put_head(out, rules, size)?;
    put_counts(out, base)?;
    put_lines(out, base.nodes.as_slice())?;
    put_lines(out, base.edges.as_slice())
}

/// Appends the lines of a base with `size` names, each line with its LF.
/// The lines have at most some 18 megabytes. If memory runs out, `out` is unchanged.
pub fn put_base(out: &mut Vec<u8>, rules: RuleSet, size: u32, base: &Base) -> Result<(), Want>
    requires few_nodes { length base.now.nodes ≤ 65535 }
    requires few_edges { length base.now.edges ≤ 1048576 }
    ensures ok { OnOk result (out.new.items ≡ out.old.items ++ base_text rules size base.now) }
    ensures err { OnErr result (out.new.items ≡ out.old.items) }
{
    let len = out.len();
    let done = append_base(out, rules, size, base);
    whole_or_none(out, len, done)
}
