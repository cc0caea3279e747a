//! Script lines, appended to a text.

ghost use Rattle.std.specs.Prelude.{◌≡◌, ◌++◌, IfSome, OnOk, OnErr};
ghost use Rattle.line_text.specs.Words.{IsName, Extends};
ghost use Rattle.line_text.specs.EventText.{IsEvent, IsItem, event_text, item_text, pair_text, point_text, flag_text};

use crate::numbers::{put_name, put_name_then, put_target};
use crate::room::put_node;
use crate::word::{Word, put_spaced};
use rule_machine::{Event, Item, Node, Want};

fn put_pair(out: &mut Vec<u8>, a: Node, b: Node) -> Result<(), Want>
    ensures ok { OnOk result (out.new.items ≡ out.old.items ++ pair_text a b) }
    ensures err { OnErr result (Extends out.old.items out.new.items) }
    ensures named { OnOk result (IsName a × IsName b) }
{
    put_name_then(out, a, b' ')?;
    put_name(out, b)
}

fn put_point(out: &mut Vec<u8>, node: Node, target: Option<Node>) -> Result<(), Want>
    ensures ok { OnOk result (out.new.items ≡ out.old.items ++ point_text node target) }
    ensures err { OnErr result (Extends out.old.items out.new.items) }
    ensures named { OnOk result (IsName node × IfSome target IsName) }
{
    put_name_then(out, node, b' ')?;
    put_target(out, target)
}

fn put_flag(out: &mut Vec<u8>, node: Node, value: bool) -> Result<(), Want>
    ensures ok { OnOk result (out.new.items ≡ out.old.items ++ flag_text node value) }
    ensures err { OnErr result (Extends out.old.items out.new.items) }
    ensures named { OnOk result (IsName node) }
{
    put_name_then(out, node, b' ')?;
    out.push(if value { b'1' } else { b'0' })?;
    Ok(())
}

impl Word for Item {
    ghost text = { item_text };

    ghost fits = { IsItem };

    #[inline(always)]
    fn put(&self, room: &mut [u8], at: usize, behind: u8) -> usize {
        let Some(wish) = self.wish else {
            return put_node(room, at, self.node, behind);
        };
        let at = put_node(room, at, self.node, b'>');
        put_node(room, at, wish, behind)
    }
}

/// Appends an event's script line, without its LF.
pub(crate) fn put_event(out: &mut Vec<u8>, event: &Event) -> Result<(), Want>
    ensures ok { OnOk result (out.new.items ≡ out.old.items ++ event_text event.now) }
    ensures err { OnErr result (Extends out.old.items out.new.items) }
    ensures named { OnOk result (IsEvent event.now) }
{
    match event {
        Event::Link(a, b) => {
            out.extend_from_slice(b"link ")?;
            put_pair(out, *a, *b)
        }
        Event::Unlink(a, b) => {
            out.extend_from_slice(b"unlink ")?;
            put_pair(out, *a, *b)
        }
        Event::Point(node, target) => {
            out.extend_from_slice(b"point ")?;
            put_point(out, *node, *target)
        }
        Event::Flag(node, value) => {
            out.extend_from_slice(b"flag ")?;
            put_flag(out, *node, *value)
        }
        Event::Join(node) => {
            out.extend_from_slice(b"join ")?;
            put_name(out, *node)
        }
        Event::Leave(node) => {
            out.extend_from_slice(b"leave ")?;
            put_name(out, *node)
        }
        Event::Step(choice) => {
            out.extend_from_slice(b"step")?;
            put_spaced(out, choice.items())
        }
        Event::Show(node) => {
            out.extend_from_slice(b"show ")?;
            put_name(out, *node)
        }
        Event::Enabled => out.extend_from_slice(b"enabled"),
        Event::Matching => out.extend_from_slice(b"matching"),
        Event::Status => out.extend_from_slice(b"status"),
    }
}
