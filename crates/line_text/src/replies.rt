//! Replies, appended to a text.

ghost use Rattle.std.specs.Prelude.{◌≡◌, [], ◌∷◌, ◌++◌, ◌+◌, ◌≤◌, length, take, OnOk, OnErr};
ghost use Rattle.line_text.specs.ReplyText.{IsCountValue, IsCounts, IsEnabled, IsMoved, IsOrderedPair, IsReply, act_word, counts_text, enabled_text, field_text, move_text, mutual_text, refusal_words, reply_text};
ghost use Rattle.line_text.specs.Words.{Extends};

use crate::numbers::{put_number, put_number_then, put_target};
use crate::room::{put_node, put_window};
use crate::word::{Word, put_joined, put_joined_or};
use rule_machine::{Act, Counts, Edge, Moved, Node, Refusal, Reply, Want};

#[inline(always)]
fn act_window(act: Act) -> [u8; 8]
    ensures { take (length (act_word act)) result ≡ act_word act }
{
    match act {
        Act::Update => *b"update  ",
        Act::Marry => *b"marry   ",
        Act::Seduce => *b"seduce  ",
        Act::Abandon => *b"abandon ",
    }
}

#[inline(always)]
fn act_length(act: Act) -> usize
    ensures { result ≡ length (act_word act) }
{
    match act {
        Act::Update | Act::Seduce => 6,
        Act::Marry => 5,
        Act::Abandon => 7,
    }
}

// Branch-free.
#[inline(always)]
fn put_act(room: &mut [u8], at: usize, act: Act, behind: u8) -> usize
    requires { at + 8 ≤ length room.old }
    ensures text { take result room.new ≡ take at room.old ++ (act_word act ++ behind ∷ []) }
    ensures within { result ≤ at + 8 }
    ensures len { length room.new ≡ length room.old }
{
    let end = put_window(room, at, act_window(act), act_length(act));
    room[end] = behind;
    end + 1
}

fn put_refusal(out: &mut Vec<u8>, refusal: Refusal) -> Result<(), Want>
    ensures ok { OnOk result (out.new.items ≡ out.old.items ++ refusal_words refusal) }
    ensures err { OnErr result (Extends out.old.items out.new.items) }
{
    put_number_then(out, refusal.number(), b' ')?;
    out.extend_from_slice(refusal.text().as_bytes())
}

impl Word for Moved {
    ghost text = { move_text };

    ghost fits = { IsMoved };

    #[inline(always)]
    fn put(&self, room: &mut [u8], at: usize, behind: u8) -> usize {
        let at = put_node(room, at, self.node, b':');
        let Some(target) = self.target else {
            return put_act(room, at, self.act, behind);
        };
        let at = put_act(room, at, self.act, b'>');
        put_node(room, at, target, behind)
    }
}

impl Word for (Node, Act) {
    ghost text = { enabled_text };

    ghost fits = { IsEnabled };

    #[inline(always)]
    fn put(&self, room: &mut [u8], at: usize, behind: u8) -> usize {
        let at = put_node(room, at, self.0, b':');
        put_act(room, at, self.1, behind)
    }
}

impl Word for Edge {
    ghost text = { mutual_text };

    ghost fits = { IsOrderedPair };

    #[inline(always)]
    fn put(&self, room: &mut [u8], at: usize, behind: u8) -> usize {
        let at = put_node(room, at, self.low(), b'-');
        put_node(room, at, self.high(), behind)
    }
}

pub(crate) fn put_field(out: &mut Vec<u8>, name: &[u8], number: u32) -> Result<(), Want>
    ensures ok { OnOk result (out.new.items ≡ out.old.items ++ field_text (name.now, number)) }
    ensures err { OnErr result (Extends out.old.items out.new.items) }
    ensures fit { IsCountValue number }
{
    out.extend_from_slice(name)?;
    put_number(out, number)
}

fn put_counts(out: &mut Vec<u8>, counts: Counts) -> Result<(), Want>
    ensures ok { OnOk result (out.new.items ≡ out.old.items ++ counts_text counts) }
    ensures err { OnErr result (Extends out.old.items out.new.items) }
    ensures fit { OnOk result (IsCounts counts) }
{
    put_field(out, b"nodes=", counts.nodes)?;
    put_field(out, b" edges=", counts.edges)?;
    put_field(out, b" pairs=", counts.pairs)?;
    put_field(out, b" enabled=", counts.enabled)?;
    put_field(out, b" charge=", counts.charge)?;
    put_field(out, b" spent=", counts.spent)
}

pub(crate) fn put_reply(out: &mut Vec<u8>, reply: &Reply) -> Result<(), Want>
    ensures ok { OnOk result (out.new.items ≡ out.old.items ++ reply_text reply.now) }
    ensures err { OnErr result (Extends out.old.items out.new.items) }
    ensures named { OnOk result (IsReply reply.now) }
{
    match reply {
        Reply::Accepted => out.extend_from_slice(b"ok"),
        Reply::Refused(refusal) => {
            out.extend_from_slice(b"refused ")?;
            put_refusal(out, *refusal)
        }
        Reply::Moves(moves) => put_joined(out, moves.as_slice()),
        Reply::Shown(target) => put_target(out, *target),
        Reply::EnabledAre(nodes) => put_joined_or(out, b"none", nodes.as_slice()),
        Reply::Pairs(pairs) => put_joined_or(out, b"none", pairs.as_slice()),
        Reply::Counts(counts) => put_counts(out, *counts),
    }
}
