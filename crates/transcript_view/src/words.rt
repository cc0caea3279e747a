//! Writing names and rule words.

ghost use Rattle.std.specs.Prelude.{◌≡◌, ◌++◌, OnOk};
ghost use Rattle.line_text.specs.Words.{number_text};
ghost use Rattle.line_text.specs.ReplyText.{act_word};

use itoa::Buffer;
use rule_machine::{Act, Node, Want};

pub(crate) fn put_number(out: &mut Vec<u8>, number: u64) -> Result<(), Want>
    ensures { OnOk result (out.new.items ≡ out.old.items ++ number_text number) }
{
    let mut digits = Buffer::new();
    out.extend_from_slice(digits.format(number).as_bytes())
}

pub(crate) fn put_name(out: &mut Vec<u8>, node: Node) -> Result<(), Want>
    ensures { OnOk result (out.new.items ≡ out.old.items ++ number_text node) }
{
    put_number(out, u64::from(node.name()))
}

pub(crate) fn put_act(out: &mut Vec<u8>, act: Act) -> Result<(), Want>
    ensures { OnOk result (out.new.items ≡ out.old.items ++ act_word act) }
{
    match act {
        Act::Update => out.extend_from_slice(b"update"),
        Act::Marry => out.extend_from_slice(b"marry"),
        Act::Seduce => out.extend_from_slice(b"seduce"),
        Act::Abandon => out.extend_from_slice(b"abandon"),
    }
}
