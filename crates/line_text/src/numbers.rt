//! Numbers and names, appended to a text.

ghost use Rattle.std.specs.Prelude.{◌≡◌, ◌<◌, [], ◌∷◌, ◌++◌, IfSome, OnOk, OnErr};
ghost use Rattle.line_text.specs.Words.{number_text, IsName};
ghost use Rattle.line_text.specs.EventText.{target_text};

use crate::room::{TOO_LONG, WINDOW, put_digits};
use itoa::Buffer;
use rule_machine::{Node, Want};

fn put_longest(out: &mut Vec<u8>, number: u32, behind: u8) -> Result<(), Want>
    ensures ok { OnOk result (out.new.items ≡ out.old.items ++ (number_text number ++ behind ∷ [])) }
    ensures err { OnErr result (out.new.items ≡ out.old.items) }
{
    let mut buffer = Buffer::new();
    let digits = buffer.format(number).as_bytes();
    out.reserve(digits.len() + 1)?;
    out.extend_from_slice(digits)?;
    out.push(behind)?;
    Ok(())
}

#[inline(always)]
fn append_digits(out: &mut Vec<u8>, number: u32, behind: u8) -> Result<(), Want>
    requires { number < 1000000 }
    ensures ok { OnOk result (out.new.items ≡ out.old.items ++ (number_text number ++ behind ∷ [])) }
    ensures err { OnErr result (out.new.items ≡ out.old.items) }
{
    let at = out.len();
    out.extend_from_slice(&[0; WINDOW])?;
    let end = put_digits(out.as_mut_slice(), at, number, behind);
    out.truncate(end);
    Ok(())
}

// Not inlined: a long number and a lack of room are rare, so the common path saves no registers for
// this call.
#[cold]
#[inline(never)]
fn put_rare(out: &mut Vec<u8>, number: u32, behind: u8) -> Result<(), Want>
    ensures ok { OnOk result (out.new.items ≡ out.old.items ++ (number_text number ++ behind ∷ [])) }
    ensures err { OnErr result (out.new.items ≡ out.old.items) }
{
    if number >= TOO_LONG {
        return put_longest(out, number, behind);
    }
    append_digits(out, number, behind)
}

/// Appends a number in decimal and a byte. One check for room.
/// Not inlined, so that the writer of entry numbers is small enough to inline.
#[inline(never)]
pub(crate) fn put_number_then(out: &mut Vec<u8>, number: u32, behind: u8) -> Result<(), Want>
    ensures ok { OnOk result (out.new.items ≡ out.old.items ++ (number_text number ++ behind ∷ [])) }
    ensures err { OnErr result (out.new.items ≡ out.old.items) }
{
    if number >= TOO_LONG || out.capacity() - out.len() < WINDOW {
        return put_rare(out, number, behind);
    }
    append_digits(out, number, behind)
}

pub(crate) fn put_number(out: &mut Vec<u8>, number: u32) -> Result<(), Want>
    ensures ok { OnOk result (out.new.items ≡ out.old.items ++ number_text number) }
    ensures err { OnErr result (out.new.items ≡ out.old.items) }
{
    put_number_then(out, number, b' ')?;
    out.pop();
    Ok(())
}

pub(crate) fn put_name(out: &mut Vec<u8>, node: Node) -> Result<(), Want>
    ensures ok { OnOk result (out.new.items ≡ out.old.items ++ number_text node) }
    ensures err { OnErr result (out.new.items ≡ out.old.items) }
    ensures named { IsName node }
{
    put_number(out, node.name())
}

pub(crate) fn put_name_then(out: &mut Vec<u8>, node: Node, behind: u8) -> Result<(), Want>
    ensures ok { OnOk result (out.new.items ≡ out.old.items ++ (number_text node ++ behind ∷ [])) }
    ensures err { OnErr result (out.new.items ≡ out.old.items) }
    ensures named { IsName node }
{
    put_number_then(out, node.name(), behind)
}

pub(crate) fn put_target(out: &mut Vec<u8>, target: Option<Node>) -> Result<(), Want>
    ensures ok { OnOk result (out.new.items ≡ out.old.items ++ target_text target) }
    ensures err { OnErr result (out.new.items ≡ out.old.items) }
    ensures named { IfSome target IsName }
{
    match target {
        None => out.extend_from_slice(b"-"),
        Some(node) => put_name(out, node),
    }
}
