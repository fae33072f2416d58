//! Values are taken from a file's tokens, and what isn't wanted is passed over.
ghost use Rattle.std.specs.Prelude.{◌≡◌};
ghost use Rattle.json_fields.specs.Tokens.{Anything, KindIs, Opens, OpensArray, OpensObject, Takes, TakesItems, TakesObject};

use crate::fault::{JsonFault, Read};
use crate::kind::Kind;
use crate::numeral::read_number;
use json::{Reader, Token};

// What the next value is. Of an array and an object the opening bracket alone is taken.
pub(crate) fn open<'a>(reader: &mut Reader<'a>, depth: usize) -> Read<Kind<'a>>
    ensures { Opens depth reader.old reader.new result }
{
    let token = reader.next().ok_or(JsonFault::Json)?;
    match token {
        Token::String(text) => Ok(Kind::Text(text)),
        Token::Number(text) => match read_number(text) {
            Some(number) => Ok(Kind::Number(number)),
            None => Err(JsonFault::Json),
        },
        Token::Bool(_) => Ok(Kind::Other),
        Token::Null => Ok(Kind::Other),
        Token::BeginArray => if depth == 0 {
            Err(JsonFault::Json)
        } else {
            Ok(Kind::Array)
        },
        Token::BeginObject => if depth == 0 {
            Err(JsonFault::Json)
        } else {
            Ok(Kind::Object)
        },
        Token::EndObject | Token::EndArray | Token::Key(_) | Token::Bad => Err(JsonFault::Json),
    }
}

/// Passes the next value over, and tells what it was.
#[cycle(pass)]
pub fn pass<'a>(reader: &mut Reader<'a>, depth: usize) -> Read<Kind<'a>>
    ensures { Takes KindIs depth reader.old reader.new result }
{
    let kind = open(reader, depth)?;
    match kind {
        Kind::Array => {
            pass_items(reader, depth - 1)?;
            Ok(kind)
        }
        Kind::Object => {
            pass_members(reader, depth - 1)?;
            Ok(kind)
        }
        _ => Ok(kind),
    }
}

#[cycle(pass)]
fn pass_items(reader: &mut Reader<'_>, depth: usize) -> Read<()>
    ensures { TakesItems Anything depth reader.old reader.new result }
{
    'items: while !reader.take_end_array() {
        pass(reader, depth)?;
    }
    Ok(())
}

#[cycle(pass)]
fn pass_members(reader: &mut Reader<'_>, depth: usize) -> Read<()>
    ensures { TakesObject Anything depth reader.old reader.new result }
{
    'members: while let Some(_) = reader.next_key()? {
        pass(reader, depth)?;
    }
    Ok(())
}

// Whether an array comes, of which the bracket is taken. Any other value is passed over.
pub(crate) fn opens_array(reader: &mut Reader<'_>, depth: usize) -> Read<bool>
    ensures { OpensArray depth reader.old reader.new result }
{
    let kind = open(reader, depth)?;
    match kind {
        Kind::Array => Ok(true),
        Kind::Object => {
            pass_members(reader, depth - 1)?;
            Ok(false)
        }
        _ => Ok(false),
    }
}

// Whether an object comes, likewise.
pub(crate) fn opens_object(reader: &mut Reader<'_>, depth: usize) -> Read<bool>
    ensures { OpensObject depth reader.old reader.new result }
{
    let kind = open(reader, depth)?;
    match kind {
        Kind::Object => Ok(true),
        Kind::Array => {
            pass_items(reader, depth - 1)?;
            Ok(false)
        }
        _ => Ok(false),
    }
}
