//! Kinds of characters.

ghost use Rattle.std.specs.Prelude.{◌≡◌};
ghost use Rattle.sq_base.specs.Xml as xml;
ghost use Rattle.sq_packet.specs.Marks as spec;

use crate::mark::Class;

/// Whether an XML 1.0 text may hold the character.
#[tactic(auto, unfolding(sq_base::specs::Xml::is_xml_char))]
pub fn is_xml_char(c: char) -> bool
    ensures { result ≡ xml.is_xml_char c }
{
    match c {
        '\t' | '\n' | '\r' => true,
        ' '..='\u{d7ff}' => true,
        '\u{e000}'..='\u{fffd}' => true,
        '\u{10000}'..='\u{10ffff}' => true,
        _ => false,
    }
}

/// Tab, line feed, carriage return or space.
pub fn is_blank(c: char) -> bool
    ensures { result ≡ spec.is_blank c }
{
    matches!(c, '\t' | '\n' | '\r' | ' ')
}

pub fn begins_name(c: char) -> bool
    ensures { result ≡ spec.begins_name c }
{
    c.is_ascii_alphabetic() || c == '_'
}

fn is_name_char(c: char) -> bool
    ensures { result ≡ spec.is_name_char c }
{
    c.is_ascii_alphanumeric() || c == '_' || c == '-' || c == '.'
}

pub fn is_in(of: Class, c: char) -> bool
    ensures { result ≡ spec.is_in of c }
{
    match of {
        Class::Name => is_name_char(c),
        Class::AttributeName => is_name_char(c) || c == ':',
        Class::Digit => c.is_ascii_digit(),
        Class::HexDigit => c.is_ascii_hexdigit(),
    }
}
