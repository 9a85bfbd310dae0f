ghost use Rattle.std.specs.Prelude.{◌≡◌};
ghost use Rattle.sq_base.specs.Xml as xml;

/// Whether an XML 1.0 text may hold the character.
#[tactic(auto, unfolding(crate::specs::Xml::is_xml_char))]
fn is_xml_char(c: char) -> bool
    ensures { result ≡ xml.is_xml_char c }
{
    match c {
        '\t' | '\n' | '\r' => true,
        ' '..='\u{d7ff}' => true,
        '\u{e000}'..='\u{fffd}' => true,
        '\u{10000}'..='\u{10ffff}' => true,
        _ => false,
    }
}

/// Whether the text holds XML characters only.
pub fn is_xml_text(text: &str) -> bool
    ensures { result ≡ xml.is_xml_text text.now }
{
    text.chars().all(|c| is_xml_char(c))
}
