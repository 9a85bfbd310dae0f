//! Tags and attributes of a packet.
ghost use Rattle.std.specs.Prelude.{◌≡◌, ◌++◌, string_bytes, codes, OnOk};
ghost use Rattle.sq_packet_writer.specs.PacketText as spec;
ghost use Rattle.sq_response.specs.Escaped.{escaped};
ghost use Rattle.sq_response.specs.Response.{opened, closed};

use crate::escaped::push_escaped;
use std::alloc::AllocError;

#[tactic(auto, unfolding(sq_response::specs::Response::opened))]
pub(crate) fn push_open(text: &mut String, name: &str) -> Result<(), AllocError>
    ensures { OnOk result (string_bytes text.new ≡ string_bytes text.old ++ opened name.now) }
{
    write!(text, "<{name}>")?;
    Ok(())
}

#[tactic(auto, unfolding(sq_response::specs::Response::closed))]
pub(crate) fn push_close(text: &mut String, name: &str) -> Result<(), AllocError>
    ensures { OnOk result (string_bytes text.new ≡ string_bytes text.old ++ closed name.now) }
{
    write!(text, "</{name}>")?;
    Ok(())
}

/// Adds an attribute, whose value needs no reference.
#[tactic(auto, unfolding(crate::specs::PacketText::attribute))]
pub(crate) fn push_plain(text: &mut String, name: &str, value: &str) -> Result<(), AllocError>
    ensures { OnOk result (string_bytes text.new ≡ string_bytes text.old ++ spec.attribute name.now value.now) }
{
    write!(text, " {name}=\"{value}\"")?;
    Ok(())
}

/// Adds the attribute `name`, with any value.
#[tactic(auto, unfolding(crate::specs::PacketText::attribute))]
pub(crate) fn push_name(text: &mut String, value: &str) -> Result<(), AllocError>
    ensures { OnOk result (string_bytes text.new ≡ string_bytes text.old ++ spec.attribute (codes "name") (escaped value.now)) }
{
    text.push_str(" name=\"")?;
    push_escaped(text, value)?;
    text.push_str("\"")
}
