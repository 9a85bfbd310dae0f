//! Packets on standard input, in rows `CALLER|ATTRIBUTES|TEXT|REST|WANT`: the attributes and the text of `QueryText`, what
//! stands behind `Context`, and the status with the response, of which the texts alone stand here, a blank between two.

use super::corpora::WORKED;
use super::{reply, source_of};
use std::alloc::{AllocError, Global};
use std::process::Abort;

/// The packet of a query text and of what stands behind its context.
pub fn packet_of(
    alloc: Global,
    attributes: &str,
    text: &str,
    rest: &str,
) -> Result<String, AllocError> {
    format!(in alloc;
        "<QueryPacket xmlns=\"urn:Microsoft.Search.Query\"><Query><Context><QueryText{attributes}>{text}</QueryText></Context>{rest}</Query></QueryPacket>"
    )
}

/// A response without its tags.
fn texts_of(alloc: Global, response: &str) -> Result<String, AllocError> {
    let mut texts = String::new(alloc);
    for part in response.split('<') {
        let text = match part.split_once('>') {
            Some((_, text)) => text,
            None => part.trim_end(),
        };
        if !text.is_empty() {
            if !texts.is_empty() {
                texts.push(' ')?;
            }
            texts.push_str(text)?;
        }
    }
    Ok(texts)
}

/// What `packet` answers a caller over the worked corpus.
fn answer_of(alloc: Global, caller: &str, packet: &str) -> Result<String, AllocError> {
    let mut corpus = source_of(alloc, WORKED, Vec::new(alloc))?;
    let mut input = source_of(alloc, packet, Vec::new(alloc))?;
    reply(
        alloc,
        &["packet", caller],
        &mut corpus,
        &mut input,
        Vec::new(alloc),
    )
}

/// Asks each row of a table.
fn expect_packets(rt: &impl Abort, alloc: Global, table: &str) -> Result<(), AllocError> {
    for row in table.split('\n') {
        let mut fields = Vec::new(alloc);
        for field in row.split('|') {
            fields.push(field)?;
        }
        if let [caller, attributes, text, rest, want] = fields.as_slice() {
            let packet = packet_of(alloc, attributes, text, rest)?;
            let answer = answer_of(alloc, caller, &packet)?;
            assert_eq!(rt; texts_of(alloc, &answer)?.as_str(), *want, "at {row}");
        } else {
            assert!(rt; false, "five fields at {row}");
        }
    }
    Ok(())
}

/// Pages, orders and joiners.
const PAGES: &str = "\
Bob||debt||0 1 2 2 2 20 http://s/2 3 20 http://s/3 SUCCESS
Bob||debt|<Range><StartAt>2</StartAt><Count>1</Count></Range>|0 2 1 2 3 20 http://s/3 SUCCESS
Bob||debt|<Range><StartAt>3</StartAt></Range>|0 3 0 2 SUCCESS
Bob||debt|<Range><Count>1</Count></Range>|0 1 1 2 2 20 http://s/2 SUCCESS
Ann||debt||0 1 1 1 2 20 http://s/2 SUCCESS
Ann||board||0 ERROR_NO_RESULTS_FOUND
Bob||*||0 1 3 3 2 20 http://s/2 3 20 http://s/3 1 10 http://s/1 SUCCESS
Bob||*|<SortByProperties><SortByProperty name='Size' direction='Ascending'/></SortByProperties>|0 1 3 3 1 10 http://s/1 2 20 http://s/2 3 20 http://s/3 SUCCESS
Bob||*|<SortByProperties><SortByProperty name='size' direction='DESCENDING'/></SortByProperties>|0 1 3 3 2 20 http://s/2 3 20 http://s/3 1 10 http://s/1 SUCCESS
Bob||*|<SortByProperties><SortByProperty name='write'/></SortByProperties>|0 1 3 3 2 20 http://s/2 3 20 http://s/3 1 10 http://s/1 SUCCESS
Bob||*|<SortByProperties><SortByProperty name='write' direction='Descending'/></SortByProperties>|0 1 3 3 2 20 http://s/2 3 20 http://s/3 1 10 http://s/1 SUCCESS
Bob||*|<SortByProperties><SortByProperty name='rank'/></SortByProperties>|0 1 3 3 1 10 http://s/1 2 20 http://s/2 3 20 http://s/3 SUCCESS
Bob||* XRANK(cb=-15) memo|<SortByProperties><SortByProperty name='Rank' direction='Ascending'/></SortByProperties>|0 1 3 3 3 5 http://s/3 1 10 http://s/1 2 20 http://s/2 SUCCESS
Bob||*|<SortByProperties><SortByProperty name='size'/><SortByProperty name='Rank'/></SortByProperties><Range><StartAt>2</StartAt></Range>|0 2 2 3 2 20 http://s/2 3 20 http://s/3 SUCCESS
Bob||notes memo|<ImplicitAndBehavior>false</ImplicitAndBehavior>|0 1 2 2 2 20 http://s/2 3 20 http://s/3 SUCCESS
Bob||notes memo +company|<ImplicitAndBehavior>False</ImplicitAndBehavior>|0 1 1 1 2 20 http://s/2 SUCCESS
Bob||notes memo -board|<ImplicitAndBehavior>false</ImplicitAndBehavior>|0 1 1 1 2 20 http://s/2 SUCCESS
Bob||notes memo|<ImplicitAndBehavior>true</ImplicitAndBehavior>|0 ERROR_NO_RESULTS_FOUND
Bob||notes memo||0 ERROR_NO_RESULTS_FOUND
Bob| type='FQL'|and(notes,memo)|<ImplicitAndBehavior>false</ImplicitAndBehavior>|0 ERROR_NO_RESULTS_FOUND
Bob| type='FQL'|or(notes,memo)||0 1 2 2 2 20 http://s/2 3 20 http://s/3 SUCCESS";

/// Refiners and shown values.
const COUNTED: &str = "\
Bob||*|<Refiners><Refiner>size(discretize=manual/6/7)</Refiner></Refiners>|0 1 3 3 2 20 http://s/2 3 20 http://s/3 1 10 http://s/1 size 6 1 6 7 0 7 2 SUCCESS
Ann||*|<Refiners><Refiner>Size(discretize=manual/6/7)</Refiner></Refiners>|0 1 2 2 2 20 http://s/2 1 10 http://s/1 size 6 1 6 7 0 7 1 SUCCESS
Bob||*|<Refiners><Refiner>size</Refiner></Refiners>|0 1 3 3 2 20 http://s/2 3 20 http://s/3 1 10 http://s/1 size 5 1 7 2 SUCCESS
Ann||*|<Refiners><Refiner>size</Refiner></Refiners>|0 1 2 2 2 20 http://s/2 1 10 http://s/1 size 5 1 7 1 SUCCESS
Bob||*|<Range><Count>1</Count></Range><Refiners><Refiner>size</Refiner></Refiners>|0 1 1 3 2 20 http://s/2 size 5 1 7 2 SUCCESS
Bob||board|<Refiners><Refiner>size</Refiner></Refiners>|0 1 1 1 3 20 http://s/3 size 7 1 SUCCESS
Ann||board|<Refiners><Refiner>size</Refiner></Refiners>|0 ERROR_NO_RESULTS_FOUND
Ann||debt|<Properties><Property name='Title'/></Properties>|0 1 1 1 2 20 http://s/2 title Debt notes SUCCESS
Ann||debt|<Properties><Property name='write'/><Property name='TITLE'/><Property name='colour'/><Property name='title'/><Property name='author'/></Properties>|0 1 1 1 2 20 http://s/2 write 2024-02-29T12:00:00Z title Debt notes SUCCESS
Ann||report|<Properties><Property name='size'/><Property name='public'/></Properties>|0 1 1 1 1 10 http://s/1 size 5 SUCCESS";

/// Refusals, each by the first that holds: the caller, the packet, the text, a refiner, a sort.
const REFUSED: &str = "\
Zed||debt AND|<Query/>|1 ERROR_BAD_REQUEST 511 UnknownCaller at 0
Ann||debt AND|<Refiners><Refiner>author</Refiner></Refiners>|1 ERROR_BAD_QUERY 104 MissingOperand at 8
Ann|  type='MSSQLFT'|debt||1 ERROR_BAD_REQUEST 507 UnsupportedType at 82
Ann||debt|<Range><Count>0</Count></Range>|1 ERROR_BAD_REQUEST 508 BadRange at 101
Ann||debt|<Refiners><Refiner>size</Refiner><Refiner>author</Refiner><Refiner>colour</Refiner></Refiners><SortByProperties><SortByProperty name='title'/></SortByProperties>|1 ERROR_BAD_REQUEST 509 UnknownRefiner at 1
Ann||debt|<SortByProperties><SortByProperty name='title'/></SortByProperties>|1 ERROR_BAD_REQUEST 516 UnknownSort at 0
Ann||debt|<SortByProperties><SortByProperty name='Rank'/><SortByProperty name='public'/><SortByProperty name='colour'/></SortByProperties>|1 ERROR_BAD_REQUEST 516 UnknownSort at 1
Ann||nothing|<SortByProperties><SortByProperty name='title'/></SortByProperties>|1 ERROR_BAD_REQUEST 516 UnknownSort at 0
Ann||debt|<SortByProperties><SortByProperty name='size' direction='Up'/></SortByProperties>|1 ERROR_BAD_REQUEST 514 BadDirection at 158
Ann| type='FQL'|near(a,and(b,c))||1 ERROR_BAD_QUERY 308 NotInProximity at 7";

/// The worked packet of the documents, as a client sends it.
pub const SENT: &str = "<?xml version=\"1.0\" encoding=\"utf-8\"?>
<QueryPacket xmlns=\"urn:Microsoft.Search.Query\" Revision=\"1000\">
 <Query domain=\"QDomain\">
  <SupportedFormats><Format>urn:Microsoft.Search.Response.Document.Document</Format></SupportedFormats>
  <Context><QueryText language=\"en-US\" type=\"STRING\">debt</QueryText></Context>
  <Range><StartAt>1</StartAt><Count>10</Count></Range>
  <EnableStemming>true</EnableStemming>
  <TrimDuplicates>true</TrimDuplicates>
  <Properties><Property name=\"Title\"/></Properties>
 </Query>
</QueryPacket>
";

/// Its response byte for byte, and the status.
pub const ANSWERED: &str =
    "0 <?xml version=\"1.0\" encoding=\"utf-8\"?><ResponsePacket xmlns=\"urn:Microsoft.Search.Response\"><Response><Range><StartAt>1</StartAt><Count>1</Count><TotalAvailable>1</TotalAvailable><Results><Document><Number>2</Number><Score>20</Score><Url>http://s/2</Url><Properties><Property><Name>title</Name><Value>Debt notes</Value></Property></Properties></Document></Results></Range><Status>SUCCESS</Status></Response></ResponsePacket>";

#[test]
fn packets_are_answered_page_by_page(rt: HostRuntime) -> Result<(), AllocError> {
    expect_packets(&rt, rt.alloc(), PAGES)
}

#[test]
fn packets_are_counted_and_shown(rt: HostRuntime) -> Result<(), AllocError> {
    expect_packets(&rt, rt.alloc(), COUNTED)
}

#[test]
fn packets_are_refused_by_the_first_that_holds(rt: HostRuntime) -> Result<(), AllocError> {
    expect_packets(&rt, rt.alloc(), REFUSED)?;
    assert_eq!(rt; answer_of(rt.alloc(), "Ann", SENT)?.as_str(), ANSWERED);
    Ok(())
}
