//! Packets: what is read, and where each fault stands.

use sq_base::QueryFault;
use sq_packet::{Direction, Language, PacketFault, read_packet};
use sq_packet_writer::write_packet;
use std::alloc::{AllocError, Global};
use std::test::Fail;

const HEAD: &str = "<QueryPacket xmlns='urn:Microsoft.Search.Query'><Query>";

const TEXT: &str = "<Context><QueryText>x</QueryText></Context>";

const TAIL: &str = "</Query></QueryPacket>";

const PROPERTY: &str = "<Property name='p'/>";

const REFINER: &str = "<Refiner>a</Refiner>";

const SORT: &str = "<SortByProperty name='a'/>";

/// A packet and the place that `^` marks in it, or its end. Shorthand: `@`, `$` and `%` for the head, the query text and the
/// tail, `~` for 32 properties, `` ` `` for 8 refiners, and `*` for 2 sorts.
fn written(alloc: Global, row: &str) -> Result<(String, usize), AllocError> {
    let mut text = String::new(alloc);
    let mut at = None;
    for c in row.chars() {
        match c {
            '@' => text.push_str(HEAD)?,
            '$' => text.push_str(TEXT)?,
            '%' => text.push_str(TAIL)?,
            '~' => {
                for _ in 0..32 {
                    text.push_str(PROPERTY)?;
                }
            }
            '`' => {
                for _ in 0..8 {
                    text.push_str(REFINER)?;
                }
            }
            '*' => {
                for _ in 0..2 {
                    text.push_str(SORT)?;
                }
            }
            '^' => at = Some(text.len()),
            c => text.push(c)?,
        }
    }
    let at = at.unwrap_or(text.len());
    Ok((text, at))
}

/// Each fault at each of its places: its code, and the packet, in which `^` marks the place. 0 is a packet that is read.
const FAULTS: &str = "\
0|@$%\n\
0|\u{feff}@$%\n\
0|<?xml <x ?>@$%\n\
0| <!-- - --> @<!-- -->$<!----> % <!-- -->\n\
0|@$<Range><StartAt>9991</StartAt></Range>%\n\
0|@$<Range><StartAt> 0000000001 </StartAt><Count>500</Count></Range>%\n\
0|@$<Properties>~~</Properties><Refiners>``</Refiners><SortByProperties>**</SortByProperties>%\n\
0|@$<QueryId>a</QueryId ><EnableStemming/><SupportedFormats><Format>a</Format><Format/></SupportedFormats>%\n\
502|^\n\
502|^x\n\
502| <^?xml?>\n\
502|<?xml <x ?> <!^DOCTYPE\n\
502|<?xml ^\n\
502|<QueryPacket a^\n\
502|<QueryPacket a='1' ^a='2'>\n\
502|<QueryPacket a='1'^b='2'>\n\
502|<QueryPacket a='1^<'>\n\
502|<QueryPacket a='^&amp'>\n\
502|<QueryPacket a=^1>\n\
502|<QueryPacket ^:a='1'>\n\
502|@$<Foo^!\n\
502|@$<Foo^\n\
502|@$<Properties><Property/^>\n\
502|@$<Properties><Property id='a'^>\n\
502|@$<Properties><Property name='a'>^b\n\
502|@$<SortByProperties><SortByProperty^>\n\
502|@$^</Foo>\n\
502|@$<QueryId>1^</QueryID>\n\
502|@$</Query^\n\
502|@$% <^x/>\n\
502|@$% ^x\n\
502|@$%<!-- ^\n\
502|@$%<!-- ^\u{1}-->\n\
502|@<!-- ^\u{1}-->$%\n\
502|@<Context><QueryText>a^&#;\n\
502|@<Context><QueryText>a^&#0;\n\
502|@<Context><QueryText>a^&#x110000;\n\
502|@<Context><QueryText>a^&#65\n\
502|@<Context><QueryText>a^&nbsp;\n\
502|@<Context><QueryText>a^\u{1}\n\
502|@<Context><QueryText>a^\n\
502|@<Context><QueryText>a<^b\n\
503|^<QueryPacket>\n\
503|^<QueryPacket xmlns='urn:x'>\n\
503|@$^<Foo>\n\
503|@$<Range>^<Query>\n\
503|@$^<context>\n\
504|@$^<Context>\n\
504|@$<QueryId/>^<QueryID/>\n\
505|^<QueryPacket xmlns='urn:x'/>\n\
505|@^</Foo>\n\
505|@^<Context/>\n\
505|@<Context>^</Context>\n\
506|@$<Range><StartAt> ^&#49;x</StartAt>\n\
506|@$<Range><StartAt> ^</StartAt>\n\
506|@$<Range>^<StartAt/>\n\
506|@$<Range><Count>^4294967296</Count>\n\
506|@$<Range><Count>^00000000001</Count>\n\
506|@$<Range><Count>^-1</Count>\n\
507|@<Context><QueryText type='^MSSQLFT'>\n\
507|@<Context><QueryText type='^fql'>\n\
507|@<Context><QueryText type=\"^\" <\n\
508|@$^<Range><Count>0</Count></Range>\n\
508|@$^<Range><Count>501</Count></Range>\n\
508|@$ ^<Range><StartAt>9992</StartAt></Range>\n\
510|@$<Refiners><Refiner> ^size(discretize=manual/6/-07) </Refiner>\n\
510|@$<Refiners><Refiner>^size(discretize=manual)</Refiner>\n\
510|@$<Refiners><Refiner>^size(discretize=manual/1)x</Refiner>\n\
510|@$<Refiners><Refiner>^size (discretize=manual/1)</Refiner>\n\
510|@$<Refiners><Refiner>&#32;^size)</Refiner>\n\
510|@$<Refiners><Refiner> ^</Refiner>\n\
510|@$<Refiners>``^<Refiner>\n\
512|@$<ImplicitAndBehavior> ^maybe</ImplicitAndBehavior>\n\
512|@$^<ImplicitAndBehavior/>\n\
513|@$<Properties>~~^<Property/>\n\
514|@$<SortByProperties><SortByProperty name='a' direction='^Up' <\n\
514|@$<SortByProperties><SortByProperty direction='^' <\n\
515|@$<SortByProperties>**^<SortByProperty/>";

/// The code and the place of a packet's first fault, 0 where it has none.
fn fault_of(alloc: Global, packet: &str) -> QueryFault {
    let end = QueryFault { code: 0, at: 0 };
    if packet.len() > 131_072 {
        return end;
    }
    match read_packet(alloc, packet.as_bytes()) {
        Ok(_) => end,
        Err(PacketFault::NoMemory) => end,
        Err(PacketFault::Packet(fault)) => fault,
    }
}

#[test]
fn each_fault_stands_at_its_place(rt: HostRuntime) -> Result<(), Fail> {
    let alloc = rt.alloc();
    for row in FAULTS.split('\n') {
        let (code, rest) = row.split_once('|').unwrap_or((row, ""));
        let (packet, at) = written(alloc, rest)?;
        let fault = fault_of(alloc, &packet);
        let found = fault.code;
        assert_eq!(rt; format!(in alloc; "{found}")?.as_str(), code, "at {row}");
        if found > 0 {
            assert!(rt; fault.at as usize == at, "at {row}");
        }
    }
    Ok(())
}

#[test]
fn a_byte_that_is_not_utf8_comes_before_all(rt: HostRuntime) -> Result<(), Fail> {
    let fault = QueryFault { code: 501, at: 2 };
    match read_packet(rt.alloc(), &[60, 33, 255]) {
        Ok(_) => assert!(rt; false),
        Err(found) => assert!(rt; found == PacketFault::Packet(fault)),
    }
    Ok(())
}

/// A packet as a SharePoint client writes it.
const WORKED: &str = "<?xml version=\"1.0\" encoding=\"utf-8\"?>
<QueryPacket xmlns=\"urn:Microsoft.Search.Query\" Revision=\"1000\">
 <Query domain=\"QDomain\">
  <SupportedFormats><Format>urn:Microsoft.Search.Response.Document.Document</Format></SupportedFormats>
  <Context><QueryText language=\"en-US\" type=\"STRING\">debt</QueryText></Context>
  <Range><StartAt>1</StartAt><Count>10</Count></Range>
  <EnableStemming>true</EnableStemming>
  <TrimDuplicates>true</TrimDuplicates>
  <Properties><Property name=\"Title\"/></Properties>
 </Query>
</QueryPacket>
";

#[test]
fn a_packet_of_a_sharepoint_client_is_read(rt: HostRuntime) -> Result<(), Fail> {
    match read_packet(rt.alloc(), WORKED.as_bytes()) {
        Err(_) => assert!(rt; false),
        Ok(request) => {
            assert!(rt; request.language == Language::Kql && request.implicit_and);
            assert_eq!(rt; request.text.as_str(), "debt");
            assert!(rt; request.start == 1 && request.count == 10);
            assert!(rt; request.refiners.len() == 0 && request.sorts.len() == 0);
            for name in request.properties.as_slice() {
                assert_eq!(rt; name.as_str(), "Title");
            }
            assert!(rt; request.properties.len() == 1);
        }
    }
    Ok(())
}

/// A packet with all that a request may say.
const FULL: &str =
    "<QueryPacket xmlns='urn:Microsoft.Search.Query'><Query><Context a = '>' ><QueryText type='FQL'> a&lt;&#x41; </QueryText ></Context>\
<Range><Count> 5 </Count><StartAt>2</StartAt></Range><Refiners><Refiner> size(discretize=manual/-6/7) </Refiner></Refiners>\
<SortByProperties><SortByProperty name='Rank' direction='descending'></SortByProperty></SortByProperties>\
<ImplicitAndBehavior>False</ImplicitAndBehavior></Query></QueryPacket>";

#[test]
fn a_packet_says_all_of_a_request(rt: HostRuntime) -> Result<(), Fail> {
    match read_packet(rt.alloc(), FULL.as_bytes()) {
        Err(_) => assert!(rt; false),
        Ok(request) => {
            assert!(rt; request.language == Language::Fql && !request.implicit_and);
            assert_eq!(rt; request.text.as_str(), " a<A ");
            assert!(rt; request.start == 2 && request.count == 5);
            for refiner in request.refiners.as_slice() {
                assert_eq!(rt; refiner.name.as_str(), "size");
                assert!(rt; refiner.bounds.as_slice() == [-6, 7].as_slice());
            }
            for sort in request.sorts.as_slice() {
                assert_eq!(rt; sort.name.as_str(), "Rank");
                assert!(rt; sort.direction == Direction::Descending);
            }
            assert!(rt; request.refiners.len() == 1 && request.sorts.len() == 1);
        }
    }
    Ok(())
}

/// The same request as it is written.
const REWRITTEN: &str =
    "<QueryPacket xmlns=\"urn:Microsoft.Search.Query\"><Query><Context><QueryText type=\"FQL\"> a&lt;A </QueryText></Context>\
<Range><StartAt>2</StartAt><Count>5</Count></Range><Refiners><Refiner>size(discretize=manual/-6/7)</Refiner></Refiners>\
<SortByProperties><SortByProperty name=\"Rank\" direction=\"Descending\"/></SortByProperties>\
<ImplicitAndBehavior>false</ImplicitAndBehavior></Query></QueryPacket>";

/// The packet of SharePoint's client as it is written.
const PLAIN: &str =
    "<QueryPacket xmlns=\"urn:Microsoft.Search.Query\"><Query><Context><QueryText type=\"STRING\">debt</QueryText></Context>\
<Range><StartAt>1</StartAt><Count>10</Count></Range><Properties><Property name=\"Title\"/></Properties></Query></QueryPacket>";

/// Whether a packet is read as a request that is written so.
fn is_rewritten(alloc: Global, packet: &str, wanted: &str) -> Result<bool, AllocError> {
    if packet.len() > 131_072 {
        return Ok(false);
    }
    match read_packet(alloc, packet.as_bytes()) {
        Err(_) => Ok(false),
        Ok(request) => Ok(write_packet(alloc, &request)?.as_slice() == wanted.as_bytes()),
    }
}

#[test]
fn a_request_is_written_as_a_packet_and_read_again(rt: HostRuntime) -> Result<(), Fail> {
    let alloc = rt.alloc();
    assert!(rt; is_rewritten(alloc, FULL, REWRITTEN)?);
    assert!(rt; is_rewritten(alloc, REWRITTEN, REWRITTEN)?);
    assert!(rt; is_rewritten(alloc, WORKED, PLAIN)?);
    assert!(rt; is_rewritten(alloc, PLAIN, PLAIN)?);
    Ok(())
}
