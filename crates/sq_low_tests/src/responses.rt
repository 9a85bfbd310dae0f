//! The texts of responses.

use sq_base::{List, QueryFault, Text};
use sq_response::{Entry, Found, Hit, Refined, Response, Shown, write_response};
use std::alloc::{AllocError, Global};
use std::test::Fail;

const OPENING: &str =
    "<?xml version=\"1.0\" encoding=\"utf-8\"?><ResponsePacket xmlns=\"urn:Microsoft.Search.Response\"><Response>";

const CLOSING: &str = "</Response></ResponsePacket>";

// An answer with one hit that shows one value, and without refiners.
const ONE_HIT: &str =
    "<Range><StartAt>1</StartAt><Count>1</Count><TotalAvailable>1</TotalAvailable><Results><Document><Number>2</Number><Score>20</Score><Url>http://s/2</Url><Properties><Property><Name>title</Name><Value>Debt notes</Value></Property></Properties></Document></Results></Range><Status>SUCCESS</Status>";

// Counts by value and by bounds, each character that stands by a reference, and a page behind the hits.
const COUNTED: &str =
    "<Range><StartAt>3</StartAt><Count>0</Count><TotalAvailable>2</TotalAvailable><Results></Results></Range><Refiners><Refiner><Name>&amp;&lt;&gt;&quot;&#9;&#10;&#13;é</Name><Entry><Value>-5</Value><Count>1</Count></Entry><Entry><To>6</To><Count>0</Count></Entry><Entry><From>6</From><Count>2</Count></Entry></Refiner></Refiners><Status>SUCCESS</Status>";

const NO_QUERY: &str =
    "<Status>ERROR_BAD_QUERY</Status><DebugErrorMessage>104 MissingOperand at 8</DebugErrorMessage>";

const NO_CALLER: &str =
    "<Status>ERROR_BAD_REQUEST</Status><DebugErrorMessage>511 UnknownCaller at 0</DebugErrorMessage>";

fn one_hit(alloc: Global) -> Result<Response, AllocError> {
    let shown = Shown {
        name: Text::from_str(alloc, "title")?,
        text: Text::from_str(alloc, "Debt notes")?,
    };
    let hit = Hit {
        number: 2,
        score: 20,
        url: Text::from_str(alloc, "http://s/2")?,
        values: List::from_vec(vec![in alloc; shown]?),
    };
    Ok(Response::Found(Found {
        start: 1,
        total: 1,
        hits: List::from_vec(vec![in alloc; hit]?),
        refiners: List::new(alloc),
    }))
}

fn counted(alloc: Global) -> Result<Response, AllocError> {
    let single = Entry::Single {
        value: -5,
        count: 1,
    };
    let below = Entry::Bucket {
        from: None,
        to: Some(6),
        count: 0,
    };
    let above = Entry::Bucket {
        from: Some(6),
        to: None,
        count: 2,
    };
    let refined = Refined {
        name: Text::from_str(alloc, "&<>\"\t\n\ré")?,
        entries: List::from_vec(vec![in alloc; single, below, above]?),
    };
    Ok(Response::Found(Found {
        start: 3,
        total: 2,
        hits: List::new(alloc),
        refiners: List::from_vec(vec![in alloc; refined]?),
    }))
}

/// Whether the text of the response is this one, between what stands before and behind each answer.
fn is_written(alloc: Global, response: &Response, answer: &str) -> Result<bool, AllocError> {
    let wanted = format!(in alloc; "{OPENING}{answer}{CLOSING}")?;
    Ok(write_response(alloc, response)?.as_slice() == wanted.as_bytes())
}

/// One of each kind.
#[test]
fn responses_are_written(rt: HostRuntime) -> Result<(), Fail> {
    let alloc = rt.alloc();
    assert!(rt; is_written(alloc, &one_hit(alloc)?, ONE_HIT)?);
    assert!(rt; is_written(alloc, &counted(alloc)?, COUNTED)?);
    assert!(rt;
        is_written(
            alloc,
            &Response::Nothing,
            "<Status>ERROR_NO_RESULTS_FOUND</Status>"
        )?
    );
    let query = Response::BadQuery(QueryFault { code: 104, at: 8 });
    assert!(rt; is_written(alloc, &query, NO_QUERY)?);
    let caller = Response::BadRequest(QueryFault { code: 511, at: 0 });
    assert!(rt; is_written(alloc, &caller, NO_CALLER)?);
    Ok(())
}
