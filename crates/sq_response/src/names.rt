//! The names of faults.
ghost use Rattle.std.specs.Prelude.{◌≡◌};
ghost use Rattle.sq_response.specs.Names as spec;

fn kql_name(code: u16) -> &'static str
    ensures { result.now ≡ spec.kql_name code }
{
    match code {
        101 => "TooLong",
        102 => "EmptyQuery",
        103 => "UnclosedString",
        104 => "MissingOperand",
        105 => "UnexpectedClose",
        106 => "UnclosedParen",
        107 => "TooDeep",
        108 => "BadParameter",
        109 => "OtherBoost",
        110 => "BadWords",
        111 => "MissingValue",
        112 => "BadStar",
        113 => "DoubledSign",
        _ => "Other",
    }
}

fn fql_name(code: u16) -> &'static str
    ensures { result.now ≡ spec.fql_name code }
{
    match code {
        201 => "TooLong",
        202 => "EmptyQuery",
        203 => "UnclosedString",
        204 => "UnknownOperator",
        205 => "MissingArgument",
        206 => "ExtraArgument",
        207 => "BadParameter",
        208 => "Unexpected",
        209 => "UnclosedParen",
        210 => "TooDeep",
        211 => "OtherBoost",
        212 => "BadStar",
        _ => "Other",
    }
}

fn typing_name(code: u16) -> &'static str
    ensures { result.now ≡ spec.typing_name code }
{
    match code {
        301 => "UnknownProperty",
        302 => "WrongOperator",
        303 => "BadNumber",
        304 => "NumberOutOfRange",
        305 => "BadDate",
        306 => "BadYesNo",
        307 => "NoToken",
        308 => "NotInProximity",
        309 => "NestedScope",
        310 => "NeedsProperty",
        311 => "TooManyForms",
        _ => "Other",
    }
}

fn packet_name(code: u16) -> &'static str
    ensures { result.now ≡ spec.packet_name code }
{
    match code {
        501 => "NotUtf8",
        502 => "Malformed",
        503 => "UnknownElement",
        504 => "RepeatedElement",
        505 => "MissingQueryText",
        506 => "BadNumber",
        507 => "UnsupportedType",
        508 => "BadRange",
        509 => "UnknownRefiner",
        510 => "BadRefiner",
        511 => "UnknownCaller",
        512 => "UnsupportedSetting",
        513 => "TooManyProperties",
        514 => "BadDirection",
        515 => "TooManySorts",
        516 => "UnknownSort",
        _ => "Other",
    }
}

fn corpus_name(code: u16) -> &'static str
    ensures { result.now ≡ spec.corpus_name code }
{
    match code {
        601 => "NotUtf8",
        602 => "BadLine",
        603 => "BadNumber",
        604 => "UnknownProperty",
        605 => "Repeated",
        606 => "OutOfOrder",
        607 => "BadValue",
        608 => "Limit",
        _ => "Other",
    }
}

/// The name of a fault's code. A code of no table is `Other`.
#[tactic(auto, unfolding(crate::specs::Names::code_name))]
pub fn code_name(code: u16) -> &'static str
    ensures { result.now ≡ spec.code_name code }
{
    if code < 200 {
        kql_name(code)
    } else if code < 300 {
        fql_name(code)
    } else if code < 500 {
        typing_name(code)
    } else if code < 600 {
        packet_name(code)
    } else {
        corpus_name(code)
    }
}
