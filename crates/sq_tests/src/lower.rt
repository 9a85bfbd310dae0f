//! The meaning of KQL trees, beside that of the FQL trees that they are lowered to.
ghost use Rattle.std.specs.Prelude.{◌≡◌, ◌<◌, true, length, IfOk};
ghost use Rattle.std.specs.List.{list_all};
ghost use Rattle.sq_model.specs.KqlSound.{IsSound};
ghost use Rattle.sq_model.specs.Valid.{has_short_texts};

use crate::corpus::WORKED;
use sq_base::{Fault, Text};
use sq_corpus::read_corpus;
use sq_fql::print_fql;
use sq_kql::read_kql;
use sq_lower::lower;
use sq_model::{Corpus, FTree, Joiner, KTree};
use sq_schema::{Schema, clamped};
use sq_slow::{fql_boost_slow, fql_holds_slow, kql_boost_slow, kql_holds_slow};
use sq_typing::{type_fql, type_kql};
use std::alloc::{AllocError, Global};
use std::process::Abort;
use std::test::Fail;

/// 2024-02-29T12:00:00Z.
pub(crate) const MOMENT: i64 = 1_709_208_000;

/// KQL texts of every construct, one in each line, and behind some of them what they give the items: whether
/// they hold, and the boost, where all loose operands must hold.
pub(crate) const FORMS: &str = "\
notes debt memo\n\
debt debt\n\
debt nothing\n\
nothing nowhere\n\
* debt\n\
debt *\n\
* nothing\n\
nothing title:debt *\n\
notes title:debt memo\n\
title:debt notes memo\n\
title:debt notes title:board memo\n\
title:debt nothing title:board\n\
notes +debt\n\
+debt notes memo\n\
+notes +memo\n\
+notes debt memo +company\n\
notes -debt\n\
notes memo -debt\n\
-debt notes -memo board\n\
-debt -memo\n\
notes (debt memo)\n\
(notes debt) memo\n\
(notes memo) (debt board)\n\
(notes) memo\n\
notes (title:debt) memo\n\
WORDS(notes, memo) debt\n\
debt WORDS(nothing, board) -notes\n\
+WORDS(notes, board) debt memo\n\
notes acquisition ONEAR(n=2) debt\n\
merger NEAR(n=2) bank notes\n\
notes merger NEAR(n=2) (old OR bank) memo\n\
-merger NEAR bank notes debt\n\
title=\"debt notes\" notes memo\n\
title<>debt notes memo\n\
title=debt title:board notes\n\
size:5 notes memo\n\
size>5 notes memo\n\
size:5..7 debt size=9 notes\n\
size<>5 -notes debt\n\
write:2024-02-29 debt notes\n\
write<2024-02-29 debt notes\n\
public:yes debt memo\n\
debt notes OR memo board\n\
debt notes AND memo board\n\
debt AND notes memo OR nothing\n\
(debt notes) AND (memo board)\n\
debt notes XRANK(cb=5) memo board\n\
(debt XRANK(cb=5) notes) memo\n\
(debt XRANK(cb=5) notes board) (memo XRANK(cb=7) debt notes)\n\
debt notes XRANK(cb=-5) (board memo)\n\
* notes XRANK(cb=3) debt -memo\n\
notes (debt XRANK(cb=5) notes memo) memo\n\
+(notes debt XRANK(cb=2) memo) board nothing\n\
\"company debt\" \"old bank\" acqui*\n\
acqui* \"notes acquisition\" -nothing\n\
author:ann notes author:bob memo filetype:docx\n\
(merger takeover) author:\"ann smith\" filetype:docx size>=5 -draft\n\
notes size<>5 memo title:debt -(board nothing)\n\
debt\n\
DEBT|false 0;true 0;true 0;\n\
\"company debt\"\n\
\"notes acquisition\"|false 0;false 0;false 0;\n\
acqui*\n\
\"old ban*\"\n\
a*\n\
*\n\
WORDS(debt, merger)\n\
WORDS(\"old bank\", board, 5)\n\
WORDS(nothing)\n\
((debt))\n\
old & bank\n\
- debt\n\
+debt\n\
-debt\n\
NOT debt\n\
-*\n\
title:debt\n\
title:\"annual report\"\n\
title:rep*\n\
title=debt\n\
title=\"debt notes\"\n\
title=\"debt no*\"\n\
title<>\"annual report\"\n\
title<>debt\n\
title<>nothing\n\
author:ann\n\
author=\"Ann Smith\"\n\
author<>\"ann smith\"\n\
filetype:docx\n\
filetype<>docx\n\
size:5\n\
size=7\n\
size:-1\n\
size<>7\n\
size<>9\n\
size<7\n\
size<5\n\
size>5\n\
size>7\n\
size<=5\n\
size<=-9223372036854775808\n\
size<-9223372036854775808\n\
size>=6\n\
size>=9223372036854775807\n\
size>9223372036854775807\n\
size:5..7\n\
size:6..6\n\
size:7..5\n\
write:2024-02-29\n\
write=2024-02-29T12:00:00Z\n\
write:2024-02-29T12:00:01Z\n\
write<>2024-02-29\n\
write<2024-02-29\n\
write<2024-03-01\n\
write<=2024-02-29\n\
write>2024-02-29\n\
write>2024-02-28\n\
write>=2024-02-29T12:00:00Z\n\
write<0001-01-01\n\
write>9999-12-31\n\
write:2024-02-28..2024-03-01\n\
write:2024-03-01..2024-02-28\n\
write:today\n\
write:yesterday\n\
write:\"this week\"\n\
write:\"this month\"\n\
write:\"last month\"\n\
write:\"this year\"\n\
write:\"last year\"\n\
write<>\"this week\"\n\
write<\"this week\"\n\
write>=yesterday\n\
write:2024-02-28..\"this week\"\n\
public:true\n\
public<>true\n\
public:no\n\
public<>no\n\
acquisition NEAR debt\n\
acquisition NEAR(0) debt\n\
acquisition NEAR(n=1) debt\n\
debt ONEAR acquisition\n\
acquisition ONEAR(n=2) debt|false 0;true 0;false 0;\n\
acquisition ONEAR(n=1) debt\n\
merger NEAR old NEAR new\n\
(merger NEAR old) NEAR(n=4) new\n\
merger NEAR(n=2) (\"old bank\" OR bank)\n\
\"old bank\" ONEAR(n=2) bank\n\
(merger OR acquisition) NEAR(n=2) (bank OR debt)\n\
WORDS(merger, acquisition) NEAR(n=2) WORDS(\"old bank\", debt)\n\
m* NEAR m* NEAR (m* OR \"old bank\") NEAR m*\n\
(a OR \"a b\") NEAR (a OR \"a b\") NEAR (a OR \"a b\") NEAR (a OR \"a b\")\n\
-merger NEAR bank\n\
debt notes\n\
debt notes company\n\
notes company -board\n\
-board -merger\n\
-debt NOT bank\n\
* -debt\n\
debt -nothing -board\n\
-(debt notes)\n\
-(debt OR merger) -board\n\
title:debt title:board|false 0;true 0;true 0;\n\
title:debt title:nothing\n\
+title:debt title:board\n\
+title:debt +title:board\n\
title:debt +size:7\n\
title<>debt title:board\n\
title:debt title:board size:5 size:7\n\
title:debt size:7 title:board size:9\n\
size:5..6 size:7 title:memo\n\
size>=5 size<=6\n\
size<>5 size<>7\n\
(title:debt) title:board\n\
-title:debt title:board\n\
-title:debt -title:board\n\
title:debt title=memo -size:7\n\
public:yes public:no\n\
author:ann title:annual filetype:docx\n\
(merger OR takeover) author:\"ann smith\" filetype:docx size>=5 -draft\n\
debt AND notes\n\
debt AND notes AND size:7\n\
title:debt title:board AND size:7\n\
debt AND -board\n\
debt and notes\n\
debt OR merger\n\
debt OR merger OR board\n\
docx OR (old AND new)\n\
debt notes OR memo\n\
debt AND notes OR bank AND new\n\
-debt OR title:debt\n\
debt XRANK(cb=5) before\n\
debt XRANK(cb=-5) (before OR acquisition)\n\
debt XRANK(cb=5) before XRANK(cb=7) notes\n\
(title:debt XRANK(cb=-5) notes) OR memo\n\
(debt XRANK(cb=5) before) (debt XRANK(cb=7) notes)\n\
(debt XRANK(cb=5) before) AND (debt XRANK(cb=7) before)\n\
(debt XRANK(cb=5) before) OR (debt XRANK(cb=7) notes) OR (* XRANK(cb=9) bank)\n\
* XRANK(cb=3) -debt\n\
* XRANK(cb=3) title:debt title:board\n\
-(debt XRANK(cb=5) before)\n\
(* XRANK(cb=3) debt) -(debt XRANK(cb=5) before)\n\
(title:debt XRANK(cb=5) debt) title:board\n\
+(debt XRANK(cb=5) *) size:7\n\
* XRANK(cb=1) (debt XRANK(cb=100) debt)\n\
(* XRANK(cb=1000000) size:5..7) XRANK(cb=-1000000) write<>today\n\
nothing XRANK(cb=5) debt\n\
size<8 -before|true 0;true 0;false 0;\n\
write<>1970-01-01T00:00:00Z|true 0;true 0;true 0;\n\
debt XRANK(cb=5) before OR memo|false 0;true 0;true 5;";

fn kql_gives(
    alloc: Global,
    corpus: &Corpus,
    tree: &KTree,
    row: u32,
    joiner: Joiner,
) -> Result<String, AllocError>
    requires row { row < length corpus.now.items }
    requires short { list_all has_short_texts corpus.now.items ≡ true }
{
    let holds = kql_holds_slow(alloc, corpus, tree, row, joiner)?;
    let boost = kql_boost_slow(alloc, corpus, tree, row, joiner)?;
    format!(in alloc; "{holds} {boost};")
}

fn fql_gives(alloc: Global, corpus: &Corpus, tree: &FTree, row: u32) -> Result<String, AllocError>
    requires row { row < length corpus.now.items }
    requires short { list_all has_short_texts corpus.now.items ≡ true }
{
    let holds = fql_holds_slow(alloc, corpus, tree, row)?;
    let boost = fql_boost_slow(alloc, corpus, tree, row)?;
    format!(in alloc; "{holds} {boost};")
}

/// What a tree gives the items, and what its lowered tree gives them.
fn both_give(
    alloc: Global,
    corpus: &Corpus,
    tree: &KTree,
    lowered: &FTree,
    joiner: Joiner,
) -> Result<(String, String), AllocError>
    requires { list_all has_short_texts corpus.now.items ≡ true }
{
    let mut own = String::new(alloc);
    let mut other = String::new(alloc);
    let count = u32::try_from(corpus.items.len()).unwrap_or(0);
    for row in 0..count {
        let gives = kql_gives(alloc, corpus, tree, row, joiner)?;
        own.push_str(gives.as_str())?;
        let gives = fql_gives(alloc, corpus, lowered, row)?;
        other.push_str(gives.as_str())?;
    }
    Ok((own, other))
}

pub(crate) fn typed(alloc: Global, schema: &Schema, text: &str) -> Result<KTree, Fault>
    ensures { IfOk result (IsSound schema.now) }
{
    let raw = read_kql(alloc, text)?;
    type_kql(alloc, &raw, schema, clamped(MOMENT))
}

pub(crate) fn lowered(
    alloc: Global,
    schema: &Schema,
    tree: &KTree,
    joiner: Joiner,
) -> Result<FTree, Fault>
    requires { IsSound schema.now tree.now }
{
    let raw = lower(alloc, tree, schema, joiner)?;
    type_fql(alloc, &raw, schema)
}

/// The same of a text.
fn given(
    alloc: Global,
    corpus: &Corpus,
    text: &str,
    joiner: Joiner,
) -> Result<(String, String), Fault>
    requires { list_all has_short_texts corpus.now.items ≡ true }
{
    let tree = typed(alloc, &corpus.schema, text)?;
    let lowered = lowered(alloc, &corpus.schema, &tree, joiner)?;
    Ok(both_give(alloc, corpus, &tree, &lowered, joiner)?)
}

/// Asserts of each form that both trees give the same.
fn expect_alike(rt: &impl Abort, alloc: Global, joiner: Joiner) -> Result<(), Fail> {
    let corpus = read_corpus(alloc, WORKED.as_bytes())?;
    for row in FORMS.split('\n') {
        let (text, want) = row.split_once('|').unwrap_or((row, ""));
        let (own, other) = given(alloc, &corpus, text, joiner)?;
        assert_eq!(rt; own.as_str(), other.as_str(), "at {row}");
        let wanted = joiner == Joiner::All && want != "";
        assert!(rt; !wanted || own.as_str() == want, "at {row}");
    }
    Ok(())
}

#[test]
fn a_lowered_tree_holds_of_the_same_items_with_the_same_boosts(
    rt: HostRuntime,
) -> Result<(), Fail> {
    expect_alike(&rt, rt.alloc(), Joiner::All)?;
    expect_alike(&rt, rt.alloc(), Joiner::Any)
}

/// The canonical text of what a KQL text is lowered to where one loose operand is enough.
fn canonical(alloc: Global, corpus: &Corpus, text: &str) -> Result<Text, Fault> {
    let tree = typed(alloc, &corpus.schema, text)?;
    let raw = lower(alloc, &tree, &corpus.schema, Joiner::Any)?;
    Ok(print_fql(alloc, &raw)?)
}

#[test]
fn loose_operands_stand_as_one_in_the_place_of_the_first(rt: HostRuntime) -> Result<(), Fail> {
    let alloc = rt.alloc();
    let corpus = read_corpus(alloc, WORKED.as_bytes())?;
    let text = canonical(alloc, &corpus, "notes title:debt memo")?;
    assert_eq!(rt;
        text.as_str(),
        "and(or(string(\"notes\"),string(\"memo\")),title:string(\"debt\"))"
    );
    Ok(())
}
