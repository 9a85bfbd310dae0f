//! Plans over the index of a corpus, beside the meaning asked of one item after another.
ghost use Rattle.std.specs.Prelude.{◌≡◌, ◌<◌, true, length};
ghost use Rattle.std.specs.List.{list_all};
ghost use Rattle.sq_model.specs.Valid.{has_short_texts};

use crate::corpus::{WORKED, corpus_of};
use crate::lower::{FORMS, lowered, typed};
use sq_base::{Fault, Steps, Text};
use sq_build::build_index;
use sq_eval::Plan;
use sq_fql::read_fql;
use sq_model::{Corpus, FTree, Joiner, admits};
use sq_postings::Index;
use sq_schema::Schema;
use sq_slow::{fql_boost_slow, fql_holds_slow};
use sq_typing::type_fql;
use std::alloc::{AllocError, Global};
use std::marker::Brand;
use std::process::Abort;
use std::sync::ledger::{Blank, Ledger};
use std::test::Fail;

/// FQL texts of every construct, one in each line, as in the tables below.
const FQL: &str = "\
*\n\
debt\n\
\"old bank\"\n\
deb*\n\
\"old b*\"\n\
title:debt\n\
title:deb*\n\
author:ann\n\
filetype:docx\n\
nothing\n\
and(debt,before)\n\
and(debt,nothing)\n\
and(bank,*)\n\
or(merger,debt)\n\
or(nothing,board)\n\
andnot(debt,before)\n\
andnot(*,debt,merger)\n\
not(debt)\n\
not(nothing)\n\
and(not(debt),not(memo))\n\
filter(debt)\n\
and(filter(debt),notes)\n\
any(merger,debt)\n\
near(acquisition,debt,N=2)\n\
near(acquisition,debt,N=1)\n\
near(merger,or(\"old bank\",bank),N=2)\n\
near(merger,or(\"old bank\",bank),N=1)\n\
near(merger,merger,N=0)\n\
near(merger,old,new,N=4)\n\
near(merger,old,new,N=5)\n\
onear(old,bank,new,N=2)\n\
onear(bank,old,N=4)\n\
onear(\"old bank\",bank,N=2)\n\
onear(\"old bank\",bank,N=3)\n\
near(or(\"old bank\",merger),new,N=2)\n\
near(or(\"old bank\",merger),new,N=1)\n\
near(near(merger,old,N=2),bank,N=1)\n\
onear(merger,near(old,bank,N=0),N=3)\n\
near(m*,b*,N=3)\n\
near(or(the,\"the old\",\"the old bank\"),or(bank,\"new bank\"),N=1)\n\
count(bank,from=1)\n\
count(bank,from=2)\n\
count(bank,from=3)\n\
count(bank,from=1,to=2)\n\
count(bank,to=1)\n\
count(the,from=2,to=3)\n\
count(\"the old\",from=1)\n\
count(nothing,to=1)\n\
count(a*,from=2)\n\
title:count(debt,from=1)\n\
body:starts-with(\"debt before\")\n\
body:starts-with(debt)\n\
body:ends-with(debt)\n\
body:ends-with(\"company debt\")\n\
title:equals(\"debt notes\")\n\
title:equals(debt)\n\
title:starts-with(deb*)\n\
title:equals(\"debt no*\")\n\
starts-with(debt)\n\
size:5\n\
size:range(5,6)\n\
size:range(5,7,from=\"GT\")\n\
size:range(min,5)\n\
size:range(6,max)\n\
write:range(2024-02-29,2024-03-01)\n\
write:range(min,2024-02-28)\n\
public:true\n\
and(size:range(6,max),debt)\n\
or(size:5,title:board)\n\
not(size:range(min,max))\n\
xrank(debt,before,cb=5)\n\
xrank(debt,before,acquisition,cb=5)\n\
xrank(*,debt,cb=3)\n\
xrank(debt,nothing,cb=5)\n\
and(xrank(debt,before,cb=5),xrank(*,acquisition,cb=7))\n\
or(xrank(debt,before,cb=5),xrank(bank,merger,cb=7),xrank(nothing,debt,cb=9))\n\
andnot(xrank(debt,before,cb=5),xrank(bank,merger,cb=7))\n\
not(xrank(debt,before,cb=5))\n\
filter(xrank(debt,before,cb=5))\n\
xrank(xrank(debt,before,cb=5),notes,cb=-3)\n\
xrank(xrank(*,xrank(debt,before,cb=100),cb=1),size:7,cb=-1000000)\n\
and(or(and(debt,notes),andnot(bank,debt)),not(board))\n\
string(\"debt before\",mode=\"AND\")\n\
string(\"debt merger\",mode=\"OR\")\n\
string(\"old new\",mode=\"near\",N=3)\n\
string(\"old new\",mode=\"onear\",N=3)\n\
words(debt,merger)";

/// Every item in each place.
const STARS: &str = "\
and(*,*)\n\
and(*)\n\
or(*,nothing)\n\
or(nothing,*)\n\
any(*,debt)\n\
and(nothing,*)\n\
andnot(*,nothing)\n\
andnot(*,*)\n\
andnot(debt,*)\n\
andnot(nothing,*)\n\
not(*)\n\
not(not(*))\n\
filter(*)\n\
filter(not(*))\n\
xrank(*,*,cb=1)\n\
xrank(debt,*,cb=2)\n\
xrank(nothing,*,cb=2)\n\
xrank(*,not(*),cb=9)";

/// Phrases, beginnings of tokens, and where they are asked for.
const PATTERNS: &str = "\
\"of the\"\n\
\"the old bank\"\n\
\"the old bank and the new bank\"\n\
\"bank and new d*\"\n\
\"old bo*\"\n\
\"old x*\"\n\
\"x old*\"\n\
\"debt debt\"\n\
\"bank the\"\n\
\"new debt before acquisition company\"\n\
\"new new bank\"\n\
b*\n\
bank*\n\
banks*\n\
l*\n\
l1*\n\
\"bank l*\"\n\
\"l1 l*\"\n\
m*\n\
zz*\n\
words(deb*,mer*)\n\
words(\"old bank\",memo)\n\
words(nothing,\"old bo*\",l2*)\n\
phrase(old,bank)\n\
phrase(old,b*)\n\
phrase(\"the old\",bank)\n\
phrase(\"the old\",\"bank an*\")\n\
string(\"old bank\")\n\
string(\"bank old\",mode=\"AND\")\n\
string(\"old b*\",mode=\"AND\")\n\
string(\"bank nothing\",mode=\"ANY\")\n\
string(\"memo annual\",mode=\"ONEAR\",N=0)\n\
string(\"annual memo\",mode=\"ONEAR\",N=0)\n\
string(\"annual memo\",mode=\"NEAR\",N=0)\n\
string(\"old b*\",mode=\"NEAR\",N=1)\n\
author:smith\n\
author:s*\n\
author:\"old b*\"\n\
author:\"new new bank\"\n\
filetype:d*\n\
filetype:nothing\n\
title:and(debt,notes)\n\
title:or(debt,l1*)\n\
title:not(debt)\n\
title:andnot(l*,debt)\n\
title:words(debt,memo)\n\
title:phrase(debt,n*)\n\
body:and(old,not(new))\n\
body:l*";

/// Expressions of nearness: within one another, of several weights, of phrases and of beginnings.
const NEARS: &str = "\
near(near(old,bank,N=0),near(new,debt,N=0),N=1)\n\
near(near(old,bank,N=0),near(new,debt,N=0),N=0)\n\
onear(near(bank,old,N=0),near(debt,new,N=0),N=1)\n\
onear(near(debt,new,N=0),near(bank,old,N=0),N=9)\n\
near(onear(the,old,N=0),onear(and,new,N=0),N=2)\n\
onear(onear(merger,of,N=0),onear(old,bank,N=0),N=1)\n\
onear(onear(old,bank,N=0),onear(merger,of,N=0),N=20)\n\
near(near(near(the,old,N=0),bank,N=0),near(and,near(new,debt,N=0),N=0),N=0)\n\
near(near(the,bank,N=1),old,N=0)\n\
onear(near(the,bank,N=1),old,N=5)\n\
near(or(old,\"old bank\",\"old bank and\"),or(new,\"new debt\",\"new debt before\"),N=0)\n\
onear(or(old,\"old bank\",\"old bank and\"),or(new,\"new debt\",\"new debt before\"),N=1)\n\
near(or(\"old bank and\",old,\"old bank\"),or(\"new debt before\",new),N=2)\n\
near(or(old,\"the old\"),or(bank,\"old bank\"),N=0)\n\
near(or(near(merger,of,N=0),\"old bank\"),or(new,near(debt,before,N=0)),N=3)\n\
near(any(near(old,bank,N=1),near(bank,and,N=1),the),new,N=2)\n\
onear(or(the,near(the,old,N=0),\"the old bank\"),or(new,\"and new\"),N=1)\n\
near(or(near(or(the,\"the old\"),bank,N=1),memo),or(annual,\"new debt\",near(new,debt,N=3)),N=2)\n\
near(\"old bank\",\"old bank\",N=0)\n\
near(\"old bank\",old,N=0)\n\
near(\"old bank\",old,N=1)\n\
near(\"old bank\",\"bank and\",N=0)\n\
onear(\"old bank\",\"bank and\",N=4)\n\
near(old,old,N=0)\n\
near(old,old,old,N=20)\n\
onear(bank,bank,N=5)\n\
onear(the,the,the,N=9)\n\
near(the,new,the,N=6)\n\
near(merger,annual,N=0)\n\
near(merger,annual,N=1000)\n\
near(debt,nothing,N=1000)\n\
near(nothing,nowhere)\n\
near(or(nothing,debt),or(before,nowhere),N=0)\n\
near(phrase(old,bank),words(new,debt),N=1)\n\
near(string(\"old bank\",mode=\"OR\"),string(\"new debt\",mode=\"ANY\"),N=1)\n\
near(string(\"old bank\",mode=\"NEAR\",N=0),new,N=1)\n\
near(string(\"bank old\",mode=\"ONEAR\",N=3),new,N=1)\n\
onear(string(\"old bank\"),string(\"new debt\",mode=\"PHRASE\"),N=1)\n\
near(a*,b*,N=0)\n\
near(\"old b*\",n*,N=1)\n\
onear(m*,o*,N=2)\n\
near(or(a*,\"old b*\"),or(n*,\"new d*\"),N=1)\n\
near(l*,m*,N=0)\n\
near(or(l*,\"bank l*\"),or(o*,\"of t*\"),N=2)\n\
near(\"the old bank and new\",debt,N=0)\n\
near(merger,of,the,old,bank,and,new,debt,N=0)\n\
onear(merger,of,the,old,bank,and,new,debt,before,N=0)\n\
near(debt,new,and,bank,old,the,of,merger,N=1)\n\
near(or(old,\"old bank\"),or(bank,\"bank and\"),or(and,\"and new\"),or(new,\"new debt\"),or(debt,\"debt before\"),or(before,\"before acquisition\"),N=3)\n\
title:onear(debt,notes,N=0)\n\
title:near(l*,old,N=1)\n\
body:near(or(old,\"old bank\"),debt,N=3)\n\
author:near(smith,ann,N=0)\n\
author:onear(smith,ann,N=9)\n\
author:near(new,new,N=0)\n\
filetype:near(docx,docx,N=3)\n\
and(near(old,bank,N=0),near(new,debt,N=0))\n\
andnot(near(old,bank,N=3),onear(old,bank,N=0),near(new,memo,N=1))\n\
not(near(old,bank,N=2))";

/// How often.
const COUNTS: &str = "\
count(bank)\n\
count(bank,from=0)\n\
count(bank,from=0,to=0)\n\
count(bank,from=0,to=1)\n\
count(bank,from=1,to=1)\n\
count(bank,from=2,to=1)\n\
count(bank,from=1,to=1000000)\n\
count(bank,from=1000000)\n\
count(bank,from=3,to=4)\n\
count(the,from=4)\n\
count(nothing,from=0)\n\
count(nothing,from=0,to=1)\n\
count(nothing,from=1)\n\
count(\"old bank\",from=1)\n\
count(\"old bank\",from=2)\n\
count(\"old bank\",from=0,to=1)\n\
count(\"old b*\",from=1,to=2)\n\
count(\"the old bank and new\",from=1)\n\
count(b*,from=2)\n\
count(b*,from=3,to=5)\n\
count(b*,from=5)\n\
count(a*,from=1,to=2)\n\
count(a*,from=2,to=3)\n\
count(a*,from=3,to=4)\n\
count(l*,from=1)\n\
count(l*,from=2)\n\
count(string(\"old bank\"),from=1)\n\
count(phrase(old,b*),from=2)\n\
title:count(a*,from=1)\n\
body:count(the,from=2)\n\
author:count(new,from=2)\n\
author:count(new,from=2,to=3)\n\
filetype:count(docx,from=0,to=1)\n\
and(count(bank,from=2),count(old,from=1))\n\
andnot(count(bank,from=1),count(bank,from=2))\n\
not(count(bank,from=1))";

/// At the edges of passages.
const EDGES: &str = "\
starts-with(a*)\n\
starts-with(l*)\n\
starts-with(\"nothing at\")\n\
starts-with(phrase(the,o*))\n\
ends-with(debt)\n\
ends-with(l*)\n\
ends-with(\"bank l*\")\n\
ends-with(string(\"the old\"))\n\
ends-with(\"old bank and new debt before acquisition company\")\n\
equals(l*)\n\
equals(m*)\n\
equals(nothing)\n\
equals(\"annual report\")\n\
equals(phrase(annual,rep*))\n\
body:starts-with(merger)\n\
body:starts-with(\"merger of\")\n\
body:starts-with(b*)\n\
body:ends-with(annual)\n\
body:ends-with(\"memo an*\")\n\
body:ends-with(b*)\n\
body:ends-with(\"the b*\")\n\
body:equals(\"debt before acquisition\")\n\
body:equals(\"debt before acq*\")\n\
body:equals(\"debt before\")\n\
body:equals(\"before acquisition\")\n\
body:equals(\"debt before acquisition company\")\n\
body:equals(a*)\n\
body:equals(\"new n*\")\n\
title:starts-with(\"old bank\")\n\
title:ends-with(\"old bank\")\n\
title:equals(\"old b*\")\n\
title:equals(\"debt l*\")\n\
author:equals(\"ann smith\")\n\
author:equals(\"ann sm*\")\n\
author:equals(ann)\n\
author:equals(a*)\n\
author:equals(\"new new bank\")\n\
author:starts-with(new)\n\
author:starts-with(\"new bank\")\n\
author:ends-with(\"new bank\")\n\
filetype:equals(docx)\n\
and(starts-with(a*),ends-with(b*))\n\
andnot(body:starts-with(b*),body:ends-with(b*))\n\
not(starts-with(a*))\n\
filter(ends-with(n*))\n\
xrank(*,body:starts-with(m*),cb=4)";

/// Numbers, moments, yes and no.
const RANGES: &str = "\
size:range(min,max)\n\
size:range(5,7,from=\"GT\",to=\"LT\")\n\
size:range(5,6,from=\"GT\",to=\"LT\")\n\
size:range(5,6,to=\"LT\")\n\
size:range(6,6)\n\
size:range(6,6,from=\"GT\")\n\
size:range(7,5)\n\
size:range(min,-3)\n\
size:range(min,-3,to=\"LT\")\n\
size:range(-3,max,from=\"GT\")\n\
size:range(9223372036854775807,max)\n\
size:range(9223372036854775807,max,from=\"GT\")\n\
size:range(min,-9223372036854775808)\n\
size:range(min,-9223372036854775808,to=\"LT\")\n\
size:range(int(5),int(6))\n\
size:int(5)\n\
size:-3\n\
size:6\n\
size:and(range(5,5),range(7,7))\n\
size:and(5,6,7)\n\
size:or(5,6)\n\
size:any(4,8)\n\
size:andnot(7,5)\n\
size:andnot(range(min,max),5,6)\n\
size:not(5)\n\
size:not(range(min,max))\n\
size:filter(5)\n\
size:xrank(range(5,7),5,cb=2)\n\
size:xrank(range(5,7),5,6,7,cb=2)\n\
write:2024-02-29\n\
write:0001-01-01\n\
write:datetime(2024-02-28)\n\
write:range(min,max)\n\
write:range(2024-02-28,2024-02-29,from=\"GT\")\n\
write:range(2024-02-28,2024-02-29,to=\"LT\")\n\
write:range(2024-02-29T12:00:00Z,2024-02-29T12:00:00Z)\n\
write:range(2024-02-29T12:00:01Z,max)\n\
write:range(min,2024-02-28T23:59:58Z)\n\
write:range(min,2024-02-28T23:59:59Z)\n\
write:not(2024-02-29)\n\
public:false\n\
public:or(true,false)\n\
public:not(true)\n\
public:and(true,false)\n\
public:andnot(true,false)\n\
public:xrank(true,true,cb=6)\n\
and(size:5,write:range(min,max))\n\
or(size:8,public:false)\n\
andnot(size:range(min,max),public:true)\n\
and(size:range(min,max),near(old,bank,N=3))";

/// And, or, and-not, not and filter within one another.
const NESTED: &str = "\
andnot(debt,before,company)\n\
andnot(*,debt,merger,memo)\n\
andnot(*,nothing,nowhere)\n\
andnot(andnot(*,debt),memo)\n\
andnot(debt,andnot(before,company))\n\
andnot(or(debt,bank),and(old,new),title:memo)\n\
andnot(not(debt),not(bank))\n\
not(andnot(debt,before))\n\
not(or(debt,bank))\n\
not(and(debt,bank))\n\
not(not(debt))\n\
not(not(not(debt)))\n\
not(filter(debt))\n\
and(not(debt),bank)\n\
and(not(debt),not(bank),not(memo))\n\
or(not(debt),before)\n\
or(not(debt),not(bank))\n\
and(debt,debt)\n\
or(debt,debt)\n\
andnot(debt,debt)\n\
and(a*,b*,o*)\n\
and(or(a*,b*),or(m*,n*))\n\
or(and(a*,b*),and(m*,n*),andnot(o*,a*))\n\
and(and(and(and(debt,and(bank)))))\n\
or(or(or(or(debt,or(bank)))))\n\
and(or(and(or(and(or(debt,bank),old),new),and),the),of)\n\
or(and(or(and(or(and(debt,bank),old),new),and),the),of)\n\
and(or(debt,nothing),or(nothing,bank),or(nothing,*))\n\
andnot(and(or(debt,bank),not(and(old,not(new)))),or(title:l1*,andnot(the,of)))\n\
not(and(not(or(not(and(not(or(not(debt),not(bank))),the)),of)),old))\n\
filter(and(debt,filter(before)))\n\
and(filter(or(debt,bank)),old)\n\
and(l*,size:range(5,max),public:true)\n\
or(near(old,bank,N=0),count(the,from=3),body:ends-with(n*),size:8)\n\
and(near(old,bank,N=3),count(the,from=1),body:starts-with(o*))\n\
andnot(near(old,bank,N=3),count(the,from=2),title:l1*,size:5)";

/// What xrank adds, and where it is dropped.
const BOOSTS: &str = "\
xrank(debt,before,nothing,cb=5)\n\
xrank(debt,nothing,nowhere,cb=5)\n\
xrank(debt,before,acquisition,new,cb=5)\n\
xrank(debt,before,before,cb=5)\n\
xrank(debt,debt,cb=0)\n\
xrank(debt,before,n=5,cb=1)\n\
xrank(debt,or(before,new),cb=-1)\n\
xrank(debt,not(before),cb=3)\n\
xrank(debt,not(nothing),cb=3)\n\
xrank(debt,count(bank,from=2),cb=3)\n\
xrank(debt,body:ends-with(n*),title:l*,cb=3)\n\
xrank(debt,size:range(6,max),public:true,cb=3)\n\
xrank(*,near(old,bank,N=0),cb=8)\n\
xrank(near(old,bank,N=3),near(new,debt,N=0),onear(the,old,N=0),cb=8)\n\
xrank(*,bank,cb=1000000)\n\
xrank(*,bank,cb=-1000000)\n\
xrank(xrank(*,bank,cb=1000000),old,cb=1000000)\n\
xrank(xrank(*,bank,cb=1000000),old,cb=-1000000)\n\
xrank(xrank(xrank(*,a*,cb=1),b*,cb=10),m*,cb=100)\n\
xrank(*,xrank(nothing,*,cb=5),cb=7)\n\
xrank(*,xrank(bank,*,cb=5),cb=7)\n\
xrank(*,xrank(bank,*,cb=5),xrank(old,*,cb=11),cb=7)\n\
xrank(filter(xrank(debt,*,cb=1)),*,cb=10)\n\
xrank(andnot(xrank(*,*,cb=1),debt),bank,cb=10)\n\
xrank(or(xrank(debt,*,cb=1),xrank(bank,*,cb=2)),*,cb=4)\n\
xrank(and(xrank(the,*,cb=1),xrank(bank,*,cb=2)),nothing,cb=4)\n\
xrank(not(xrank(debt,*,cb=1)),*,cb=4)\n\
and(filter(xrank(debt,before,cb=5)),xrank(*,bank,cb=2))\n\
or(filter(xrank(debt,*,cb=5)),xrank(bank,*,cb=2))\n\
and(xrank(a*,b*,cb=1),or(xrank(m*,n*,cb=10),xrank(o*,t*,cb=100)))\n\
or(xrank(debt,*,cb=1),xrank(debt,*,cb=10),xrank(debt,*,cb=100))\n\
and(xrank(debt,*,cb=1),xrank(debt,*,cb=10),xrank(debt,*,cb=100))\n\
or(and(xrank(debt,*,cb=1),xrank(nothing,*,cb=10)),xrank(bank,*,cb=100))\n\
or(andnot(xrank(debt,*,cb=1),bank),andnot(xrank(bank,*,cb=10),debt))\n\
and(or(xrank(debt,*,cb=1),*),or(*,xrank(bank,*,cb=10)))\n\
andnot(xrank(*,bank,cb=1),xrank(merger,*,cb=10))\n\
andnot(debt,xrank(before,*,cb=1),xrank(bank,*,cb=2))\n\
not(xrank(*,*,cb=1))\n\
not(not(xrank(debt,*,cb=1)))\n\
and(not(not(xrank(debt,*,cb=1))),xrank(*,debt,cb=-7))\n\
filter(filter(xrank(debt,*,cb=1)))\n\
filter(or(xrank(debt,*,cb=1),xrank(bank,*,cb=2)))\n\
any(xrank(debt,*,cb=1),xrank(nothing,*,cb=2),bank)\n\
title:xrank(l*,debt,old,cb=5)\n\
body:xrank(or(debt,bank),count(bank,from=2),starts-with(m*),cb=-2)\n\
and(size:xrank(range(min,max),5,cb=1),public:xrank(true,true,cb=10))\n\
xrank(nothing,debt,cb=5)";

fn fql_typed(alloc: Global, schema: &Schema, text: &str) -> Result<FTree, Fault> {
    let raw = read_fql(alloc, text)?;
    type_fql(alloc, &raw, schema)
}

fn kql_typed(alloc: Global, schema: &Schema, text: &str, joiner: Joiner) -> Result<FTree, Fault> {
    let tree = typed(alloc, schema, text)?;
    lowered(alloc, schema, &tree, joiner)
}

/// The rows that a plan gives to who has these claims, each with its boost.
fn planned<L: Ledger>(
    alloc: Global,
    blank: Blank,
    index: &Index,
    claims: &[Text],
    tree: &FTree,
) -> Result<String, AllocError>
    requires name { blank.name ≡ L.name }
    requires parts { blank.parts ≡ L.parts }
    requires some { 0 < blank.parts }
{
    let steps = &mut Steps::<L>::new(blank);
    let mut plan = Plan::begin(alloc, index, claims, tree, steps)?;
    let mut given = String::new(alloc);
    for _ in 0..=index.items() {
        match plan.next(steps) {
            Some((row, boost)) => given.push_str(&format!(in alloc; "{row} {boost};")?)?,
            None => return Ok(given),
        }
    }
    format!(in alloc; "rows without an end")
}

/// A row by the meaning, with its boost, and nothing where the tree doesn't hold of its item.
fn meant_at(
    alloc: Global,
    corpus: &Corpus,
    tree: &FTree,
    boosted: bool,
    row: u32,
) -> Result<String, AllocError>
    requires row { row < length corpus.now.items }
    requires short { list_all has_short_texts corpus.now.items ≡ true }
{
    if !fql_holds_slow(alloc, corpus, tree, row)? {
        return Ok(String::new(alloc));
    }
    let boost = if boosted {
        fql_boost_slow(alloc, corpus, tree, row)?
    } else {
        0
    };
    format!(in alloc; "{row} {boost};")
}

/// All rows by the meaning, each in the place of its item. Of a tree without xrank no boost is asked.
fn meant(
    alloc: Global,
    corpus: &Corpus,
    tree: &FTree,
    boosted: bool,
) -> Result<Vec<String>, AllocError>
    requires { list_all has_short_texts corpus.now.items ≡ true }
{
    let mut rows = Vec::new(alloc);
    let count = u32::try_from(corpus.items.len()).unwrap_or(0);
    for row in 0..count {
        let one = meant_at(alloc, corpus, tree, boosted, row)?;
        rows.push(one)?;
    }
    Ok(rows)
}

/// Those of the rows that claims admit.
fn admitted(
    alloc: Global,
    corpus: &Corpus,
    claims: &[Text],
    rows: &[String],
) -> Result<String, AllocError> {
    let mut given = String::new(alloc);
    for (at, item) in corpus.items.as_slice().iter().enumerate() {
        if admits(claims, item) {
            let Some(row) = rows.get(at) else {
                return Ok(given);
            };
            given.push_str(row.as_str())?;
        }
    }
    Ok(given)
}

/// Asserts that the plan of a tree gives each caller what the meaning gives him.
fn expect_tree(
    rt: &impl Abort,
    alloc: Global,
    corpus: &Corpus,
    index: &Index,
    tree: &FTree,
    text: &str,
) -> Result<(), Fail>
    requires { list_all has_short_texts corpus.now.items ≡ true }
{
    let boosted = text.contains("xrank") || text.contains("XRANK");
    let rows = meant(alloc, corpus, tree, boosted)?;
    for caller in corpus.callers.as_slice() {
        let claims = caller.claims.as_slice();
        let given = planned::<Brand>(alloc, Blank::new(1), index, claims, tree)?;
        let want = admitted(alloc, corpus, claims, rows.as_slice())?;
        assert_eq!(rt; given.as_str(), want.as_str(), "at {text}");
    }
    Ok(())
}

/// Asserts it of each FQL text of a table.
fn expect_fql(
    rt: &impl Abort,
    alloc: Global,
    corpus: &Corpus,
    index: &Index,
    texts: &str,
) -> Result<(), Fail>
    requires { list_all has_short_texts corpus.now.items ≡ true }
{
    for text in texts.split('\n') {
        let tree = fql_typed(alloc, &corpus.schema, text)?;
        expect_tree(rt, alloc, corpus, index, &tree, text)?;
    }
    Ok(())
}

/// Asserts it of each KQL form, as it is lowered.
fn expect_kql(
    rt: &impl Abort,
    alloc: Global,
    corpus: &Corpus,
    index: &Index,
    joiner: Joiner,
) -> Result<(), Fail>
    requires { list_all has_short_texts corpus.now.items ≡ true }
{
    for row in FORMS.split('\n') {
        let (text, _) = row.split_once('|').unwrap_or((row, ""));
        let tree = kql_typed(alloc, &corpus.schema, text, joiner)?;
        expect_tree(rt, alloc, corpus, index, &tree, text)?;
    }
    Ok(())
}

/// Asserts it of all texts.
fn expect_texts(rt: &impl Abort, alloc: Global, corpus_text: &str) -> Result<(), Fail> {
    let corpus = corpus_of(alloc, corpus_text)?;
    let index = build_index(alloc, &corpus)?;
    for texts in [
        FQL, STARS, PATTERNS, NEARS, COUNTS, EDGES, RANGES, NESTED, BOOSTS,
    ] {
        expect_fql(rt, alloc, &corpus, &index, texts)?;
    }
    expect_kql(rt, alloc, &corpus, &index, Joiner::All)?;
    expect_kql(rt, alloc, &corpus, &index, Joiner::Any)
}

/// Words of the texts above.
const WORDS: &str =
    "merger of the old bank and new debt before acquisition company notes board memo annual";

/// A word for each number.
fn word(number: u32) -> &'static str {
    WORDS.split(' ').nth((number % 15) as usize).unwrap_or("")
}

/// So many words from one on, each so far behind the one before, in a round.
fn words(alloc: Global, from: u32, step: u32, count: u32) -> Result<String, AllocError> {
    let mut text = String::new(alloc);
    let mut at = from;
    for _ in 0..count {
        let next = word(at);
        text.push_str(&format!(in alloc; "{next} ")?)?;
        at = at.wrapping_add(step);
    }
    Ok(text)
}

/// Who may see an item, and its values but title and body: a line for each kind of item. No item has a file type.
const KINDS: &str = "\
allow\tboard;deny\n\
allow\tstaff;deny;value\tsize\t5;value\tpublic\ttrue;value\tauthor\tAnn Smith\n\
allow\tstaff;deny\tboard;value\tsize\t7;value\tsize\t-3;value\twrite\t2024-02-29T12:00:00Z\n\
allow\tboard\tstaff;deny;value\tpublic\tfalse;value\tauthor\tOld Bank\n\
allow\tstaff;deny;value\tsize\t7;value\tsize\t7;value\tsize\t5;value\twrite\t2024-02-28T23:59:59Z\n\
allow;deny;value\tsize\t6\n\
allow\tboard;deny;value\tsize\t6;value\tpublic\ttrue;value\twrite\t2024-03-01T00:00:00Z\n\
allow\tstaff;deny;value\tsize\t9223372036854775807;value\tauthor\tnew new bank\n\
allow\tstaff;deny\tstaff;value\tsize\t5\n\
allow\tstaff;deny;value\tsize\t-9223372036854775808;value\tpublic\tfalse\n\
allow\tboard;deny\tstaff\n\
allow\tstaff;deny;value\twrite\t0001-01-01T00:00:00Z;value\tsize\t8\n\
allow\tstaff;deny;value\tsize\t5;value\tsize\t6;value\tsize\t7";

/// An item by its number: some have a title, some a body of up to three passages, some neither. They are few, since the
/// meaning makes tokens of all texts anew each time that it is asked.
fn item_text(alloc: Global, item: u32) -> Result<String, AllocError>
    requires { item < 100 }
{
    let kind = KINDS.split('\n').nth((item % 13) as usize).unwrap_or("");
    let lines = kind.replace(alloc, ";", "\n")?;
    let rank = item * 37 % 11;
    let mut text = format!(in alloc; "item\t{item}\t{rank}\thttp://s/{item}\n{lines}\n")?;
    let step = if item % 2 == 0 { 1 } else { item % 5 + 1 };
    if item % 4 == 1 {
        let title = words(alloc, item, step, item % 3)?;
        text.push_str(&format!(in alloc; "value\ttitle\t{title}l{item}\n")?)?;
    }
    for passage in 4..item % 8 {
        let count = (item * 3 + passage * 5) % 14;
        let body = words(alloc, item * 7 + passage * 4, step, count)?;
        text.push_str(&format!(in alloc; "value\tbody\t{body}\n")?)?;
    }
    Ok(text)
}

/// Thirty items, of which Ann may see some and Bob others, under the head of the worked corpus. An item may have several
/// bodies and sizes.
fn made(alloc: Global) -> Result<String, AllocError> {
    let head = WORKED.split_once("item").unwrap_or((WORKED, "")).0;
    let several = head.replace(alloc, "body\ttext\ts", "body\ttext\tsm")?;
    let mut text = several.replace(alloc, "integer\tr", "integer\tmr")?;
    for item in 1..31 {
        let lines = item_text(alloc, item)?;
        text.push_str(lines.as_str())?;
    }
    Ok(text)
}

#[test]
fn plans_over_the_worked_corpus_give_what_the_meaning_gives(rt: HostRuntime) -> Result<(), Fail> {
    expect_texts(&rt, rt.alloc(), WORKED)
}

#[test]
fn plans_over_items_of_several_passages_give_what_the_meaning_gives(
    rt: HostRuntime,
) -> Result<(), Fail> {
    let text = made(rt.alloc())?;
    expect_texts(&rt, rt.alloc(), text.as_str())
}
