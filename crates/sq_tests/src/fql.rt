//! The canonical text of FQL trees.

use sq_base::{Fault, Text};
use sq_fql::{print_fql, read_fql};
use std::alloc::Global;
use std::test::Fail;

fn canonical(alloc: Global, text: &str) -> Result<Text, Fault> {
    let tree = read_fql(alloc, text)?;
    Ok(print_fql(alloc, &tree)?)
}

/// A line for each text, with the canonical text of its tree.
const CANONICAL: &str = "\
AndNot(and(or(merger,takeover),size:range(5,max),N :\"a b\"), \"x\")|andnot(and(or(\"merger\",\"takeover\"),size:range(5,max,from=\"GE\",to=\"LE\"),N:\"a b\"),\"x\")\n\
string( MODE = and , a )|string(\"a\",mode=\"AND\")\n\
string(mode=onear,a)|string(\"a\",mode=\"ONEAR\",N=4)\n\
string(a,mode=phrase)|string(\"a\")\n\
near(N=7,a,\"b\\\\\\\"c\")|near(\"a\",\"b\\\\\\\"c\",N=7)\n\
count(a)|count(\"a\",from=1)\n\
count(to=3,a)|count(\"a\",from=1,to=3)\n\
range(from=gt,min,\"-7\",to=LT)|range(min,-7,from=\"GT\",to=\"LT\")\n\
xrank(*,a,n=5,cb=-9)|xrank(*,\"a\",cb=-9)\n\
words(-,007,min)|words(\"-\",007,min)";

/// And read again as a tree with the same text.
#[test]
fn a_tree_is_printed_in_one_way(rt: HostRuntime) -> Result<(), Fail> {
    let alloc = rt.alloc();
    for row in CANONICAL.split('\n') {
        let (text, want) = row.split_once('|').unwrap_or((row, ""));
        let printed = canonical(alloc, text)?;
        assert_eq!(rt; printed.as_str(), want, "at {row}");
        let again = canonical(alloc, want)?;
        assert_eq!(rt; again.as_str(), want, "at {row}");
    }
    Ok(())
}
