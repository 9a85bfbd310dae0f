//! The corpora that rows name.

/// The worked corpus of the documents.
pub const WORKED: &str = "SQCORPUS 1
property\ttitle\ttext\ts
property\tbody\ttext\ts
property\tauthor\ttext\t-
property\tfiletype\ttext\t-
property\tsize\tinteger\tr
property\twrite\tdatetime\t-
property\tpublic\tyesno\t-
caller\tAnn\tstaff
caller\tBob\tstaff\tboard
item\t1\t10\thttp://s/1
allow\tstaff
deny
value\ttitle\tAnnual report
value\tbody\tmerger of the old bank and the new bank
value\tauthor\tAnn Smith
value\tfiletype\tdocx
value\tsize\t5
item\t2\t20\thttp://s/2
allow\tstaff
deny
value\ttitle\tDebt notes
value\tbody\tacquisition of company debt
value\tsize\t7
value\twrite\t2024-02-29T12:00:00Z
item\t3\t20\thttp://s/3
allow\tboard
deny
value\ttitle\tBoard memo
value\tbody\tdebt before acquisition
value\tsize\t7
";

/// Seven lines: a property of each kind, one that may have several values, and a caller.
pub const HEAD: &str = "SQCORPUS 1
property\ttitle\ttext\ts
property\tsize\tinteger\tr
property\twrite\tdatetime\t-
property\tpublic\tyesno\t-
property\ttags\ttext\tsm
caller\tAnn\tstaff
";

/// Three lines more: an item.
pub const ITEM: &str = "item\t5\t0\thttp://s/5\nallow\tstaff\ndeny\n";

/// Items at the ends of 64 bits, of a day and of the years.
pub const EDGES: &str = "SQCORPUS 1
property\tsize\tinteger\t-
property\twrite\tdatetime\t-
property\tpublic\tyesno\t-
caller\tAnn\tstaff
item\t1\t0\thttp://s/1
allow\tstaff
deny
value\tsize\t-9223372036854775808
value\twrite\t2023-12-31T23:59:59Z
value\tpublic\tfalse
item\t2\t0\thttp://s/2
allow\tstaff
deny
value\tsize\t-9223372036854775807
value\twrite\t2024-01-01T00:00:00Z
value\tpublic\ttrue
item\t3\t0\thttp://s/3
allow\tstaff
deny
value\tsize\t5
value\twrite\t2024-01-01T23:59:59Z
item\t4\t0\thttp://s/4
allow\tstaff
deny
value\tsize\t6
value\twrite\t2024-01-02T00:00:00Z
item\t5\t0\thttp://s/5
allow\tstaff
deny
value\tsize\t9223372036854775807
value\twrite\t9999-12-31T23:59:59Z
";

/// An item of the staff, and one that is denied to it too.
pub const GUARDED: &str = "SQCORPUS 1
caller\tAnn\tstaff
caller\tBob\tboard
item\t1\t10\thttp://s/
allow\tstaff
deny
item\t2\t10\thttp://s/
allow\tstaff
deny\tstaff
";
