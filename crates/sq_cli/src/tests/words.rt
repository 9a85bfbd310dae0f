//! Rows of other words and other corpora, spelled as [the tests](super) read them.

/// Words that are no command.
pub const NO_COMMANDS: &str = "\
lower|2 \n\
lower debt kql|2 \n\
|2 \n\
ask Ann|2 \n\
ask Ann sql debt|2 \n\
check all|2 \n\
packet|2 \n\
packet Ann Bob|2 \n\
serve|2 \n\
serve 0|2 \n\
serve 01|2 \n\
serve +1|2 \n\
serve 1000001|2 \n\
serve 1 1|2 \n\
rehearse|2 \n\
rehearse 0|2 \n\
rehearse 2001|2 \n\
rehearse 1x|2 \n\
--help|2 ";

/// Asked of other corpora: bounds by the first or last number of a value, the lists of an item and the claims of
/// a caller, and the worked corpus with one text in the place of another.
pub const OTHER_CORPORA: &str = "\
ask Ann fql|size:range(min,5,from=GT)|edges||0 total 2;item 2 score 0;item 3 score 0;\n\
ask Ann fql|size:range(\"min\",max)|edges||0 total 5;item 1 score 0;item 2 score 0;item 3 score 0;item 4 score 0;item 5 score 0;\n\
ask Ann fql|size:range(5,3)|edges||0 total 0;\n\
ask Ann fql|size:range(9223372036854775807,max,from=GT)|edges||0 total 0;\n\
ask Ann fql|size:range(min,-9223372036854775808,to=LT)|edges||0 total 0;\n\
ask Ann fql|write:range(2024-01-01,2024-01-01)|edges||0 total 2;item 2 score 0;item 3 score 0;\n\
ask Ann fql|write:range(2024-01-01,max,from=GT)|edges||0 total 2;item 4 score 0;item 5 score 0;\n\
ask Ann fql|write:range(min,2024-01-01,to=LT)|edges||0 total 1;item 1 score 0;\n\
ask Ann fql|public:no|edges||0 total 1;item 1 score 0;\n\
ask Ann kql|*|guarded||0 total 1;item 1 score 10;\n\
ask Bob kql|*|guarded||0 total 0;\n\
ask Ann kql|STRASSE|merger of the old bank and the new bank|Straße|0 total 1;item 1 score 10;\n\
ask Bob kql|debt|item\t3\t20|item\t3\t21|0 total 2;item 3 score 21;item 2 score 20;\n\
ask Bob kql|debt|deny;value\ttitle\tDebt|deny\tboard;value\ttitle\tDebt|0 total 1;item 3 score 20;\n\
ask Ann kql|debt|SQCORPUS 1|SQCORPUS 2|3 corpus fault 602 line 1;\n\
lower|size>5|property\tsize|property\tSize_of\tinteger\t-;property\tsize|0 size:range(5,max,from=\"GT\",to=\"LE\");\n\
check|worked||0 ok 7 properties 2 callers 3 items;\n\
check|size\t5|size\tfive|3 corpus fault 603 line 18;\n\
check|value\ttitle\tAnnual|value\tcolour\tAnnual|3 corpus fault 604 line 14;\n\
check|item\t2|item\t1|3 corpus fault 606 line 19;";

/// A corpus text is read, or its first fault is told: header, properties, callers, items, values, escapes, UTF-8.
pub const CHECKED: &str = "\
check|||3 corpus fault 602 line 1;\n\
check||SQCORPUS 2;|3 corpus fault 602 line 1;\n\
check||SQCORPUS 1|3 corpus fault 602 line 1;\n\
check||SQCORPUS 1;|0 ok 0 properties 0 callers 0 items;\n\
check||SQCORPUS 1\r;|3 corpus fault 602 line 1;\n\
check||\u{feff}SQCORPUS 1;|3 corpus fault 602 line 1;\n\
check||SQCORPUS 1;;|3 corpus fault 602 line 2;\n\
check||SQCORPUS 1;SQCORPUS 1;|3 corpus fault 602 line 2;\n\
check||SQCORPUS 1;property\ttitle\ttext\t-\r;|3 corpus fault 602 line 2;\n\
check||SQCORPUS 1;property\ttitle\ttext\t;|3 corpus fault 602 line 2;\n\
check||SQCORPUS 1;property\ttitle\ttext\tms;|3 corpus fault 602 line 2;\n\
check||SQCORPUS 1;property\ttitle\twords\t-;|3 corpus fault 602 line 2;\n\
check||SQCORPUS 1;property\tsize\tinteger\ts;|3 corpus fault 602 line 2;\n\
check||SQCORPUS 1;property\tdraft\tyesno\ts;|3 corpus fault 602 line 2;\n\
check||SQCORPUS 1;property\t9\ttext\t-;|3 corpus fault 602 line 2;\n\
check||SQCORPUS 1;property\ttitle\ttext;|3 corpus fault 602 line 2;\n\
check||SQCORPUS 1;property\ttitle\ttext\t-;property\tTitle\tinteger\t-;|3 corpus fault 605 line 3;\n\
check||SQCORPUS 1;property\ttitle\ttext\t-;property\tTitle\tinteger\ts;|3 corpus fault 602 line 3;\n\
check||SQCORPUS 1;property\ttitle\ttext\ts;property\tTITLE\tyesno\ts;|3 corpus fault 602 line 3;\n\
check||SQCORPUS 1;value\ttitle\tx;|3 corpus fault 602 line 2;\n\
check|head||0 ok 5 properties 1 callers 0 items;\n\
check|head|property\tx\ttext\t-;|3 corpus fault 602 line 8;\n\
check|head|caller;|3 corpus fault 602 line 8;\n\
check|head|caller\tAnn;|3 corpus fault 605 line 8;\n\
check|head|caller\tAnn\t;|3 corpus fault 605 line 8;\n\
check|head|caller\tann;|0 ok 5 properties 2 callers 0 items;\n\
check|head|caller\t;|3 corpus fault 607 line 8;\n\
check|head|caller\tBo\u{7f}b;|3 corpus fault 607 line 8;\n\
check|head|caller\tBob\t;|3 corpus fault 607 line 8;\n\
check|head|caller\tBob\r;|3 corpus fault 607 line 8;\n\
check|head|allow\tstaff;|3 corpus fault 602 line 8;\n\
check|head|item\t1\t0;|3 corpus fault 602 line 8;\n\
check|head|item\t1\t0\tu\tv;|3 corpus fault 602 line 8;\n\
check|head|item\t01\t-0\tu;allow;deny;|0 ok 5 properties 1 callers 1 items;\n\
check|head|item\t-0\t0\tu;|3 corpus fault 603 line 8;\n\
check|head|item\t0\t0\tu;|3 corpus fault 603 line 8;\n\
check|head|item\t+1\t0\tu;|3 corpus fault 603 line 8;\n\
check|head|item\t4294967294\t1000000000\tu;allow;deny;|0 ok 5 properties 1 callers 1 items;\n\
check|head|item\t4294967295\t0\tu;|3 corpus fault 603 line 8;\n\
check|head|item\t1\t-1000000000\tu;allow;deny;|0 ok 5 properties 1 callers 1 items;\n\
check|head|item\t1\t-1000000001\tu;|3 corpus fault 603 line 8;\n\
check|head|item\t1\t1000000001\tu;|3 corpus fault 603 line 8;\n\
check|head|item\t1\t0\ta\\b;|3 corpus fault 607 line 8;\n\
check|head|item\t1\t0\ta\\;|3 corpus fault 607 line 8;\n\
check|head|item\tx\t0\ta\\b;|3 corpus fault 603 line 8;\n\
check|head|item\t1\t0\tu;|3 corpus fault 602 line 9;\n\
check|head|item\t1\t0\tu;allow;|3 corpus fault 602 line 10;\n\
check|head|item\t1\t0\tu;allow;allow;deny;|3 corpus fault 602 line 10;\n\
check|head|item\t1\t0\tu;allow;deny|3 corpus fault 602 line 10;\n\
check|head|item\t1\t0\tu;deny;allow;|3 corpus fault 602 line 9;\n\
check|head|item\t1\t0\tu;allow\t;deny;|3 corpus fault 607 line 9;\n\
check|head|item\t1\t0\tu;allow;deny;deny;|3 corpus fault 602 line 11;\n\
check|item|item\t5\t0\tu;|3 corpus fault 606 line 11;\n\
check|item|item\t4\t0\tu;|3 corpus fault 606 line 11;\n\
check|item|item\t6\t0\tu;allow;deny;|0 ok 5 properties 1 callers 2 items;\n\
check|item|caller\tBob;|3 corpus fault 602 line 11;\n\
check|item|value\ttitle;|3 corpus fault 602 line 11;\n\
check|item|value\ttitle\ta\tb;|3 corpus fault 602 line 11;\n\
check|item|value\tcolour\tred;|3 corpus fault 604 line 11;\n\
check|item|value\tcolour\t\u{1};|3 corpus fault 604 line 11;\n\
check|item|value\tTITLE\ta\\tb\\n\\r\\\\;|0 ok 5 properties 1 callers 1 items;\n\
check|item|value\ttitle\ta\\xb;|3 corpus fault 607 line 11;\n\
check|item|value\ttitle\ta\u{1}b;|3 corpus fault 607 line 11;\n\
check|item|value\ttitle\t;|0 ok 5 properties 1 callers 1 items;\n\
check|item|value\ttitle\ta\r;|0 ok 5 properties 1 callers 1 items;\n\
check|item|value\tsize\tfive;|3 corpus fault 603 line 11;\n\
check|item|value\tsize\t9223372036854775808;|3 corpus fault 603 line 11;\n\
check|item|value\tsize\t-9223372036854775808;|0 ok 5 properties 1 callers 1 items;\n\
check|item|value\ttitle\ta;value\ttitle\tb;|3 corpus fault 605 line 12;\n\
check|item|value\ttitle\ta;value\ttitle\tb\\x;|3 corpus fault 605 line 12;\n\
check|item|value\tsize\t1;value\tsize\tx;|3 corpus fault 603 line 12;\n\
check|item|value\ttags\ta;value\tTags\tb;|0 ok 5 properties 1 callers 1 items;\n\
check|item|value\twrite\t0001-01-01T00:00:00Z;|0 ok 5 properties 1 callers 1 items;\n\
check|item|value\twrite\t9999-12-31T23:59:59Z;|0 ok 5 properties 1 callers 1 items;\n\
check|item|value\twrite\t2016-12-31T23:59:60Z;|3 corpus fault 607 line 11;\n\
check|item|value\twrite\t2024-02-29T12:00:00+01:00;|3 corpus fault 607 line 11;\n\
check|item|value\twrite\t2024-02-29;|3 corpus fault 607 line 11;\n\
check|item|value\twrite\t2023-02-29T00:00:00;|3 corpus fault 607 line 11;\n\
check|item|value\twrite\t2024-02-29T12:00:00.123456789;|0 ok 5 properties 1 callers 1 items;\n\
check|item|value\tpublic\ttrue;|0 ok 5 properties 1 callers 1 items;\n\
check|item|value\tpublic\tyes;|3 corpus fault 607 line 11;\n\
check|item|value\tpublic\tTRUE;|3 corpus fault 607 line 11;\n\
check|item|value\ttitle\tx|3 corpus fault 602 line 11;\n\
check|item|value\tcolour\tx;value\ttitle;|3 corpus fault 604 line 11;\n\
check||~|3 corpus fault 601 line 1;\n\
check||SQCORPUS 1;~;|3 corpus fault 601 line 2;\n\
check||SQCORPUS 1;caller\tAnn^\t\u{1};|3 corpus fault 601 line 2;\n\
check||SQCORPUS 1;property;~;|3 corpus fault 602 line 2;";

/// Lengths and counts end at their limits.
pub const LIMITS: &str = "\
check||SQCORPUS 1;caller\t{128*x};|0 ok 0 properties 1 callers 0 items;\n\
check||SQCORPUS 1;caller\t{129*x};|3 corpus fault 607 line 2;\n\
check||SQCORPUS 1;caller\tAnn\t{128*x};|0 ok 0 properties 1 callers 0 items;\n\
check||SQCORPUS 1;caller\tAnn\t{129*x};|3 corpus fault 607 line 2;\n\
check||SQCORPUS 1;caller\tAnn{65*\tx};|0 ok 0 properties 1 callers 0 items;\n\
check||SQCORPUS 1;item\t1\t0\tu;allow{64*\tx};deny;|0 ok 0 properties 0 callers 1 items;\n\
check||SQCORPUS 1;item\t1\t0\tu;allow{65*\tx};deny;|3 corpus fault 608 line 3;\n\
check||SQCORPUS 1;item\t1\t0\tu;allow{65*\tx}\t;deny;|3 corpus fault 607 line 3;\n\
check||SQCORPUS 1;item\t1\t0\tu;allow;deny{65*\tx};|3 corpus fault 608 line 4;\n\
check||SQCORPUS 1;property\tp\ttext\tm;item\t1\t0\tu;allow;deny;{1000*value\tp\tx;}|0 ok 1 properties 0 callers 1 items;\n\
check||SQCORPUS 1;property\tp\ttext\tm;item\t1\t0\tu;allow;deny;{1001*value\tp\tx;}|3 corpus fault 608 line 1006;\n\
check||SQCORPUS 1;{64*property\tp#\ttext\t-;}|0 ok 64 properties 0 callers 0 items;\n\
check||SQCORPUS 1;{65*property\tp#\ttext\t-;}|3 corpus fault 608 line 66;\n\
check||SQCORPUS 1;{10000*caller\tx#;}|0 ok 0 properties 10000 callers 0 items;\n\
check||SQCORPUS 1;{10001*caller\tx#;}|3 corpus fault 608 line 10002;";

/// A made corpus, asked twelve times; the corpus's text isn't read.
pub const REHEARSED: &str = "\
rehearse 1||no corpus|0 reader 1 total 1 first 1 score 37;reader 2 total 0;reader 3 total 0;reader 4 total 0;reader 5 total 1 first 1 score 37;reader 6 total 1 first 1 score 37;chief 1 total 1 first 1 score 37;chief 2 total 0;chief 3 total 0;chief 4 total 0;chief 5 total 1 first 1 score 37;chief 6 total 1 first 1 score 37;\n\
rehearse 12||no corpus|0 reader 1 total 5 first 8 score 94;reader 2 total 0;reader 3 total 0;reader 4 total 0;reader 5 total 1 first 1 score 37;reader 6 total 8 first 5 score 134;chief 1 total 7 first 8 score 94;chief 2 total 1 first 12 score 40;chief 3 total 0;chief 4 total 1 first 12 score 40;chief 5 total 2 first 1 score 37;chief 6 total 11 first 5 score 134;";
