//! Rows of KQL texts, spelled as [the tests](super) read them.

/// What is found: of each construct, sign, relation and operator the hits with their scores, and the refusals;
/// 64 levels and no more; 20,480 bytes and no more; 256 forms of a NEAR and no more, the last eight rows but the
/// refused ones.
pub const ASKED: &str = "\
ask Ann kql|debt|0 total 1;item 2 score 20;\n\
ask Bob kql|debt|0 total 2;item 2 score 20;item 3 score 20;\n\
ask Bob kql|notes company|0 total 1;item 2 score 20;\n\
ask Bob kql|\"notes acquisition\"|0 total 0;\n\
ask Ann kql|\"old bank\" ann*|0 total 1;item 1 score 10;\n\
ask Ann kql|old & bank|0 total 1;item 1 score 10;\n\
ask Ann kql|- debt|0 total 1;item 2 score 20;\n\
ask Ann kql|debt and notes|0 total 0;\n\
ask Ann kql|*|0 total 2;item 2 score 20;item 1 score 10;\n\
ask Ann kql|WORDS(debt, merger)|0 total 2;item 2 score 20;item 1 score 10;\n\
ask Ann kql|docx OR (old AND new)|0 total 1;item 1 score 10;\n\
ask Bob kql|acquisition ONEAR(n=2) debt|0 total 1;item 2 score 20;\n\
ask Bob kql|acquisition ONEAR(n=1) debt|0 total 0;\n\
ask Bob kql|(merger OR acquisition) NEAR(n=2) (bank OR debt)|0 total 2;item 2 score 20;item 3 score 20;\n\
ask Bob kql|merger NEAR(n=2) (\"old bank\" OR bank)|0 total 1;item 1 score 10;\n\
ask Bob kql|(merger NEAR old) NEAR(n=4) new|0 total 0;\n\
ask Bob kql|\"old bank\" ONEAR(n=2) bank|0 total 0;\n\
ask Bob kql|-debt|0 total 1;item 1 score 10;\n\
ask Bob kql|-board -merger|0 total 1;item 2 score 20;\n\
ask Bob kql|title:debt title:board|0 total 2;item 2 score 20;item 3 score 20;\n\
ask Bob kql|+title:debt +title:board|0 total 0;\n\
ask Bob kql|+title:debt title:board|0 total 0;\n\
ask Ann kql|title:\"annual report\"|0 total 1;item 1 score 10;\n\
ask Ann kql|title=annual|0 total 0;\n\
ask Ann kql|title<>\"annual report\"|0 total 1;item 2 score 20;\n\
ask Ann kql|(merger OR takeover) author:\"ann smith\" filetype:docx size>=5 -draft|0 total 1;item 1 score 10;\n\
ask Ann kql|size:5..6|0 total 1;item 1 score 10;\n\
ask Ann kql|size>5|0 total 1;item 2 score 20;\n\
ask Ann kql|size<>7|0 total 1;item 1 score 10;\n\
ask Ann kql|size<=9223372036854775807 size>-9223372036854775808|0 total 2;item 2 score 20;item 1 score 10;\n\
ask Ann kql|public:true|0 total 0;\n\
ask Ann kql|write:2024-02-29|0 total 1;item 2 score 20;\n\
ask Ann kql|write<>2024-02-29|0 total 1;item 1 score 10;\n\
ask Ann kql|write<2024-02-29T12:00:00|0 total 0;\n\
ask Ann kql|write<=2024-02-29T12:00:00Z|0 total 1;item 2 score 20;\n\
ask Ann kql|write:today|0 total 1;item 2 score 20;\n\
ask Ann kql|write:\"last month\"|0 total 0;\n\
ask Ann kql|write:2024-02-28..\"this week\"|0 total 1;item 2 score 20;\n\
ask Bob kql|debt XRANK(cb=5) before|0 total 2;item 3 score 25;item 2 score 20;\n\
ask Bob kql|debt XRANK(cb=5) (before OR acquisition)|0 total 2;item 2 score 25;item 3 score 25;\n\
ask Bob kql|(title:debt XRANK(cb=-5) notes) OR memo|0 total 2;item 3 score 20;item 2 score 15;\n\
ask Ann kql||1 fault 102 at 0;\n\
ask Ann kql|debt AND|1 fault 104 at 8;\n\
ask Ann kql|debt XRANK(rb=0.4) x|1 fault 109 at 11;\n\
ask Ann kql|(colour:red|1 fault 106 at 11;\n\
ask Ann kql|colour:red|1 fault 301 at 0;\n\
ask Ann kql|title<a|1 fault 302 at 0;\n\
ask Ann kql|size<abc colour:red|1 fault 303 at 5;\n\
ask Ann kql|size:99999999999999999999|1 fault 304 at 5;\n\
ask Ann kql|write:2023-02-29|1 fault 305 at 6;\n\
ask Ann kql|public:maybe|1 fault 306 at 7;\n\
ask Ann kql|title:\"&\"|1 fault 307 at 6;\n\
ask Ann kql|debt NEAR size:7|1 fault 308 at 10;\n\
ask Ann kql|debt NEAR colour:red|1 fault 301 at 10;\n\
ask Zed kql|(|1 fault 511 at 0;\n\
ask Ann kql|write:\"this year\"|0 total 1;item 2 score 20;\n\
ask Ann kql|write:2024-01-01..2024-12-31|0 total 1;item 2 score 20;\n\
ask Ann kql|write<\"this week\" OR write>\"this week\"|0 total 0;\n\
ask Ann kql|write>=2024-02-29T12:00:01|0 total 0;\n\
ask Bob kql|{64*(}debt{64*)}|0 total 2;item 2 score 20;item 3 score 20;\n\
ask Bob kql|{65*(}debt{65*)}|1 fault 107 at 64;\n\
ask Ann kql|m* NEAR m* NEAR (m* OR \"old bank\") NEAR m*|0 total 1;item 1 score 10;\n\
ask Ann kql|(a OR \"a b\") NEAR (a OR \"a b\") NEAR (a OR \"a b\") NEAR (a OR \"a b\") NEAR (a OR \"a b\")|1 fault 311 at 0;\n\
ask Ann kql|(a OR \"a b\") NEAR (a OR \"a b\") NEAR (a OR \"a b\") NEAR (a OR \"a b\")|0 total 0;\n\
ask Bob kql|DEBT|0 total 2;item 2 score 20;item 3 score 20;\n\
ask Bob kql|size<8 -before|0 total 2;item 2 score 20;item 1 score 10;\n\
ask Bob kql|write<>1970-01-01T00:00:00Z|0 total 3;item 2 score 20;item 3 score 20;item 1 score 10;\n\
ask Bob kql|debt XRANK(cb=5) before OR memo|0 total 2;item 3 score 25;item 2 score 20;\n\
ask Ann kql|{5120*a }{5120* b}|0 total 0;\n\
ask Ann kql|{10240*a }|0 total 0;\n\
ask Ann kql|a{20479* }|0 total 0;\n\
ask Ann kql|a{20480* }|1 fault 101 at 20480;\n\
ask Ann kql|(a OR \"b c\") NEAR (a OR \"b c\") NEAR (a OR \"b c\") NEAR (a OR \"b c\")|0 total 0;\n\
ask Ann kql|WORDS(a, \"a a\") NEAR WORDS(a, \"a a a\") NEAR WORDS(a, \"a a a a a\") NEAR WORDS(\"a a a a\", \"a a a a\", \"a a a a\")|0 total 0;\n\
ask Ann kql|(WORDS(a, \"a a\") NEAR WORDS(a, \"a a a\") OR a) NEAR WORDS(a, \"a a\", \"a a a\", \"a a a a\", \"a a a a a\", \"a a a a a a\", \"a a a a a a a\", \"a a a a a a a a\", \"a a a a a a a a a\", \"a a a a a a a a a a\", \"a a a a a a a a a a a\", \"a a a a a a a a a a a a\")|0 total 0;\n\
ask Ann kql|WORDS(a, \"a a\", \"a a a\", \"a a a a\", \"a a a a a\", \"a a a a a a\", \"a a a a a a a\", \"a a a a a a a a\", \"a a a a a a a a a\", \"a a a a a a a a a a\", \"a a a a a a a a a a a\", \"a a a a a a a a a a a a\", \"a a a a a a a a a a a a a\", \"a a a a a a a a a a a a a a\", \"a a a a a a a a a a a a a a a\", \"a a a a a a a a a a a a a a a a\") NEAR WORDS(a, \"a a\", \"a a a\", \"a a a a\", \"a a a a a\", \"a a a a a a\", \"a a a a a a a\", \"a a a a a a a a\", \"a a a a a a a a a\", \"a a a a a a a a a a\", \"a a a a a a a a a a a\", \"a a a a a a a a a a a a\", \"a a a a a a a a a a a a a\", \"a a a a a a a a a a a a a a\", \"a a a a a a a a a a a a a a a\", \"a a a a a a a a a a a a a a a a\")|0 total 0;";

/// What a text is lowered to, or its first fault and the place: lexemes, their order, what binds tighter, the
/// types of values, dates and their names about the moment, numbers at their ends, runs and their groups, and
/// texts at their longest.
pub const LOWERED: &str = "\
lower|debt|0 string(\"debt\");\n\
lower|Debt|0 string(\"Debt\");\n\
lower|\"company debt\"|0 string(\"company debt\");\n\
lower|acqui*|0 string(\"acqui*\");\n\
lower|\"old ban*\"|0 string(\"old ban*\");\n\
lower|Straße|0 string(\"Straße\");\n\
lower|a\\b|0 string(\"a\\\\b\");\n\
lower|\"a\\b c\"|0 string(\"a\\\\b c\");\n\
lower|7|0 string(7);\n\
lower|\"-7\"|0 string(-7);\n\
lower|007|0 string(007);\n\
lower|7.5|0 string(\"7.5\");\n\
lower|max|0 string(max);\n\
lower|MAX|0 string(\"MAX\");\n\
lower|\"min\"|0 string(min);\n\
lower|*|0 *;\n\
lower|WORDS(debt, \"old bank\")|0 words(\"debt\",\"old bank\");\n\
lower|WORDS(debt)|0 words(\"debt\");\n\
lower|WORDS(min, 07, x*)|0 words(min,07,\"x*\");\n\
lower|((debt))|0 string(\"debt\");\n\
lower|+debt|0 string(\"debt\");\n\
lower|title:debt|0 title:string(\"debt\");\n\
lower|TITLE:debt|0 title:string(\"debt\");\n\
lower|title:\"debt no*\"|0 title:string(\"debt no*\");\n\
lower|title:5|0 title:string(5);\n\
lower|title=debt|0 title:equals(string(\"debt\"));\n\
lower|title=\"Debt notes\"|0 title:equals(string(\"Debt notes\"));\n\
lower|title<>debt|0 not(title:equals(string(\"debt\")));\n\
lower|size:5|0 size:5;\n\
lower|size:005|0 size:5;\n\
lower|size=-0|0 size:0;\n\
lower|size=\"-12\"|0 size:-12;\n\
lower|size<>5|0 not(size:5);\n\
lower|size<5|0 size:range(min,5,from=\"GE\",to=\"LT\");\n\
lower|size>-3|0 size:range(-3,max,from=\"GT\",to=\"LE\");\n\
lower|size<=5|0 size:range(min,5,from=\"GE\",to=\"LE\");\n\
lower|size>=5|0 size:range(5,max,from=\"GE\",to=\"LE\");\n\
lower|size:5..7|0 size:range(5,7,from=\"GE\",to=\"LE\");\n\
lower|size:7..-7|0 size:range(7,-7,from=\"GE\",to=\"LE\");\n\
lower|size<-9223372036854775808|0 size:range(min,-9223372036854775808,from=\"GE\",to=\"LT\");\n\
lower|size>9223372036854775807|0 size:range(9223372036854775807,max,from=\"GT\",to=\"LE\");\n\
lower|write:2024-02-29|0 write:range(\"2024-02-29T00:00:00Z\",\"2024-02-29T23:59:59Z\",from=\"GE\",to=\"LE\");\n\
lower|write=2024-02-29T12:00:00Z|0 write:range(\"2024-02-29T12:00:00Z\",\"2024-02-29T12:00:00Z\",from=\"GE\",to=\"LE\");\n\
lower|write<>2024-02-29|0 not(write:range(\"2024-02-29T00:00:00Z\",\"2024-02-29T23:59:59Z\",from=\"GE\",to=\"LE\"));\n\
lower|write<2024-02-29|0 write:range(min,\"2024-02-29T00:00:00Z\",from=\"GE\",to=\"LT\");\n\
lower|write>2024-02-29|0 write:range(\"2024-02-29T23:59:59Z\",max,from=\"GT\",to=\"LE\");\n\
lower|write<=2024-02-29|0 write:range(min,\"2024-02-29T23:59:59Z\",from=\"GE\",to=\"LE\");\n\
lower|write>=2024-02-29|0 write:range(\"2024-02-29T00:00:00Z\",max,from=\"GE\",to=\"LE\");\n\
lower|write:2023-12-31..2024-02-29|0 write:range(\"2023-12-31T00:00:00Z\",\"2024-02-29T23:59:59Z\",from=\"GE\",to=\"LE\");\n\
lower|write<0001-01-01|0 write:range(min,\"0001-01-01T00:00:00Z\",from=\"GE\",to=\"LT\");\n\
lower|write>9999-12-31|0 write:range(\"9999-12-31T23:59:59Z\",max,from=\"GT\",to=\"LE\");\n\
lower|write:today|0 write:range(\"2024-02-29T00:00:00Z\",\"2024-02-29T23:59:59Z\",from=\"GE\",to=\"LE\");\n\
lower|write=yesterday|0 write:range(\"2024-02-28T00:00:00Z\",\"2024-02-28T23:59:59Z\",from=\"GE\",to=\"LE\");\n\
lower|write:\"this week\"|0 write:range(\"2024-02-26T00:00:00Z\",\"2024-03-03T23:59:59Z\",from=\"GE\",to=\"LE\");\n\
lower|write:\"this month\"|0 write:range(\"2024-02-01T00:00:00Z\",\"2024-02-29T23:59:59Z\",from=\"GE\",to=\"LE\");\n\
lower|write:\"last month\"|0 write:range(\"2024-01-01T00:00:00Z\",\"2024-01-31T23:59:59Z\",from=\"GE\",to=\"LE\");\n\
lower|write:\"this year\"|0 write:range(\"2024-01-01T00:00:00Z\",\"2024-12-31T23:59:59Z\",from=\"GE\",to=\"LE\");\n\
lower|write:\"LAST YEAR\"|0 write:range(\"2023-01-01T00:00:00Z\",\"2023-12-31T23:59:59Z\",from=\"GE\",to=\"LE\");\n\
lower|write<\"this week\"|0 write:range(min,\"2024-02-26T00:00:00Z\",from=\"GE\",to=\"LT\");\n\
lower|write>yesterday|0 write:range(\"2024-02-28T23:59:59Z\",max,from=\"GT\",to=\"LE\");\n\
lower|write<>\"this week\"|0 not(write:range(\"2024-02-26T00:00:00Z\",\"2024-03-03T23:59:59Z\",from=\"GE\",to=\"LE\"));\n\
lower|write:2024-02-28..\"this week\"|0 write:range(\"2024-02-28T00:00:00Z\",\"2024-03-03T23:59:59Z\",from=\"GE\",to=\"LE\");\n\
lower|public:true|0 public:\"true\";\n\
lower|public=YES|0 public:\"true\";\n\
lower|public:1|0 public:\"true\";\n\
lower|public:no|0 public:\"false\";\n\
lower|public<>0|0 not(public:\"false\");\n\
lower|a NEAR b|0 near(string(\"a\"),string(\"b\"),N=8);\n\
lower|a NEAR(n=3) b|0 near(string(\"a\"),string(\"b\"),N=3);\n\
lower|a ONEAR b|0 onear(string(\"a\"),string(\"b\"),N=8);\n\
lower|a ONEAR(1000) b|0 onear(string(\"a\"),string(\"b\"),N=1000);\n\
lower|a NEAR b NEAR(2) c|0 near(near(string(\"a\"),string(\"b\"),N=8),string(\"c\"),N=2);\n\
lower|a ONEAR (b NEAR c)|0 onear(string(\"a\"),near(string(\"b\"),string(\"c\"),N=8),N=8);\n\
lower|(merger OR \"old bank\") NEAR(2) WORDS(new, 5)|0 near(or(string(\"merger\"),string(\"old bank\")),words(\"new\",5),N=2);\n\
lower|-a NEAR b|0 not(near(string(\"a\"),string(\"b\"),N=8));\n\
lower|a NEAR b c|0 and(near(string(\"a\"),string(\"b\"),N=8),string(\"c\"));\n\
lower|debt notes|0 and(string(\"debt\"),string(\"notes\"));\n\
lower|debt +notes 5|0 and(string(\"debt\"),string(\"notes\"),string(5));\n\
lower|(a b) c|0 and(and(string(\"a\"),string(\"b\")),string(\"c\"));\n\
lower|-debt|0 not(string(\"debt\"));\n\
lower|NOT debt|0 not(string(\"debt\"));\n\
lower|- debt|0 string(\"debt\");\n\
lower|-*|0 not(*);\n\
lower|* -debt|0 andnot(*,string(\"debt\"));\n\
lower|-a -b|0 not(or(string(\"a\"),string(\"b\")));\n\
lower|-a NOT b -c|0 not(or(string(\"a\"),string(\"b\"),string(\"c\")));\n\
lower|x -a|0 andnot(string(\"x\"),string(\"a\"));\n\
lower|-a x -b y|0 andnot(and(string(\"x\"),string(\"y\")),string(\"a\"),string(\"b\"));\n\
lower|-(a b)|0 not(and(string(\"a\"),string(\"b\")));\n\
lower|-title:a title:b|0 andnot(title:string(\"b\"),title:string(\"a\"));\n\
lower|-title:a -title:b|0 not(or(title:string(\"a\"),title:string(\"b\")));\n\
lower|title:debt title:board|0 or(title:string(\"debt\"),title:string(\"board\"));\n\
lower|+title:debt +title:board|0 and(title:string(\"debt\"),title:string(\"board\"));\n\
lower|title:a +title:b|0 and(title:string(\"b\"),title:string(\"a\"));\n\
lower|+title:a title:b title=c|0 and(title:string(\"a\"),or(title:string(\"b\"),title:equals(string(\"c\"))));\n\
lower|title<>a title:b|0 and(not(title:equals(string(\"a\"))),title:string(\"b\"));\n\
lower|(title:a) title:b title:c|0 and(title:string(\"a\"),or(title:string(\"b\"),title:string(\"c\")));\n\
lower|author:ann title:debt author:bob x|0 and(string(\"x\"),or(author:string(\"ann\"),author:string(\"bob\")),title:string(\"debt\"));\n\
lower|title:a author:b TITLE=c Author:d title:e|0 and(or(title:string(\"a\"),title:equals(string(\"c\")),title:string(\"e\")),or(author:string(\"b\"),author:string(\"d\")));\n\
lower|size:1 size=2 size:3..4 size>9|0 and(size:range(9,max,from=\"GT\",to=\"LE\"),or(size:1,size:2,size:range(3,4,from=\"GE\",to=\"LE\")));\n\
lower|size>=1 size<=9|0 and(size:range(1,max,from=\"GE\",to=\"LE\"),size:range(min,9,from=\"GE\",to=\"LE\"));\n\
lower|size<>1 size<>2 -x|0 andnot(and(not(size:1),not(size:2)),string(\"x\"));\n\
lower|public:yes public:no size:5|0 and(or(public:\"true\",public:\"false\"),size:5);\n\
lower|write:today size:5 write:yesterday|0 and(or(write:range(\"2024-02-29T00:00:00Z\",\"2024-02-29T23:59:59Z\",from=\"GE\",to=\"LE\"),write:range(\"2024-02-28T00:00:00Z\",\"2024-02-28T23:59:59Z\",from=\"GE\",to=\"LE\")),size:5);\n\
lower|(merger OR takeover) author:\"ann smith\" filetype:docx size>=5 -draft|0 andnot(and(or(string(\"merger\"),string(\"takeover\")),size:range(5,max,from=\"GE\",to=\"LE\"),author:string(\"ann smith\"),filetype:string(\"docx\")),string(\"draft\"));\n\
lower|a AND b|0 and(string(\"a\"),string(\"b\"));\n\
lower|a AND b c AND -d|0 and(string(\"a\"),and(string(\"b\"),string(\"c\")),not(string(\"d\")));\n\
lower|title:a title:b AND title:c|0 and(or(title:string(\"a\"),title:string(\"b\")),title:string(\"c\"));\n\
lower|title:a AND title:b|0 and(title:string(\"a\"),title:string(\"b\"));\n\
lower|a OR b OR c|0 or(string(\"a\"),string(\"b\"),string(\"c\"));\n\
lower|a b OR c AND d|0 or(and(string(\"a\"),string(\"b\")),and(string(\"c\"),string(\"d\")));\n\
lower|a OR -b|0 or(string(\"a\"),not(string(\"b\")));\n\
lower|debt XRANK(cb=5) before|0 xrank(string(\"debt\"),string(\"before\"),cb=5);\n\
lower|a XRANK(cb=1) b XRANK(n=9, cb=-2) c|0 xrank(xrank(string(\"a\"),string(\"b\"),cb=1),string(\"c\"),cb=-2);\n\
lower|a OR b XRANK(cb=1000000) c -d|0 xrank(or(string(\"a\"),string(\"b\")),andnot(string(\"c\"),string(\"d\")),cb=1000000);\n\
lower|x (a XRANK(cb=0) title:b)|0 and(string(\"x\"),xrank(string(\"a\"),title:string(\"b\"),cb=0));\n\
lower||1 fault 102 at 0;\n\
lower|title:\"a|1 fault 103 at 6;\n\
lower|debt AND|1 fault 104 at 8;\n\
lower|a) b|1 fault 105 at 1;\n\
lower|(debt|1 fault 106 at 5;\n\
lower|x NEAR(n=1001) y|1 fault 108 at 2;\n\
lower|debt XRANK(rb=0.4) x|1 fault 109 at 11;\n\
lower|WORDS(title:x)|1 fault 110 at 0;\n\
lower|title:|1 fault 111 at 6;\n\
lower|ba*k|1 fault 112 at 2;\n\
lower|+-debt|1 fault 113 at 1;\n\
lower|x colour:red|1 fault 301 at 2;\n\
lower|title<a|1 fault 302 at 0;\n\
lower|title:a..b|1 fault 302 at 0;\n\
lower|size<abc colour:red|1 fault 303 at 5;\n\
lower|size:99999999999999999999|1 fault 304 at 5;\n\
lower|write:2023-02-29|1 fault 305 at 6;\n\
lower|public:maybe|1 fault 306 at 7;\n\
lower|title:\"&\"|1 fault 307 at 6;\n\
lower|debt NEAR size:7|1 fault 308 at 10;\n\
lower|(a OR \"a b\") NEAR (a OR \"a b\") NEAR (a OR \"a b\") NEAR (a OR \"a b\") NEAR (a OR \"a b\")|1 fault 311 at 0;\n\
lower|)|1 fault 105 at 0;\n\
lower|debt NEAR -x|1 fault 104 at 10;\n\
lower|(colour:red|1 fault 106 at 11;\n\
lower|&|1 fault 102 at 0;\n\
lower|debt XRANK(cb=0.5) x|1 fault 108 at 5;\n\
lower|-\"\"|1 fault 104 at 3;\n\
lower|a) b) ba*k|1 fault 112 at 8;\n\
lower|a) b AND|1 fault 105 at 1;\n\
lower|NOT NOT a|1 fault 113 at 4;\n\
lower|(a NEAR)|1 fault 104 at 7;\n\
lower|size<abc|1 fault 303 at 5;\n\
lower|colour:red size<abc|1 fault 301 at 0;\n\
lower|SIZE:99999999999999999999|1 fault 304 at 5;\n\
lower|size:5..x size:x..5|1 fault 303 at 8;\n\
lower|debt NEAR title<a|1 fault 302 at 10;\n\
lower|debt NEAR size:abc|1 fault 308 at 10;\n\
lower|debt NEAR (size:abc x)|1 fault 308 at 11;\n\
lower|debt NEAR *|1 fault 308 at 10;\n\
lower|(a OR \"b c\") NEAR (a OR \"b c\") NEAR (a OR \"b c\") NEAR (a OR \"b c\") NEAR (a OR \"b c\")|1 fault 311 at 0;\n\
lower|(a OR \"b c\") NEAR (a OR \"b c\") NEAR (a OR \"b c\") NEAR (a OR \"b c\") NEAR (a OR \"b c\") colour:red|1 fault 301 at 85;\n\
lower|WORDS(a, \"a a\") NEAR WORDS(a, \"a a a\") NEAR WORDS(a, \"a a a a a\") NEAR WORDS(\"a a a a\", \"a a a a\", \"a a a a a\")|1 fault 311 at 0;\n\
lower|(WORDS(a, \"a a\") NEAR WORDS(a, \"a a a\") OR a) NEAR WORDS(a, \"a a\", \"a a a\", \"a a a a\", \"a a a a a\", \"a a a a a a\", \"a a a a a a a\", \"a a a a a a a a\", \"a a a a a a a a a\", \"a a a a a a a a a a\", \"a a a a a a a a a a a\", \"a a a a a a a a a a a a\", \"a a a a a a a a a a a a a\")|1 fault 311 at 0;\n\
lower|WORDS(a, \"a a\", \"a a a\", \"a a a a\", \"a a a a a\", \"a a a a a a\", \"a a a a a a a\", \"a a a a a a a a\", \"a a a a a a a a a\", \"a a a a a a a a a a\", \"a a a a a a a a a a a\", \"a a a a a a a a a a a a\", \"a a a a a a a a a a a a a\", \"a a a a a a a a a a a a a a\", \"a a a a a a a a a a a a a a a\", \"a a a a a a a a a a a a a a a a\") NEAR WORDS(a, \"a a\", \"a a a\", \"a a a a\", \"a a a a a\", \"a a a a a a\", \"a a a a a a a\", \"a a a a a a a a\", \"a a a a a a a a a\", \"a a a a a a a a a a\", \"a a a a a a a a a a a\", \"a a a a a a a a a a a a\", \"a a a a a a a a a a a a a\", \"a a a a a a a a a a a a a a\", \"a a a a a a a a a a a a a a a\", \"a a a a a a a a a a a a a a a a\", \"a a a a a a a a a a a a a a a a a\")|1 fault 311 at 0;\n\
lower|a \"b|1 fault 103 at 2;\n\
lower|x NEAR(N=2) y|1 fault 108 at 2;\n\
lower|x XRANK(nb=1, rb=2) y|1 fault 109 at 8;\n\
lower|x XRANK(cb=5, CB=6) y|1 fault 108 at 2;\n\
lower|x XRANK(cb=-1000001) y|1 fault 108 at 2;\n\
lower|WORDS(a b)|1 fault 110 at 0;\n\
lower|WORDS(title:x, \"b|1 fault 103 at 15;\n\
lower|WORDS(a \"b|1 fault 110 at 0;\n\
lower|WORDS(a*b, c)|1 fault 112 at 7;\n\
lower|WORDS(a*b, &)|1 fault 110 at 0;\n\
lower|size:..|1 fault 111 at 5;\n\
lower|size:1..|1 fault 111 at 8;\n\
lower|size:..\"x|1 fault 103 at 7;\n\
lower|title:\"a*b\"|1 fault 112 at 8;\n\
lower|**|1 fault 112 at 0;\n\
lower|a\u{1f600}*|1 fault 112 at 5;\n\
lower|old & bank|0 and(string(\"old\"),string(\"bank\"));\n\
lower|debt and notes|0 and(string(\"debt\"),string(\"and\"),string(\"notes\"));\n\
lower|straße* ONEAR(3) (e\u{301}* OR *)|1 fault 308 at 27;\n\
lower|a NEAR \"b c\" -d|0 andnot(near(string(\"a\"),string(\"b c\"),N=8),string(\"d\"));\n\
lower|acquisition ONEAR(n=2) debt|0 onear(string(\"acquisition\"),string(\"debt\"),N=2);\n\
lower|write:2024-02-29 write<>2024-02-29 write:TODAY|0 and(not(write:range(\"2024-02-29T00:00:00Z\",\"2024-02-29T23:59:59Z\",from=\"GE\",to=\"LE\")),or(write:range(\"2024-02-29T00:00:00Z\",\"2024-02-29T23:59:59Z\",from=\"GE\",to=\"LE\"),write:range(\"2024-02-29T00:00:00Z\",\"2024-02-29T23:59:59Z\",from=\"GE\",to=\"LE\")));\n\
lower|debt XRANK(cb=5) (before AND *) WORDS(a, \"b c\")|0 xrank(string(\"debt\"),and(and(string(\"before\"),*),words(\"a\",\"b c\")),cb=5);\n\
lower|* -*|0 andnot(*,*);\n\
lower|write:2023-12-31|0 write:range(\"2023-12-31T00:00:00Z\",\"2023-12-31T23:59:59Z\",from=\"GE\",to=\"LE\");\n\
lower|write:2024-01-01|0 write:range(\"2024-01-01T00:00:00Z\",\"2024-01-01T23:59:59Z\",from=\"GE\",to=\"LE\");\n\
lower|write:9999-12-31|0 write:range(\"9999-12-31T00:00:00Z\",\"9999-12-31T23:59:59Z\",from=\"GE\",to=\"LE\");\n\
lower|write:0001-01-01|0 write:range(\"0001-01-01T00:00:00Z\",\"0001-01-01T23:59:59Z\",from=\"GE\",to=\"LE\");\n\
lower|write:1969-12-31|0 write:range(\"1969-12-31T00:00:00Z\",\"1969-12-31T23:59:59Z\",from=\"GE\",to=\"LE\");\n\
lower|write:2024-02-29T12:00:00.5Z|0 write:range(\"2024-02-29T12:00:00Z\",\"2024-02-29T12:00:00Z\",from=\"GE\",to=\"LE\");\n\
lower|write:2024-02-29Z|1 fault 305 at 6;\n\
lower|write:2024-02-29T23:59:60|1 fault 305 at 6;\n\
lower|write:2024-02-29..2024-03-03T12:00:00Z|0 write:range(\"2024-02-29T00:00:00Z\",\"2024-03-03T12:00:00Z\",from=\"GE\",to=\"LE\");\n\
lower|write:Yesterday|0 write:range(\"2024-02-28T00:00:00Z\",\"2024-02-28T23:59:59Z\",from=\"GE\",to=\"LE\");\n\
lower|write:\"THIS WEEK\"|0 write:range(\"2024-02-26T00:00:00Z\",\"2024-03-03T23:59:59Z\",from=\"GE\",to=\"LE\");\n\
lower|write:\"this  week\"|1 fault 305 at 6;\n\
lower|size:9223372036854775807|0 size:9223372036854775807;\n\
lower|size:-9223372036854775808|0 size:-9223372036854775808;\n\
lower|size:9223372036854775808|1 fault 304 at 5;\n\
lower|size:-9223372036854775809|1 fault 304 at 5;\n\
lower|size:-007|0 size:-7;\n\
lower|size:+7|1 fault 303 at 5;\n\
lower|size:-|1 fault 303 at 5;\n\
lower|public=Yes|0 public:\"true\";\n\
lower|public:on|1 fault 306 at 7;\n\
lower|{10239* }a{10239* }|0 string(\"a\");\n\
lower|{10240* }a{10240* }|1 fault 101 at 20480;\n\
lower|{3413*-a }{3413* OR b}|1 fault 101 at 20480;\n\
lower|{20479* }a|0 string(\"a\");\n\
lower|{20480* }a|1 fault 101 at 20480;\n\
lower|{20479*+}a|1 fault 113 at 1;\n\
lower|{20480*(}|1 fault 107 at 64;\n\
lower|{6826*\"a\"}\"a|1 fault 103 at 20478;";
