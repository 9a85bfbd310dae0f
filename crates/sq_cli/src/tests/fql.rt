//! Rows of FQL texts, spelled as [the tests](super) read them.

/// What is found, or the first fault and its place: of lexemes, reading, typing; levels, bytes and copies at their
/// limits.
pub const ASKED: &str = "\
ask Ann fql|*|0 total 2;item 2 score 20;item 1 score 10;\n\
ask Bob fql|near(or(\"old bank\",merger),new,N=2)|0 total 1;item 1 score 10;\n\
ask Bob fql|near(or(\"old bank\",merger),new,N=1)|0 total 0;\n\
ask Bob fql|near(merger,merger,N=0)|0 total 1;item 1 score 10;\n\
ask Bob fql|near(merger,or(\"old bank\",bank),N=2)|0 total 1;item 1 score 10;\n\
ask Bob fql|near(merger,old,new,N=4)|0 total 0;\n\
ask Bob fql|onear(\"old bank\",bank,N=2)|0 total 0;\n\
ask Bob fql|near(or(\"old bank\",merger),or(\"old bank\",merger),or(\"old bank\",merger),or(\"old bank\",merger),or(\"old bank\",merger),or(\"old bank\",merger),or(\"old bank\",merger),or(\"old bank\",merger))|0 total 1;item 1 score 10;\n\
ask Bob fql|xrank(debt,before,acquisition,cb=5)|0 total 2;item 2 score 25;item 3 score 25;\n\
ask Bob fql|not(debt)|0 total 1;item 1 score 10;\n\
ask Bob fql|andnot(debt,before)|0 total 1;item 2 score 20;\n\
ask Ann fql|filter(debt)|0 total 1;item 2 score 20;\n\
ask Bob fql|words(debt,merger)|0 total 3;item 2 score 20;item 3 score 20;item 1 score 10;\n\
ask Bob fql|phrase(old,\"ban*\")|0 total 1;item 1 score 10;\n\
ask Bob fql|string(\"old new\",mode=\"AND\")|0 total 1;item 1 score 10;\n\
ask Bob fql|count(bank,from=2)|0 total 1;item 1 score 10;\n\
ask Bob fql|count(bank,from=1,to=2)|0 total 0;\n\
ask Bob fql|body:starts-with(\"debt before\")|0 total 1;item 3 score 20;\n\
ask Bob fql|body:ends-with(debt)|0 total 1;item 2 score 20;\n\
ask Bob fql|title:equals(\"debt notes\")|0 total 1;item 2 score 20;\n\
ask Bob fql|size:range(6,max)|0 total 2;item 2 score 20;item 3 score 20;\n\
ask Bob fql|size:range(5,7,from=GT,to=LT)|0 total 0;\n\
ask Ann fql|write:range(2024-02-29,\"2024-03-01\")|0 total 1;item 2 score 20;\n\
ask Ann fql|write:2024-02-29|0 total 1;item 2 score 20;\n\
ask Ann fql|size:or(5,int(7))|0 total 2;item 2 score 20;item 1 score 10;\n\
ask Ann fql|public:true|0 total 0;\n\
ask Ann fql||1 fault 202 at 0;\n\
ask Ann fql|\"a|1 fault 203 at 0;\n\
ask Ann fql|foo(a)|1 fault 204 at 0;\n\
ask Ann fql|and(a,|1 fault 205 at 6;\n\
ask Ann fql|not(a,b)|1 fault 206 at 6;\n\
ask Ann fql|near(a,b,N=x)|1 fault 207 at 9;\n\
ask Ann fql|a b|1 fault 208 at 2;\n\
ask Ann fql|and(a|1 fault 209 at 5;\n\
ask Ann fql|xrank(a,b,rb=1)|1 fault 211 at 10;\n\
ask Ann fql|\"a*b\"|1 fault 212 at 0;\n\
ask Ann fql|colour:red|1 fault 301 at 0;\n\
ask Ann fql|title:*|1 fault 302 at 6;\n\
ask Ann fql|size:99999999999999999999|1 fault 304 at 5;\n\
ask Ann fql|\"&\"|1 fault 307 at 0;\n\
ask Ann fql|near(a,and(b,c))|1 fault 308 at 7;\n\
ask Ann fql|title:body:x|1 fault 309 at 6;\n\
ask Ann fql|int(5)|1 fault 310 at 0;\n\
ask Bob fql|near(or(\"old bank\",merger),or(\"old bank\",merger),or(\"old bank\",merger),or(\"old bank\",merger),or(\"old bank\",merger),or(\"old bank\",merger),or(\"old bank\",merger),or(\"old bank\",merger),or(\"old bank\",merger))|1 fault 311 at 0;\n\
ask Zed fql|(|1 fault 511 at 0;\n\
ask Ann fql|size:*|1 fault 302 at 5;\n\
ask Ann fql|nosuch:\"&\"|1 fault 301 at 0;\n\
ask Ann fql|title:nosuch:x|1 fault 301 at 6;\n\
ask Ann fql|size:x|1 fault 303 at 5;\n\
ask Ann fql|write:today|1 fault 305 at 6;\n\
ask Ann fql|public:maybe|1 fault 306 at 7;\n\
ask Ann fql|title:\"&\"|1 fault 307 at 6;\n\
ask Ann fql|title:int(5)|1 fault 302 at 6;\n\
ask Ann fql|title:range(1,2)|1 fault 302 at 6;\n\
ask Ann fql|range(\"&\",2)|1 fault 310 at 0;\n\
ask Ann fql|size:int(x)|1 fault 303 at 9;\n\
ask Ann fql|size:datetime(\"2024-01-01\")|1 fault 302 at 5;\n\
ask Ann fql|size:near(a,nosuch:b)|1 fault 302 at 5;\n\
ask Ann fql|public:range(1,2)|1 fault 302 at 7;\n\
ask Ann fql|size:words(a)|1 fault 302 at 5;\n\
ask Ann fql|not(title:*)|1 fault 302 at 10;\n\
ask Ann fql|title:not(*)|1 fault 302 at 10;\n\
ask Ann fql|size:not(x)|1 fault 303 at 9;\n\
ask Ann fql|and(size:x,nosuch:y)|1 fault 303 at 9;\n\
ask Ann fql|or(near(a,*),nosuch:b)|1 fault 308 at 10;\n\
ask Ann fql|title:near(a,*)|1 fault 302 at 13;\n\
ask Ann fql|title:near(a,int(5))|1 fault 302 at 13;\n\
ask Ann fql|near(a,int(5))|1 fault 308 at 7;\n\
ask Ann fql|near(a,title:\"&\")|1 fault 308 at 7;\n\
ask Ann fql|near(a,nosuch:b)|1 fault 301 at 7;\n\
ask Ann fql|near(a,not(\"&\"))|1 fault 308 at 7;\n\
ask Ann fql|near(a,string(\"b c\",mode=AND))|1 fault 308 at 7;\n\
ask Ann fql|phrase(\"a*\",b)|1 fault 302 at 7;\n\
ask Ann fql|phrase(\"&\",\"a*\",b)|1 fault 307 at 7;\n\
ask Ann fql|words(a,\"&\")|1 fault 307 at 8;\n\
ask Ann fql|count(and(a,b))|1 fault 302 at 6;\n\
ask Ann fql|count(title:b)|1 fault 302 at 6;\n\
ask Ann fql|count(nosuch:b)|1 fault 301 at 6;\n\
ask Ann fql|title:count(body:b)|1 fault 302 at 12;\n\
ask Ann fql|equals(string(\"a b\",mode=OR))|1 fault 302 at 7;\n\
ask Ann fql|starts-with(*)|1 fault 302 at 12;\n\
ask Ann fql|size:range(max,min)|1 fault 303 at 11;\n\
ask Ann fql|size:range(a,and(b))|1 fault 303 at 11;\n\
ask Ann fql|size:range(1,and(b))|1 fault 302 at 13;\n\
ask Ann fql|size:range(1,title:b)|1 fault 302 at 13;\n\
ask Ann fql|write:range(int(1),max)|1 fault 302 at 12;\n\
ask Ann fql|near(or(a,\"a a\"),or(a,\"a a\"),or(a,\"a a\"),or(a,\"a a\"),or(a,\"a a\"),or(a,\"a a\"),or(a,\"a a\"),or(a,\"a a\"),or(a,\"a a\"))|1 fault 311 at 0;\n\
ask Ann fql|and(a,near(or(\"old bank\",merger),or(\"old bank\",merger),or(\"old bank\",merger),or(\"old bank\",merger),or(\"old bank\",merger),or(\"old bank\",merger),or(\"old bank\",merger),or(\"old bank\",merger),or(\"old bank\",merger)))|1 fault 311 at 6;\n\
ask Ann fql| \t\r;|1 fault 202 at 0;\n\
ask Ann fql|)|1 fault 205 at 0;\n\
ask Ann fql|,a|1 fault 205 at 0;\n\
ask Ann fql|(a)|1 fault 208 at 0;\n\
ask Ann fql|a)|1 fault 208 at 1;\n\
ask Ann fql|a=b|1 fault 208 at 1;\n\
ask Ann fql|\"a\":b|1 fault 208 at 3;\n\
ask Ann fql|\"a\"(b)|1 fault 208 at 3;\n\
ask Ann fql|\"*\"|1 fault 212 at 0;\n\
ask Ann fql|**|1 fault 212 at 0;\n\
ask Ann fql|*(a)|1 fault 204 at 0;\n\
ask Ann fql|* :a|1 fault 208 at 2;\n\
ask Ann fql|5 :y|1 fault 208 at 2;\n\
ask Ann fql|title:|1 fault 205 at 6;\n\
ask Ann fql|title:)|1 fault 205 at 6;\n\
ask Ann fql|a\\\"b\"|1 fault 208 at 2;\n\
ask Ann fql|\"a\\\\\"b\"|1 fault 203 at 6;\n\
ask Ann fql|and()|1 fault 205 at 4;\n\
ask Ann fql|and(a,)|1 fault 205 at 6;\n\
ask Ann fql|and(,a)|1 fault 205 at 4;\n\
ask Ann fql|andnot(a)|1 fault 205 at 8;\n\
ask Ann fql|near(a,b,X=|1 fault 205 at 11;\n\
ask Ann fql|near(a,b,X=1)|1 fault 207 at 9;\n\
ask Ann fql|near(a,b,N|1 fault 209 at 10;\n\
ask Ann fql|near(a,b,\"N\"=1)|1 fault 208 at 12;\n\
ask Ann fql|near(a,b,N=1,N=2)|1 fault 207 at 13;\n\
ask Ann fql|near(a,b,N=1001)|1 fault 207 at 9;\n\
ask Ann fql|near(a,b,N=-1)|1 fault 207 at 9;\n\
ask Ann fql|near(a,b,N=1 2)|1 fault 208 at 13;\n\
ask Ann fql|near(a,b,N=(|1 fault 208 at 11;\n\
ask Ann fql|near(a,b N=1)|1 fault 208 at 9;\n\
ask Ann fql|not(a,foo(b))|1 fault 204 at 6;\n\
ask Ann fql|int(5,foo(b))|1 fault 206 at 6;\n\
ask Ann fql|int(foo(b))|1 fault 208 at 4;\n\
ask Ann fql|int(a:b)|1 fault 208 at 4;\n\
ask Ann fql|not(a,\"b*c\")|1 fault 206 at 6;\n\
ask Ann fql|not(a,)|1 fault 205 at 6;\n\
ask Ann fql|not(a,(|1 fault 208 at 6;\n\
ask Ann fql|words(*)|1 fault 212 at 6;\n\
ask Ann fql|phrase(a,or(b))|1 fault 208 at 9;\n\
ask Ann fql|string(N=4)|1 fault 205 at 10;\n\
ask Ann fql|string(a,N=4)|1 fault 207 at 9;\n\
ask Ann fql|string(a,N=4,MODE=or)|1 fault 207 at 9;\n\
ask Ann fql|string(a,mode=other)|1 fault 207 at 9;\n\
ask Ann fql|string(a,mode=or,mode=or)|1 fault 207 at 17;\n\
ask Ann fql|count(a,from=1000001)|1 fault 207 at 8;\n\
ask Ann fql|range(1)|1 fault 205 at 7;\n\
ask Ann fql|range(min,max,from=lt)|1 fault 207 at 14;\n\
ask Ann fql|range(min,max,to=ge)|1 fault 207 at 14;\n\
ask Ann fql|range(1,2,3)|1 fault 206 at 10;\n\
ask Ann fql|xrank(a,b)|1 fault 205 at 9;\n\
ask Ann fql|xrank(a,cb=1)|1 fault 205 at 12;\n\
ask Ann fql|xrank(a,b,cb=1000001)|1 fault 207 at 10;\n\
ask Ann fql|xrank(a,b,cb=0.5)|1 fault 207 at 10;\n\
ask Ann fql|xrank(a,b,RB = |1 fault 211 at 10;\n\
ask Ann fql|and(a,rb=1)|1 fault 207 at 6;\n\
ask Ann fql|and(title:x=1)|1 fault 208 at 11;\n\
ask Ann fql|TITLE:x|0 total 0;\n\
ask Ann fql|size:-0007|0 total 0;\n\
ask Ann fql|write:2024-01-01T00:00:00Z|0 total 0;\n\
ask Ann fql|public:YES|0 total 0;\n\
ask Ann fql|write:datetime(\"2024-01-01\")|0 total 0;\n\
ask Ann fql|near(a,or(b,words(c,d),phrase(e,\"f*\")))|0 total 0;\n\
ask Ann fql|near(a,string(\"b c\",mode=OR))|0 total 0;\n\
ask Ann fql|string(\"b c\",mode=AND)|0 total 0;\n\
ask Ann fql|phrase(a,\"b*\")|0 total 0;\n\
ask Ann fql|equals(string(\"a b\"))|0 total 0;\n\
ask Ann fql|size:range(min,max)|0 total 2;item 2 score 20;item 1 score 10;\n\
ask Ann fql|size:range(int(1),int(2))|0 total 0;\n\
ask Ann fql|near(or(a,\"a a\"),or(a,\"a a\"),or(a,\"a a\"),or(a,\"a a\"),or(a,\"a a\"),or(a,\"a a\"),or(a,\"a a\"),or(a,\"a a\"))|0 total 0;\n\
ask Ann fql|2024-01-01T00:00:00Z|0 total 0;\n\
ask Ann fql|title : x|0 total 0;\n\
ask Ann fql|\"a\\\"b\\\\\"|0 total 0;\n\
ask Ann fql|AndNot(a,b)|0 total 0;\n\
ask Ann fql|near(a,b,N=-0)|0 total 0;\n\
ask Ann fql|near(N=\"0004\",a,n,b)|0 total 0;\n\
ask Ann fql|words(a,\"b c\",d*)|0 total 1;item 2 score 20;\n\
ask Ann fql|string(a,mode=\"near\",N=4)|0 total 0;\n\
ask Ann fql|count(a,to=1000000,from=0)|0 total 2;item 2 score 20;item 1 score 10;\n\
ask Ann fql|range(min,max,from=gt,to=\"LT\")|1 fault 310 at 0;\n\
ask Ann fql|datetime(2024-01-01)|1 fault 310 at 0;\n\
ask Ann fql|filter(a)|0 total 0;\n\
ask Ann fql|any(a)|0 total 0;\n\
ask Ann fql|onear(a,b,N=1000)|0 total 0;\n\
ask Ann fql|xrank(a,b,cb=-1000000,n=1000000)|0 total 0;\n\
ask Ann fql|andnot(and(or(string(\"merger\"),string(\"takeover\")),size:range(5,max,from=\"GE\",to=\"LE\"),author:string(\"ann smith\"),filetype:string(\"docx\")),string(\"draft\"))|0 total 1;item 1 score 10;\n\
ask Ann fql|a \"b\\\"|1 fault 203 at 2;\n\
ask Bob fql|count(debt,from=2,to=3)|0 total 1;item 2 score 20;\n\
ask Bob fql|xrank(andnot(debt,body:starts-with(debt)),*,size:range(7,9,to=\"LE\"),cb=5)|0 total 1;item 2 score 25;\n\
ask Ann fql|{20479* }a|0 total 0;\n\
ask Ann fql|{20480* }a|1 fault 201 at 20480;\n\
ask Ann fql|{20480*(}|1 fault 208 at 0;\n\
ask Ann fql|{10239*\"\"}\"a|1 fault 203 at 20478;\n\
ask Ann fql|{64*and(}debt{64*)}|0 total 1;item 2 score 20;\n\
ask Ann fql|{65*and(}debt{65*)}|1 fault 210 at 259;\n\
ask Ann fql|{64*a:}debt|1 fault 301 at 0;\n\
ask Ann fql|{65*a:}debt|1 fault 210 at 129;\n\
ask Ann fql|{64*and(}foo(a){64*)}|1 fault 204 at 256;\n\
ask Ann fql|{10239* }a{10239* }|0 total 0;\n\
ask Ann fql|{10240* }a{10240* }|1 fault 201 at 20480;\n\
ask Ann fql|{10240*\\\"}|1 fault 203 at 1;";
