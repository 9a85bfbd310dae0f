//! Corpora as they are written.
ghost use Rattle.std.specs.Prelude.{◌≡◌, true, IfOk};
ghost use Rattle.std.specs.List.{list_all};
ghost use Rattle.sq_model.specs.Valid.{IsValid, has_short_texts};

use sq_corpus::{CorpusFault, read_corpus, write_corpus};
use sq_model::Corpus;
use std::alloc::Global;
use std::test::Fail;

/// The worked corpus of the documents.
pub const WORKED: &str = "SQCORPUS 1
property\ttitle\ttext\ts
property\tbody\ttext\ts
property\tauthor\ttext\t-
property\tfiletype\ttext\t-
property\tsize\tinteger\tr
property\twrite\tdatetime\t-
property\tpublic\tyesno\t-
caller\tAnn\tstaff
caller\tBob\tstaff\tboard
item\t1\t10\thttp://s/1
allow\tstaff
deny
value\ttitle\tAnnual report
value\tbody\tmerger of the old bank and the new bank
value\tauthor\tAnn Smith
value\tfiletype\tdocx
value\tsize\t5
item\t2\t20\thttp://s/2
allow\tstaff
deny
value\ttitle\tDebt notes
value\tbody\tacquisition of company debt
value\tsize\t7
value\twrite\t2024-02-29T12:00:00Z
item\t3\t20\thttp://s/3
allow\tboard
deny
value\ttitle\tBoard memo
value\tbody\tdebt before acquisition
value\tsize\t7
";

/// A corpus spelled in its own way.
const SPELLED: &str = "SQCORPUS 1
property\ttitle\ttext\ts
property\tsize\tinteger\tr
property\twrite\tdatetime\t-
property\tpublic\tyesno\t-
property\ttags\ttext\tsm
caller\tAnn\tstaff
item\t05\t-0\ta\\\\b
allow
deny\tx
value\tsize\t-07
value\tTAGS\ta\\tb\\n\\r\rc
value\tpublic\ttrue
value\ttags\t
";

/// The same as it is written: numbers in one way, values by their properties, escapes.
const WRITTEN: &str = "SQCORPUS 1
property\ttitle\ttext\ts
property\tsize\tinteger\tr
property\twrite\tdatetime\t-
property\tpublic\tyesno\t-
property\ttags\ttext\tsm
caller\tAnn\tstaff
item\t5\t0\ta\\\\b
allow
deny\tx
value\tsize\t-7
value\tpublic\ttrue
value\ttags\ta\\tb\\n\\r\\rc
value\ttags\t
";

/// The corpus of a text of at most 100,000 bytes.
pub(crate) fn corpus_of(alloc: Global, text: &str) -> Result<Corpus, CorpusFault>
    ensures valid { IfOk result IsValid }
    ensures short { IfOk result (λ corpus. list_all has_short_texts corpus.items ≡ true) }
{
    if text.len() > 100_000 {
        return Err(CorpusFault::NoMemory);
    }
    read_corpus(alloc, text.as_bytes())
}

/// What is written of the corpus of a text.
fn rewritten(alloc: Global, text: &str) -> Result<Vec<u8>, CorpusFault> {
    if text.len() > 10_000 {
        return Err(CorpusFault::NoMemory);
    }
    let corpus = read_corpus(alloc, text.as_bytes())?;
    match write_corpus(alloc, &corpus) {
        Ok(bytes) => Ok(bytes),
        Err(_) => Err(CorpusFault::NoMemory),
    }
}

#[test]
fn what_was_read_is_written(rt: HostRuntime) -> Result<(), Fail> {
    let alloc = rt.alloc();
    for (text, want) in [(WORKED, WORKED), (SPELLED, WRITTEN), (WRITTEN, WRITTEN)] {
        let written = rewritten(alloc, text)?;
        assert_eq!(rt; written.as_slice(), want.as_bytes());
    }
    Ok(())
}
