//! The keywords that a user may have meant. (GC28-6704, "Keyword parameters")
ghost use Rattle.std.specs.Prelude.{◌≡◌, map};
ghost use Rattle.std.specs.List.{list_any};
ghost use Rattle.std.specs.Str.{bytes_eq};
ghost use Rattle.card_warnings.specs.Keywords.{dd_keywords, exec_keywords, has_keywords, is_keyword_of, job_keywords, keywords_of};

static JOB_KEYWORDS: [&[u8]; 8] = [
    b"CLASS",
    b"PRTY",
    b"MSGCLASS",
    b"COND",
    b"MSGLEVEL",
    b"NOTIFY",
    b"REGION",
    b"TIME",
];

static EXEC_KEYWORDS: [&[u8]; 7] = [
    b"PGM", b"PROC", b"COND", b"PARM", b"REGION", b"TIME", b"ACCT",
];

static DD_KEYWORDS: [&[u8]; 15] = [
    b"DSNAME", b"DSN", b"DISP", b"UNIT", b"VOLUME", b"VOL", b"SPACE", b"SYSOUT", b"DDNAME",
    b"LABEL", b"DCB", b"UCS", b"FCB", b"OUTLIM", b"DUMMY",
];

static OPERATIONS: [&[u8]; 5] = [b"JOB", b"EXEC", b"DD", b"PROC", b"PEND"];

fn job_keywords() -> &'static [&'static [u8]]
    ensures { map (λ w. w.now) result.now ≡ job_keywords }
{
    JOB_KEYWORDS.as_slice()
}

fn exec_keywords() -> &'static [&'static [u8]]
    ensures { map (λ w. w.now) result.now ≡ exec_keywords }
{
    EXEC_KEYWORDS.as_slice()
}

fn dd_keywords() -> &'static [&'static [u8]]
    ensures { map (λ w. w.now) result.now ≡ dd_keywords }
{
    DD_KEYWORDS.as_slice()
}

/// The keywords of JOB and of EXEC; of any other operation those of DD.
pub fn keywords_of(operation: &[u8]) -> &'static [&'static [u8]]
    ensures { map (λ w. w.now) result.now ≡ keywords_of operation.now }
{
    if operation == b"JOB".as_slice() {
        job_keywords()
    } else if operation == b"EXEC".as_slice() {
        exec_keywords()
    } else {
        dd_keywords()
    }
}

/// Whether statements with this operation have keywords.
fn has_keywords(operation: &[u8]) -> bool
    ensures { result ≡ has_keywords operation.now }
{
    operation == b"JOB".as_slice()
        || operation == b"EXEC".as_slice()
        || operation == b"DD".as_slice()
}

fn is_among(words: &[&[u8]], word: &[u8]) -> bool
    ensures { result ≡ list_any (λ w. bytes_eq w.now word.now) words.now }
{
    words.iter().any(|other| *other == word)
}

/// Whether a word is a keyword of statements with this operation.
pub fn is_keyword_of(operation: &[u8], word: &[u8]) -> bool
    ensures { result ≡ is_keyword_of operation.now word.now }
{
    has_keywords(operation) && is_among(keywords_of(operation), word)
}
