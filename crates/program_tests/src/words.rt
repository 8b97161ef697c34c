//! What words ask for, and which ask for nothing.
use command_line::{ArgsFault, Task, task_of};
use std::alloc::Global;

/// Puts the words of a line, parted by spaces, behind others.
fn push_words(alloc: Global, words: &mut Vec<String>, line: &str) -> Option<()> {
    for word in line.split(' ') {
        words.push(String::from_str(alloc, word).ok()?).ok()?;
    }
    Some(())
}

/// The words of a line behind the program's own name.
fn words_of(alloc: Global, line: &str) -> Option<Vec<String>> {
    let mut words = Vec::new(alloc);
    push_words(alloc, &mut words, "ringd")?;
    push_words(alloc, &mut words, line)?;
    Some(words)
}

/// Whether a task has these fields.
fn has_fields(alloc: Global, task: &Task<'_>, fields: &str) -> bool {
    match format!(in alloc; "{task:?}") {
        Ok(text) => text.as_str() == fields,
        Err(_) => false,
    }
}

/// Whether words ask for the task of these fields, or for none, which this line is the first to say.
fn ask_for(alloc: Global, words: &[String], told: &str) -> bool {
    match task_of(alloc, words) {
        Ok(task) => has_fields(alloc, &task, told),
        Err(ArgsFault::Bad(text)) => text.as_str().lines().next() == Some(told),
        Err(ArgsFault::NoMemory) => false,
    }
}

/// Whether the words of a line ask for this.
fn is_asked(alloc: Global, line: &str, told: &str) -> bool {
    match words_of(alloc, line) {
        Some(words) => ask_for(alloc, &words, told),
        None => false,
    }
}

/// The place of the first line that asks for something else, or how many lines there are.
fn first_other(alloc: Global, lines: &[(&str, &str)]) -> usize {
    let mut place = 0usize;
    for (line, told) in lines {
        if !is_asked(alloc, line, told) {
            return place;
        }
        place = place.saturating_add(1);
    }
    place
}

/// Whether words ask for nothing.
fn are_bad(alloc: Global, words: &[String]) -> bool {
    matches!(task_of(alloc, words), Err(ArgsFault::Bad(_)))
}

/// Whether the words of a line ask for nothing.
fn is_bad(alloc: Global, line: &str) -> bool {
    match words_of(alloc, line) {
        Some(words) => are_bad(alloc, &words),
        None => false,
    }
}

/// The place of the first line that asks for something, or how many lines there are.
fn first_asking(alloc: Global, lines: &[&str]) -> usize {
    let mut place = 0usize;
    for line in lines {
        if !is_bad(alloc, line) {
            return place;
        }
        place = place.saturating_add(1);
    }
    place
}

/// What the words of a line ask for.
static ASKED: [(&str, &str); 37] = [
    ("run", "Run { file: None }"),
    ("run --file F", "Run { file: Some(\"F\") }"),
    ("table F object", "Table { file: \"F\", ring: \"object\" }"),
    (
        "show F object",
        "Show { file: \"F\", what: Ring { ring: \"object\", what: Ring } }",
    ),
    (
        "show F object locks",
        "Show { file: \"F\", what: Ring { ring: \"object\", what: Locks } }",
    ),
    (
        "show F object balance",
        "Show { file: \"F\", what: Ring { ring: \"object\", what: Balance } }",
    ),
    ("show F", "Show { file: \"F\", what: Rings }"),
    (
        "show F status",
        "Show { file: \"F\", what: Ring { ring: \"status\", what: Ring } }",
    ),
    ("show F --status", "Show { file: \"F\", what: Status }"),
    ("show --status F", "Show { file: \"F\", what: Status }"),
    ("show F --metrics", "Show { file: \"F\", what: Metrics }"),
    ("show --metrics F", "Show { file: \"F\", what: Metrics }"),
    (
        "preview F object --seed 7",
        "Show { file: \"F\", what: Preview { ring: \"object\", seed: 7, hour: None } }",
    ),
    (
        "preview --hour 9 F --seed=4294967295 object",
        "Show { file: \"F\", what: Preview { ring: \"object\", seed: 4294967295, hour: Some(9) } }",
    ),
    (
        "moves F object 2 5",
        "Show { file: \"F\", what: Moves { ring: \"object\", from: \"2\", to: \"5\", each: false } }",
    ),
    (
        "moves F --each object 2 05",
        "Show { file: \"F\", what: Moves { ring: \"object\", from: \"2\", to: \"05\", each: true } }",
    ),
    ("log F", "Log { file: \"F\", from: None, lines: false }"),
    (
        "log --lines F --from 03",
        "Log { file: \"F\", from: Some(\"03\"), lines: true }",
    ),
    ("renew F G", "Renew { file: \"F\", new: \"G\" }"),
    ("version", "Version"),
    (
        "found G a.text --min-hours 24",
        "Found { new: \"G\", texts: [\"a.text\"], min_hours: 24, hour: None, from: None }",
    ),
    (
        "found --min-hours 0 G b.text a.text b.text --hour 9 --from F",
        "Found { new: \"G\", texts: [\"b.text\", \"a.text\", \"b.text\"], min_hours: 0, hour: Some(9), from: Some(\"F\") }",
    ),
    (
        "found --hour=4294967295 --from=F G a.text --min-hours=65535",
        "Found { new: \"G\", texts: [\"a.text\"], min_hours: 65535, hour: Some(4294967295), from: Some(\"F\") }",
    ),
    (
        "export F object 7",
        "Export { file: \"F\", ring: \"object\", version: \"7\", format: Text }",
    ),
    (
        "export F object 7 --format text",
        "Export { file: \"F\", ring: \"object\", version: \"7\", format: Text }",
    ),
    (
        "export F object 7 --format swift",
        "Export { file: \"F\", ring: \"object\", version: \"7\", format: Swift }",
    ),
    (
        "export --format=swift F object 7",
        "Export { file: \"F\", ring: \"object\", version: \"7\", format: Swift }",
    ),
    (
        "import F object ops 5 rows.csv --hour 9",
        "Import { file: \"F\", ring: \"object\", caller: \"ops\", number: \"5\", csv: \"rows.csv\", hour: Some(9) }",
    ),
    (
        "import F object ops 5 rows.csv --hour 4294967295",
        "Import { file: \"F\", ring: \"object\", caller: \"ops\", number: \"5\", csv: \"rows.csv\", hour: Some(4294967295) }",
    ),
    (
        "serve F 8642 0",
        "Serve { file: \"F\", port: Bounded { number: 8642 }, count: 0, hour: None, names: HashNames { prefix: [], suffix: [] } }",
    ),
    (
        "serve F --hour 9 1 --prefix x 65535 --suffix y",
        "Serve { file: \"F\", port: Bounded { number: 1 }, count: 65535, hour: Some(9), names: HashNames { prefix: [120], suffix: [121] } }",
    ),
    (
        "service F 8642",
        "Service { file: \"F\", port: Bounded { number: 8642 }, hosts: [], hour_ok: false, names: HashNames { prefix: [], suffix: [] } }",
    ),
    (
        "service --hour-ok F 65535",
        "Service { file: \"F\", port: Bounded { number: 65535 }, hosts: [], hour_ok: true, names: HashNames { prefix: [], suffix: [] } }",
    ),
    (
        "service F --host a.example 1 --host=b --prefix x --hour-ok --suffix y",
        "Service { file: \"F\", port: Bounded { number: 1 }, hosts: [\"a.example\", \"b\"], hour_ok: true, names: HashNames { prefix: [120], suffix: [121] } }",
    ),
    (
        "loop F input --suffix=y --hour=0",
        "Loop { file: \"F\", input: \"input\", hour: Some(0), names: HashNames { prefix: [], suffix: [121] } }",
    ),
    (
        "nodes F tiny a",
        "Nodes { file: \"F\", ring: \"tiny\", account: \"a\", container: None, object: None, names: HashNames { prefix: [], suffix: [] } }",
    ),
    (
        "nodes --suffix y F tiny a --container c --object=o --prefix x",
        "Nodes { file: \"F\", ring: \"tiny\", account: \"a\", container: Some(\"c\"), object: Some(\"o\"), names: HashNames { prefix: [120], suffix: [121] } }",
    ),
];

/// Lines whose argument is not of its form.
static NOT_OF_ITS_FORM: [&str; 32] = [
    // words of a ring
    "show F object ",
    "show F object more",
    "show F object Locks",
    // ports and counts
    "serve F 0 1",
    "serve F 65536 1",
    "serve F 080 1",
    "serve F +80 1",
    "serve F http 1",
    "serve F 80 65536",
    "serve F 80 01",
    "serve F 80 1.0",
    "service F 0",
    "service F 65536",
    "service F http",
    // hours
    "serve F 80 1 --hour 4294967296",
    "loop F input --hour -1",
    "import F object ops 5 rows.csv --hour 4294967296",
    "import F object ops 5 rows.csv --hour 1.5",
    "import F object ops 5 rows.csv --hour now",
    "found G a.text --min-hours 65536",
    "found G a.text --min-hours 024",
    "found G a.text --min-hours 1.0",
    "found G a.text --min-hours day",
    "found G a.text --min-hours 1 --hour 4294967296",
    "found G a.text --min-hours 1 --hour now",
    // seeds
    "preview F object --seed 4294967296",
    "preview F object --seed 01",
    "preview F object --seed x",
    "preview F object --seed 1 --hour now",
    // formats
    "export F object 7 --format",
    "export F object 7 --format Swift",
    "export F object 7 --format json",
];

/// What is told of an argument that is not of its form, and of two of which only one may be there.
static TOLD_OF_FORMS: [(&str, &str); 8] = [
    (
        "serve F 0 1",
        "error: '0' is not of the form of PORT, which is a whole number from 1 to 65535, in digits without leading zeros",
    ),
    (
        "serve F 80 65536",
        "error: '65536' is not of the form of COUNT, which is a whole number from 0 to 65535, in digits without leading zeros",
    ),
    (
        "loop F input --hour now",
        "error: 'now' is not of the form of --hour, which is a whole number of hours since 1970, 0 to 4294967295, in digits without leading zeros",
    ),
    (
        "preview F object --seed 01",
        "error: '01' is not of the form of --seed, which is a whole number from 0 to 4294967295, in digits without leading zeros",
    ),
    (
        "found G a.text --min-hours day",
        "error: 'day' is not of the form of --min-hours, which is a whole number from 0 to 65535, in digits without leading zeros",
    ),
    (
        "export F object 7 --format Swift",
        "error: 'Swift' is not of the form of --format, which is text or swift",
    ),
    (
        "show F object more",
        "error: 'more' is not of the form of WORD, which is devices, balance, ring or locks",
    ),
    (
        "show F object --status",
        "error: only one of RING, --status and --metrics may be given",
    ),
];

static OTHER_WORDS: [&str; 75] = [
    "",
    "ran",
    "Run",
    "run more",
    "run --file",
    "run --files F",
    "table F",
    "table F object more",
    "show",
    "show --status",
    "show F object --status",
    "show --status F object",
    "show F --status --status",
    "show --metrics",
    "show F object --metrics",
    "show F --status --metrics",
    "show F object --metrics --status",
    "show F --metrics --metrics",
    "show F object locks --status",
    "show F object locks --metrics",
    "show F object locks locks",
    "preview F object",
    "preview F object 7",
    "preview F --seed 7",
    "preview F object more --seed 7",
    "preview F object --seed 7 --seed 8",
    "preview F object --seed",
    "moves F object 2",
    "moves F object 2 5 7",
    "moves F object 2 5 --each --each",
    "moves F object 2 5 --each=yes",
    "log",
    "log F 3",
    "log F --from",
    "log F --lines --lines",
    "nodes F tiny",
    "export F object",
    "export F object 7 swift",
    "serve F 80",
    "serve F 80 1 more",
    "serve 80 1 --file F",
    "service F",
    "service F 80 1",
    "service F 80 --hour 5",
    "service F 80 --host",
    "service F 80 --hour-ok --hour-ok",
    "service F 80 --hour-ok=yes",
    "service F 80 --prefix x --prefix y",
    "service --help",
    "loop F",
    "loop F input 80",
    "renew F",
    "renew F G H",
    "found",
    "found G",
    "found G a.text",
    "found G --min-hours 1",
    "found --min-hours 1",
    "found G a.text --min-hours",
    "found G a.text --min-hours 1 --min-hours 2",
    "found G a.text --min-hours 1 --from",
    "found G a.text --min-hours 1 --from F --from H",
    "found G a.text --min-hours 1 --min-hour 1",
    "version more",
    "version --hour 1",
    "import F object ops 5",
    "run --file F --file G",
    "table F object --hour 1",
    "help",
    "help run",
    "--help",
    "import --help",
    "found --help",
    "-h",
    "--version",
];

#[test]
fn each_program_gets_its_arguments(rt: HostRuntime) {
    let place = first_other(rt.alloc(), &ASKED);
    assert!(rt; place == ASKED.len(), "{place}");
}

#[test]
fn no_words_at_all_ask_for_nothing(rt: HostRuntime) {
    assert!(rt; are_bad(rt.alloc(), &[]));
}

#[test]
fn arguments_keep_their_ranges(rt: HostRuntime) {
    let place = first_asking(rt.alloc(), &NOT_OF_ITS_FORM);
    assert!(rt; place == NOT_OF_ITS_FORM.len(), "{place}");
    let place = first_other(rt.alloc(), &TOLD_OF_FORMS);
    assert!(rt; place == TOLD_OF_FORMS.len(), "{place}");
}

#[test]
fn other_words_and_calls_for_help_ask_for_nothing(rt: HostRuntime) {
    let place = first_asking(rt.alloc(), &OTHER_WORDS);
    assert!(rt; place == OTHER_WORDS.len(), "{place}");
}
