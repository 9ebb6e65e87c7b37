// The words of a command line: each form, and what is nearly of one.
use command_words::{Task, read_words};
use std::alloc::{AllocError, Global};
use std::process::Abort;
use std::test::Fail;

/// Words that are of no form, a line each. A bar parts one from the next; a line may end in an empty word.
const NO_FORM: &str = "
|
drive|
|drive
drive|now
drive|drive
Drive
DRIVE
drive 
 drive
driv
drives
-drive
--
-
-h
--help
help
version
serve
serve|
serve||
serve|a|
serve|a|b
serve|-
serve|--
serve|-a
serve|--|a
-|serve|a
Serve|a
SERVE|a
serves|a
a|serve
storm
storm|1
storm|1|
storm||1
storm|1|1|1
storm|1|1|
storm|1|0
storm|1|000000
storm|1|100001
storm|1|999999
storm|1|0000001
storm|1|1000000
storm|18446744073709551616|1
storm|000000000000000000001|1
storm|-1|1
storm|1|-1
storm|+1|1
storm|1|+1
storm|1 |1
storm| 1|1
storm|1|1x
storm|0x1|1
storm|1.0|1
storm|one|1
STORM|1|1
check
check|
check||
check|a|
check|a|b
check|-
check|--
check|-a
check|--|a
-|check|a
check|a|-
Check|a
checks|a
a|check
1|storm|1
1|1|storm
drive|check|a
";

// The words of a line.
fn words_of(alloc: Global, line: &str) -> Result<Vec<String>, AllocError> {
    let mut words = Vec::new(alloc);
    for word in line.split('|') {
        words.push(String::from_str(alloc, word)?)?;
    }
    Ok(words)
}

// Reads the words of the line: they ask for this.
fn asks(rt: &impl Abort, alloc: Global, line: &str, wanted: Option<Task<'_>>) -> Result<(), Fail> {
    let words = words_of(alloc, line)?;
    let task = read_words(alloc, &words)?;
    assert!(rt; task == wanted, "{line}");
    Ok(())
}

#[test]
fn refuses_words_of_no_form(rt: HostRuntime) -> Result<(), Fail> {
    let alloc = rt.alloc();
    for line in NO_FORM.split('\n') {
        asks(&rt, alloc, line, None)?;
    }
    let none: [String; 0] = [];
    assert!(rt; read_words(alloc, &none)?.is_none());
    Ok(())
}

#[test]
fn reads_words_of_each_form(rt: HostRuntime) -> Result<(), Fail> {
    let alloc = rt.alloc();
    asks(&rt, alloc, "drive", Some(Task::Drive))?;
    asks(
        &rt,
        alloc,
        "storm|7|2000",
        Some(Task::Storm {
            number: 7,
            size: 2000,
        }),
    )?;
    asks(
        &rt,
        alloc,
        "storm|0|1",
        Some(Task::Storm { number: 0, size: 1 }),
    )?;
    asks(
        &rt,
        alloc,
        "storm|18446744073709551615|100000",
        Some(Task::Storm {
            number: u64::MAX,
            size: 100_000,
        }),
    )?;
    asks(
        &rt,
        alloc,
        "storm|00000000000000000001|000001",
        Some(Task::Storm { number: 1, size: 1 }),
    )?;
    asks(
        &rt,
        alloc,
        "check|plan.toml",
        Some(Task::Check { file: "plan.toml" }),
    )?;
    asks(&rt, alloc, "check| ", Some(Task::Check { file: " " }))?;
    asks(&rt, alloc, "check|a-b", Some(Task::Check { file: "a-b" }))?;
    asks(
        &rt,
        alloc,
        "check|drive",
        Some(Task::Check { file: "drive" }),
    )?;
    asks(
        &rt,
        alloc,
        "serve|plan.toml",
        Some(Task::Serve { file: "plan.toml" }),
    )?;
    asks(&rt, alloc, "serve| ", Some(Task::Serve { file: " " }))?;
    asks(
        &rt,
        alloc,
        "serve|check",
        Some(Task::Serve { file: "check" }),
    )?;
    Ok(())
}
