use js_value::{Primitive, Text};
use pp_words::{Command, Item, Items, WordsRefused, Worlds, words};
use std::alloc::Global;
use std::fmt::Write;
use std::test::Fail;

fn push_text(alloc: Global, out: &mut String, text: &Text) -> Result<(), Fail> {
    let quoted = text.quoted(alloc)?;
    out.push_str(str::from_utf8(quoted.as_slice()).ok().ok_or("not ASCII")?)?;
    Ok(())
}

fn push_item(alloc: Global, out: &mut String, item: &Item) -> Result<(), Fail> {
    out.push_str(if item.threw { " throws " } else { " " })?;
    push_text(alloc, out, &item.name)?;
    out.push_str("=")?;
    match &item.value {
        Primitive::Boolean(b) => write!(out, "{b}")?,
        Primitive::Number(n) => write!(out, "{n}")?,
        Primitive::Text(text) => push_text(alloc, out, text)?,
        _ => out.push_str("no value")?,
    }
    Ok(())
}

fn push_items(alloc: Global, out: &mut String, items: &Items) -> Result<(), Fail> {
    for item in items.as_slice() {
        push_item(alloc, out, item)?;
    }
    Ok(())
}

/// The items of each world, in brackets.
fn push_worlds(alloc: Global, out: &mut String, worlds: &Worlds) -> Result<(), Fail> {
    for items in worlds.as_slice() {
        out.push_str(" [")?;
        push_items(alloc, out, items)?;
        out.push_str(" ]")?;
    }
    Ok(())
}

/// What words ask for: the command, the steps and the items, or why there is none.
fn shown(alloc: Global, asked: &Result<Command, WordsRefused>) -> Result<String, Fail> {
    let mut out = String::new(alloc);
    match asked {
        Ok(Command::Eval(steps)) => write!(out, "eval {steps}")?,
        Ok(Command::Run(steps, items)) => {
            write!(out, "run {steps}")?;
            push_items(alloc, &mut out, items)?;
        }
        Ok(Command::Check(steps, worlds)) => {
            write!(out, "check {steps}")?;
            push_worlds(alloc, &mut out, worlds)?;
        }
        Err(WordsRefused::Usage) => out.push_str("usage")?,
        Err(WordsRefused::NoMemory) => out.push_str("no memory")?,
    }
    Ok(out)
}

/// Words that are parted by spaces, and what they ask for.
type Row = (&'static str, &'static str);

const COMMANDS: [Row; 20] = [
    ("", "usage"),
    ("eval", "eval 1000000"),
    ("eval x", "usage"),
    ("eval --", "eval 1000000"),
    ("-- eval", "eval 1000000"),
    ("-- --eval", "usage"),
    ("Eval", "usage"),
    ("eva", "usage"),
    ("evals", "usage"),
    ("--help", "usage"),
    ("-s eval", "usage"),
    ("- eval", "usage"),
    ("eval -", "usage"),
    ("drill", "usage"),
    ("drill 5", "usage"),
    ("chain", "usage"),
    ("chain =1", "usage"),
    ("image", "usage"),
    ("load k=1", "usage"),
    ("k=1 run", "usage"),
];

const STEPS: [Row; 22] = [
    ("--steps 5 eval", "eval 5"),
    ("--steps=5 eval", "eval 5"),
    ("eval --steps=5", "eval 5"),
    ("eval --steps 1", "eval 1"),
    ("eval --steps 005", "eval 5"),
    ("eval --steps 000000005", "eval 5"),
    ("eval --steps 0000000005", "usage"),
    ("eval --steps 100000000", "eval 100000000"),
    ("eval --steps 100000001", "usage"),
    ("eval --steps", "usage"),
    ("eval --steps=", "usage"),
    ("--steps 0 eval", "usage"),
    ("eval --steps -5", "usage"),
    ("eval --steps +5", "usage"),
    ("eval --steps 5x", "usage"),
    ("--steps 5 --steps 6 eval", "usage"),
    ("--steps 5 eval --steps=5", "usage"),
    ("--steps -- 5 eval", "usage"),
    ("-- --steps 5 eval", "usage"),
    ("--step 5 eval", "usage"),
    ("--stepss 5 eval", "usage"),
    ("run =1 --steps 7 k=2", "run 7 \"\"=1 \"k\"=2"),
];

const RUNS: [Row; 22] = [
    ("run", "run 1000000"),
    ("run k", "usage"),
    ("run -", "usage"),
    ("run /", "usage"),
    ("run k=1 l=-2", "run 1000000 \"k\"=1 \"l\"=-2"),
    ("run k=1 k=2", "usage"),
    ("run k=1 =1 k=1", "usage"),
    ("run =1 =1", "run 1000000 \"\"=1 \"\"=1"),
    ("run k=true =false", "run 1000000 \"k\"=true \"\"=false"),
    (
        "run k=True =truer",
        "run 1000000 \"k\"=\"True\" \"\"=\"truer\"",
    ),
    ("run k= =", "run 1000000 \"k\"=\"\" \"\"=\"\""),
    (
        "run ='5 =''5 ='true",
        "run 1000000 \"\"=\"5\" \"\"=\"'5\" \"\"=\"true\"",
    ),
    (
        "run =05 =-0 =+5",
        "run 1000000 \"\"=\"05\" \"\"=\"-0\" \"\"=\"+5\"",
    ),
    (
        "run =0 =5x =1.5",
        "run 1000000 \"\"=0 \"\"=\"5x\" \"\"=\"1.5\"",
    ),
    (
        "run =9007199254740991 =-9007199254740991",
        "run 1000000 \"\"=9007199254740991 \"\"=-9007199254740991",
    ),
    (
        "run =9007199254740992 =-9007199254740992",
        "run 1000000 \"\"=\"9007199254740992\" \"\"=\"-9007199254740992\"",
    ),
    ("run k=a=b", "run 1000000 \"k\"=\"a=b\""),
    (
        "run =!5 =!!5 k=!5",
        "run 1000000 throws \"\"=5 throws \"\"=\"!5\" \"k\"=\"!5\"",
    ),
    (
        "run =!true =!'true =!",
        "run 1000000 throws \"\"=true throws \"\"=\"true\" throws \"\"=\"\"",
    ),
    ("run -- -k=1", "run 1000000 \"-k\"=1"),
    ("run k=\u{e4}", "run 1000000 \"k\"=\"\\u00e4\""),
    ("run k=1 -k=2", "usage"),
];

const CHECKS: [Row; 14] = [
    ("check", "check 1000000 [ ]"),
    ("check k=1", "check 1000000 [ \"k\"=1 ]"),
    ("check /", "check 1000000 [ ] [ ]"),
    ("check / /", "check 1000000 [ ] [ ] [ ]"),
    ("check k=1 /", "check 1000000 [ \"k\"=1 ] [ ]"),
    ("check / k=1", "check 1000000 [ ] [ \"k\"=1 ]"),
    (
        "check k=1 =2 / k=3 =!4",
        "check 1000000 [ \"k\"=1 \"\"=2 ] [ \"k\"=3 throws \"\"=4 ]",
    ),
    ("check k=1 k=2", "usage"),
    ("check k=1 / l=1 l=2", "usage"),
    ("check k", "usage"),
    ("check // k=1", "usage"),
    ("check -", "usage"),
    ("check --steps 7 /=1", "check 7 [ \"/\"=1 ]"),
    (
        "check -- -k=1 / --=2",
        "check 1000000 [ \"-k\"=1 ] [ \"--\"=2 ]",
    ),
];

/// What these words ask for.
fn asked(alloc: Global, list: &[&str]) -> Result<String, Fail> {
    let mut owned = Vec::new(alloc);
    for word in list {
        owned.push(String::from_str(alloc, word)?)?;
    }
    shown(alloc, &words(alloc, owned.as_slice()))
}

/// What these words, parted by spaces, ask for.
fn asked_by_line(alloc: Global, line: &str) -> Result<String, Fail> {
    let mut list = Vec::new(alloc);
    for word in line.split_whitespace() {
        list.push(word)?;
    }
    asked(alloc, list.as_slice())
}

#[test]
fn commands(rt: HostRuntime) -> Result<(), Fail> {
    for (line, wanted) in &COMMANDS {
        assert_eq!(rt;
            asked_by_line(rt.alloc(), line)?.as_str(),
            *wanted,
            "of {line}"
        );
    }
    Ok(())
}

#[test]
fn budgets(rt: HostRuntime) -> Result<(), Fail> {
    for (line, wanted) in &STEPS {
        assert_eq!(rt;
            asked_by_line(rt.alloc(), line)?.as_str(),
            *wanted,
            "of {line}"
        );
    }
    Ok(())
}

#[test]
fn items_of_run(rt: HostRuntime) -> Result<(), Fail> {
    for (line, wanted) in &RUNS {
        assert_eq!(rt;
            asked_by_line(rt.alloc(), line)?.as_str(),
            *wanted,
            "of {line}"
        );
    }
    Ok(())
}

#[test]
fn worlds_of_check(rt: HostRuntime) -> Result<(), Fail> {
    for (line, wanted) in &CHECKS {
        assert_eq!(rt;
            asked_by_line(rt.alloc(), line)?.as_str(),
            *wanted,
            "of {line}"
        );
    }
    Ok(())
}

/// Words that are empty or hold a space.
#[test]
fn odd_words(rt: HostRuntime) -> Result<(), Fail> {
    let alloc = rt.alloc();
    assert_eq!(rt; asked(alloc, &[""])?.as_str(), "usage");
    assert_eq!(rt; asked(alloc, &["eval", ""])?.as_str(), "usage");
    assert_eq!(rt; asked(alloc, &["eval", "--steps", ""])?.as_str(), "usage");
    assert_eq!(rt; asked(alloc, &["run", ""])?.as_str(), "usage");
    let spaced = asked(alloc, &["run", "a b= 5"])?;
    assert_eq!(rt; spaced.as_str(), "run 1000000 \"a b\"=\" 5\"");
    Ok(())
}
