//! Texts of a language, read and refused.

use crate::steps::{Step, StepScript, Steps};
use script_reader::{Fault, Gathered, InputFault, read_text};
use std::alloc::Global;

// A text with two callers, of whom the first gave the first script and the last.
const TEXT: &str = "steps 1 most 5\nscripts\nscript bob\nadd 9 5\nshow 1\nend\nscript ann\nend\n\
                    script bob\nshow 9\nend\nfinish\n";

fn script_of(callers: &Gathered<StepScript>, caller: u32, index: u32) -> Option<&StepScript> {
    if caller >= callers.callers() || index >= callers.scripts_of(caller) {
        return None;
    }
    Some(callers.script(caller, index))
}

fn step_at(callers: &Gathered<StepScript>, caller: u32, index: u32, i: usize) -> Option<Step> {
    let script = script_of(callers, caller, index)?;
    if i >= script.len() {
        return None;
    }
    Some(script.at(i))
}

fn is_named(callers: &Gathered<StepScript>, caller: u32, name: &str, scripts: u32) -> bool {
    caller < callers.callers()
        && callers.name(caller) == name
        && callers.scripts_of(caller) == scripts
}

fn is_read(most: u64, callers: &Gathered<StepScript>) -> bool {
    most == 5
        && callers.callers() == 2
        && callers.scripts() == 3
        && is_named(callers, 0, "bob", 2)
        && is_named(callers, 1, "ann", 1)
        && step_at(callers, 0, 0, 0) == Some(Step::Add(9, 5))
        && step_at(callers, 0, 0, 1) == Some(Step::Show(1))
        && step_at(callers, 0, 0, 2) == None
        && step_at(callers, 0, 1, 0) == Some(Step::Show(9))
        && step_at(callers, 1, 0, 0) == None
}

// Whether the text is read as it stands.
fn is_text_read(alloc: Global, text: &str) -> bool {
    match read_text::<Steps>(alloc, text.as_bytes()) {
        Ok((most, callers)) => is_read(most, &callers),
        Err(_) => false,
    }
}

// The fault of a text that is refused.
fn fault_of(alloc: Global, text: &str) -> Option<(u32, Fault)> {
    match read_text::<Steps>(alloc, text.as_bytes()) {
        Err(InputFault::Line { line, why }) => Some((line, why)),
        _ => None,
    }
}

#[test]
fn texts_of_a_language_are_read_or_refused(rt: HostRuntime) {
    assert!(rt; is_text_read(rt.alloc(), TEXT));
    for (text, line, why) in &[
        ("", 1, Fault::End),
        ("steps 1 most 5", 1, Fault::End),
        ("steps 1 most 5\n", 2, Fault::End),
        ("steps 2 most 5\n", 1, Fault::Header),
        ("steps 1 least 5\n", 1, Fault::Header),
        ("steps 1 most 5 most 5\n", 1, Fault::Header),
        ("steps 1 most\n", 1, Fault::Header),
        ("steps 1 most 05\n", 1, Fault::Number),
        ("steps 1 most 0\n", 1, Fault::Limit),
        ("steps 1 most 101\n", 1, Fault::Limit),
        ("steps 1 most 5\nsteps 1 most 5\n", 2, Fault::Word),
        ("steps 1 most 5\nscripts\n", 3, Fault::End),
        ("steps 1 most 5\nscripts\nend\n", 3, Fault::Word),
        ("steps 1 most 5\nscripts\nscript Ann\n", 3, Fault::Word),
        (
            "steps 1 most 5\nscripts\nscript ann\nfinish\n",
            4,
            Fault::Word,
        ),
        (
            "steps 1 most 5\nscripts\nscript ann\nscript bob\n",
            4,
            Fault::Word,
        ),
        ("steps 1 most 5\nscripts\nscript ann\ntry\n", 4, Fault::Word),
        (
            "steps 1 most 5\nscripts\nscript ann\nshow\n",
            4,
            Fault::Word,
        ),
        (
            "steps 1 most 5\nscripts\nscript ann\nshow 1 2\n",
            4,
            Fault::Word,
        ),
        (
            "steps 1 most 5\nscripts\nscript ann\nadd 1 +2\n",
            4,
            Fault::Number,
        ),
        (
            "steps 1 most 5\nscripts\nscript ann\nadd 10 5\n",
            4,
            Fault::Limit,
        ),
        (
            "steps 1 most 5\nscripts\nscript ann\nadd 9 6\n",
            4,
            Fault::Limit,
        ),
        ("steps 1 most 5\nscripts\nfinish", 3, Fault::End),
        ("steps 1 most 5\nscripts\nfinish\n\n", 4, Fault::End),
    ] {
        assert_eq!(rt; fault_of(rt.alloc(), *text), Some((*line, *why)), "{text}");
    }
}
