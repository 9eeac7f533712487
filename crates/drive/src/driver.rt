// A job, from its image to the last of its calls.
use crate::call::Call;
use crate::job::Job;
use crate::lent::{Lent, blank, first, image_words, is_blank, working_words};
use crate::shown::{show_numbers, show_work};
use image::fault::Fault;
use intake::state::Intake;
use intake::taken::take_in;
use std::alloc::AllocError;
use std::fmt::Write;
use store::store::Store;
use work::state::Work;

// Freezes the nodes, and tells of those that are refused.
fn freeze(intake: &mut Intake<'_>, nodes: &[u32], text: &mut String) -> Result<(), AllocError> {
    for node in nodes {
        if let Err(fault) = intake.froze(*node) {
            writeln!(text, "froze {fault}")?;
        }
    }
    Ok(())
}

// Tells the number of live clauses that a pass answers, or its refusal.
fn tell_live(answer: Result<u32, Fault>, text: &mut String) -> Result<(), AllocError> {
    match answer {
        Ok(live) => writeln!(text, "live {live}"),
        Err(fault) => writeln!(text, "{fault}"),
    }
}

// Which nodes are taken out.
fn taken_out<S: Store>(work: &Work<'_, S>) -> [bool; 1024] {
    let mut flags = [false; 1024];
    for node in 0..1024 {
        flags[node as usize] = work.is_taken_out(node);
    }
    flags
}

// Tells the nodes that were taken out since, rising.
fn tell_taken_out(
    before: &[bool; 1024],
    now: &[bool; 1024],
    text: &mut String,
) -> Result<(), AllocError> {
    let mut between = "";
    write!(text, " [")?;
    for node in 0..1024 {
        if now[node] && !before[node] {
            write!(text, "{between}{node}")?;
            between = " ";
        }
    }
    write!(text, "]")
}

// Calls `bve_simplify`, and tells its answer and the nodes that it took out.
fn eliminate<S: Store>(
    work: &mut Work<'_, S>,
    working: &mut [u32],
    text: &mut String,
) -> Result<(), AllocError> {
    let before = taken_out(work);
    match work.bve_simplify(working) {
        Ok((out, live)) => {
            write!(text, "out {out} live {live}")?;
            tell_taken_out(&before, &taken_out(work), text)?;
            writeln!(text, "")
        }
        Err(fault) => writeln!(text, "{fault}"),
    }
}

// Tells the words that were written, or the refusal.
fn tell_words(
    answer: Result<u32, Fault>,
    out: &[u32],
    text: &mut String,
) -> Result<(), AllocError> {
    match answer {
        Ok(count) => {
            write!(text, "words {count}:")?;
            show_numbers(out.get(..count as usize).unwrap_or(&[]), text)
        }
        Err(fault) => write!(text, "{fault}"),
    }
}

// Says so if words past those that were written have changed.
fn tell_spilled(
    answer: Result<u32, Fault>,
    out: &[u32],
    text: &mut String,
) -> Result<(), AllocError> {
    if !is_blank(out, answer.unwrap_or(0) as usize) {
        writeln!(text, " words beyond have changed")?;
    }
    Ok(())
}

// Calls `finalize`, and tells the image.
fn hand_out<S: Store>(
    work: &Work<'_, S>,
    out: &mut [u32],
    text: &mut String,
) -> Result<(), AllocError> {
    let answer = work.finalize(out);
    tell_words(answer, out, text)?;
    writeln!(text, "")?;
    tell_spilled(answer, out, text)
}

// Calls `simplify`, and tells the image and the nodes that were taken out.
fn simplify<S: Store>(
    work: &mut Work<'_, S>,
    working: &mut [u32],
    out: &mut [u32],
    text: &mut String,
) -> Result<(), AllocError> {
    let before = taken_out(work);
    let answer = work.simplify(working, out);
    tell_words(answer, out, text)?;
    if answer.is_ok() {
        tell_taken_out(&before, &taken_out(work), text)?;
    }
    writeln!(text, "")?;
    tell_spilled(answer, out, text)
}

// Makes a call, which is lent just the working words that it needs if it says nothing else, and tells its answer.
fn make<S: Store>(
    work: &mut Work<'_, S>,
    call: Call,
    lent: &mut Lent,
    text: &mut String,
) -> Result<(), AllocError> {
    let Lent { working, out } = lent;
    let needed = working_words(work.room());
    let working = first(working.as_mut_slice(), call.working().unwrap_or(needed));
    let enough = image_words(work.top(), work.room());
    let out = blank(out.as_mut_slice(), call.lent().unwrap_or(enough));
    match call {
        Call::Const(_) => tell_live(work.const_simplify(working), text),
        Call::Bve(_) => eliminate(work, working, text),
        Call::Subsume(_) => tell_live(work.subsume_simplify(working), text),
        Call::Finalize(_) => hand_out(work, out, text),
        Call::Simplify(..) => simplify(work, working, out, text),
    }
}

// Makes the calls in turn, and shows the work before the first and after each.
fn make_all<S: Store>(
    work: &mut Work<'_, S>,
    calls: &[Call],
    lent: &mut Lent,
    text: &mut String,
) -> Result<(), AllocError> {
    show_work(work, text)?;
    for call in calls {
        write!(text, "{call} -> ")?;
        make(work, *call, lent, text)?;
        show_work(work, text)?;
    }
    Ok(())
}

// Does a job over a store, and adds what came of it to the text.
pub fn drive<S: Store + Drop>(
    job: &Job,
    store: S,
    lent: &mut Lent,
    text: &mut String,
) -> Result<(), AllocError> {
    let mut intake = Intake::smallest();
    if let Err(fault) = take_in(job.image.as_slice(), &mut intake) {
        return writeln!(text, "take-in {fault}");
    }
    writeln!(text, "take-in opened")?;
    freeze(&mut intake, job.frozen.as_slice(), text)?;
    match Work::start(intake, store) {
        Ok(mut work) => {
            writeln!(text, "start opened")?;
            make_all(&mut work, job.calls.as_slice(), lent, text)
        }
        Err((_, _, fault)) => writeln!(text, "start {fault}"),
    }
}
