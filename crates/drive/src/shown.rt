// A work as text: its own lists in order, the known values, and the uses while an index stands.
use clause::Lbool;
use std::alloc::AllocError;
use std::fmt::Write;
use store::store::Store;
use work::state::Work;

// Adds numbers, each behind a space.
pub fn show_numbers(numbers: &[u32], text: &mut String) -> Result<(), AllocError> {
    for number in numbers {
        write!(text, " {number}")?;
    }
    Ok(())
}

// Adds a clause, as ` {2,4}`.
fn show_clause(clause: &[u32], text: &mut String) -> Result<(), AllocError> {
    let mut before = " {";
    for literal in clause {
        write!(text, "{before}{literal}")?;
        before = ",";
    }
    write!(text, "}}")
}

// Adds a line for the own list of a literal, unless it is empty.
fn show_own<S: Store>(store: &S, l: u32, text: &mut String) -> Result<(), AllocError> {
    if store.own_len(l) == 0 {
        return Ok(());
    }
    write!(text, " own {l}:")?;
    let mut at = store.first(l);
    for _place in 0..store.own_len(l) {
        let Some(h) = at else {
            break;
        };
        show_clause(store.clause(h), text)?;
        at = store.next(h);
    }
    writeln!(text, "")
}

// Adds a line for the uses of a literal, unless there are none.
fn show_uses<S: Store>(store: &S, k: u32, text: &mut String) -> Result<(), AllocError> {
    let count = store.count(k);
    if count == 0 {
        return Ok(());
    }
    write!(text, " uses {k} ({count}):")?;
    let mut at = store.first_use(k);
    for _place in 0..count {
        let Some(u) = at else {
            break;
        };
        match store.user(u) {
            Some(h) => show_clause(store.clause(h), text)?,
            None => write!(text, " dead")?,
        }
        at = store.next_use(k, u);
    }
    writeln!(text, "")
}

// Adds the line of the known values, each as the literal that is true.
fn show_values<S: Store>(work: &Work<'_, S>, text: &mut String) -> Result<(), AllocError> {
    write!(text, " values")?;
    for node in 0..=work.top() {
        match work.value(node) {
            Lbool::True => write!(text, " {}", 2 * node)?,
            Lbool::False => write!(text, " {}", 2 * node + 1)?,
            Lbool::Unknown => (),
        }
    }
    writeln!(text, "")
}

// Adds the lines of an index, where one stands.
fn show_index<S: Store>(work: &Work<'_, S>, text: &mut String) -> Result<(), AllocError> {
    if work.store().indexed() {
        writeln!(text, " index")?;
        for l in 0..2 * work.top() + 2 {
            show_uses(work.store(), l, text)?;
        }
    }
    Ok(())
}

// Adds the lines of a work.
pub fn show_work<S: Store>(work: &Work<'_, S>, text: &mut String) -> Result<(), AllocError> {
    for l in 0..2 * work.top() + 2 {
        show_own(work.store(), l, text)?;
    }
    show_values(work, text)?;
    show_index(work, text)
}
