// Lists of clauses as text, and their simplification.
use lemmas::Lemmas;
use std::alloc::Global;

// The words that each clause has for its literals.
const WIDTH: usize = 32;

// The literals of one clause, as numbers.
fn literals_of(alloc: Global, clause: &str) -> anyhow::Result<Vec<u32>> {
    let mut literals = Vec::new(alloc);
    for literal in clause.split_whitespace() {
        literals.push(literal.parse::<u32>()?)?;
    }
    Ok(literals)
}

// The clauses of a text, apart by `;`.
pub fn clauses_of(alloc: Global, text: &str) -> anyhow::Result<Vec<Vec<u32>>> {
    let mut clauses = Vec::new(alloc);
    for clause in text.split(';') {
        clauses.push(literals_of(alloc, clause)?)?;
    }
    Ok(clauses)
}

// The clauses that an order names, out of the words that hold them.
fn named(
    alloc: Global,
    order: &[u32],
    lengths: &[u32],
    literals: &[u32],
) -> anyhow::Result<Vec<Vec<u32>>> {
    let mut out = Vec::new(alloc);
    for number in order {
        let k = *number as usize;
        let len = lengths.get(k).copied().unwrap_or(0) as usize;
        let from = WIDTH * k;
        out.push(literals.get(from..from + len).unwrap_or(&[]).to_vec(alloc)?)?;
    }
    Ok(out)
}

// What `lemmas_subsume_simplify` leaves of a list, in its order; none where it refuses.
pub fn simplified(alloc: Global, clauses: &[Vec<u32>]) -> anyhow::Result<Option<Vec<Vec<u32>>>> {
    let count = clauses.len();
    let mut lengths = Vec::new(alloc);
    let mut literals = Vec::new(alloc);
    for clause in clauses {
        lengths.push(u32::try_from(clause.len())?)?;
        literals.extend_from_slice(clause.as_slice())?;
        literals.resize(WIDTH.saturating_mul(lengths.len()), 0)?;
    }
    let mut order = vec![in alloc; 0u32; count]?;
    let left = Lemmas {
        lengths: lengths.as_mut_slice(),
        literals: literals.as_mut_slice(),
        order: order.as_mut_slice(),
        entries: vec![in alloc; 0u32; count]?.as_mut_slice(),
        places: vec![in alloc; 0u32; count]?.as_mut_slice(),
    }
    .lemmas_subsume_simplify(u32::try_from(count)?);
    let Some(left) = left else {
        return Ok(None);
    };
    order.truncate(left);
    let out = named(
        alloc,
        order.as_slice(),
        lengths.as_slice(),
        literals.as_slice(),
    )?;
    Ok(Some(out))
}
