// The calls of a job.
use anyhow::bail;
use std::fmt;

// A call on a work, with what it may say of the words that it is lent: a pass how many working words, and those that write an image how
// many words for it. `simplify` may say both, the image's first.
#[derive(Clone, Copy)]
pub enum Call {
    Const(Option<usize>),
    Bve(Option<usize>),
    Subsume(Option<usize>),
    Finalize(Option<usize>),
    Simplify(Option<usize>, Option<usize>),
}

// A number of words, if one is said.
fn words_of(said: Option<&str>) -> anyhow::Result<Option<usize>> {
    match said {
        Some(words) => Ok(Some(words.parse::<usize>()?)),
        None => Ok(None),
    }
}

impl Call {
    // The call of a word, as `bve`, `bve:16384` or `simplify:20:16384`.
    pub fn read(word: &str) -> anyhow::Result<Call> {
        let mut parts = word.split(':');
        let name = parts.next().unwrap_or("");
        let first = words_of(parts.next())?;
        let second = words_of(parts.next())?;
        match name {
            "const" => Ok(Call::Const(first)),
            "bve" => Ok(Call::Bve(first)),
            "subsume" => Ok(Call::Subsume(first)),
            "finalize" => Ok(Call::Finalize(first)),
            "simplify" => Ok(Call::Simplify(first, second)),
            _ => bail!("no call has the name {name}"),
        }
    }

    // Its name.
    fn name(self) -> &'static str {
        match self {
            Call::Const(_) => "const",
            Call::Bve(_) => "bve",
            Call::Subsume(_) => "subsume",
            Call::Finalize(_) => "finalize",
            Call::Simplify(..) => "simplify",
        }
    }

    // How many words it is lent for the image, if it says so.
    pub fn lent(self) -> Option<usize> {
        match self {
            Call::Finalize(words) | Call::Simplify(words, _) => words,
            Call::Const(_) | Call::Bve(_) | Call::Subsume(_) => None,
        }
    }

    // How many working words it is lent, if it says so.
    pub fn working(self) -> Option<usize> {
        match self {
            Call::Const(words) | Call::Bve(words) | Call::Subsume(words) => words,
            Call::Simplify(_, words) => words,
            Call::Finalize(_) => None,
        }
    }
}

// The word that it was read from.
impl fmt::Display for Call {
    fn fmt<W: fmt::Write>(&self, f: &mut fmt::Formatter<W>) -> fmt::Result {
        write!(f, "{}", self.name())?;
        if let Some(words) = self.lent() {
            write!(f, ":{words}")?;
        }
        if let Some(words) = self.working() {
            write!(f, ":{words}")?;
        }
        Ok(())
    }
}
