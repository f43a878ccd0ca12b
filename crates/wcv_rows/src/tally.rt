// How many rows ran, and what is told of those that differ.
use crate::repeats::push_with;
use std::alloc::{AllocError, Global};

/// So many bytes of a text are told at most.
const LONGEST: usize = 300;

/// How many rows ran, how many differ, and a line for each of these.
#[derive(Drop)]
pub struct Tally {
    alloc: Global,
    file: String,
    rows: u64,
    wrong: u64,
    told: String,
}

/// The beginning of a text that is long, and else the text.
fn cut(text: &str) -> &str {
    text.get(..LONGEST).unwrap_or(text)
}

impl Tally {
    /// No rows.
    pub fn new(alloc: Global) -> Tally {
        Tally {
            alloc,
            file: String::new(alloc),
            rows: 0,
            wrong: 0,
            told: String::new(alloc),
        }
    }

    /// The rows that follow stand in this file.
    pub fn open(&mut self, file: &str) -> Result<(), AllocError> {
        self.file = String::from_str(self.alloc, file)?;
        Ok(())
    }

    pub fn alloc(&self) -> Global {
        self.alloc
    }

    pub fn told(&self) -> &str {
        self.told.as_str()
    }

    pub fn rows(&self) -> u64 {
        self.rows
    }

    pub fn wrong(&self) -> u64 {
        self.wrong
    }

    /// One more row.
    pub fn count(&mut self) {
        self.rows = self.rows.saturating_add(1);
    }

    /// That of the row with this title, which asks this, one text was due and another came. Lines are parted by
    /// ` / ` here.
    pub fn tell(
        &mut self,
        title: &str,
        asked: &str,
        due: &str,
        came: &str,
    ) -> Result<(), AllocError> {
        self.wrong = self.wrong.saturating_add(1);
        let file = self.file.as_str();
        let between = if asked.is_empty() { "" } else { " " };
        let asked = cut(asked);
        write!(self.told, "{file}: {title}{between}{asked}: due `")?;
        push_with(&mut self.told, cut(due), "\n", " / ")?;
        self.told.push_str("`, came `")?;
        push_with(&mut self.told, cut(came), "\n", " / ")?;
        self.told.push_str("`\n")
    }
}
