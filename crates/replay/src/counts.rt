//! How many lines were what.
use recorded::Kind;
use std::fmt;

/// How many cases of each kind there were, in the kinds' order, and how many other lines.
#[derive(Clone, Copy, Default)]
pub struct Counts {
    cases: [u64; 12],
    comments: u64,
    unread: u64,
    differences: u64,
}

impl Counts {
    pub fn add_case(&mut self, kind: Kind) {
        if let Some(count) = self.cases.get_mut(kind as usize) {
            *count = count.saturating_add(1);
        }
    }

    pub fn add_comment(&mut self) {
        self.comments = self.comments.saturating_add(1);
    }

    pub fn add_unread(&mut self) {
        self.unread = self.unread.saturating_add(1);
    }

    pub fn add_difference(&mut self) {
        self.differences = self.differences.saturating_add(1);
    }

    /// Whether every line could be read, and no case differs.
    pub fn is_clean(&self) -> bool {
        self.unread == 0 && self.differences == 0
    }
}

impl fmt::Display for Counts {
    fn fmt<W: fmt::Write>(&self, f: &mut fmt::Formatter<W>) -> fmt::Result {
        let mut all = 0u64;
        for (kind, count) in Kind::ALL.iter().zip(self.cases.iter()) {
            writeln!(f, "{} {count}", kind.word())?;
            all = all.saturating_add(*count);
        }
        writeln!(f, "comments {}", self.comments)?;
        writeln!(f, "unread {}", self.unread)?;
        writeln!(f, "{all} cases, {} differences", self.differences)
    }
}
