//! The text of rows: lists of whole numbers with bars between them.

use crate::stops::Stop;
use std::alloc::{AllocError, Global};
use std::fmt;

/// The answer of a row while it is written, each piece after a space.
#[derive(Drop)]
pub struct Answer {
    text: String,
}

impl Answer {
    /// The sign of equality.
    pub fn new(alloc: Global) -> Result<Answer, AllocError> {
        let text = String::from_str(alloc, " =")?;
        Ok(Answer { text })
    }

    /// The text.
    pub fn text(self) -> String {
        self.text
    }

    /// Writes a word.
    pub fn word(&mut self, word: &str) -> Result<(), AllocError> {
        write!(self.text, " {word}")
    }

    /// Writes a number.
    pub fn number(&mut self, n: i128) -> Result<(), AllocError> {
        write!(self.text, " {n}")
    }

    /// Writes a value as `{:?}` does.
    pub fn debug<T: fmt::Debug>(&mut self, value: &T) -> Result<(), AllocError> {
        write!(self.text, " {value:?}")
    }

    /// Writes a number, or that there is none.
    pub fn option(&mut self, n: Option<i32>) -> Result<(), AllocError> {
        match n {
            Some(n) => self.number(i128::from(n)),
            None => self.word("none"),
        }
    }

    /// Writes a list.
    pub fn list(&mut self, list: &[i128]) -> Result<(), AllocError> {
        if list.is_empty() {
            return self.word("-");
        }
        for n in list {
            self.number(*n)?;
        }
        Ok(())
    }

    /// Writes a bar and a list.
    pub fn next(&mut self, list: &[i128]) -> Result<(), AllocError> {
        self.word("|")?;
        self.list(list)
    }
}

/// The question and the lists of a row, unless the line is a heading.
pub fn row(line: &str) -> Option<(&str, &str)> {
    if line.starts_with('#') {
        return None;
    }
    line.split_once(':')
}

/// The lists of a row, where `mark` stands between two.
pub fn read_lists(alloc: Global, text: &str, mark: &str) -> Result<Vec<Vec<i128>>, Stop> {
    let mut lists = Vec::new(alloc);
    let mut last = Vec::new(alloc);
    for word in text.split_whitespace() {
        if word == mark {
            lists.push(last)?;
            last = Vec::new(alloc);
        } else if word != "-" {
            last.push(word.parse::<i128>()?)?;
        }
    }
    lists.push(last)?;
    Ok(lists)
}

/// A number as an index or a number of elements.
pub fn index(n: i128) -> Result<usize, Stop> {
    usize::try_from(n).map_err(|_| Stop::NoQuestion)
}

/// The vector that begins with a list.
pub fn padded(list: &[i128]) -> Result<[i128; 8], Stop> {
    let mut vector = [0; 8];
    if list.len() > 8 {
        return Err(Stop::NoQuestion);
    }
    for k in 0..list.len() {
        vector[k] = list[k];
    }
    Ok(vector)
}

/// The first entries of a vector.
pub fn start(vector: &[i128; 8], count: usize) -> &[i128] {
    &vector[..count.min(8)]
}

/// The two numbers of a list of two.
pub fn pair(list: &[i128]) -> Result<(i128, i128), Stop> {
    match list {
        [j, k] => Ok((*j, *k)),
        _ => Err(Stop::NoQuestion),
    }
}

/// The number of a list of one.
pub fn single(list: &[i128]) -> Result<i128, Stop> {
    match list {
        [k] => Ok(*k),
        _ => Err(Stop::NoQuestion),
    }
}
