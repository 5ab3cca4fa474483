// A table's rows, read octet by octet.
use crate::printed::Printed;
use std::alloc::{AllocError, AllocFailed, Global};
use std::mem;

/// A row: what is called with which arguments, and what is wanted of it.
#[derive(Drop)]
pub struct Row {
    pub line: u64,
    pub call: Vec<u8>,
    pub arguments: Vec<Vec<u8>>,
    pub wanted: Printed,
    has_answer: bool,
}

impl Row {
    fn new(alloc: Global, line: u64) -> Row {
        Row {
            line,
            call: Vec::new(alloc),
            arguments: Vec::new(alloc),
            wanted: Printed::new(alloc),
            has_answer: false,
        }
    }
}

/// Why a table isn't read.
#[derive(Drop)]
pub enum TableError {
    /// An allocation was refused.
    Memory,
    /// This line isn't written as a table's lines are.
    Line(u64),
}

impl From<AllocError> for TableError {
    fn from(_: AllocError) -> TableError {
        TableError::Memory
    }
}

impl<T: Drop> From<AllocFailed<T>> for TableError {
    fn from(_: AllocFailed<T>) -> TableError {
        TableError::Memory
    }
}

/// The rows of a table, those that name a text left out.
pub fn rows_of(alloc: Global, table: &[u8]) -> Result<Vec<Row>, TableError> {
    let mut reader = Reader::new(alloc);
    for octet in table {
        reader.take(*octet)?;
    }
    reader.take(b'\n')?;
    reader.finish_row()?;
    Ok(reader.rows)
}

// What the next octet belongs to.
#[derive(Clone, Copy)]
enum State {
    // The beginning of a line.
    Line,
    Comment,
    // Blanks.
    Gap,
    Word,
    // The beginning of a piece of a text.
    Piece,
    Quoted,
    // After a backslash, and after one of its digits, which is this.
    Escape,
    Digit(u8),
    // After a closing quote.
    Closed,
    // A piece's number of times, as far as it was read.
    Times(usize),
    // The name of a text.
    Name,
}

// What was read of a table.
#[derive(Drop)]
struct Reader {
    alloc: Global,
    state: State,
    line: u64,
    rows: Vec<Row>,
    // The row that is open.
    row: Option<Row>,
    // The texts that have names.
    names: Vec<Named>,
    // The word, name or piece that is open, and the pieces before it.
    piece: Vec<u8>,
    text: Vec<u8>,
}

// A text that has a name.
#[derive(Drop)]
struct Named {
    name: Vec<u8>,
    text: Vec<u8>,
}

impl Reader {
    fn new(alloc: Global) -> Reader {
        Reader {
            alloc,
            state: State::Line,
            line: 1,
            rows: Vec::new(alloc),
            row: None,
            names: Vec::new(alloc),
            piece: Vec::new(alloc),
            text: Vec::new(alloc),
        }
    }

    // Reads an octet more.
    fn take(&mut self, octet: u8) -> Result<(), TableError> {
        self.step(octet)?;
        if octet == b'\n' {
            self.line = self.line.wrapping_add(1);
        }
        Ok(())
    }

    fn step(&mut self, octet: u8) -> Result<(), TableError> {
        match self.state {
            State::Line => self.begin_line(octet),
            State::Comment => {
                if octet == b'\n' {
                    self.state = State::Line;
                }
                Ok(())
            }
            State::Gap => self.begin_word(octet),
            State::Word => self.go_on_with_word(octet),
            State::Piece => self.begin_piece(octet),
            State::Quoted => self.go_on_with_piece(octet),
            State::Escape => {
                self.state = State::Digit(self.digit(octet)?);
                Ok(())
            }
            State::Digit(high) => {
                let low = self.digit(octet)?;
                self.piece.push(high.wrapping_mul(16).wrapping_add(low))?;
                self.state = State::Quoted;
                Ok(())
            }
            State::Closed => match octet {
                b'*' => {
                    self.state = State::Times(0);
                    Ok(())
                }
                _ => self.end_piece(octet, 1),
            },
            State::Times(times) => self.go_on_with_times(octet, times),
            State::Name => self.go_on_with_name(octet),
        }
    }

    fn begin_line(&mut self, octet: u8) -> Result<(), TableError> {
        match octet {
            b'\n' => self.finish_row(),
            b'#' => {
                self.finish_row()?;
                self.state = State::Comment;
                Ok(())
            }
            b' ' if self.row.is_some() => {
                self.state = State::Gap;
                Ok(())
            }
            _ => {
                self.finish_row()?;
                self.row = Some(Row::new(self.alloc, self.line));
                self.begin_word(octet)
            }
        }
    }

    // After a blank, or at the beginning of a row.
    fn begin_word(&mut self, octet: u8) -> Result<(), TableError> {
        match octet {
            b' ' => self.state = State::Gap,
            b'\n' => self.state = State::Line,
            b'"' | b'$' => return self.begin_piece(octet),
            _ => {
                self.piece.push(octet)?;
                self.state = State::Word;
            }
        }
        Ok(())
    }

    fn go_on_with_word(&mut self, octet: u8) -> Result<(), TableError> {
        match octet {
            b' ' | b'\n' => {
                let word = mem::replace(&mut self.piece, Vec::new(self.alloc));
                self.add_word(word)?;
                self.begin_word(octet)
            }
            b'"' => Err(self.fault()),
            _ => Ok(self.piece.push(octet)?),
        }
    }

    fn begin_piece(&mut self, octet: u8) -> Result<(), TableError> {
        match octet {
            b'"' => self.state = State::Quoted,
            b'$' => self.state = State::Name,
            _ => return Err(self.fault()),
        }
        Ok(())
    }

    fn go_on_with_piece(&mut self, octet: u8) -> Result<(), TableError> {
        match octet {
            b'"' => self.state = State::Closed,
            b'\\' => self.state = State::Escape,
            32..=126 => self.piece.push(octet)?,
            _ => return Err(self.fault()),
        }
        Ok(())
    }

    fn go_on_with_times(&mut self, octet: u8, times: usize) -> Result<(), TableError> {
        match octet {
            b'0'..=b'9' => {
                let digit = usize::from(octet.wrapping_sub(b'0'));
                self.state = State::Times(times.saturating_mul(10).saturating_add(digit));
                Ok(())
            }
            _ => self.end_piece(octet, times),
        }
    }

    fn go_on_with_name(&mut self, octet: u8) -> Result<(), TableError> {
        match octet {
            b'+' | b' ' | b'\n' => {
                self.find_name()?;
                self.end_piece(octet, 1)
            }
            _ => Ok(self.piece.push(octet)?),
        }
    }

    // Has the text in place of its name.
    fn find_name(&mut self) -> Result<(), TableError> {
        let mut found = None;
        for named in &self.names {
            if named.name.as_slice() == self.piece.as_slice() {
                found = Some(named.text.to_vec(self.alloc)?);
            }
        }
        match found {
            Some(text) => {
                self.piece = text;
                Ok(())
            }
            None => Err(self.fault()),
        }
    }

    // After a piece that stands there so many times.
    fn end_piece(&mut self, octet: u8, times: usize) -> Result<(), TableError> {
        for _ in 0..times {
            self.text.extend_from_slice(&self.piece)?;
        }
        self.piece.clear();
        match octet {
            b'+' => {
                self.state = State::Piece;
                Ok(())
            }
            b' ' | b'\n' => {
                let text = mem::replace(&mut self.text, Vec::new(self.alloc));
                self.add_text(text)?;
                self.begin_word(octet)
            }
            _ => Err(self.fault()),
        }
    }

    fn add_word(&mut self, word: Vec<u8>) -> Result<(), TableError> {
        let fault = self.fault();
        match &mut self.row {
            Some(row) if row.has_answer => {
                row.wanted.octets(&word);
                Ok(())
            }
            Some(row) if word.as_slice() == b"=".as_slice() => {
                row.has_answer = true;
                Ok(())
            }
            Some(row) if row.call.is_empty() => {
                row.call = word;
                Ok(())
            }
            Some(row) => Ok(row.arguments.push(word)?),
            None => Err(fault),
        }
    }

    fn add_text(&mut self, text: Vec<u8>) -> Result<(), TableError> {
        let fault = self.fault();
        match &mut self.row {
            Some(row) if row.has_answer && row.call.as_slice() == b"let".as_slice() => {
                match row.arguments.pop() {
                    Some(name) => Ok(self.names.push(Named { name, text })?),
                    None => Err(fault),
                }
            }
            Some(row) if row.has_answer => {
                row.wanted.text(&text);
                Ok(())
            }
            Some(row) => Ok(row.arguments.push(text)?),
            None => Err(fault),
        }
    }

    // Ends the row that is open.
    fn finish_row(&mut self) -> Result<(), TableError> {
        match mem::replace(&mut self.row, None) {
            None => Ok(()),
            Some(row) if !row.has_answer => Err(TableError::Line(row.line)),
            Some(row) if row.call.as_slice() == b"let".as_slice() => Ok(()),
            Some(row) => Ok(self.rows.push(row)?),
        }
    }

    // The number that a hexadecimal digit is.
    fn digit(&self, octet: u8) -> Result<u8, TableError> {
        match octet {
            b'0'..=b'9' => Ok(octet.wrapping_sub(b'0')),
            b'a'..=b'f' => Ok(octet.wrapping_sub(b'a').wrapping_add(10)),
            _ => Err(self.fault()),
        }
    }

    fn fault(&self) -> TableError {
        TableError::Line(self.line)
    }
}
