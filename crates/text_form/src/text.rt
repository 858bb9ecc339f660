// A text taken byte by byte, however long it and its comments are, to the first boxes and the words of its steps.
use crate::StepWords;
use crate::steps::Line;
use crate::wrong::{BadLine, Wrong};
use arrayvec::ArrayVec;
use streams::Word;

// A text as far as it was taken: the line, whether the rest of it is a comment or an answer, its words, and what was found.
#[derive(Drop)]
pub(crate) struct Text<'a> {
    line: u64,
    passing: bool,
    word: Word,
    // One word more than any line has: of more words these tell that the line is bad.
    words: ArrayVec<Word, 8>,
    first: Option<u16>,
    steps: &'a mut StepWords,
}

impl<'a> Text<'a> {
    pub(crate) fn new(steps: &'a mut StepWords) -> Self {
        Text {
            line: 1,
            passing: false,
            word: Word::new(),
            words: ArrayVec::new(),
            first: None,
            steps,
        }
    }

    fn end_word(&mut self) {
        if self.word.is_empty() {
            return;
        }
        let _ = self.words.try_push(self.word);
        self.word = Word::new();
    }

    fn take_first(&mut self, first: u16) -> Result<(), Wrong> {
        if self.first.is_some() {
            return Err(Wrong::FirstAgain);
        }
        self.first = Some(first);
        Ok(())
    }

    // What does not fit is left out, as the row then holds too much for a tape.
    fn take_steps(&mut self, word: u64, times: u64) -> Result<(), Wrong> {
        if self.first.is_none() {
            return Err(Wrong::NotFirst);
        }
        for _ in 0..times {
            let _ = self.steps.try_push(word);
        }
        Ok(())
    }

    // What a line says, taken into the text.
    fn take_line(&mut self) -> Result<(), Wrong> {
        match Line::of(self.words.as_slice())? {
            Line::Nothing => Ok(()),
            Line::First(first) => self.take_first(first),
            Line::Steps { word, times } => self.take_steps(word, times),
        }
    }

    fn end_line(&mut self) -> Result<(), BadLine> {
        self.end_word();
        let line = self.line;
        self.take_line().map_err(|wrong| BadLine { line, wrong })?;
        self.words.clear();
        self.passing = false;
        self.line = line.wrapping_add(1);
        Ok(())
    }

    // A byte that ends no line. A carriage return counts as a blank, so that it may stand before the line's end.
    fn take_in_line(&mut self, byte: u8) {
        if self.passing {
            return;
        }
        match byte {
            b'#' | b':' => {
                self.end_word();
                self.passing = true;
            }
            b' ' | b'\t' | b'\r' => self.end_word(),
            _ => self.word = self.word.with_byte(byte),
        }
    }

    // The bytes of one read.
    pub(crate) fn take(&mut self, bytes: &[u8]) -> Result<(), BadLine> {
        for byte in bytes {
            match byte {
                b'\n' => self.end_line()?,
                _ => self.take_in_line(*byte),
            }
        }
        Ok(())
    }

    // The last line ends with the text. Its first boxes, 0 where it has none, which 12 then refuses.
    pub(crate) fn end(mut self) -> Result<u16, BadLine> {
        self.end_line()?;
        Ok(self.first.unwrap_or(0))
    }
}
