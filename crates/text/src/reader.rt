// The reader: a machine in place that takes a text byte by byte and gives its items.
ghost use Rattle.std.specs.Prelude.{◌≡◌, ◌+◌, ◌<◌, ◌≤◌, length};

use crate::class::{Class, class_of, is_number, may_grow};

// The most bytes of a text.
pub(crate) const TEXT_MAX: usize = 32768;
// The most letters and digits of a word.
const WORD_MAX: usize = 12;
// The most brackets around an item.
const NESTING_MAX: usize = 12;

// Where the reader is: between items, in a word, or in a number.
#[derive(Clone, Copy)]
pub(crate) enum State {
    Between,
    Word,
    Number,
}

// What stands before a place between items: a line's start, a bracket or a space, an item, or a line's whole form.
#[derive(Clone, Copy)]
pub(crate) enum Gap {
    Line,
    Want,
    After,
    Ended,
}

// A bracket, or a word or a number: the part of the text that it is, and its place there.
#[derive(Clone, Copy)]
pub(crate) enum Item<'a> {
    Open,
    Close,
    Word(&'a [u8], usize),
    Number(&'a [u8], usize),
}

// The line, counted from 1, that is no form.
#[derive(Clone, Copy)]
pub(crate) struct NoForm {
    pub(crate) line: usize,
}

// The next byte is at `at`, the word or number so far begins at `from`, `depth` brackets are open, and lines count from 1.
#[derive(Drop)]
pub(crate) struct Reader<'a> {
    text: &'a [u8],
    at: usize,
    from: usize,
    state: State,
    gap: Gap,
    depth: usize,
    line: usize,
    ghost short: { length text.now ≤ 32768 },
    ghost within: { at ≤ length text.now },
    ghost back: { from ≤ at },
    ghost lines: { line ≤ at + 1 },
    ghost shallow: { depth ≤ 12 },
}

impl<'a> Reader<'a> {
    ghost use Rattle.text.specs.Tokens.{toks, spot, line};
    ghost use Rattle.text.specs.Machine.{Moved, Stepped, Answered, ItemAt, ahead, tok_of, between_items, item_grows, item_ends};

    // At the start of a text.
    pub(crate) fn new(text: &'a [u8]) -> Self
        requires { length text.now ≤ 32768 }
        ensures { ahead result ≡ toks (spot line 0 1) text.now }
    {
        Reader {
            text,
            at: 0,
            from: 0,
            state: State::Between,
            gap: Gap::Line,
            depth: 0,
            line: 1,
        }
    }

    // A byte of class c between items.
    // That a byte is left is asked in three methods, and is no ghost field: at the end of the text it is false.
    fn between(&mut self, c: Class) -> Result<Option<Item<'a>>, NoForm>
        requires more { self.old.at < length self.old.text.now }
        requires between { self.old.state ≡ State.Between }
        ensures { Moved self.old self.new result (between_items c) 1 }
    {
        let here = self.at;
        self.at += 1;
        match (self.gap, c) {
            (Gap::Line | Gap::Want, Class::Open) if self.depth < NESTING_MAX => {
                self.depth += 1;
                self.gap = Gap::Want;
                return Ok(Some(Item::Open));
            }
            (Gap::Want, Class::Letter) => {
                self.from = here;
                self.state = State::Word;
            }
            (Gap::Want, Class::Digit | Class::Minus) => {
                self.from = here;
                self.state = State::Number;
            }
            (Gap::After, Class::Space) => self.gap = Gap::Want,
            (Gap::After, Class::Close) => {
                self.depth = self.depth.saturating_sub(1);
                if self.depth == 0 {
                    self.gap = Gap::Ended;
                }
                return Ok(Some(Item::Close));
            }
            (Gap::Ended, Class::Feed) => {
                self.line += 1;
                self.gap = Gap::Line;
            }
            _ => return Err(NoForm { line: self.line }),
        }
        Ok(None)
    }

    // A byte more in a word or a number, if it may follow.
    fn grow(&mut self, fits: bool) -> Result<Option<Item<'a>>, NoForm>
        requires { self.old.at < length self.old.text.now }
        ensures { Moved self.old self.new result (item_grows fits) 1 }
    {
        self.at += 1;
        if fits {
            Ok(None)
        } else {
            Err(NoForm { line: self.line })
        }
    }

    // The word or number that ends here.
    fn finish(&mut self, item: Item<'a>) -> Result<Option<Item<'a>>, NoForm>
        requires { ItemAt item self.old }
        ensures { Moved self.old self.new result (item_ends (tok_of item.entry)) 0 }
    {
        self.state = State::Between;
        self.gap = Gap::After;
        Ok(Some(item))
    }

    // One byte more, or the end of a word or a number.
    fn step(&mut self) -> Result<Option<Item<'a>>, NoForm>
        requires { self.old.at < length self.old.text.now }
        ensures { Stepped self.old self.new result }
    {
        let b = self.text[self.at];
        let part = &self.text[self.from..self.at];
        match (self.state, class_of(b)) {
            (State::Between, c) => self.between(c),
            (State::Word, Class::Letter | Class::Digit) => self.grow(part.len() < WORD_MAX),
            (State::Word, _) => self.finish(Item::Word(part, self.from)),
            (State::Number, Class::Digit) => self.grow(may_grow(part, b)),
            (State::Number, _) if is_number(part) => self.finish(Item::Number(part, self.from)),
            (State::Number, _) => Err(NoForm { line: self.line }),
        }
    }

    // The next item, or None at the end, or the line that is no form.
    pub(crate) fn next(&mut self) -> Result<Option<Item<'a>>, NoForm>
        ensures { Answered self.old self.new result }
    {
        while self.at < self.text.len() {
            if let Some(item) = self.step()? {
                return Ok(Some(item));
            }
        }
        match (self.state, self.gap) {
            (State::Between, Gap::Line) => Ok(None),
            _ => Err(NoForm { line: self.line }),
        }
    }
}
