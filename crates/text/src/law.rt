// What reading means.
ghost use Rattle.text.specs.Laws.{ReadingLaw};

// A text is read as forms exactly if they are valid and it is their print, and otherwise its first other line is told.
pub fn reading_law()
    ensures { ReadingLaw }
{}
