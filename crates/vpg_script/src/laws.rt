//! Laws of reading.
ghost use Rattle.vpg_script.specs.Calling.{MeansItself};
ghost use Rattle.vpg_script.specs.Forms.{EachWordNamesItsCommand};
ghost use Rattle.vpg_script.specs.Lines.{ReadIsWhole};
ghost use Rattle.vpg_script.specs.Script.{WordsAreBetweenBlanks};

/// Lines that are read one by one are the lines of the whole text.
pub fn read_lines_are_the_lines()
    ensures { ReadIsWhole }
{}

/// If no vertex has a name, each request means itself.
pub fn a_request_means_itself()
    ensures { MeansItself }
{}

/// If a line has no quote, its words are the pieces between its blanks.
pub fn words_stand_between_blanks()
    ensures { WordsAreBetweenBlanks }
{}

/// Each command is the one that its word names.
pub fn each_word_names_its_command()
    ensures { EachWordNamesItsCommand }
{}
