ghost use Rattle.reading.specs.Back.{ReadsBack};
ghost use Rattle.reading.specs.Examples.{Examples};

// A theorem: the row of a settled whole number is a line that means it.
pub fn printed_is_read()
    ensures { ReadsBack }
{}

// A theorem: lines of recipes, and texts that are none.
pub fn examples_stand()
    ensures { Examples }
{}
