ghost use Rattle.cutting.specs.Joined.{Cuts};

// A theorem: the lines of a text, each ended by byte 0A, are the text; and none of them holds 0A.
pub fn lines_stand()
    ensures { Cuts }
{}
