// What is written, read back.
ghost use Rattle.river.specs.Back.{LinesBack, RiversBack};

// Theorem: a line that is written says just what it was written from.
pub fn lines_back()
    ensures { LinesBack }
{}

// Theorem: a river that is accepted, written, is read as itself.
pub fn rivers_back()
    ensures { RiversBack }
{}
