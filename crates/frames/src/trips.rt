// Reading and writing undo each other, for every frame and every line.
ghost use Rattle.frames.specs.Trips.{WrittenReads, ReadWrites, RefusedUnread, OneSpelling};
ghost use Rattle.frames.specs.Worked.{WorkedLines};

// A frame that was written reads as it was, a line that was read is written as it was, the frames that no line reads as are those that
// have no line, and no two lines read as one frame.
pub fn trips_stand()
    ensures written { WrittenReads }
    ensures read { ReadWrites }
    ensures refused { RefusedUnread }
    ensures spelling { OneSpelling }
{}

// Lines worked by hand read as the frames that they stand for.
pub fn worked_lines_stand()
    ensures { WorkedLines }
{}
