//! What is true of every file to which records are appended.
ghost use Rattle.sup_journal.specs.Appends.{AnImageIsItsFile, ARecordMakesItsImage, AnUnendedLineSaysNothing, ACutRecordSaysNothing};

/// An image of one line is a file that has it, and a record may be put behind it.
pub fn an_image_is_its_file()
    ensures { AnImageIsItsFile }
{}

/// Behind a file behind which a record may be put, a record makes its image, and another may be put behind it.
pub fn a_record_makes_its_image()
    ensures { ARecordMakesItsImage }
{}

/// Behind such a file a line that no line feed ends changes nothing of the image.
pub fn an_unended_line_says_nothing()
    ensures { AnUnendedLineSaysNothing }
{}

/// Nor does a record that was cut short, wherever it was cut.
pub fn a_cut_record_says_nothing()
    ensures { ACutRecordSaysNothing }
{}
