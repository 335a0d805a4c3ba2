// Laws of label files.
ghost use Rattle.label_model.specs.FileLaws.{CutEntriesLaw, CutLaw, FileGrowsLaw, FileStepLaw, GoodFileLaw, OneReadingLaw};

/// The label file of a run begins that of each run that goes on from it.
pub fn file_grows_law()
    ensures { FileGrowsLaw }
{}

/// An event adds to the label file the entries of the items that it makes, and changes nothing.
pub fn file_step_law()
    ensures { FileStepLaw }
{}

/// Bytes are read as a label file in one way.
pub fn one_reading_law()
    ensures { OneReadingLaw }
{}

/// What a file of good entries is read as where it is cut: within the head as no label file, at the end of an entry as the entries before, and within an entry as truncated there.
pub fn cut_entries_law()
    ensures { CutEntriesLaw }
{}

/// The entries of the label file of an accepted run have room for their lengths, names of items, which differ, and labels of the grammar.
pub fn good_file_law()
    ensures { GoodFileLaw }
{}

/// What the label file of an accepted run is read as where it is cut: each length is within the head, at the end of the head or of an entry, or within an entry.
pub fn cut_law()
    ensures { CutLaw }
{}
